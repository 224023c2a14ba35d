// The arguments of programs: GROUP:CHANNEL, by which one is told that a channel has no fine half, GROUP
// or CHANNEL alone, and the UNITS of a range.
//
// `channel_named`, `number_in` and `units_in` have no `requires`. They say which channel and which number
// a row of bytes names, and that it names none where anything but numbers of at most 15, and between two of them
// one colon, stands in it, for every row of bytes.
#![tactic(auto)]

mod units;

ghost use Rattle.std.specs.Prelude.{◌≡◌, ◌-◌, ◌<◌, ◌≤◌, length};
ghost use Rattle.argument.specs.Argument.{channel_named, number_in, parted, three_digits};

pub use units::units_in;

const COLON: u8 = b':';

const ZERO: u8 = b'0';

// The most that a group or a channel may be.
const MOST: u8 = 15;

// The value of a digit. A byte that is none has one too, which is not looked at.
fn value(b: u8) -> u32
    ensures from_zero { result ≡ b - 48 }
    ensures few { result ≤ 207 }
{
    u32::from(b.saturating_sub(ZERO))
}

// The number that three digits write, where it is not above the most that it may be.
fn three_digits(most: u8, a: u8, b: u8, c: u8) -> Option<u8>
    ensures { result ≡ three_digits most a b c }
{
    let digits = a.is_ascii_digit() & b.is_ascii_digit() & c.is_ascii_digit();
    let n = value(a) * 100 + value(b) * 10 + value(c);
    if digits & (n <= u32::from(most)) {
        Some(n as u8)
    } else {
        None
    }
}

// The group or the channel that an argument names.
pub fn number_in(text: &[u8]) -> Option<u8>
    ensures { result ≡ number_in text.now }
{
    match text {
        [a] => three_digits(MOST, ZERO, ZERO, *a),
        [a, b] => three_digits(MOST, ZERO, *a, *b),
        _ => None,
    }
}

// The group before a place, and the channel after it.
#[tactic(auto, unfolding(crate::specs::Argument::both))]
fn parted(at: usize, text: &[u8]) -> Option<(u8, u8)>
    requires { at < length text.now }
    ensures { result ≡ parted at text.now }
{
    number_in(&text[..at]).zip(number_in(&text[at + 1..]))
}

// The channel that an argument names, by its group and its own number.
#[tactic(auto, unfolding(crate::specs::Argument::channel_named))]
pub fn channel_named(text: &[u8]) -> Option<(u8, u8)>
    ensures { result ≡ channel_named text.now }
{
    match text {
        [_, COLON, ..] => parted(1, text),
        [_, _, COLON, ..] => parted(2, text),
        _ => None,
    }
}
