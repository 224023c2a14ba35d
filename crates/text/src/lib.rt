// Lines of text. A line of the listing: the answer, the words read, a place where there is one, and each
// word sent in upper-case hex. A line of the panel: a channel with keys down, and a lamp for each key. A
// line of a whole message, and one of a message that is dropped. The lines of a rescue: a packet that is
// dropped, the ticks between two stamps, and left-over bytes.
//
// No public function has a `requires`. Each says what it answers and what the lent buffer holds after
// it, on every input: a line that does not fit is not begun, nor is a row or a number, of which other
// lines are made.
#![tactic(auto)]

mod fields;
mod made;
mod panel;
mod rescue;
mod rows;
mod whole;

ghost use Rattle.std.specs.Prelude.{◌≡◌, ◌+◌, ◌<◌, ◌≤◌, length};
ghost use Rattle.std.proofs.lemmas.List.Edits.{sets};
ghost use Rattle.text.specs.Lines.{digits, line_of, place_if_put, with_row};
ghost use Rattle.text.specs.Lines;

use fields::line_with_fields;
use made::{CALL_BYTES, Made};
pub use panel::lamps;
pub use rescue::{bytes_line, drop_line, number_line, ticks_line};
pub use rows::{number, row};
pub use whole::{dropped, message};

const SPACE: u8 = b' ';

const NEWLINE: u8 = b'\n';

// What a digit from ten on is added to: ten is A.
const LETTER: u8 = b'A' - 10;

// The character of a digit below sixteen.
fn glyph(d: u64) -> u8
    requires { d < 16 }
    ensures { result ≡ Lines.glyph d }
{
    if d < 10 {
        b'0' + d as u8
    } else {
        LETTER + d as u8
    }
}

// How many decimal digits a number has.
fn places(n: u64) -> usize
    ensures count { result ≡ Lines.places n }
    ensures few { result ≤ 20 }
{
    let mut k: usize = 1;
    let mut rest = n;
    while 10 <= rest {
        rest = rest / 10;
        k += 1;
    }
    k
}

// Stores so many digits of a number, the last of them in its last place.
fn spell(n: u64, base: u64, count: usize, out: &mut [u8], to: usize)
    requires { (2 ≤ base) × (base ≤ 16) × (to + count ≤ length out.old) }
    ensures { out.new ≡ sets out.old to (digits base count n) }
{
    let mut rest = n;
    for i in (0..count).rev() {
        out[to + i] = glyph(rest % base);
        rest = rest / base;
    }
}

// Writes the line of a call from a place on and answers the place after it. Where it does not fit, it
// writes nothing and answers None.
pub fn line(
    answer: u32,
    read: usize,
    place: u32,
    words: &[u32],
    out: &mut [u8],
    to: usize,
) -> Option<usize>
    ensures place { result
        ≡ place_if_put out.old to (line_of answer read place words.now) }
    ensures text { out.new
        ≡ with_row out.old to (line_of answer read place words.now) }
{
    let mut head = Made::<CALL_BYTES>::new();
    head.call(answer, read, place);
    line_with_fields(head.as_slice(), words, 8, out, to)
}
