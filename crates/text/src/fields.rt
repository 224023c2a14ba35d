// A line that ends in numbers in hex: the words sent of a call, or the bytes of a whole message.
ghost use Rattle.std.specs.Prelude.{ℕ, ◌≡◌, ◌∷◌, ◌++◌, ◌+◌, ◌*◌, ◌-◌, ◌<◌, ◌≤◌, [], leb};
ghost use Rattle.std.specs.Prelude.{length, map};
ghost use Rattle.std.proofs.lemmas.List.Edits.{sets};
ghost use Rattle.text.specs.Lines.{fields_of, place_if_put, with_row};

use crate::rows::put_row;
use crate::{NEWLINE, SPACE, spell};

// A byte or a word, which a line tells in hex.
pub(crate) trait Field: Copy {
    ghost worth: { Self → ℕ };

    fn wide(self) -> u64
        ensures { result ≡ worth self };
}

impl Field for u8 {
    ghost worth = { λ n. n };

    fn wide(self) -> u64 {
        u64::from(self)
    }
}

impl Field for u32 {
    ghost worth = { λ n. n };

    fn wide(self) -> u64 {
        u64::from(self)
    }
}

// Stores each number in hex of so many digits, after a space, and answers the place after the last.
fn put_fields<T: Field>(numbers: &[T], digits: usize, out: &mut [u8], to: usize) -> usize
    requires few { digits ≤ 8 }
    requires room { to + (digits + 1) * length numbers.now ≤ length out.old }
    ensures place { result ≡ to + (digits + 1) * length numbers.now }
    ensures text { out.new ≡ sets out.old to (fields_of digits (map T.worth numbers.now)) }
{
    let mut at = to;
    for number in numbers {
        out[at] = SPACE;
        spell(number.wide(), 16, digits, out, at + 1);
        at += 1 + digits;
    }
    at
}

// Whether so many bytes and a count of so many each fit from a place on.
fn has_room(len: usize, to: usize, head: usize, count: usize, each: usize) -> bool
    requires { 0 < each }
    ensures { result ≡ leb (head + each * count) (len - to) }
{
    let room = len.saturating_sub(to);
    head <= room && count <= (room - head) / each
}

// Writes a line of a head and of such numbers from a place on and answers the place after it. Where it does
// not fit, it writes nothing and answers None.
pub(crate) fn line_with_fields<T: Field>(
    head: &[u8],
    numbers: &[T],
    digits: usize,
    out: &mut [u8],
    to: usize,
) -> Option<usize>
    requires { digits ≤ 8 }
    ensures place { result ≡ place_if_put out.old to
        (head.now ++ fields_of digits (map T.worth numbers.now) ++ (10 ∷ [])) }
    ensures text { out.new ≡ with_row out.old to
        (head.now ++ fields_of digits (map T.worth numbers.now) ++ (10 ∷ [])) }
{
    if has_room(out.len(), to, head.len() + 1, numbers.len(), digits + 1) {
        put_row(head, out, to);
        let end = put_fields(numbers, digits, out, to + head.len());
        out[end] = NEWLINE;
        Some(end + 1)
    } else {
        None
    }
}
