// The lines of a rescue: a packet that is dropped, the ticks between two stamps, left-over bytes, and an
// answer that stands alone.
ghost use Rattle.std.specs.Prelude.{◌≡◌, ◌++◌, ◌+◌, ◌≤◌, length};
ghost use Rattle.text.specs.Lines.{place_if_put, with_row};
ghost use Rattle.text.specs.Rescue.{bytes_line, drop_line, number_line, ticks_line};

use crate::made::{CALL_BYTES, FIELD_BYTES, Made};
use crate::rows::row;
use crate::{NEWLINE, SPACE};

// How long the line of a packet that is dropped is at most: a place, a call and the end.
const DROP_BYTES: usize = FIELD_BYTES + CALL_BYTES + 1;

// How long a name is, its space among it.
const NAME_BYTES: usize = 6;

// How long the line of a name is at most: the name, a number and the end.
const NAMED_BYTES: usize = NAME_BYTES + FIELD_BYTES;

// Writes the line of a packet that is dropped, by its first word's place, the answer, how many words it
// has and the place of its bad field, from a place on and answers the place after it. Where it does
// not fit, it writes nothing and answers None.
pub fn drop_line(
    at: u64,
    answer: u32,
    count: usize,
    bad: u32,
    out: &mut [u8],
    to: usize,
) -> Option<usize>
    ensures place { result ≡ place_if_put out.old to (drop_line at answer count bad) }
    ensures text { out.new ≡ with_row out.old to (drop_line at answer count bad) }
{
    let mut line = Made::<DROP_BYTES>::new();
    line.number_then(at, SPACE);
    line.call(answer, count, bad);
    line.byte(NEWLINE);
    row(line.as_slice(), out, to)
}

// Writes a number alone, in the same way.
pub fn number_line(n: u64, out: &mut [u8], to: usize) -> Option<usize>
    ensures place { result ≡ place_if_put out.old to (number_line n) }
    ensures text { out.new ≡ with_row out.old to (number_line n) }
{
    let mut line = Made::<FIELD_BYTES>::new();
    line.number_then(n, NEWLINE);
    row(line.as_slice(), out, to)
}

// Writes a name and a number, in the same way.
fn named_line(name: &[u8; NAME_BYTES], n: u64, out: &mut [u8], to: usize) -> Option<usize>
    ensures place { result ≡ place_if_put out.old to (name.now ++ number_line n) }
    ensures text { out.new ≡ with_row out.old to (name.now ++ number_line n) }
{
    let mut named = Made::<NAMED_BYTES>::new();
    named.row(name);
    named.number_then(n, NEWLINE);
    row(named.as_slice(), out, to)
}

// Writes the line of the ticks between two stamps, in the same way.
pub fn ticks_line(n: u64, out: &mut [u8], to: usize) -> Option<usize>
    ensures place { result ≡ place_if_put out.old to (ticks_line n) }
    ensures text { out.new ≡ with_row out.old to (ticks_line n) }
{
    named_line(b"ticks ", n, out, to)
}

// Writes the line of so many left-over bytes, in the same way.
pub fn bytes_line(n: u64, out: &mut [u8], to: usize) -> Option<usize>
    ensures place { result ≡ place_if_put out.old to (bytes_line n) }
    ensures text { out.new ≡ with_row out.old to (bytes_line n) }
{
    named_line(b"bytes ", n, out, to)
}
