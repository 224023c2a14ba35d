// The lines of whole messages: the sort and the group of a message and its bytes in hex; and of one that
// is dropped the answer, its sort and its group.
ghost use Rattle.std.specs.Prelude.{◌≡◌, ◌++◌, ◌+◌, ◌≤◌, length};
ghost use Rattle.text.specs.Lines.{place_if_put, with_row};
ghost use Rattle.text.specs.Messages.{dropped_line, head_of, message_line};

use crate::fields::line_with_fields;
use crate::made::{DIGITS, FIELD_BYTES, Made};
use crate::rows::row;
use crate::{NEWLINE, SPACE};

// How many groups there are, and so chains of exclusives.
const GROUPS: usize = 16;

// How long the name of a sort is at most, its space among it.
const SORT_BYTES: usize = 10;

// How long the sort and the group of a chain are at most.
const HEAD_BYTES: usize = SORT_BYTES + DIGITS;

// How long the line of a message that is dropped is at most: an answer, the head and the end.
const DROPPED_BYTES: usize = FIELD_BYTES + HEAD_BYTES + 1;

impl<const N: usize> Made<N> {
    // The sort and the group of a chain.
    fn head(&mut self, chain: usize)
        requires { length self.old + 30 ≤ N }
        ensures text { self.new ≡ self.old ++ head_of chain }
        ensures longer { length self.new ≤ length self.old + 30 }
    {
        if chain < GROUPS {
            self.row(b"exclusive ");
        } else {
            self.row(b"flex ");
        }
        self.number((chain % GROUPS) as u64);
    }
}

// Writes the line of a whole message from a place on and answers the place after it. Where it does
// not fit, it writes nothing and answers None.
pub fn message(chain: usize, bytes: &[u8], out: &mut [u8], to: usize) -> Option<usize>
    ensures place { result ≡ place_if_put out.old to (message_line chain bytes.now) }
    ensures text { out.new ≡ with_row out.old to (message_line chain bytes.now) }
{
    let mut head = Made::<HEAD_BYTES>::new();
    head.head(chain);
    line_with_fields(head.as_slice(), bytes, 2, out, to)
}

// Writes the line of a message that is dropped, in the same way.
pub fn dropped(answer: u32, chain: usize, out: &mut [u8], to: usize) -> Option<usize>
    ensures place { result ≡ place_if_put out.old to (dropped_line answer chain) }
    ensures text { out.new ≡ with_row out.old to (dropped_line answer chain) }
{
    let mut line = Made::<DROPPED_BYTES>::new();
    line.number_then(answer as u64, SPACE);
    line.head(chain);
    line.byte(NEWLINE);
    row(line.as_slice(), out, to)
}
