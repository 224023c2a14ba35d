// A line that a program says on standard error, put together piece by piece.
//
// No contract can say what a terminal takes, so these functions are proved to be safe and to end. A line
// that is longer than any should be is cut.
#![tactic(auto)]

use arrayvec::ArrayVec;
use std::fmt::InlineText;
use std::io::Write;

// The most that a line can have, and more than any has.
const LINE_BYTES: usize = 0x200;

// As many digits as any number has.
const DIGITS: usize = 20;

// A line in the making: its first bytes.
#[derive(Drop)]
pub struct Line {
    bytes: ArrayVec<u8, LINE_BYTES>,
}

impl Line {
    pub fn empty() -> Line {
        Line {
            bytes: ArrayVec::new(),
        }
    }

    // With more bytes after it, as far as there is room.
    pub fn with(mut self, more: &[u8]) -> Line {
        let _ = self.bytes.write(more);
        self
    }

    pub fn with_number(self, n: u64) -> Line {
        let digits = InlineText::<DIGITS>::of(n);
        self.with(digits.as_str().as_bytes())
    }

    // Writes it to standard error, with a line feed after it. Where standard error takes nothing, nothing can
    // be said.
    pub fn write<E: Write>(self, errors: &mut E) {
        let line = self.with(b"\n");
        let _ = errors.write_all(&line.bytes);
    }
}
