// What the buffers of a program came to, all together.
ghost use Rattle.std.specs.Prelude.{◌≡◌, if◌then◌else◌};

use stream::Done;
use tally::Counts;

// The words read and written in all, and how often each sort of packet came.
#[derive(Clone, Copy)]
pub struct Totals {
    pub read: u64,
    pub written: u64,
    pub counts: Counts,
}

impl Totals {
    pub fn zero() -> Totals {
        Totals {
            read: 0,
            written: 0,
            counts: Counts::none(),
        }
    }

    // With what another buffer came to.
    pub fn and(self, done: Done, more: Counts) -> Totals {
        Totals {
            read: self.read.wrapping_add(done.read as u64),
            written: self.written.wrapping_add(done.written as u64),
            counts: self.counts.and(more),
        }
    }

    // Those before a buffer where what it came to could not be written, so that nothing counts that was not.
    pub fn if_written(self, failed: bool, before: Totals) -> Totals
        ensures { result ≡ (if failed then before else self) }
    {
        if failed { before } else { self }
    }
}
