// A buffer's worth of a rescue: the packets of some words that are kept, and what is said of each. What
// went before the words goes in and comes out by value, so a recording may be longer than any buffer.
//
// No public function has a `requires`. A run says by the run of specs/ what it reports, what then went before and
// what the output holds after, on every input. Packets are read through the reader.
#![tactic(auto)]

mod keep;
mod tell;

pub use keep::keep_some;
use recording::Past;
use stream::Done;
pub use tell::{tell_end, tell_some};

// What went before the next packet, and the report, which counts the bytes of the lines as written.
#[derive(Clone, Copy)]
pub struct Told {
    pub past: Past,
    pub done: Done,
}
