// One packet up with its record by value, one packet down, and the run down, which needs no table;
// each writes into a lent output.
//
// A packet passes cut, type, check and act. No public function has a `requires`, and each says what it
// reports, what it does to the record and what the output holds after, on every input.
#![tactic(auto)]

mod downward;
mod output;
mod upward;

pub use downward::{down, run_down};
use effect::Effect;
use memory::Memory;
use stream::Done;
pub use upward::up;

// A call up: what is then remembered, the effect on the record, and the report. Whoever has the record
// makes the effect.
#[derive(Clone, Copy)]
pub struct EffectAndReport {
    pub after: Memory,
    pub effect: Effect,
    pub done: Done,
}
