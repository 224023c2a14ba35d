// Packets of one group into bytes for a five-pin cable: one call for a packet, or a run over many. No
// state is needed, since every status byte is written.
//
// No public function has a `requires`. Each says by a definition of specs/ what it reports and what the
// output holds after, on every input. A packet's bytes go straight from its words into the output, and
// what refuses a packet is worked out only where a call alone has to tell it.
#![tactic(auto)]

mod exclusives;
mod messages;
mod packets;
mod rows;

pub use packets::{export, run_export, screen_out};
