// A stream of packets: what a call answers, what it reports, and a run, which is one call for each
// packet until one stops it.
//
// The answers have their numbers here and nowhere else. What a run is stands in specs/Run.antt, over
// any step and any state, with its laws beside it in proofs/.
#![tactic(auto)]

mod calls;

ghost use Rattle.std.specs.Prelude.{◌≡◌};
ghost use Rattle.stream.specs.Report.{counting, placing};

pub use calls::{Calls, run_calls};

// Kept: the answers are numbers, since every report crosses to C with its answer in it, and an enum as wide as a C
// number is not in the language.

// Sent; of a run: finished.
pub const SENT: u32 = 0;

// Taken in, with nothing to send.
pub const TAKEN_IN: u32 = 1;

// Going down: no MIDI 1.0 form.
pub const NO_FORM: u32 = 2;

// A cut packet, or no words left.
pub const CUT: u32 = 3;

// A reserved message type.
pub const RESERVED: u32 = 4;

// Voice messages of the other protocol.
pub const WRONG_PROTOCOL: u32 = 5;

pub const BAD_STATUS: u32 = 6;

pub const BAD_DATA: u32 = 7;

// Going up: the packet's own record is not sound.
pub const NOT_SOUND: u32 = 8;

// The output is too short for what the packet sends.
pub const NO_ROOM: u32 = 9;

// Going up: the table is not a whole one.
pub const NO_TABLE: u32 = 10;

// From a cable: a byte or a message that is dropped.
pub const DROPPED: u32 = 11;

// From a cable: an exclusive is cut off, and closed with the bytes that it has.
pub const CUT_OFF: u32 = 12;

// Of a group that does not belong to the host.
pub const NOT_YOURS: u32 = 13;

// Of a maker identity: the other form has none for it.
pub const NO_COUNTERPART: u32 = 14;

// Of a chain: the packet does not go on where the chain stands.
pub const OUT_OF_TURN: u32 = 15;

// Of a chain: one packet more than it may have.
pub const TOO_MANY_PACKETS: u32 = 16;

// Of Flex Data: an address that there is none of.
pub const BAD_ADDRESS: u32 = 17;

// Of a chain: the packet's bytes do not fit in its part.
pub const TOO_LONG: u32 = 18;

// Of a recording: it does not begin with the mark.
pub const WRONG_MARK: u32 = 19;

// Of a recording: its version is another one.
pub const WRONG_VERSION: u32 = 20;

// Of a pitch: a bend range that is not read.
pub const BAD_RANGE: u32 = 21;

// Of a pitch: the note does not sound.
pub const NOT_SOUNDING: u32 = 22;

// Going up under the beginners' rule: good, but not for this room.
pub const NOT_FOR_ROOM: u32 = 23;

// Of a question: it is answered.
pub const ANSWERED: u32 = 0;

// Of a question: a group or a channel above 15.
pub const OUT_OF_RANGE: u32 = 24;

// To a cable: a packet that is of another type, or of another group.
pub const NOT_FOR_CABLE: u32 = 25;

// What a call or a run reports. The place is that of the first bad field, and 0 with every answer but
// `BAD_DATA`.
#[repr(C)]
#[derive(Clone, Copy)]
pub struct Done {
    pub answer: u32,
    pub place: u32,
    pub read: usize,
    pub written: usize,
}

// An answer, with the words read and written.
pub fn report(answer: u32, read: usize, written: usize) -> Done
    ensures { result ≡ counting answer read written }
{
    report_place(answer, 0, read, written)
}

// The same with a place.
pub fn report_place(answer: u32, place: u32, read: usize, written: usize) -> Done
    ensures { result ≡ placing answer place read written }
{
    Done {
        answer,
        place,
        read,
        written,
    }
}
