// The record of a channel: the keys that are down, and what is remembered of control changes, with the
// coarse mark. A table has one for each channel of each group.
//
// A record is plain numbers, so that it crosses to C as it stands, and a caller may lend any: every
// number of keys is sound.
#![tactic(auto)]

ghost use Rattle.std.specs.Prelude.{◌≡◌};
ghost use Rattle.channel.specs.Record.{empty, fresh, sound, with_mark};

use keys::Keys;
use memory::Memory;

// How many records a table has.
pub const RECORDS: usize = 256;

// Twenty-four bytes, in C one flat struct.
#[repr(C)]
#[derive(Clone, Copy)]
pub struct Record {
    pub keys: Keys,
    pub memory: Memory,
}

impl Record {
    // No key down, and nothing remembered.
    pub fn empty() -> Record
        ensures { result ≡ empty }
    {
        let keys = Keys::cleared();
        let memory = Memory::empty();
        Record { keys, memory }
    }

    pub fn is_sound(self) -> bool
        ensures { result ≡ sound self }
    {
        self.memory.is_sound()
    }

    // The mark is set, or taken off by 0. No key is touched.
    pub fn with_mark(self, coarse: u8) -> Record
        ensures { result ≡ with_mark self coarse }
    {
        let memory = self.memory.with_mark(coarse);
        Record { memory, ..self }
    }
}

// A whole table of empty records.
pub fn fresh_table() -> [Record; RECORDS]
    ensures { result ≡ fresh }
{
    let e = Record::empty();
    [e; RECORDS]
}
