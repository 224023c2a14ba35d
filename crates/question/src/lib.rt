// What may be asked of a table: how many keys are down on a channel, and which is the lowest.
//
// Every function is total, and says what it finds by a definition of specs/. The record that is asked
// for is read by whoever has the table.
#![tactic(auto)]

ghost use Rattle.std.specs.Prelude.{◌≡◌};
ghost use Rattle.question.specs.Question.{in_range, keys_shown, keys_told, lowest_told, place_asked, showing_none};

use channel::{RECORDS, Record};
use stream::{ANSWERED, NO_TABLE, OUT_OF_RANGE};
use ump::{Channel, Group};

// The most that a group or a channel may be.
const MOST: u8 = 15;

// Kept: C has no `Option`, so the number 255 stands for the lowest key where none is down.
pub const NO_KEY: u32 = 255;

// What is answered: how many keys are down, and the lowest.
#[repr(C)]
#[derive(Clone, Copy)]
pub struct KeysDown {
    pub answer: u32,
    pub down: u32,
    pub lowest: u32,
}

// Kept: a group and a channel that are asked for are no struct, since C hands over two numbers of any size, and most
// that take them ask only one thing of them.
pub fn is_in_range(group: u8, channel: u8) -> bool
    ensures { result ≡ in_range group channel }
{
    (group <= MOST) & (channel <= MOST)
}

// Where the record of a group and channel stands; above 15 nothing is read there.
pub fn place_asked(group: u8, channel: u8) -> usize
    ensures { result ≡ place_asked group channel }
{
    ump::record_number(Group(group), Channel(channel))
}

// The lowest key by its number.
#[tactic(auto, unfolding(crate::specs::Question::lowest_told))]
fn lowest_told(lowest: Option<u8>) -> u32
    ensures { result ≡ lowest_told lowest }
{
    match lowest {
        None => NO_KEY,
        Some(key) => u32::from(key),
    }
}

// Without keys, by an answer.
pub fn showing_none(answer: u32) -> KeysDown
    ensures { result ≡ showing_none answer }
{
    KeysDown {
        answer,
        down: 0,
        lowest: NO_KEY,
    }
}

fn keys_shown(record: Record) -> KeysDown
    ensures { result ≡ keys_shown «record» }
{
    let keys = record.keys;
    KeysDown {
        answer: ANSWERED,
        down: keys.count(),
        lowest: lowest_told(keys.lowest()),
    }
}

// What is told of a record, in a table of n.
pub fn keys_told(n: usize, group: u8, channel: u8, record: Record) -> KeysDown
    ensures { result ≡ keys_told n group channel «record» }
{
    if n != RECORDS {
        showing_none(NO_TABLE)
    } else if is_in_range(group, channel) {
        keys_shown(record)
    } else {
        showing_none(OUT_OF_RANGE)
    }
}
