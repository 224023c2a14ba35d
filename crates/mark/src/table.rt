// A table that is empty but for its marks, by a number for each group whose bits are its channels.
ghost use Rattle.std.specs.Prelude.{◌≡◌};
ghost use Rattle.mark.specs.Lesson.{mark_in, marked_table};

use channel::{RECORDS, Record};

// How many channels a group has.
const CHANNELS: usize = 16;

// The mark of the record at a place: 1 where its channel's bit is set in its group's number, which is 0 past the end.
#[tactic(auto, unfolding(crate::specs::Lesson::mark_in))]
fn mark_at(coarse: &[u16], place: usize) -> u8
    ensures mark { result ≡ mark_in coarse.now place }
{
    let number = coarse.get(place / CHANNELS).copied().unwrap_or(0);
    ((number >> (place % CHANNELS)) % 2) as u8
}

// The table with the marks of a list. Numbers past the 16th are not looked at.
pub fn marked_table(coarse: &[u16]) -> [Record; RECORDS]
    ensures table { result ≡ marked_table coarse.now }
{
    let empty = Record::empty();
    let mut records = [empty; RECORDS];
    for place in 0..RECORDS {
        records[place] = empty.with_mark(mark_at(coarse, place));
    }
    records
}
