// The coarse mark of a channel, set or taken off by group and channel.
//
// Every function is total, and says what it does by a definition of specs/. Whoever lends a table reads
// and stores the one record; `mark_in` does it for a table by value, and `marked_table` makes one with the
// marks of a list.
#![tactic(auto)]

mod table;

ghost use Rattle.std.specs.Prelude.{◌≡◌};
ghost use Rattle.std.specs.Option.{unwrap_or};
ghost use Rattle.mark.specs.Mark;

use channel::{RECORDS, Record};
use question::{is_in_range, place_asked};
use stream::{NO_TABLE, OUT_OF_RANGE};
pub use table::marked_table;

// Whether a group and channel name a record of a table of n.
pub fn is_named(n: usize, group: u8, channel: u8) -> bool
    ensures { result ≡ Mark.named n group channel }
{
    (n == RECORDS) & is_in_range(group, channel)
}

// The answer where they name none.
pub fn unnamed(n: usize) -> u32
    ensures { result ≡ Mark.unnamed n }
{
    if n == RECORDS { OUT_OF_RANGE } else { NO_TABLE }
}

// A record with its mark set by any number but 0, or taken off by 0. One that is not sound is refused, and stays.
pub fn marking(record: Record, coarse: u8) -> Option<Record>
    ensures answer { Mark.answer_of result ≡ Mark.answer_for «record» }
    ensures after { unwrap_or result «record» ≡ Mark.record_marked «record» coarse }
{
    if record.is_sound() {
        Some(record.with_mark(coarse))
    } else {
        None
    }
}

// The call on a table by value: the table after it.
pub fn mark_in(table: [Record; RECORDS], group: u8, channel: u8, coarse: u8) -> [Record; RECORDS]
    ensures { result ≡ Mark.table_marked «table» group channel coarse }
{
    let mut records = table;
    if is_named(RECORDS, group, channel) {
        let i = place_asked(group, channel);
        let record = records[i];
        records[i] = marking(record, coarse).unwrap_or(record);
    }
    records
}
