// The panel: a line for each channel that has keys down, in the order of the table.
ghost use Rattle.std.specs.Prelude.{◌≡◌, ◌≤◌, length};
ghost use Rattle.ground.specs.Lists.{joined};
ghost use Rattle.ground.specs.Store.{at_start};
ghost use Rattle.flow.specs.Panel.{panel_lines, panel_room, rows_put};

use crate::Table;
use channel::RECORDS;

// How many channels a group has.
const CHANNELS: usize = 16;

// The bytes in which all lines have room: none is longer than 143.
pub const PANEL_BYTES: usize = 143 * RECORDS;

// Writes the lines of the channels that have keys down, one after another, and answers how many bytes
// they are. A line that does not fit is left out.
pub fn panel(table: Table, text: &mut [u8]) -> usize
    ensures bytes { result ≡ (rows_put text.old 0 (panel_lines table.records)).0 }
    ensures text { text.new ≡ (rows_put text.old 0 (panel_lines table.records)).1 }
    ensures whole { panel_room ≤ length text.old
        → (result ≡ length (joined (panel_lines table.records)))
        × (text.new ≡ at_start (joined (panel_lines table.records)) text.old) }
{
    let mut written: usize = 0;
    for i in 0..RECORDS {
        let group = (i / CHANNELS) as u8;
        let channel = (i % CHANNELS) as u8;
        let end = text::lamps(group, channel, table.records[i].keys, text, written);
        written = end.unwrap_or(written);
    }
    written
}
