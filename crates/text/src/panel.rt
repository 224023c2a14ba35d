// A line of the panel: the group and the channel, how many keys are down, the lowest of them, and a
// lamp for each key.
ghost use Rattle.std.specs.Prelude.{◌≡◌, ◌++◌, ◌+◌, ◌≤◌, length};
ghost use Rattle.text.specs.Lines.{place_if_put, with_row};
ghost use Rattle.text.specs.Lamps.{channel_line, lamp_row};
ghost use Rattle.text.specs.Lamps;

use crate::made::{FIELD_BYTES, Made};
use crate::rows::row;
use crate::{NEWLINE, SPACE};
use keys::Keys;

// How many keys there are, each with a lamp.
const KEYS: u8 = 128;

const LAMPS: usize = KEYS as usize;

// How long a line is at most: four numbers, the lamps and the end.
const LINE_BYTES: usize = 4 * FIELD_BYTES + LAMPS + 1;

// The lamp of a key.
fn lamp(down: bool) -> u8
    ensures { result ≡ Lamps.lamp down }
{
    if down { b'#' } else { b'.' }
}

impl<const N: usize> Made<N> {
    // The lamps of all keys.
    fn lamps(&mut self, keys: Keys)
        requires { length self.old + 128 ≤ N }
        ensures text { self.new ≡ self.old ++ lamp_row keys }
        ensures longer { length self.new ≡ length self.old + 128 }
    {
        let mut row = [0u8; LAMPS];
        for key in 0..KEYS {
            row[key as usize] = lamp(keys.is_down(key));
        }
        self.row(&row);
    }
}

// Writes the line of a channel from a place on and answers the place after it. Where no key is down the line is
// empty, so this is the place itself; where the line does not fit, it writes nothing and answers None.
pub fn lamps(group: u8, channel: u8, keys: Keys, out: &mut [u8], to: usize) -> Option<usize>
    ensures place { result ≡ place_if_put out.old to (channel_line group channel keys) }
    ensures text { out.new ≡ with_row out.old to (channel_line group channel keys) }
{
    let lowest = keys.lowest();
    match lowest {
        None => Some(to),
        Some(key) => {
            let mut line = Made::<LINE_BYTES>::new();
            line.number_then(group as u64, SPACE);
            line.number_then(channel as u64, SPACE);
            line.number_then(keys.count() as u64, SPACE);
            line.number_then(key as u64, SPACE);
            line.lamps(keys);
            line.byte(NEWLINE);
            row(line.as_slice(), out, to)
        }
    }
}
