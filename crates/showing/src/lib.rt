// Standard input to a display of one channel's pitches, a buffer at a time: what the program desk does. It
// reads nothing where an argument is wrong.
//
// A packet that straddles two reads is not cut, input of any length is taken, and a line that has no room
// waits for the next turn. What a buffer comes to is said by the contract of display. Here no contract
// can say what is read or written, so these functions are proved to be safe and to end.
#![tactic(auto)]

ghost use Rattle.std.specs.Prelude.{◌≤◌, length, IfOk};

use notice::{Amount, Ending};
pub use ports::Streams;
use ports::{Failed, Turn, Turns};
use std::env::Env;
use std::io::{Read, Write};
use stream::NO_ROOM;
use tally::{Counts, Heard, tally_of};
use tuning::Desk;
use ump::{Channel, Group};

// The bytes of input that are held at once, and the words in them.
const INPUT_BYTES: usize = 0x4000;

const INPUT_WORDS: usize = 0x1000;

// Room for some lines: none has more than 0x2000 bytes.
const TEXT_BYTES: usize = 0x8000;

// What goes on from one turn to the next, with the units of the bend's range; and the buffers of a turn, the words of
// the input and the lines.
#[derive(Drop)]
struct Display {
    desk: Desk,
    units: u8,
    read: u64,
    counts: Counts,
    words: [u32; INPUT_WORDS],
    text: [u8; TEXT_BYTES],
}

impl<R: Read, W: Write, E: Write> Turns<R, W, E> for Display {
    // Hears the whole packets, and writes their lines.
    fn turn(&mut self, streams: &mut Streams<R, W, E>, bytes: &[u8]) -> Result<Turn, Failed>
        ensures { IfOk result (λ turn. turn.read ≤ length bytes.now) }
    {
        let n = wire::words_of(bytes, &mut self.words);
        let words = &self.words[..n];
        let desk = self.desk;
        let shown = display::show_some(desk, u32::from(self.units), words, &mut self.text);
        let done = shown.done;
        let desk = shown.desk;
        self.desk = desk;
        self.counts = self.counts.and(tally_of(Heard, &words[..done.read]));
        self.read = self.read.wrapping_add(done.read as u64);
        streams.write(b"desk: standard output", &self.text, done.written)?;
        Ok(Turn {
            read: 4 * done.read,
            waits: done.answer == NO_ROOM,
        })
    }
}

impl Display {
    fn new(desk: Desk, units: u8) -> Display {
        Display {
            desk,
            units,
            read: 0,
            counts: Counts::none(),
            words: [0; INPUT_WORDS],
            text: [0; TEXT_BYTES],
        }
    }

    // All turns: answers how many bytes are left at the end of the input.
    fn run<R: Read, W: Write, E: Write>(
        &mut self,
        streams: &mut Streams<R, W, E>,
    ) -> Result<usize, Failed> {
        let mut bytes = [0u8; INPUT_BYTES];
        streams.run(b"desk: standard input", &mut bytes, 0, self)
    }
}

// The display of the channel that the first two arguments name, with the range that the third names; and
// at the end a line on standard error about what was refused.
pub fn desk<V: Env, R: Read, W: Write, E: Write>(env: &V, streams: &mut Streams<R, W, E>) {
    let Ok(asked) = start::range_chosen(env, &mut streams.errors, b"desk") else {
        return;
    };
    let chosen = asked.chosen;
    let desk = tuning::fresh_desk(Group(chosen.group), Channel(chosen.channel));
    let mut display = Display::new(desk, asked.units);
    let ending = match display.run(streams) {
        Ok(1..) => Ending::CutPacket,
        _ => Ending::Whole,
    };
    let read = Amount {
        number: display.read,
        word: b" words",
    };
    notice::say_end(
        &mut streams.errors,
        b"desk",
        read,
        None,
        &display.counts,
        ending,
    );
}
