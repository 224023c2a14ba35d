// Standard input to the lines of whole messages, a buffer at a time: what the program `whole` does. It
// takes no arguments, and reads nothing where one is given.
//
// A packet that straddles two reads is not cut, and input of any length is taken. What a buffer comes to
// is said by the contracts of gather and wire. Here no contract can say what is read or written, so these
// functions are proved to be safe and to end.
#![tactic(auto)]

ghost use Rattle.std.specs.Prelude.{◌≤◌, length, IfOk};

use chains::CHAINS;
use gather::{Collector, gather_some, is_open};
use notice::{Amount, Ending};
pub use ports::Streams;
use ports::{Failed, Turn, Turns};
use std::env::Env;
use std::io::{Read, Write};
use stream::NO_ROOM;
use tally::Counts;

// The bytes of input that are held at once, and the words in them.
const INPUT_BYTES: usize = 0x8000;

const INPUT_WORDS: usize = 0x2000;

// The parts of all chains, 2,048 bytes each.
const BUFFER_BYTES: usize = 0x10000;

// The lines of one turn, which are written before the next.
const TEXT_BYTES: usize = 0x10000;

// What goes on from one turn to the next, with the parts of all chains; and the buffers of a turn, the words of the
// input and the lines.
#[derive(Drop)]
struct Librarian {
    collector: Collector,
    parts: [u8; BUFFER_BYTES],
    read: u64,
    words: [u32; INPUT_WORDS],
    text: [u8; TEXT_BYTES],
}

impl<R: Read, W: Write, E: Write> Turns<R, W, E> for Librarian {
    // Collects the whole packets, and writes the lines that they come to.
    fn turn(&mut self, streams: &mut Streams<R, W, E>, bytes: &[u8]) -> Result<Turn, Failed>
        ensures { IfOk result (λ turn. turn.read ≤ length bytes.now) }
    {
        let n = wire::words_of(bytes, &mut self.words);
        let words = &self.words[..n];
        let done = gather_some(&mut self.collector, &mut self.parts, words, &mut self.text);
        self.read = self.read.wrapping_add(done.read as u64);
        streams.write(b"standard output", &self.text, done.written)?;
        Ok(Turn {
            read: 4 * done.read,
            waits: done.answer == NO_ROOM,
        })
    }
}

impl Librarian {
    fn new() -> Librarian {
        Librarian {
            collector: Collector {
                chains: [chains::closed_chain(); CHAINS],
                counts: Counts::none(),
            },
            parts: [0; BUFFER_BYTES],
            read: 0,
            words: [0; INPUT_WORDS],
            text: [0; TEXT_BYTES],
        }
    }

    // All turns: answers how many bytes are left at the end of the input.
    fn run<R: Read, W: Write, E: Write>(
        &mut self,
        streams: &mut Streams<R, W, E>,
    ) -> Result<usize, Failed> {
        let mut bytes = [0u8; INPUT_BYTES];
        streams.run(b"standard input", &mut bytes, 0, self)
    }

    fn is_any_open(&self) -> bool {
        (0..CHAINS).any(|chain| is_open(&self.collector.chains, chain))
    }

    // How the input ended, where it was read to its end: within a packet, within a message, or with neither.
    fn ending(&self, left: Result<usize, Failed>) -> Ending {
        match left {
            Ok(1..) => Ending::CutPacket,
            Ok(_) if self.is_any_open() => Ending::OpenMessage,
            _ => Ending::Whole,
        }
    }
}

// The lines of the whole messages of standard input, and on standard error what was refused.
pub fn whole<V: Env, R: Read, W: Write, E: Write>(env: &V, streams: &mut Streams<R, W, E>) {
    if start::nothing_taken(env, &mut streams.errors, b"whole").is_err() {
        return;
    }
    let mut librarian = Librarian::new();
    let left = librarian.run(streams);
    let ending = librarian.ending(left);
    let read = Amount {
        number: librarian.read,
        word: b" words",
    };
    notice::say_end(
        &mut streams.errors,
        b"whole",
        read,
        None,
        &librarian.collector.counts,
        ending,
    );
}
