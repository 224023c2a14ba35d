// Standard input to standard output through a five-pin socket, a buffer at a time: what import and
// export do. They take one group, by an argument, and read nothing where an argument is wrong.
//
// A packet that straddles two reads is not cut, what is open on a cable goes from buffer to buffer, and
// input of any length is taken. What a buffer comes to is said by the contracts of cableflow and wire.
// Here no contract can say what is read or written, so these functions are proved to be safe and to end.
#![tactic(auto)]

ghost use Rattle.std.specs.Prelude.{◌≡◌, ◌≤◌, length, IfErr, IfOk, MatchResult};

use cable::{Cable, EXCLUSIVE};
use exchange::{Export, Import, Socket};
use notice::{Amount, Ending};
pub use ports::Streams;
use ports::{Failed, Turn, Turns};
use program::Totals;
use std::env::Env;
use std::io::{Read, Write};
use stream::NO_ROOM;

// The bytes of input that are held at once.
const INPUT_BYTES: usize = 0x8000;

// The words of packets from a cable, or of those for it. Where packets find no room, bytes wait.
const WORDS: usize = 0x4000;

// Four bytes for each word that comes from a cable. For a cable no word becomes more.
const OUTPUT_BYTES: usize = 0x10000;

// What goes on from one turn to the next, and the buffers of a turn.
#[derive(Drop)]
struct Filter<S> {
    socket: S,
    totals: Totals,
    words: [u32; WORDS],
    text: [u8; OUTPUT_BYTES],
}

impl<S: Socket + Drop, R: Read, W: Write, E: Write> Turns<R, W, E> for Filter<S> {
    // Takes what came through the socket.
    fn turn(&mut self, streams: &mut Streams<R, W, E>, bytes: &[u8]) -> Result<Turn, Failed>
        ensures inside { IfOk result (λ turn. turn.read ≤ length bytes.now) }
        ensures counted { IfErr result (λ _. self.new.totals ≡ self.old.totals) }
    {
        let passed = self
            .socket
            .pass_through(bytes, &mut self.words, &mut self.text);
        let done = passed.counted.ran;
        let totals = self.totals.and(done, passed.counted.counts);
        self.write(streams, passed.bytes, totals)?;
        Ok(Turn {
            read: passed.read,
            waits: done.answer == NO_ROOM,
        })
    }
}

impl<S: Socket + Drop> Filter<S> {
    fn new(socket: S) -> Filter<S> {
        Filter {
            socket,
            totals: Totals::zero(),
            words: [0; WORDS],
            text: [0; OUTPUT_BYTES],
        }
    }

    // Writes what a turn came to. It counts only where it could be written.
    fn write<R: Read, W: Write, E: Write>(
        &mut self,
        streams: &mut Streams<R, W, E>,
        bytes: usize,
        totals: Totals,
    ) -> Result<(), Failed>
        ensures { MatchResult result (λ _. self.new.totals ≡ totals) (λ _. self.new.totals ≡ self.old.totals) }
    {
        let written = streams.write(b"standard output", &self.text, bytes);
        self.totals = totals.if_written(written.is_err(), self.totals);
        written
    }

    // All turns: answers how many bytes are left at the end of the input.
    fn run<R: Read, W: Write, E: Write>(
        &mut self,
        streams: &mut Streams<R, W, E>,
    ) -> Result<usize, Failed> {
        let mut bytes = [0u8; INPUT_BYTES];
        streams.run(b"standard input", &mut bytes, 0, self)
    }

    // Says how much was read and written, what was refused and how the input ended.
    fn say<E: Write>(
        &self,
        errors: &mut E,
        name: &[u8],
        read: &[u8],
        written: &[u8],
        ending: Ending,
    ) {
        let totals = &self.totals;
        let read = Amount {
            number: totals.read,
            word: read,
        };
        let written = Amount {
            number: totals.written,
            word: written,
        };
        notice::say_end(errors, name, read, Some(written), &totals.counts, ending);
    }
}

// What is open on a cable once its bytes have ended.
fn cable_ending(cable: Cable) -> Ending {
    match cable.status {
        0 => Ending::Whole,
        EXCLUSIVE => Ending::OpenExclusive,
        _ => Ending::OpenMessage,
    }
}

// The bytes of a cable on standard input become packets of the group that the argument names.
pub fn import<V: Env, R: Read, W: Write, E: Write>(env: &V, streams: &mut Streams<R, W, E>) {
    let Ok(group) = start::group_chosen(env, &mut streams.errors, b"import") else {
        return;
    };
    let cable = cable::idle();
    let mut filter = Filter::new(Import { group, cable });
    let ending = match filter.run(streams) {
        Ok(_) => cable_ending(filter.socket.cable),
        Err(_) => Ending::Whole,
    };
    filter.say(&mut streams.errors, b"import", b" bytes", b" words", ending);
}

// The packets of standard input that are of the group become bytes for a cable.
pub fn export<V: Env, R: Read, W: Write, E: Write>(env: &V, streams: &mut Streams<R, W, E>) {
    let Ok(group) = start::group_chosen(env, &mut streams.errors, b"export") else {
        return;
    };
    let mut filter = Filter::new(Export { group });
    let ending = match filter.run(streams) {
        Ok(1..) => Ending::CutPacket,
        _ => Ending::Whole,
    };
    filter.say(&mut streams.errors, b"export", b" words", b" bytes", ending);
}
