// Standard input to standard output, a buffer at a time: what listing, up, down, panel and only do. They
// start from a table that is fresh but for the channels that the arguments mark, and read nothing where
// an argument is wrong.
//
// A packet that straddles two reads is not cut, and input of any length is taken. What a buffer comes
// to is said by the contracts of flow, pupil and wire. Here no contract can say what is read or written, so
// these functions are proved to be safe and to end.
#![tactic(auto)]

ghost use Rattle.std.specs.Prelude.{◌≡◌, ◌≤◌, length, IfErr, IfOk, MatchResult};

use flow::{PANEL_BYTES, Table};
use notice::{Amount, Ending};
pub use ports::Streams;
use ports::{Failed, Turn, Turns};
use program::{Down, Lines, Only, Panel, Program, Totals, Up};
use std::env::Env;
use std::io::{Read, Write};
use stream::NO_ROOM;

// The bytes of input that are held at once, and the words in them.
const INPUT_BYTES: usize = 0x8000;

const INPUT_WORDS: usize = 0x2000;

// No packet sends more than two words for each of its own.
const OUTPUT_WORDS: usize = 0x4000;

const OUTPUT_BYTES: usize = 0x10000;

// What all turns came to: the table and the totals after them, and how many bytes are left at the end of the input,
// which are a packet that is cut.
#[derive(Clone, Copy)]
struct Ran {
    table: Table,
    totals: Totals,
    left: Result<usize, Failed>,
}

// What goes on from one turn to the next, and the buffers of a turn: the words of the input, and the room that is lent
// for those sent and for the bytes to write.
#[derive(Drop)]
struct Filter<'a, P> {
    program: P,
    table: Table,
    totals: Totals,
    words: [u32; INPUT_WORDS],
    sent: &'a mut [u32],
    text: &'a mut [u8],
}

impl<P: Program + Drop, R: Read, W: Write, E: Write> Turns<R, W, E> for Filter<'_, P> {
    // Translates the whole packets.
    fn turn(&mut self, streams: &mut Streams<R, W, E>, bytes: &[u8]) -> Result<Turn, Failed>
        ensures inside { IfOk result (λ turn. turn.read ≤ length bytes.now) }
        ensures counted { IfErr result (λ _. self.new.totals ≡ self.old.totals) }
    {
        let n = wire::words_of(bytes, &mut self.words);
        // Read into variables first: the check does not cover a field that is read while the room behind another is
        // lent.
        let program = self.program;
        let table = self.table;
        let totals = self.totals;
        let done = program.translate(table, totals, &self.words[..n], self.sent, self.text);
        self.table = done.table;
        self.write(streams, done.bytes, done.totals)?;
        Ok(Turn {
            read: 4 * done.read,
            waits: done.answer == NO_ROOM,
        })
    }
}

impl<P: Program + Drop> Filter<'_, P> {
    // Writes what a turn came to. It counts only where it could be written.
    fn write<R: Read, W: Write, E: Write>(
        &mut self,
        streams: &mut Streams<R, W, E>,
        bytes: usize,
        totals: Totals,
    ) -> Result<(), Failed>
        ensures { MatchResult result (λ _. self.new.totals ≡ totals) (λ _. self.new.totals ≡ self.old.totals) }
    {
        let written = streams.write(b"standard output", self.text, bytes);
        self.totals = totals.if_written(written.is_err(), self.totals);
        written
    }
}

// All turns of a program from a table on. The room for words that are sent and for bytes to write is lent, so that a
// program which needs none of the one has none of it on the stack.
fn run<P: Program + Drop, R: Read, W: Write, E: Write>(
    streams: &mut Streams<R, W, E>,
    program: P,
    table: Table,
    sent: &mut [u32],
    text: &mut [u8],
) -> Ran {
    let mut filter = Filter {
        program,
        table,
        totals: Totals::zero(),
        words: [0; INPUT_WORDS],
        sent,
        text,
    };
    let mut bytes = [0u8; INPUT_BYTES];
    let left = streams.run(b"standard input", &mut bytes, 0, &mut filter);
    Ran {
        table: filter.table,
        totals: filter.totals,
        left,
    }
}

impl Ran {
    // Says how much was read and, where that is given, written, what was refused and whether the input ended within a
    // packet.
    fn say<E: Write>(&self, errors: &mut E, name: &[u8], written: Option<Amount<'_>>) {
        let read = Amount {
            number: self.totals.read,
            word: b" words",
        };
        let counts = &self.totals.counts;
        notice::say_end(errors, name, read, written, counts, ending(self.left));
    }
}

fn is_cut(left: Result<usize, Failed>) -> bool {
    matches!(left, Ok(1..))
}

// How the input ended, where it could be read to its end.
fn ending(left: Result<usize, Failed>) -> Ending {
    if is_cut(left) {
        Ending::CutPacket
    } else {
        Ending::Whole
    }
}

// Translates from a table on, and says under the program's name what was refused.
fn run_and_say<P: Program + Drop, R: Read, W: Write, E: Write>(
    streams: &mut Streams<R, W, E>,
    name: &[u8],
    program: P,
    table: Table,
) {
    let mut sent = [0u32; OUTPUT_WORDS];
    let mut text = [0u8; OUTPUT_BYTES];
    let ran = run(streams, program, table, &mut sent, &mut text);
    let written = Amount {
        number: ran.totals.written,
        word: b"",
    };
    ran.say(&mut streams.errors, name, Some(written));
}

fn fresh() -> Table {
    Table {
        records: channel::fresh_table(),
    }
}

// A line for each packet of standard input going up, and a last one for a cut packet.
pub fn listing<V: Env, R: Read, W: Write, E: Write>(env: &V, streams: &mut Streams<R, W, E>) {
    let Ok(table) = start::taken(env, &mut streams.errors, b"listing") else {
        return;
    };
    let mut text = [0u8; OUTPUT_BYTES];
    if is_cut(run(streams, Lines, table, &mut [], &mut text).left) {
        let _ = streams.write(b"standard output", b"3 0\n", 4);
    }
}

// The packets of standard input up.
pub fn up<V: Env, R: Read, W: Write, E: Write>(env: &V, streams: &mut Streams<R, W, E>) {
    if let Ok(table) = start::taken(env, &mut streams.errors, b"up") {
        run_and_say(streams, b"up", Up, table);
    }
}

// The packets of standard input down, where no channel is marked: any argument is wrong.
pub fn down<V: Env, R: Read, W: Write, E: Write>(env: &V, streams: &mut Streams<R, W, E>) {
    if start::nothing_taken(env, &mut streams.errors, b"down").is_ok() {
        run_and_say(streams, b"down", Down, fresh());
    }
}

// The packets of standard input that are one channel's, which the two arguments name.
pub fn only<V: Env, R: Read, W: Write, E: Write>(env: &V, streams: &mut Streams<R, W, E>) {
    if let Ok(chosen) = start::channel_chosen(env, &mut streams.errors, b"only") {
        let program = Only {
            group: chosen.group,
            channel: chosen.channel,
        };
        run_and_say(streams, b"only", program, fresh());
    }
}

// Writes the lines of the channels that have keys down.
fn show<R: Read, W: Write, E: Write>(streams: &mut Streams<R, W, E>, table: Table) {
    let mut text = [0u8; PANEL_BYTES];
    let n = flow::panel(table, &mut text);
    let _ = streams.write(b"standard output", &text, n);
}

// The keys that are down once the packets of standard input have gone up. Where the input could not be
// read to its end, none are shown.
pub fn panel<V: Env, R: Read, W: Write, E: Write>(env: &V, streams: &mut Streams<R, W, E>) {
    let Ok(table) = start::taken(env, &mut streams.errors, b"panel") else {
        return;
    };
    let mut sent = [0u32; OUTPUT_WORDS];
    let ran = run(streams, Panel, table, &mut sent, &mut []);
    if ran.left.is_ok() {
        show(streams, ran.table);
    }
    ran.say(&mut streams.errors, b"panel", None);
}
