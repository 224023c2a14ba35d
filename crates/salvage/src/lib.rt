// The rescue of a recording, a buffer at a time: from a file into a new one with the lines on standard
// output; or, without arguments, from standard input to standard output with the lines on standard
// error. A wrong number of arguments is named, and then nothing is read.
//
// The old file is only read, and the new one must not exist yet. One that could not be completed stays as
// far as it came, and it is said. What a buffer comes to is said by the contracts of rescuing and wire. Here
// no contract can say what is read or written, so these functions are proved to be safe and to end.
#![tactic(auto)]

mod files;

ghost use Rattle.std.specs.Prelude.{◌≡◌, ◌*◌, ◌≤◌, length, IfOk};

pub use files::rescue;
pub use ports::Streams;
use ports::{Failed, Turn, Turns};
use recording::{HEADER_BYTES, Line, Past};
use rescuing::{keep_some, tell_some};
use std::io::{Read, Write};
use stream::NO_ROOM;

// The bytes of input that are held at once, and the words in them; no more are kept of them.
const INPUT_BYTES: usize = 0x8000;

const INPUT_WORDS: usize = 0x2000;

// The bytes of lines that are held at once.
const TEXT_BYTES: usize = 0x10000;

// More bytes than the last lines have, or an answer alone.
const SHORT_BYTES: usize = 0x40;

// What is said of the ends where one of them fails: where bytes come from, where the clean recording goes and
// where the lines go.
#[derive(Clone, Copy)]
struct Names<'a> {
    old: &'a [u8],
    new: &'a [u8],
    lines: &'a [u8],
}

// What goes on from one turn to the next; and the buffers of a turn, the words of the input, those that are kept
// and their bytes, and the lines, with where they go.
#[derive(Drop)]
struct Salvage<'a, L> {
    lines: &'a mut L,
    names: Names<'a>,
    past: Past,
    words: [u32; INPUT_WORDS],
    kept: [u32; INPUT_WORDS],
    clean: [u8; INPUT_BYTES],
    text: [u8; TEXT_BYTES],
}

// What the bytes of a buffer came to: the words read, the bytes of the clean recording and those of the
// lines.
#[derive(Clone, Copy)]
struct Treated {
    read: usize,
    clean: usize,
    lines: usize,
    waits: bool,
}

// The first words, or all of them where there are no more.
fn first(words: &[u32], n: usize) -> &[u32]
    ensures { length result.now ≤ n }
{
    words.get(..n).unwrap_or(words)
}

impl<L> Salvage<'_, L> {
    // The packets among the bytes: those that are kept as bytes, and what is said of each as text.
    fn treat(&mut self, bytes: &[u8]) -> Treated
        ensures { 4 * result.read ≤ length bytes.now }
    {
        let n = wire::words_of(bytes, &mut self.words);
        let told = tell_some(self.past, first(&self.words, n), &mut self.text);
        let done = told.done;
        let packets = first(&self.words, done.read);
        let keeping = keep_some(packets, &mut self.kept);
        let clean = wire::bytes_of(first(&self.kept, keeping.written), &mut self.clean);
        let read = packets.len();
        self.past = told.past;
        Treated {
            read,
            clean,
            lines: done.written,
            waits: done.answer == NO_ROOM,
        }
    }
}

impl<R: Read, W: Write, E: Write, L: Write> Turns<R, W, E> for Salvage<'_, L> {
    // Writes what the whole packets come to. Where the clean recording takes nothing, the lines are still written.
    fn turn(&mut self, streams: &mut Streams<R, W, E>, bytes: &[u8]) -> Result<Turn, Failed>
        ensures { IfOk result (λ turn. turn.read ≤ length bytes.now) }
    {
        let names = self.names;
        let treated = self.treat(bytes);
        let cleaned = streams.write(names.new, &self.clean, treated.clean);
        let errors = &mut streams.errors;
        ports::write_first(self.lines, errors, names.lines, &self.text, treated.lines)?;
        cleaned?;
        Ok(Turn {
            read: 4 * treated.read,
            waits: treated.waits,
        })
    }
}

// Reads until the header is there, or the input ends: answers how many bytes stand in the buffer.
fn read_header<R: Read, E: Write>(
    from: &mut R,
    errors: &mut E,
    old: &[u8],
    bytes: &mut [u8],
) -> Result<usize, Failed>
    ensures { IfOk result (λ have. have ≤ length bytes.new) }
{
    let mut have = 0;
    for _ in 0..u64::MAX {
        if HEADER_BYTES <= have {
            break;
        }
        let got = ports::read_more(from, errors, old, bytes, have, false);
        have = got.have;
        if got.ended? {
            break;
        }
    }
    Ok(have)
}

// Says an answer alone.
fn say_answer<L: Write, E: Write>(lines: &mut L, errors: &mut E, name: &[u8], answer: u32) {
    let mut text = [0u8; SHORT_BYTES];
    let line = Line::Answer(answer);
    let n = line.put(&mut text, 0).unwrap_or(0);
    let _ = ports::write_first(lines, errors, name, &text, n);
}

// Where a recording begins, the bytes behind its header are left at the front, and it answers how many they are. Of
// anything else the answer is said, and then it does not go on.
fn begin<R: Read, L: Write, E: Write>(
    from: &mut R,
    lines: &mut L,
    errors: &mut E,
    names: Names<'_>,
    bytes: &mut [u8],
) -> Result<usize, Failed> {
    let have = read_header(from, errors, names.old, bytes)?;
    if let Err(error) = recording::header_answer(&bytes[..have]) {
        say_answer(lines, errors, names.lines, error.answer());
        return Err(Failed);
    }
    Ok(wire::carry(bytes, HEADER_BYTES, have))
}

// Everything behind the header: a new header, the packets that are kept, and what is said.
fn rescue_rest<R: Read, W: Write, L: Write, E: Write>(
    ends: &mut Streams<R, W, E>,
    lines: &mut L,
    names: Names<'_>,
    begun: usize,
    bytes: &mut [u8],
) -> Result<(), Failed> {
    ends.write(names.new, &recording::header_bytes(), HEADER_BYTES)?;
    let mut salvage = Salvage {
        lines,
        names,
        past: Past::start(),
        words: [0; INPUT_WORDS],
        kept: [0; INPUT_WORDS],
        clean: [0; INPUT_BYTES],
        text: [0; TEXT_BYTES],
    };
    let left = ends.run(names.old, bytes, begun, &mut salvage)?;
    let mut text = [0u8; SHORT_BYTES];
    let n = rescuing::tell_end(salvage.past.place, left, &mut text);
    ports::write_first(salvage.lines, &mut ends.errors, names.lines, &text, n)
}

// From standard input to standard output, with the lines on standard error.
fn rescue_input<R: Read, W: Write, L: Write, E: Write>(
    streams: &mut Streams<R, W, E>,
    lines: &mut L,
) -> Result<(), Failed> {
    let names = Names {
        old: b"rescue: standard input",
        new: b"rescue: standard output",
        lines: b"rescue: standard error",
    };
    let mut bytes = [0u8; INPUT_BYTES];
    let begun = begin(
        &mut streams.input,
        lines,
        &mut streams.errors,
        names,
        &mut bytes,
    )?;
    rescue_rest(streams, lines, names, begun, &mut bytes)
}
