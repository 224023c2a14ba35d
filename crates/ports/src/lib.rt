// The ends of a program: bytes that are read after those that are left, bytes that are written, and what is
// said on standard error; and the turns of a program, a buffer of its input at a time.
//
// No contract can say what a file or a terminal gives or takes, so these functions are proved to be safe
// and to end, and a reading and a run of turns to leave no more bytes than their buffer holds. What failed is
// said on standard error.
#![tactic(auto)]

ghost use Rattle.std.specs.Prelude.{◌≡◌, ◌≤◌, length, IfOk};

use std::fmt::InlineText;
use std::io::{Error, ErrorKind, Read, Write};

// That a program cannot go on, which has been said.
#[derive(Clone, Copy)]
pub struct Failed;

// The bytes that stand in a buffer after a read, and whether the input has ended, where it could be read.
#[derive(Clone, Copy)]
pub struct Intake {
    pub have: usize,
    pub ended: Result<bool, Failed>,
}

// Where a program reads from and writes to, and where it says what failed.
#[derive(Drop)]
pub struct Streams<R, W, E> {
    pub input: R,
    pub output: W,
    pub errors: E,
}

// What a turn came to: the bytes that are done with, and whether packets among those that are left wait for
// room in the output.
#[derive(Clone, Copy)]
pub struct Turn {
    pub read: usize,
    pub waits: bool,
}

// What a program makes of its input, a buffer at a time.
pub trait Turns<R, W, E> {
    // Treats the bytes from the first on, and writes what they come to.
    fn turn(&mut self, streams: &mut Streams<R, W, E>, bytes: &[u8]) -> Result<Turn, Failed>
        ensures { IfOk result (λ turn. turn.read ≤ length bytes.now) };
}

// More bytes than the text of an error has.
const ERROR_BYTES: usize = 0x80;

// An error's text without the number that the system gives it.
fn reason(text: &str) -> &str {
    match text.find(" (os error ") {
        Some(end) => &text[..end],
        None => text,
    }
}

// Writes a line to standard error: what failed, as the caller names it, a colon and the error's text. Where
// standard error takes nothing, nothing can be said.
pub fn say_failed<E: Write>(errors: &mut E, name: &[u8], error: &Error) {
    let text = InlineText::<ERROR_BYTES>::of(error);
    let _ = errors.write_all(name);
    let _ = errors.write_all(b": ");
    let _ = errors.write_all(reason(text.as_str()).as_bytes());
    let _ = errors.write_all(b"\n");
}

// Reads after the bytes that are left, unless what is left waits to be treated first or the buffer is full.
// Only 0 is the end of the input, and a read that a signal interrupts is no failure.
//
// Kept: where a failure is said and under which name are no struct, since all ends say it in one place and each has a
// name of its own, so that each call would make one.
pub fn read_more<R: Read, E: Write>(
    from: &mut R,
    errors: &mut E,
    name: &[u8],
    bytes: &mut [u8],
    left: usize,
    waits: bool,
) -> Intake
    ensures { result.have ≤ length bytes.new }
{
    if bytes.len() <= left {
        return Intake {
            have: bytes.len(),
            ended: Ok(false),
        };
    }
    let unread = Intake {
        have: left,
        ended: Ok(false),
    };
    if waits {
        return unread;
    }
    match from.read(&mut bytes[left..]) {
        Ok(n) => Intake {
            have: left + n,
            ended: Ok(n == 0),
        },
        Err(error) if error.kind() == ErrorKind::Interrupted => unread,
        Err(error) => {
            say_failed(errors, name, &error);
            Intake {
                ended: Err(Failed),
                ..unread
            }
        }
    }
}

// Writes the first bytes of the text, or all of it where it has no more.
pub fn write_first<W: Write, E: Write>(
    to: &mut W,
    errors: &mut E,
    name: &[u8],
    text: &[u8],
    n: usize,
) -> Result<(), Failed> {
    let first = text.get(..n).unwrap_or(text);
    if let Err(error) = to.write_all(first) {
        say_failed(errors, name, &error);
        return Err(Failed);
    }
    Ok(())
}

impl<R, W, E> Streams<R, W, E> {
    pub fn new(input: R, output: W, errors: E) -> Streams<R, W, E>
        ensures input { result.input ≡ input }
        ensures output { result.output ≡ output }
        ensures errors { result.errors ≡ errors }
    {
        Streams {
            input,
            output,
            errors,
        }
    }
}

impl<R: Read, W: Write, E: Write> Streams<R, W, E> {
    // Writes the first bytes of the text to the output, as `write_first` does.
    pub fn write(&mut self, name: &[u8], text: &[u8], n: usize) -> Result<(), Failed> {
        write_first(&mut self.output, &mut self.errors, name, text, n)
    }

    // All turns, until the input has ended and nothing waits: answers how many bytes are left then. The bytes that
    // are left stand at the front of the buffer, and where packets among them wait, they come before more is read.
    // Where no more can be read, they are treated once more. A start with more bytes than the buffer holds is one with
    // all.
    //
    // A proved loop has to end, and nothing says that the input does: the turns are counted up to a number that no
    // input uses up.
    pub fn run<P: Turns<R, W, E>>(
        &mut self,
        name: &[u8],
        bytes: &mut [u8],
        begun: usize,
        program: &mut P,
    ) -> Result<usize, Failed>
        ensures { IfOk result (λ left. left ≤ length bytes.new) }
    {
        let mut left = begun.min(bytes.len());
        let mut waits = false;
        let mut ended = false;
        for _ in 0..u64::MAX {
            let got = read_more(&mut self.input, &mut self.errors, name, bytes, left, waits);
            let turn = program.turn(self, &bytes[..got.have])?;
            left = wire::carry(bytes, turn.read, got.have);
            waits = turn.waits;
            ended = ended | got.ended?;
            if ended & !waits {
                break;
            }
        }
        Ok(left)
    }
}
