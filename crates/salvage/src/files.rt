// The arguments, and a rescue from one file into another.
use crate::{INPUT_BYTES, Names, Streams, begin, rescue_input, rescue_rest};
use ports::Failed;
use remark::Line;
use std::env::Env;
use std::fs::{Files, OpenFile, OpenOptions};
use std::io::{Error, ErrorKind, Read, Write};
use std::os::fd::AsRawFd;
use std::{fs, io};

// More bytes than the name of a file may have.
const NAME_BYTES: usize = 0x1000;

// The system's number for a name that is too long.
const NAME_TOO_LONG: i32 = 36;

// The numbers of standard input, output and error.
const INPUT_NUMBER: i32 = 0;

const OUTPUT_NUMBER: i32 = 1;

const ERROR_NUMBER: i32 = 2;

// Whether a file stands where standard input, output or error should: that one is closed, and what is meant for it
// would go into the file.
fn is_standard<F: AsRawFd>(file: &F) -> bool {
    file.as_raw_fd() <= ERROR_NUMBER
}

// The name of a file as text, which it has to be.
fn name_of(bytes: &[u8]) -> io::Result<&str> {
    std::str::from_utf8(bytes).map_err(|_| Error::from(ErrorKind::InvalidFilename))
}

// The old file, open for reading alone.
fn open_old<H: Files>(files: &H, old: &[u8]) -> io::Result<H::File> {
    fs::open(files, name_of(old)?)
}

// The new file, which must not exist yet.
fn make_new<H: Files>(files: &H, new: &[u8]) -> io::Result<H::File> {
    let name = name_of(new)?;
    OpenOptions::new()
        .write(true)
        .create_new(true)
        .open(files, name)
}

// Whether a file cannot be waited for where it stands, which says nothing of what was written.
fn is_no_wait(error: &Error) -> bool {
    let kind = error.kind();
    (kind == ErrorKind::InvalidInput) | (kind == ErrorKind::Unsupported)
}

// A rescue from one file into another: where its lines go, and where it is said what failed.
#[derive(Drop)]
struct FileRescue<'f, 'l, 'e, H, L, E> {
    files: &'f H,
    lines: &'l mut L,
    errors: &'e mut E,
}

impl<H: Files, L: Write, E: Write> FileRescue<'_, '_, '_, H, L, E>
where
    H::File: AsRawFd,
{
    // Says a line on standard error, or on standard output where standard error takes none.
    fn say_somewhere(&mut self, line: &[u8]) {
        if self.errors.write_all(line).is_err() {
            let _ = self.lines.write_all(line);
        }
    }

    // Gives a file up that took the place of a standard stream, and says which one is closed.
    fn refuse_standard(&mut self, file: H::File) {
        let number = file.as_raw_fd();
        drop(file);
        match number {
            INPUT_NUMBER => self.say_somewhere(b"rescue: standard input is closed\n"),
            OUTPUT_NUMBER => self.say_somewhere(b"rescue: standard output is closed\n"),
            _ => self.say_somewhere(b"rescue: standard error is closed\n"),
        }
    }

    // The file that was opened under a name. Why it cannot be used is said.
    fn usable(&mut self, opened: io::Result<H::File>, name: &[u8]) -> Result<H::File, Failed> {
        match opened {
            Ok(file) => {
                if is_standard(&file) {
                    self.refuse_standard(file);
                    return Err(Failed);
                }
                Ok(file)
            }
            Err(error) => {
                ports::say_failed(self.errors, name, &error);
                Err(Failed)
            }
        }
    }

    // From the old file into the new one, which is made once the old one is known to be a recording. A new file gets
    // the lowest number that is free, so it comes first to a standard stream that is closed.
    fn run<'n>(&mut self, old: &'n [u8], new: &'n [u8]) -> Result<(), Failed> {
        let names = Names {
            old,
            new,
            lines: b"rescue: standard output",
        };
        let from = open_old(self.files, old);
        let mut from = self.usable(from, old)?;
        let mut bytes = [0u8; INPUT_BYTES];
        let begun = begin(&mut from, self.lines, self.errors, names, &mut bytes)?;
        let clean = make_new(self.files, new);
        let clean = self.usable(clean, new)?;
        let mut ends = Streams::new(from, clean, &mut *self.errors);
        let rescued = rescue_rest(&mut ends, self.lines, names, begun, &mut bytes);
        // What is written of the new file only later is waited for, so that a failure can be said.
        if let Err(error) = ends.output.sync_all() {
            if !is_no_wait(&error) {
                ports::say_failed(&mut *ends.errors, new, &error);
            }
        }
        rescued
    }
}

// Says of a name that it is too long for a file.
fn say_too_long<E: Write>(errors: &mut E, what: &[u8]) {
    ports::say_failed(errors, what, &Error::from_raw_os_error(NAME_TOO_LONG));
}

// The files that the two arguments name. A name that is too long for a file is said.
fn rescue_named<H: Env + Files, R, W: Write, E: Write>(rt: &H, streams: &mut Streams<R, W, E>)
where
    H::File: AsRawFd,
{
    let mut old = [0u8; NAME_BYTES];
    let mut new = [0u8; NAME_BYTES];
    match (rt.arg(1, &mut old), rt.arg(2, &mut new)) {
        (Ok(n), Ok(m)) => {
            let mut rescue = FileRescue {
                files: rt,
                lines: &mut streams.output,
                errors: &mut streams.errors,
            };
            let _ = rescue.run(&old[..n], &new[..m]);
        }
        (Err(_), _) => say_too_long(&mut streams.errors, b"rescue: OLD"),
        (_, Err(_)) => say_too_long(&mut streams.errors, b"rescue: NEW"),
    }
}

// What the program does, by its arguments. Argument 0 is the program itself. Where it reads standard input, the
// lines go to `lines`, which is standard error once more.
pub fn rescue<H: Env + Files, R: Read, W: Write, L: Write, E: Write>(
    rt: &H,
    streams: &mut Streams<R, W, E>,
    lines: &mut L,
)
where
    H::File: AsRawFd,
{
    if !start::is_given(rt, 1) {
        let _ = rescue_input(streams, lines);
    } else if !start::is_given(rt, 2) {
        Line::empty()
            .with(b"rescue: takes OLD and NEW, or nothing: NEW is missing")
            .write(&mut streams.errors);
    } else if !start::is_given(rt, 3) {
        rescue_named(rt, streams);
    } else {
        let what = b": takes OLD and NEW, or nothing: ";
        start::say_wrong(rt, &mut streams.errors, b"rescue", what, 3);
    }
}
