// What import and export make of the bytes of a buffer: those that they write for them, and what came of
// it.
//
// What a buffer comes to is said by the contracts of cableflow and wire. Which of them a program takes is
// said here, and proved to be safe and to end: no more is read than was given, and no more is handed on
// than the text holds.
#![tactic(auto)]

ghost use Rattle.std.specs.Prelude.{◌≡◌, ◌≤◌, length};

use cable::Cable;
use flow::Counted;
use stream::{Done, report};

// What some bytes came to: the report with its counts, how many bytes were read, and how many are to be written.
#[derive(Clone, Copy)]
pub struct Exchanged {
    pub counted: Counted<Done>,
    pub read: usize,
    pub bytes: usize,
}

// A five-pin socket, with what is remembered of its cable.
pub trait Socket {
    // The bytes through the socket, and what they come to at the start of the text.
    fn pass_through(&mut self, bytes: &[u8], words: &mut [u32], text: &mut [u8]) -> Exchanged
        ensures read { result.read ≤ length bytes.now }
        ensures bytes { result.bytes ≤ length text.new };
}

// Bytes of a cable become words of a group.
#[derive(Clone, Copy)]
pub struct Import {
    pub group: u8,
    pub cable: Cable,
}

// Words of a group become bytes of a cable.
#[derive(Clone, Copy)]
pub struct Export {
    pub group: u8,
}

impl Socket for Import {
    fn pass_through(&mut self, bytes: &[u8], words: &mut [u32], text: &mut [u8]) -> Exchanged {
        let imported = cableflow::import_some(self.cable, self.group, bytes, words);
        let done = imported.ran;
        let n = done.written;
        let written = wire::bytes_of(&words[..n], text);
        self.cable = done.after;
        let ran = report(done.answer, done.read, n);
        let counts = imported.counts;
        Exchanged {
            counted: Counted { ran, counts },
            read: done.read,
            bytes: written,
        }
    }
}

impl Socket for Export {
    fn pass_through(&mut self, bytes: &[u8], words: &mut [u32], text: &mut [u8]) -> Exchanged {
        let n = wire::words_of(bytes, words);
        let counted = cableflow::export_some(self.group, &words[..n], text);
        let done = counted.ran;
        Exchanged {
            counted,
            read: 4 * done.read,
            bytes: done.written,
        }
    }
}
