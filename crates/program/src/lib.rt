// What each program makes of the packets of a buffer: the bytes that it writes for them, and what they
// came to so far.
//
// What a buffer comes to is said by the contracts of flow, pupil and wire. Which of them a program
// takes is said here, and proved to be safe and to end: no more is read than was given, and no more
// is handed on than the text holds.
#![tactic(auto)]

mod totals;

ghost use Rattle.std.specs.Prelude.{◌≡◌, ◌≤◌, length};

use flow::Table;
use stream::Done;
use tally::Counts;
pub use totals::Totals;

// What the packets of some words came to: the words read, and the bytes to write.
#[derive(Clone, Copy)]
pub struct Translated {
    pub table: Table,
    pub totals: Totals,
    pub answer: u32,
    pub read: usize,
    pub bytes: usize,
}

// What becomes of the packets of a buffer.
pub trait Program: Copy {
    // The packets of the words, and what they come to at the start of the text.
    fn translate(
        self,
        table: Table,
        totals: Totals,
        words: &[u32],
        sent: &mut [u32],
        text: &mut [u8],
    ) -> Translated
        ensures read { result.read ≤ length words.now }
        ensures bytes { result.bytes ≤ length text.new };
}

// What a run sent, as bytes at the start of the text.
fn sent_as_bytes(
    table: Table,
    totals: Totals,
    done: Done,
    counts: Counts,
    sent: &[u32],
    text: &mut [u8],
) -> Translated
    requires { done.written ≤ length sent.now }
    ensures read { result.read ≡ done.read }
    ensures bytes { result.bytes ≤ length text.new }
{
    let n = done.written;
    let bytes = wire::bytes_of(&sent[..n], text);
    let totals = totals.and(done, counts);
    Translated {
        table,
        totals,
        answer: done.answer,
        read: done.read,
        bytes,
    }
}

// The packets of the words up, and what they send as bytes at the start of the text.
fn up_as_bytes(
    table: Table,
    totals: Totals,
    words: &[u32],
    sent: &mut [u32],
    text: &mut [u8],
) -> Translated
    ensures read { result.read ≤ length words.now }
    ensures bytes { result.bytes ≤ length text.new }
{
    let up = flow::up_some(table, words, sent);
    let table = up.ran.after;
    let done = up.ran.done;
    sent_as_bytes(table, totals, done, up.counts, sent, text)
}

// A line for each packet going up.
#[derive(Clone, Copy)]
pub struct Lines;

#[derive(Clone, Copy)]
pub struct Up;

#[derive(Clone, Copy)]
pub struct Down;

// Up, to show the keys that are down at the end. Nothing is shown of the words sent, so their bytes have
// no room.
#[derive(Clone, Copy)]
pub struct Panel;

// The packets of one channel of a group. None is refused.
#[derive(Clone, Copy)]
pub struct Only {
    pub group: u8,
    pub channel: u8,
}

impl Program for Lines {
    fn translate(
        self,
        table: Table,
        totals: Totals,
        words: &[u32],
        sent: &mut [u32],
        text: &mut [u8],
    ) -> Translated {
        let lines = flow::list_some(table, words, text);
        let table = lines.after;
        let done = lines.done;
        Translated {
            table,
            totals,
            answer: done.answer,
            read: done.read,
            bytes: done.written,
        }
    }
}

impl Program for Up {
    fn translate(
        self,
        table: Table,
        totals: Totals,
        words: &[u32],
        sent: &mut [u32],
        text: &mut [u8],
    ) -> Translated {
        up_as_bytes(table, totals, words, sent, text)
    }
}

impl Program for Down {
    fn translate(
        self,
        table: Table,
        totals: Totals,
        words: &[u32],
        sent: &mut [u32],
        text: &mut [u8],
    ) -> Translated {
        let down = flow::down_some(words, sent);
        sent_as_bytes(table, totals, down.ran, down.counts, sent, text)
    }
}

impl Program for Panel {
    fn translate(
        self,
        table: Table,
        totals: Totals,
        words: &[u32],
        sent: &mut [u32],
        text: &mut [u8],
    ) -> Translated {
        up_as_bytes(table, totals, words, sent, &mut text[..0])
    }
}

impl Program for Only {
    fn translate(
        self,
        table: Table,
        totals: Totals,
        words: &[u32],
        sent: &mut [u32],
        text: &mut [u8],
    ) -> Translated {
        let done = pupil::only(words, self.group, self.channel, sent);
        sent_as_bytes(table, totals, done, Counts::none(), sent, text)
    }
}
