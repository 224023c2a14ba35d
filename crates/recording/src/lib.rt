// Recordings: the header that stands before the words, which packets a rescue keeps, and what it says of
// each: where one is dropped and by which answer, and the ticks between two stamps.
//
// No function has a `requires`. Each says by a definition of specs/ what it answers, and what a lent text
// holds after it, on every input.
#![tactic(auto)]

ghost use Rattle.std.specs.Prelude.{◌≡◌};
ghost use Rattle.text.specs.Lines.{place_if_put, with_row};
ghost use Rattle.recording.specs.Recording.{cut_line, header, header_answer, left_line, line_kept, line_of};
ghost use Rattle.recording.specs.Recording.{number_of, passes, past_after, stamp_in, start};
ghost use Rattle.recording.specs.Recording.{text_of, ticks_between};

use screen::screen;
use stream::{CUT, WRONG_MARK, WRONG_VERSION};
use ump::{message_type, status, word_at};

// How many bytes the header has.
pub const HEADER_BYTES: usize = 5;

// How many of them are the mark.
const MARK_BYTES: usize = 3;

// The status of a JR Timestamp, whose message type is 0.
const JR_TIMESTAMP: u32 = 2;

// Why a file is no recording.
#[derive(Clone, Copy, PartialEq, Eq)]
pub enum HeaderError {
    WrongMark,
    WrongVersion,
}

impl HeaderError {
    // The answer that it is said by.
    pub fn answer(self) -> u32
        ensures { result ≡ number_of self }
    {
        match self {
            HeaderError::WrongMark => WRONG_MARK,
            HeaderError::WrongVersion => WRONG_VERSION,
        }
    }
}

// What went before a packet: how many words, and the last JR Timestamp, where there was one.
#[derive(Clone, Copy)]
pub struct Past {
    pub place: u64,
    pub stamp: Option<u16>,
}

// What is said: of a packet that is dropped its place, the answer, how many words it has and the place of
// its bad field; how many ticks lie between two stamps; how many bytes are left over; or an answer alone.
#[derive(Clone, Copy)]
pub enum Line {
    Drop {
        place: u64,
        answer: u32,
        words: usize,
        field: u32,
    },
    Ticks(u16),
    Bytes(usize),
    Answer(u32),
}

// What every recording begins with: the mark, and version 1.
pub fn header_bytes() -> [u8; HEADER_BYTES]
    ensures { result ≡ header }
{
    [b'U', b'P', b'K', 0, 1]
}

// Whether a file that begins with these bytes is a recording: the mark is asked for first.
#[tactic(auto, unfolding(crate::specs::Recording::header_answer))]
pub fn header_answer(bytes: &[u8]) -> Result<(), HeaderError>
    ensures { result ≡ header_answer bytes.now }
{
    let header = header_bytes();
    if !bytes.starts_with(&header[..MARK_BYTES]) {
        return Err(HeaderError::WrongMark);
    }
    if !bytes.starts_with(&header) {
        return Err(HeaderError::WrongVersion);
    }
    Ok(())
}

// Whether a packet is kept.
pub fn is_kept(packet: &[u32]) -> bool
    ensures { result ≡ passes packet.now }
{
    screen(None, packet).is_ok()
}

// The stamp of a JR Timestamp, which is the low half of its word. Any other packet has none.
fn stamp_in(w: u32) -> Option<u16>
    ensures { result ≡ stamp_in w }
{
    if (message_type(w) == 0) & (status(w) == JR_TIMESTAMP) {
        Some((w % 0x10000) as u16)
    } else {
        None
    }
}

// The later stamp less the earlier, counted round.
pub fn ticks(earlier: u16, later: u16) -> u16
    ensures { result ≡ ticks_between earlier later }
{
    later.wrapping_sub(earlier)
}

// What is said of a packet that is kept, by its first word.
#[tactic(auto, unfolding(crate::specs::Recording::line_kept))]
fn kept_line(stamp: Option<u16>, w: u32) -> Option<Line>
    ensures { result ≡ line_kept stamp w }
{
    let later = stamp_in(w)?;
    let earlier = stamp?;
    Some(Line::Ticks(ticks(earlier, later)))
}

impl Past {
    // Before the first packet.
    pub fn start() -> Past
        ensures { result ≡ start }
    {
        Past {
            place: 0,
            stamp: None,
        }
    }

    // What is said of the packet that comes next.
    #[tactic(auto, unfolding(crate::specs::Recording::line_of))]
    pub fn line(self, packet: &[u32]) -> Option<Line>
        ensures { result ≡ line_of self packet.now }
    {
        match screen(None, packet) {
            Ok(()) => kept_line(self.stamp, word_at(packet, 0)),
            Err(refusal) => Some(Line::Drop {
                place: self.place,
                answer: refusal.answer,
                words: packet.len(),
                field: refusal.place,
            }),
        }
    }

    // And what then went before.
    #[tactic(auto, unfolding(crate::specs::Recording::past_after, crate::specs::Recording::stamp_after))]
    pub fn after(self, packet: &[u32]) -> Past
        ensures { result ≡ past_after self packet.now }
    {
        Past {
            place: self.place.wrapping_add(packet.len() as u64),
            stamp: stamp_in(word_at(packet, 0)).or(self.stamp),
        }
    }
}

impl Line {
    // What is said of so many bytes that are left at the end, where they hold words of a cut packet.
    #[tactic(auto, unfolding(crate::specs::Recording::cut_line))]
    pub fn cut(place: u64, left: usize) -> Option<Line>
        ensures { result ≡ cut_line place left }
    {
        let words = left / 4;
        if words == 0 {
            None
        } else {
            Some(Line::Drop {
                place,
                answer: CUT,
                words,
                field: 0,
            })
        }
    }

    // And where they hold bytes of a cut word.
    #[tactic(auto, unfolding(crate::specs::Recording::left_line))]
    pub fn left(left: usize) -> Option<Line>
        ensures { result ≡ left_line left }
    {
        let bytes = left % 4;
        if bytes == 0 {
            None
        } else {
            Some(Line::Bytes(bytes))
        }
    }

    // Writes the line from a place on and answers the place after it. Where it does not fit, it writes nothing and
    // answers None.
    #[tactic(auto, unfolding(crate::specs::Recording::text_of))]
    pub fn put(self, text: &mut [u8], to: usize) -> Option<usize>
        ensures place { result ≡ place_if_put text.old to (text_of (Some self)) }
        ensures text { text.new ≡ with_row text.old to (text_of (Some self)) }
    {
        match self {
            Line::Drop {
                place,
                answer,
                words,
                field,
            } => text::drop_line(place, answer, words, field, text, to),
            Line::Ticks(n) => text::ticks_line(n as u64, text, to),
            Line::Bytes(n) => text::bytes_line(n as u64, text, to),
            Line::Answer(n) => text::number_line(n as u64, text, to),
        }
    }
}
