// What is said of each packet, as lines of text.
ghost use Rattle.std.specs.Prelude.{◌≡◌, ◌+◌, ◌-◌, ◌<◌, ◌^◌, drop, length};
ghost use Rattle.ground.specs.Store.{at_start, written};
ghost use Rattle.ump.specs.Packet.{packet};
ghost use Rattle.stream.specs.Answers.{sent};
ghost use Rattle.stream.specs.Call.{sent_of, within};
ghost use Rattle.stream.specs.Report.{counting, reported};
ghost use Rattle.text.specs.Lines.{place_after, with_row};
ghost use Rattle.recording.specs.Recording.{cut_line, left_line, past_after, text_of};
ghost use Rattle.rescuing.specs.Kept.{telling, telling-own};
ghost use Rattle.rescuing.specs.Rescue.{run_tell, said, tell, turn_of};

use crate::Told;
use reader::packets_from;
use recording::{Line, Past};
use stream::{CUT, Calls, Done, NO_ROOM, SENT, report, run_calls};

// Nothing happens, by an answer that stops the run.
fn stays(told: Told, answer: u32) -> Told
    ensures { result ≡ record {
      past = told.past;
      done = counting answer told.done.read told.done.written;
    } }
{
    Told {
        done: report(answer, told.done.read, told.done.written),
        ..told
    }
}

// A packet is read, and the text is written up to a place.
fn goes_on(told: Told, packet: &[u32], end: usize) -> Told
    requires { told.done.read + length packet.now < 2 ^ 64 }
    ensures { result ≡ record {
      past = past_after told.past packet.now;
      done = counting sent (told.done.read + length packet.now) end;
    } }
{
    Told {
        past: told.past.after(packet),
        done: report(SENT, told.done.read + packet.len(), end),
    }
}

// Says what is to be said of a packet, if there is room for it.
#[tactic(auto, unfolding(recording::specs::Recording::text_of))]
fn tell_packet(packet: &[u32], told: Told, text: &mut [u8]) -> Told
    requires { told.done.read + length packet.now < 2 ^ 64 }
    ensures turn { let room = length text.old - told.done.written in
        result ≡ turn_of told packet.now room (said room told.past packet.now) }
    ensures text { let room = length text.old - told.done.written in
        text.new ≡ written told.done.written (sent_of (said room told.past packet.now)) text.old }
{
    let to = told.done.written;
    match told.past.line(packet) {
        None => goes_on(told, packet, to),
        Some(line) => match line.put(text, to) {
            Some(end) => goes_on(told, packet, end),
            None => stays(told, NO_ROOM),
        },
    }
}

// The packet that is next in the words, after what was told so far.
#[tactic(auto, unfolding(crate::specs::Rescue::tell, stream::specs::Call::within))]
fn tell_next(words: &[u32], told: Told, text: &mut [u8]) -> Told
    ensures turn { let room = length text.old - told.done.written in
        let left = drop told.done.read words.now in
        result ≡ turn_of told (packet left) room (within tell (room, told.past) left) }
    ensures text { let room = length text.old - told.done.written in
        let left = drop told.done.read words.now in
        text.new ≡ written told.done.written (sent_of (within tell (room, told.past) left)) text.old }
{
    match packets_from(words, told.done.read).next() {
        Some(packet) => tell_packet(packet, told, text),
        None => stays(told, CUT),
    }
}

// What went before the next packet.
#[derive(Clone, Copy)]
pub(crate) struct Telling {
    past: Past,
}

impl Calls for Telling {
    type Written = u8;

    ghost numbers = { λ text. text };

    ghost step = { telling };

    fn call(&mut self, words: &[u32], past: Done, text: &mut [u8]) -> Done {
        let before = Told {
            past: self.past,
            done: past,
        };
        let told = tell_next(words, before, text);
        self.past = told.past;
        told.done
    }

    ghost own_packet = { telling-own };
}

// What is said of the packets of the words, after what went before them, until one stops the run.
pub fn tell_some(past: Past, words: &[u32], text: &mut [u8]) -> Told
    ensures report { result.done ≡ reported (run_tell (length text.old) past words.now) }
    ensures past { result.past ≡ (run_tell (length text.old) past words.now).left.1 }
    ensures text { text.new
        ≡ at_start (run_tell (length text.old) past words.now).sends text.old }
{
    let mut telling = Telling { past };
    let done = run_calls(&mut telling, words, text);
    Told {
        past: telling.past,
        done,
    }
}

// Writes what is said from a place on and answers the place after it, or that place where nothing is said or it
// does not fit.
#[tactic(auto, unfolding(recording::specs::Recording::text_of))]
fn put_said(said: Option<Line>, text: &mut [u8], to: usize) -> usize
    ensures place { result ≡ place_after text.old to (text_of said) }
    ensures text { text.new ≡ with_row text.old to (text_of said) }
{
    match said {
        Some(line) => line.put(text, to).unwrap_or(to),
        None => to,
    }
}

// What is said of so many bytes that are left at the end, and how many bytes that is: words of a cut
// packet, and bytes of a cut word.
pub fn tell_end(place: u64, left: usize, text: &mut [u8]) -> usize
    ensures bytes { let cut = text_of (cut_line place left) in
        result ≡ place_after (with_row text.old 0 cut) (place_after text.old 0 cut) (text_of (left_line left)) }
    ensures text { let cut = text_of (cut_line place left) in
        text.new ≡ with_row (with_row text.old 0 cut) (place_after text.old 0 cut) (text_of (left_line left)) }
{
    let to = put_said(Line::cut(place, left), text, 0);
    put_said(Line::left(left), text, to)
}
