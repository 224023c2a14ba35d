// What a packet sends, stored into a lent output after what was written so far.
ghost use Rattle.std.specs.Prelude.{◌≡◌, ◌+◌, ◌-◌, ◌≤◌, ◌<◌, ◌^◌, leb, length};
ghost use Rattle.stream.specs.Report.{placing};
ghost use Rattle.lower.specs.Values.{packed};
ghost use Rattle.voice.specs.Output.{sent_words};
ghost use Rattle.voice.specs.Packet.{onward_of};
ghost use Rattle.voice.specs.Turn.{output_after, output_of, report_after, report_of, stored_in};

use lower::UpToFourWords;
use screen::{Refusal, Rule};
use stream::{Done, NO_ROOM, SENT, report, report_place};

// A packet's own words.
pub(crate) fn same_words(p: &[u32]) -> UpToFourWords
    ensures { result ≡ packed p.now }
{
    UpToFourWords {
        count: p.len(),
        first: ump::word_at(p, 0),
        second: ump::word_at(p, 1),
        third: ump::word_at(p, 2),
        fourth: ump::word_at(p, 3),
    }
}

// Stores the words from a place on and answers true, or, where they do not fit, stores nothing and
// answers false.
// Kept: one copy of so many words out of an array proved, but a call down over played music took a tenth longer.
pub(crate) fn put(out: &mut [u32], to: usize, words: UpToFourWords) -> bool
    requires { words.count ≤ 4 }
    ensures answer { result ≡ leb (length (sent_words words)) (length out.old - to) }
    ensures output { out.new ≡ stored_in to out.old (sent_words words) }
{
    let count = words.count;
    if out.len().saturating_sub(to) < count {
        return false;
    }
    match count {
        0 => true,
        1 => {
            out[to] = words.first;
            true
        }
        2 => {
            out[to] = words.first;
            out[to + 1] = words.second;
            true
        }
        3 => {
            out[to] = words.first;
            out[to + 1] = words.second;
            out[to + 2] = words.third;
            true
        }
        _ => {
            out[to] = words.first;
            out[to + 1] = words.second;
            out[to + 2] = words.third;
            out[to + 3] = words.fourth;
            true
        }
    }
}

// The report of a packet of n words that the screening refuses: it is read, and nothing else happens.
// A cut packet has no words.
pub(crate) fn refuse(past: Done, refusal: Refusal, n: usize) -> Done
    requires { past.read + n < 2 ^ 64 }
    ensures { result ≡ placing refusal.answer refusal.place (past.read + n) past.written }
{
    report_place(refusal.answer, refusal.place, past.read + n, past.written)
}

// A packet of n words sends up to four words, if there is room for them.
pub(crate) fn send(past: Done, n: usize, words: UpToFourWords, out: &mut [u32]) -> Done
    requires { (words.count ≤ 4) × (past.read + n < 2 ^ 64) }
    ensures report { result ≡ report_after past n out.old (sent_words words) }
    ensures output { out.new ≡ output_after past out.old (sent_words words) }
{
    let read = past.read;
    let to = past.written;
    let count = words.count;
    if put(out, to, words) {
        report(SENT, read + n, to + count)
    } else {
        report(NO_ROOM, read, to)
    }
}

// A packet that is sent on unchanged, unless the screening refuses it.
// Kept: what is past, the output and the rule are no struct, since the output is lent anew at each step, and most steps
// need only two of the three.
pub(crate) fn onward(wrong: u32, past: Done, packet: &[u32], out: &mut [u32], rule: Rule) -> Done
    requires { (length packet.now ≤ 4) × (past.read + length packet.now < 2 ^ 64) }
    ensures report { result
        ≡ report_of past packet.now out.old (onward_of rule wrong packet.now) }
    ensures output { out.new
        ≡ output_of past out.old (onward_of rule wrong packet.now) }
{
    match screen::screen_by(rule, Some(wrong), packet) {
        Ok(()) => send(past, packet.len(), same_words(packet), out),
        Err(refusal) => refuse(past, refusal, packet.len()),
    }
}
