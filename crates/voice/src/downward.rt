// One packet going down, and the run. What refuses a packet, and where, is worked out only for a call alone that is
// refused.
ghost use Rattle.std.specs.Prelude.{◌≡◌, cond, true, [], ◌∷◌, ◌-◌, ◌≤◌, eqb, length};
ghost use Rattle.ump.specs.Word.{message_type, status, voice2};
ghost use Rattle.ump.specs.Packet.{first, size};
ghost use Rattle.ground.specs.Store.{at_start};
ghost use Rattle.stream.specs.Answers.{no_form};
ghost use Rattle.stream.specs.Answers;
ghost use Rattle.stream.specs.Report.{reported};
ghost use Rattle.screen.specs.Screen.{open_rule};
ghost use Rattle.lower.specs.Keyed.{keyed};
ghost use Rattle.voice.specs.Down.{output_down, refused_down, sent_down, sent_in};
ghost use Rattle.voice.specs.Output.{sent_words};
ghost use Rattle.voice.specs.Packet.{packet_down_by, run_down_by};
ghost use Rattle.voice.specs.Turn.{next, output_of, report_of, stored_in};

use crate::output::{put, same_words};
use lower::UpToFourWords;
use screen::Rule;
use stream::{CUT, Done, NO_FORM, NO_ROOM, SENT, report, report_place};
use ump::{MIDI1_VOICE, MIDI2_VOICE};

// What becomes of a packet is one number: how many words it sends, none where it has no form; that the output has no
// room for them; or that the packet is refused.
// Kept: as a Result with an error enum, which proved, it made the run down over played music a fifth slower.
const NONE_FIT: usize = 5;

const REFUSED: usize = 6;

// Stores up to four words from a place on, if there is room for them.
fn store(words: UpToFourWords, out: &mut [u32], to: usize) -> usize
    requires { words.count ≤ 4 }
    ensures number { result ≡ sent_in (length out.old - to) (sent_words words) }
    ensures output { out.new ≡ stored_in to out.old (sent_words words) }
{
    let count = words.count;
    if put(out, to, words) { count } else { NONE_FIT }
}

// A note, poly pressure or a controller, by its two words, where no rule asks anything: what most packets are.
fn keyed_down(w: u32, v: u32, out: &mut [u32], to: usize) -> usize
    requires { (message_type w ≡ voice2) × (keyed (status w) ≡ true) }
    ensures number { result ≡ sent_down open_rule (length out.old - to) (w ∷ v ∷ []) }
    ensures output { out.new ≡ output_down open_rule to out.old (w ∷ v ∷ []) }
{
    if fields::is_good_voice2(w, v) {
        store(lower::keyed_words(w, v), out, to)
    } else {
        REFUSED
    }
}

// A MIDI 2.0 voice message under a rule.
fn voice_down(packet: &[u32], out: &mut [u32], to: usize, rule: Rule) -> usize
    requires { (length packet.now ≡ 2) × (message_type (first packet.now) ≡ voice2) }
    ensures number { result ≡ sent_down rule (length out.old - to) packet.now }
    ensures output { out.new ≡ output_down rule to out.old packet.now }
{
    let w = packet[0];
    let v = packet[1];
    if !screen::lets_down(rule, w) {
        return REFUSED;
    }
    if fields::is_good_voice2(w, v) {
        store(lower::lowered(w, v), out, to)
    } else {
        REFUSED
    }
}

// Any other packet under a rule: it is sent on unchanged or refused.
fn other_down(packet: &[u32], out: &mut [u32], to: usize, rule: Rule) -> usize
    requires { (1 ≤ length packet.now) × (length packet.now ≤ 4)
        × (message_type (first packet.now) ≡ voice2 → ⊥) }
    ensures number { result ≡ sent_down rule (length out.old - to) packet.now }
    ensures output { out.new ≡ output_down rule to out.old packet.now }
{
    // A part of its own, so that the packet itself can be handed over in registers.
    let own = &packet[0..];
    let w = ump::word_at(own, 0);
    let v = ump::word_at(own, 1);
    if !screen::lets_down(rule, w) {
        return REFUSED;
    }
    if fields::is_good_unchanged(w, v) {
        store(same_words(own), out, to)
    } else {
        REFUSED
    }
}

// A whole packet under a rule.
fn packet_down(packet: &[u32], out: &mut [u32], to: usize, rule: Rule) -> usize
    requires { length packet.now ≡ size (first packet.now) }
    ensures number { result ≡ sent_down rule (length out.old - to) packet.now }
    ensures output { out.new ≡ output_down rule to out.old packet.now }
{
    if ump::message_type(packet[0]) == MIDI2_VOICE {
        voice_down(packet, out, to, rule)
    } else {
        other_down(packet, out, to, rule)
    }
}

// The same in a run, where what most packets are is asked for first.
fn packet_in_run(packet: &[u32], out: &mut [u32], to: usize, rule: Rule) -> usize
    requires { length packet.now ≡ size (first packet.now) }
    ensures number { result ≡ sent_down rule (length out.old - to) packet.now }
    ensures output { out.new ≡ output_down rule to out.old packet.now }
{
    let w = packet[0];
    if ump::message_type(w) == MIDI2_VOICE {
        if lower::is_keyed(w) & !screen::is_ruled(rule) {
            keyed_down(w, packet[1], out, to)
        } else {
            voice_down(packet, out, to, rule)
        }
    } else {
        other_down(packet, out, to, rule)
    }
}

// The answer of a packet that is not refused and has room.
fn sent_answer(sent: usize) -> u32
    ensures { result ≡ cond (eqb sent 0) no_form Answers.sent }
{
    if sent == 0 { NO_FORM } else { SENT }
}

// The packet at a place of the words, after what was read and written so far, under a rule.
#[inline(always)]
pub fn down(words: &[u32], past: Done, out: &mut [u32], rule: Rule) -> Done
    ensures report { result ≡ report_of past (next words.now past) out.old
        (packet_down_by rule (next words.now past)) }
    ensures output { out.new
        ≡ output_of past out.old (packet_down_by rule (next words.now past)) }
{
    let read = past.read;
    let to = past.written;
    if words.len() <= read {
        return report(CUT, read, to);
    }
    let n = ump::size(words[read]);
    if words.len() - read < n {
        return report(CUT, read, to);
    }
    let end = read + n;
    let sent = packet_down(&words[read..end], out, to, rule);
    if sent == REFUSED {
        return match screen::screen_by(rule, Some(MIDI1_VOICE), &words[read..end]) {
            Ok(()) => report(SENT, end, to),
            Err(refusal) => report_place(refusal.answer, refusal.place, end, to),
        };
    }
    if sent == NONE_FIT {
        return report(NO_ROOM, read, to);
    }
    report(sent_answer(sent), end, to + sent)
}

// The words of a packet, by its first word. A MIDI 2.0 voice message is asked for first, and has two.
fn size_down(w: u32) -> usize
    ensures { result ≡ size w }
{
    if ump::message_type(w) == MIDI2_VOICE {
        2
    } else {
        ump::size(w)
    }
}

// The words written of a packet that has room: a refused one writes none.
fn counted(sent: usize) -> usize
    ensures { result ≡ cond (eqb sent refused_down) 0 sent }
{
    if sent == REFUSED { 0 } else { sent }
}

// Every packet of the words under a rule, until one stops the run.
pub fn run_down(words: &[u32], out: &mut [u32], rule: Rule) -> Done
    ensures report { result ≡ reported (run_down_by rule (length out.old) words.now) }
    ensures output { out.new
        ≡ at_start (run_down_by rule (length out.old) words.now).sends out.old }
{
    let mut read: usize = 0;
    let mut written: usize = 0;
    while read < words.len() {
        let n = size_down(words[read]);
        if words.len() - read < n {
            return report(CUT, read, written);
        }
        let end = read + n;
        let sent = packet_in_run(&words[read..end], out, written, rule);
        if sent == NONE_FIT {
            return report(NO_ROOM, read, written);
        }
        read = end;
        written += counted(sent);
    }
    report(SENT, read, written)
}
