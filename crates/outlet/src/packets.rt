// One packet, and the run.
ghost use Rattle.std.specs.Prelude.{◌≡◌, cond, ◌+◌, ◌≤◌, ◌<◌, ◌^◌, drop, length};
ghost use Rattle.ground.specs.Store.{at_start, written};
ghost use Rattle.ump.specs.Packet.{cut, packet};
ghost use Rattle.ump.specs.Word.{message_type};
ghost use Rattle.fields.specs.Check.{checked_fields, good_status};
ghost use Rattle.screen.specs.Screen.{checking, goes_on, judged, reserved};
ghost use Rattle.stream.specs.Answers.{not_for_cable, reserved_type};
ghost use Rattle.stream.specs.Call.{sent_of, within};
ghost use Rattle.stream.specs.Report.{reported, reported_call};
ghost use Rattle.stream.specs.Run.{called, run};
ghost use Rattle.outlet.specs.Outlet.{one_out, ours, run_out, screen_out, step_out};
ghost use Rattle.outlet.specs.Sending.{call_at, call_now, onward, told_one, told_run};

use crate::exclusives::send_exclusive;
use crate::messages::{send_system, send_voice};
use screen::{Refusal, is_reserved};
use stream::{
    BAD_STATUS, CUT, Done, NO_ROOM, NOT_FOR_CABLE, OUT_OF_RANGE, RESERVED, SENT, TAKEN_IN, report,
    report_place,
};
use ump::{MIDI1_VOICE, group_of, message_type, size, word_at};

// The message type of system messages.
const SYSTEM: u32 = 1;

// The words of a packet of an exclusive.
const EXCLUSIVE_WORDS: usize = 2;

// Whether a packet is of a type that has bytes, and of the group, by its first word.
fn is_ours(group: u8, w: u32) -> bool
    ensures { result ≡ ours group w }
{
    let t = message_type(w);
    let g = group_of(w);
    ((1 <= t) & (t <= 3)) & (g.0 == group)
}

// What refuses a packet that is not ours, by its first word.
fn other_answer(w: u32) -> u32
    ensures { result ≡ cond (reserved (message_type w)) reserved_type not_for_cable }
{
    if is_reserved(message_type(w)) {
        RESERVED
    } else {
        NOT_FOR_CABLE
    }
}

// The check of a packet of ours.
fn check(w: u32, v: u32) -> Result<(), Refusal>
    ensures { result ≡ judged (checking (good_status w) (checked_fields w v) goes_on) }
{
    if !fields::is_good_status(w) {
        return Err(Refusal::by(BAD_STATUS));
    }
    match fields::bad_place(w, v) {
        None => Ok(()),
        Some(place) => Err(Refusal::bad_field(place)),
    }
}

// The screening of a packet, or of the empty part where none is whole.
#[tactic(auto, unfolding(crate::specs::Outlet::screen_out))]
pub fn screen_out(group: u8, packet: &[u32]) -> Result<(), Refusal>
    ensures { result ≡ judged (screen_out group packet.now) }
{
    if packet.is_empty() {
        return Err(Refusal::by(CUT));
    }
    let w = word_at(packet, 0);
    if is_ours(group, w) {
        check(w, word_at(packet, 1))
    } else {
        Err(Refusal::by(other_answer(w)))
    }
}

// What a run is told of a packet of n words, after what was read and written so far.
fn passed(end: Option<usize>, n: usize, read: usize, to: usize) -> Done
    requires { read + n < 2 ^ 64 }
    ensures { result ≡ told_run end n read to }
{
    match end {
        Some(end) => report(SENT, read + n, end),
        None => report(NO_ROOM, read, to),
    }
}

// The packet that is next in the words, for a run that has read and written so far.
fn export_next(group: u8, words: &[u32], read: usize, out: &mut [u8], to: usize) -> Done
    requires { (read < length words.now) × (to ≤ length out.old) }
    ensures report { result ≡ onward read to (packet (drop read words.now))
        (call_at group words.now read to out.old) }
    ensures output { out.new ≡ written to
        (sent_of (call_at group words.now read to out.old)) out.old }
{
    let w = words[read];
    if is_ours(group, w) {
        let t = message_type(w);
        if t == MIDI1_VOICE {
            return passed(send_voice(w, out, to), 1, read, to);
        }
        if t == SYSTEM {
            return passed(send_system(w, out, to), 1, read, to);
        }
        if words.len() - read < EXCLUSIVE_WORDS {
            return report(CUT, read, to);
        }
        return passed(
            send_exclusive(w, words[read + 1], out, to),
            EXCLUSIVE_WORDS,
            read,
            to,
        );
    }
    let n = size(w);
    if words.len() - read < n {
        report(CUT, read, to)
    } else {
        report(SENT, read + n, to)
    }
}

// What a call alone is told of a packet of n words. Where it sent nothing, the check tells why.
#[tactic(auto, unfolding(crate::specs::Sending::told_one))]
fn told_alone(w: u32, v: u32, end: Option<usize>, n: usize) -> Done
    ensures { result ≡ told_one w v end n }
{
    match end {
        Some(0) => match check(w, v) {
            Ok(()) => report(TAKEN_IN, n, 0),
            Err(refusal) => report_place(refusal.answer, refusal.place, n, 0),
        },
        Some(end) => report(SENT, n, end),
        None => report(NO_ROOM, 0, 0),
    }
}

// The packet at the start of the words, for a call alone.
fn export_first(group: u8, words: &[u32], out: &mut [u8]) -> Done
    ensures report { result ≡ reported_call (packet words.now)
        (called (packet words.now) (length out.old, tt)
        (call_now group words.now out.old)) }
    ensures output { out.new ≡ written 0
        (sent_of (call_now group words.now out.old)) out.old }
{
    if words.len() == 0 {
        return report(CUT, 0, 0);
    }
    let w = words[0];
    if is_ours(group, w) {
        let t = message_type(w);
        if t == MIDI1_VOICE {
            return told_alone(w, 0, send_voice(w, out, 0), 1);
        }
        if t == SYSTEM {
            return told_alone(w, 0, send_system(w, out, 0), 1);
        }
        if words.len() < EXCLUSIVE_WORDS {
            return report(CUT, 0, 0);
        }
        let v = words[1];
        return told_alone(w, v, send_exclusive(w, v, out, 0), EXCLUSIVE_WORDS);
    }
    let n = size(w);
    if words.len() < n {
        report(CUT, 0, 0)
    } else {
        report(other_answer(w), n, 0)
    }
}

// One call: the packet at the start of the words.
pub fn export(group: u8, words: &[u32], out: &mut [u8]) -> Done
    ensures report { result ≡ reported_call (packet words.now)
        (one_out group (length out.old) words.now) }
    ensures output { out.new ≡ at_start
        (one_out group (length out.old) words.now).sends out.old }
{
    if 15 < group {
        report(OUT_OF_RANGE, 0, 0)
    } else {
        export_first(group, words, out)
    }
}

// Every packet of the words, until one stops the run.
fn export_all(group: u8, words: &[u32], out: &mut [u8]) -> Done
    ensures report { result
        ≡ reported (run (within (step_out group)) (length out.old, tt) (cut words.now)) }
    ensures output { out.new ≡ at_start
        (run (within (step_out group)) (length out.old, tt) (cut words.now)).sends
        out.old }
{
    let mut read: usize = 0;
    let mut written: usize = 0;
    while read < words.len() {
        let done = export_next(group, words, read, out, written);
        if done.answer == SENT {
            read = done.read;
            written = done.written;
        } else {
            return report(done.answer, read, written);
        }
    }
    report(SENT, read, written)
}

// A run.
pub fn run_export(group: u8, words: &[u32], out: &mut [u8]) -> Done
    ensures report { result
        ≡ reported (run_out group (length out.old) words.now) }
    ensures output { out.new ≡ at_start
        (run_out group (length out.old) words.now).sends out.old }
{
    if 15 < group {
        report(OUT_OF_RANGE, 0, 0)
    } else {
        export_all(group, words, out)
    }
}
