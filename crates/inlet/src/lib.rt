// Bytes of a five-pin cable into packets of one group: one call for a byte, or a run over many, with
// the state of the cable by value and the packets in a lent output.
//
// No public function has a `requires`. Each says by a definition of specs/ what it answers, how much it
// reads and writes, which state it leaves and what the output holds after, on every input.
#![tactic(auto)]

ghost use Rattle.std.specs.Prelude.{◌≡◌, [], ◌≤◌, length};
ghost use Rattle.ground.specs.Store.{at_start};
ghost use Rattle.cable.specs.Put.{Puts};
ghost use Rattle.cable.specs.Hearing.{unread, words_of};
ghost use Rattle.cable.specs.Receiver.{cable_of};
ghost use Rattle.inlet.specs.Inlet.{calls_in, fit_in, next_in, one_in, ran_in, reported, run_in, took};
ghost use Rattle.inlet.specs.Taking.{refusal};

use cable::{Cable, Receiver, Words, hear, is_sound, receive};
use stream::{CUT, NO_ROOM, NOT_SOUND, OUT_OF_RANGE, SENT};

// What an import answers, the bytes that it read, the words that it wrote, and the cable after it.
// Kept: the C interface has the answer as a number.
#[repr(C)]
#[derive(Clone, Copy)]
pub struct Imported {
    pub answer: u32,
    pub read: usize,
    pub written: usize,
    pub after: Cable,
}

// Nothing is read or written, and the cable stays.
fn refused(answer: u32, cable: Cable) -> Imported
    ensures { result ≡ took (unread answer [] cable) }
{
    Imported {
        answer,
        read: 0,
        written: 0,
        after: cable,
    }
}

// What was read and written, with the cable that is left.
fn report(answer: u32, read: usize, written: usize, state: Receiver) -> Imported
    ensures { result ≡ record { answer = answer; read = read; written = written; after = cable_of state } }
{
    Imported {
        answer,
        read,
        written,
        after: Cable::from(state),
    }
}

// The answer that refuses a group or a cable, before a byte is asked for.
#[tactic(auto, unfolding(crate::specs::Taking::refusal, cable::specs::State::pick))]
#[inline(always)]
fn refusal(group: u8, cable: Cable) -> Option<u32>
    ensures { result ≡ refusal group cable }
{
    if 15 < group {
        return Some(OUT_OF_RANGE);
    }
    if is_sound(cable) {
        None
    } else {
        Some(NOT_SOUND)
    }
}

// Stores the words of a byte from a place on, and says which place is behind them. Where they do not fit,
// nothing is stored.
fn put(words: Words, out: &mut [u32], to: usize) -> Option<usize>
    requires { to ≤ length out.old }
    ensures { Puts (words_of words) to out.old result out.new }
{
    let room = out.len() - to;
    match words {
        Words::Nothing => Some(to),
        Words::One(word) => {
            if room < 1 {
                return None;
            }
            out[to] = word;
            Some(to + 1)
        }
        Words::Two(first, second) => {
            if room < 2 {
                return None;
            }
            out[to] = first;
            out[to + 1] = second;
            Some(to + 2)
        }
    }
}

// One call of a sound cable: the byte at the start of the bytes.
fn import_first(cable: Cable, group: u8, bytes: &[u8], out: &mut [u32]) -> Imported
    ensures report { result
        ≡ took (fit_in (length out.old) cable (next_in cable group bytes.now)) }
    ensures output { out.new ≡ at_start
        (fit_in (length out.old) cable (next_in cable group bytes.now)).sends out.old }
{
    if bytes.len() == 0 {
        return refused(CUT, cable);
    }
    let heard = hear(cable, group, bytes[0]);
    match put(heard.sends, out, 0) {
        Some(written) => Imported {
            answer: heard.answer,
            read: heard.read,
            written,
            after: heard.after,
        },
        None => refused(NO_ROOM, cable),
    }
}

// A run of a sound cable: call after call, until no byte is left or a packet has no room.
fn import_all(cable: Cable, group: u8, bytes: &[u8], out: &mut [u32]) -> Imported
    ensures report { result
        ≡ reported (ran_in (length out.old) cable (calls_in group cable bytes.now)) }
    ensures output { out.new ≡ at_start
        (ran_in (length out.old) cable (calls_in group cable bytes.now)).sends out.old }
{
    let mut state = Receiver::from(cable);
    let mut read: usize = 0;
    let mut written: usize = 0;
    while read < bytes.len() {
        let heard = receive(state, group, bytes[read]);
        let Some(end) = put(heard.sends, out, written) else {
            return report(NO_ROOM, read, written, state);
        };
        read += heard.read;
        written = end;
        let after = heard.after;
        state = after;
    }
    report(SENT, read, written, state)
}

// One call: the byte at the start of the bytes.
pub fn import(cable: Cable, group: u8, bytes: &[u8], out: &mut [u32]) -> Imported
    ensures report { result
        ≡ took (one_in group (length out.old) cable bytes.now) }
    ensures output { out.new ≡ at_start
        (one_in group (length out.old) cable bytes.now).sends out.old }
{
    match refusal(group, cable) {
        Some(answer) => refused(answer, cable),
        None => import_first(cable, group, bytes, out),
    }
}

// A run: every byte. A message that is open at the end stays in the cable.
pub fn run_import(cable: Cable, group: u8, bytes: &[u8], out: &mut [u32]) -> Imported
    ensures report { result
        ≡ reported (run_in group (length out.old) cable bytes.now) }
    ensures output { out.new ≡ at_start
        (run_in group (length out.old) cable bytes.now).sends out.old }
{
    match refusal(group, cable) {
        Some(answer) => refused(answer, cable),
        None => import_all(cable, group, bytes, out),
    }
}
