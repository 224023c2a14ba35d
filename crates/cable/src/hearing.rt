// What one byte does to a cable.
ghost use Rattle.std.specs.Prelude.{◌≡◌, cond, [], ◌∷◌, ltb, ◌≤◌};
ghost use Rattle.cable.specs.State.{idle, message_word, need, packet_of};
ghost use Rattle.cable.specs.Hearing.{byte_in, data_in, end_in, exclusive_in, first_in, message_in, real_time_in};
ghost use Rattle.cable.specs.Hearing.{runs_on, sending, status_in, told};
ghost use Rattle.cable.specs.Form.{form_number};
ghost use Rattle.cable.specs.Receiver.{cable_of, heard_of};

use crate::receiving::{first_held, fresh, with_byte};
use crate::{Cable, END_OF_EXCLUSIVE, EXCLUSIVE, Heard, Receiver, SIX, Words};
use stream::{CUT_OFF, DROPPED, SENT, TAKEN_IN};

// How many data bytes a status byte has.
#[tactic(auto, unfolding(crate::specs::State::need))]
pub fn needed(b: u8) -> u8
    ensures { result ≡ need b }
{
    match b {
        0xF2 => 2,
        0xF1 | 0xF3 | 0xC0..0xE0 => 1,
        0xF0.. => 0,
        _ => 2,
    }
}

// The message type of a status byte: MIDI 1.0 voice, or system.
fn type_of(b: u8) -> u32
    ensures { (result ≡ cond (ltb b 0xF0) 2 1) × (result ≤ 2) }
{
    if b < 0xF0 { ump::MIDI1_VOICE } else { 1 }
}

// The word of a message that is no exclusive.
fn message_word(g: u8, b: u8, x: u8, y: u8) -> u32
    ensures { result ≡ message_word g b x y }
{
    type_of(b) * 0x10000000
        + u32::from(g % 16) * 0x1000000
        + u32::from(b) * 0x10000
        + u32::from(x) * 0x100
        + u32::from(y)
}

// The place of a packet in its exclusive, whose numbers are 0 to 3.
#[derive(Clone, Copy)]
enum Form {
    Complete,
    Start,
    Continue,
    End,
}

// Nothing is sent.
fn silent(answer: u32, read: usize, after: Receiver) -> Heard<Receiver>
    ensures { told (heard_of result) ≡ record { answer = answer; read = read; sends = []; after = cable_of after } }
{
    Heard {
        answer,
        read,
        sends: Words::Nothing,
        after,
    }
}

// A word is sent, and the byte is read.
fn message(w: u32, after: Receiver) -> Heard<Receiver>
    ensures { told (heard_of result) ≡ sending (w ∷ []) (cable_of after) }
{
    Heard {
        answer: SENT,
        read: 1,
        sends: Words::One(w),
        after,
    }
}

// The packet of all that is held.
fn packet(
    answer: u32,
    read: usize,
    g: u8,
    form: Form,
    s: Receiver,
    after: Receiver,
) -> Heard<Receiver>
    ensures { told (heard_of result) ≡ record {
      answer = answer;
      read = read;
      sends = packet_of g (form_number form) (cable_of s);
      after = cable_of after;
    } }
{
    let first = 0x30000000
        + u32::from(g % 16) * 0x1000000
        + (form as u32) * 0x100000
        + u32::from(s.count) * 0x10000
        + s.high % 0x10000;
    Heard {
        answer,
        read,
        sends: Words::Two(first, s.low),
        after,
    }
}

// A real time byte is sent at once, or dropped, and changes nothing else.
#[inline(always)]
#[tactic(auto, unfolding(crate::specs::Hearing::real_time_in, crate::specs::State::pick))]
fn real_time_in(s: Receiver, g: u8, b: u8) -> Heard<Receiver>
    ensures { told (heard_of result) ≡ real_time_in (cable_of s) g b }
{
    if (b == 0xF9) | (b == 0xFD) {
        silent(DROPPED, 1, s)
    } else {
        message(message_word(g, b, 0, 0), s)
    }
}

// A data byte of an exclusive. Six bytes wait for it, since it shows that they are not the last.
#[inline(always)]
#[tactic(auto, unfolding(crate::specs::Hearing::exclusive_in, crate::specs::State::pick))]
fn exclusive_in(s: Receiver, g: u8, b: u8) -> Heard<Receiver>
    ensures { told (heard_of result) ≡ exclusive_in (cable_of s) g b }
{
    if s.count < SIX {
        silent(TAKEN_IN, 1, with_byte(b, s))
    } else {
        let form = if s.begun == 0 {
            Form::Start
        } else {
            Form::Continue
        };
        packet(SENT, 1, g, form, s, first_held(0, EXCLUSIVE, 1, b))
    }
}

// A message that is no exclusive is complete. Its status runs on where it is that of a voice.
#[inline(always)]
fn complete(g: u8, status: u8, x: u8, y: u8) -> Heard<Receiver>
    ensures { told (heard_of result) ≡ sending (message_word g status x y ∷ []) (idle (runs_on status)) }
{
    let running = if status < 0xF0 { status } else { 0 };
    message(message_word(g, status, x, y), fresh(running, 0))
}

// The first data byte of a message that has n.
#[inline(always)]
#[tactic(auto, unfolding(crate::specs::Hearing::first_in, crate::specs::State::pick))]
fn first_in(s: Receiver, g: u8, status: u8, n: u8, b: u8) -> Heard<Receiver>
    ensures { told (heard_of result) ≡ first_in (cable_of s) g status n b }
{
    if n == 2 {
        silent(TAKEN_IN, 1, first_held(s.running, status, 0, b))
    } else {
        complete(g, status, b, 0)
    }
}

// A data byte, with the status that it belongs to.
#[inline(always)]
#[tactic(auto, unfolding(crate::specs::Hearing::message_in, crate::specs::State::pick))]
fn message_in(s: Receiver, g: u8, status: u8, b: u8) -> Heard<Receiver>
    ensures { told (heard_of result) ≡ message_in (cable_of s) g status b }
{
    if status == 0 {
        return silent(DROPPED, 1, s);
    }
    if s.count == 0 {
        first_in(s, g, status, needed(status), b)
    } else {
        complete(g, status, (s.high / 0x100 % 0x100) as u8, b)
    }
}

// A data byte: of the exclusive that is open, or of a message.
#[inline(always)]
#[tactic(auto, unfolding(crate::specs::Hearing::data_in, crate::specs::State::pick))]
fn data_in(s: Receiver, g: u8, b: u8) -> Heard<Receiver>
    ensures { told (heard_of result) ≡ data_in (cable_of s) g b }
{
    if s.status == EXCLUSIVE {
        exclusive_in(s, g, b)
    } else {
        let status = if s.status == 0 { s.running } else { s.status };
        message_in(s, g, status, b)
    }
}

// A status byte below F8 where nothing is open.
#[inline(always)]
#[tactic(auto, unfolding(crate::specs::Hearing::status_in, crate::specs::State::pick))]
fn status_in(g: u8, b: u8) -> Heard<Receiver>
    ensures { told (heard_of result) ≡ status_in g b }
{
    if b == EXCLUSIVE {
        return silent(TAKEN_IN, 1, fresh(0, EXCLUSIVE));
    }
    if b == 0xF6 {
        return message(message_word(g, b, 0, 0), fresh(0, 0));
    }
    if 0xF4 <= b {
        silent(DROPPED, 1, fresh(0, 0))
    } else {
        silent(TAKEN_IN, 1, fresh(0, b))
    }
}

// A status byte below F8 where an exclusive is open. Only its own end is read here.
#[inline(always)]
#[tactic(auto, unfolding(crate::specs::Hearing::end_in, crate::specs::State::pick))]
fn end_in(s: Receiver, g: u8, b: u8) -> Heard<Receiver>
    ensures { told (heard_of result) ≡ end_in (cable_of s) g b }
{
    let last = if s.begun == 0 {
        Form::Complete
    } else {
        Form::End
    };
    if b == END_OF_EXCLUSIVE {
        packet(SENT, 1, g, last, s, fresh(0, 0))
    } else {
        packet(CUT_OFF, 0, g, last, s, fresh(0, 0))
    }
}

// The next byte of a receiver, whose packets are of a group. Data bytes are the most frequent by far.
#[tactic(auto, unfolding(crate::specs::Hearing::byte_in, crate::specs::State::pick))]
#[inline(always)]
pub fn receive(s: Receiver, g: u8, b: u8) -> Heard<Receiver>
    ensures { told (heard_of result) ≡ byte_in (cable_of s) g b }
{
    if b < 0x80 {
        return data_in(s, g, b);
    }
    if 0xF8 <= b {
        return real_time_in(s, g, b);
    }
    if s.status == 0 {
        return status_in(g, b);
    }
    if s.status == EXCLUSIVE {
        end_in(s, g, b)
    } else {
        silent(DROPPED, 0, fresh(s.running, 0))
    }
}

// The next byte of a cable, whose packets are of a group.
pub fn hear(s: Cable, g: u8, b: u8) -> Heard<Cable>
    ensures { told result ≡ byte_in s g b }
{
    let heard = receive(Receiver::from(s), g, b);
    Heard {
        answer: heard.answer,
        read: heard.read,
        sends: heard.sends,
        after: Cable::from(heard.after),
    }
}
