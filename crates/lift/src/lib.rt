// Going up: a MIDI 1.0 channel voice message goes in with its channel's memory, and out come the
// memory after it, its effect on the record, and a MIDI 2.0 message or none.
//
// `lifted` is total. What it says of a memory that is not sound no call sends: soundness is asked
// first, one crate above.
#![tactic(auto)]

ghost use Rattle.std.specs.Prelude.{◌≡◌, ◌+◌, ◌*◌, ◌%◌, ◌^◌};
ghost use Rattle.scale.specs.Scale.{up};
ghost use Rattle.ump.specs.Word.{channel_of, group_of, voice2};
ghost use Rattle.ump.specs.Word;
ghost use Rattle.message.specs.Message.{control_change1, program_change1, read1, voice_word};
ghost use Rattle.lift.specs.Lift.{data_high, data_low, enters, key_effect, shown_status};
ghost use Rattle.lift.specs.Lift;
ghost use Rattle.lift.specs.Values.{control_in, message_in, note_in, saying, silent};

use effect::Effect;
use memory::{MISSING, Memory, REGISTERED};
use message::voice_word;
use ump::{MIDI2_VOICE, data1, data2, status};

// The controllers that are parts of a bank, of an address, or of the data that goes to it.
const BANK_HIGH: u8 = 0;

const DATA_HIGH: u8 = 6;

const BANK_LOW: u8 = 32;

const DATA_LOW: u8 = 38;

const INCREMENT: u8 = 96;

const DECREMENT: u8 = 97;

const ASSIGNABLE_INDEX: u8 = 98;

const ASSIGNABLE_BANK: u8 = 99;

const REGISTERED_INDEX: u8 = 100;

const REGISTERED_BANK: u8 = 101;

// The controllers that release every key, and between them the one that resets all others.
const ALL_SOUND_OFF: u8 = 120;

const RESET: u8 = 121;

const ALL_NOTES_OFF: u8 = 123;

// The status of a Note Off.
const NOTE_OFF: u32 = 8;

// The two words of a MIDI 2.0 message.
#[derive(Clone, Copy)]
pub struct TwoWords {
    pub first: u32,
    pub second: u32,
}

// What a message becomes: the memory after it, its effect on the record, and a MIDI 2.0 message or none.
#[derive(Clone, Copy)]
pub struct UpwardMessage {
    pub after: Memory,
    pub effect: Effect,
    pub sends: Option<TwoWords>,
}

// Nothing is sent.
fn taken_in(after: Memory, effect: Effect) -> UpwardMessage
    ensures { result ≡ silent after effect }
{
    UpwardMessage {
        after,
        effect,
        sends: None,
    }
}

// A message of a status and two bytes in the group and channel of w, with its second word.
fn sent_up(
    after: Memory,
    effect: Effect,
    status: u32,
    a: u8,
    b: u8,
    w: u32,
    second: u32,
) -> UpwardMessage
    ensures { result
        ≡ saying after effect (voice_word voice2 (group_of w) (status % 2 ^ 4) (channel_of w) a b) second }
{
    let first = voice_word(MIDI2_VOICE, status, a, b, w);
    UpwardMessage {
        after,
        effect,
        sends: Some(TwoWords { first, second }),
    }
}

// The velocity of a note, in its place in the second word.
fn velocity(w: u32) -> u32
    ensures { result ≡ up 7 16 (Word.data2 w) * 2 ^ 16 }
{
    scale::up_7_to_16(data2(w) as u32) * 0x1_0000
}

// A value of seven bits, scaled.
fn seven_bits(value: u8) -> u32
    ensures { result ≡ up 7 32 (value % 2 ^ 7) }
{
    scale::up_7_to_32(value as u32)
}

// The 14-bit value of two halves, scaled.
fn fourteen(high: u8, low: u8) -> u32
    ensures { result ≡ up 14 32 ((high * 2 ^ 7 + low) % 2 ^ 14) }
{
    scale::up_14_to_32((high as u32) * 0x80 + low as u32)
}

// The value of two halves, sent to the memory's address, and the memory stays.
fn entered(memory: Memory, effect: Effect, high: u8, low: u8, w: u32) -> UpwardMessage
    ensures { result ≡ control_in w effect (enters memory high low) }
{
    let bank = memory.address_bank;
    let index = memory.address_index;
    let value = fourteen(high, low);
    if memory.kind == REGISTERED {
        sent_up(memory, effect, 2, bank, index, w, value)
    } else {
        sent_up(memory, effect, 3, bank, index, w, value)
    }
}

// Control change 6: a marked channel sends at once, with a low half of 0, and others keep it.
fn data_high(memory: Memory, w: u32) -> UpwardMessage
    ensures { result ≡ control_in w Effect.Remembers (data_high memory (Word.data2 w)) }
{
    let v = data2(w);
    if memory.is_coarse() & memory.address_open() {
        entered(memory, Effect::Remembers, v, 0, w)
    } else {
        taken_in(memory.with_data_high(v), Effect::Remembers)
    }
}

// Control change 38: sends where data high is present.
fn data_low(memory: Memory, w: u32) -> UpwardMessage
    ensures { result ≡ control_in w Effect.Leaves (data_low memory (Word.data2 w)) }
{
    if memory.data_high_present() {
        entered(memory, Effect::Leaves, memory.data_high, data2(w), w)
    } else {
        taken_in(memory, Effect::Leaves)
    }
}

// A controller that is sent as itself, with the memory after it.
fn plain(after: Memory, effect: Effect, w: u32) -> UpwardMessage
    ensures { result ≡ control_in w effect (Lift.plain after (Word.data1 w) (Word.data2 w)) }
{
    sent_up(after, effect, 11, data1(w), 0, w, seven_bits(data2(w)))
}

// Each control change by its number; all that are not named here are sent as themselves, and leave the record.
fn control_change(memory: Memory, w: u32) -> UpwardMessage
    ensures { result ≡ message_in w memory (control_change1 (Word.data1 w) (Word.data2 w)) }
{
    let i = data1(w);
    let v = data2(w);
    match i {
        BANK_HIGH => taken_in(memory.with_bank_high(v), Effect::Remembers),
        BANK_LOW => taken_in(memory.with_bank_low(v), Effect::Remembers),
        REGISTERED_BANK => taken_in(memory.with_registered_bank(v), Effect::Remembers),
        REGISTERED_INDEX => taken_in(memory.with_registered_index(v), Effect::Remembers),
        ASSIGNABLE_BANK => taken_in(memory.with_assignable_bank(v), Effect::Remembers),
        ASSIGNABLE_INDEX => taken_in(memory.with_assignable_index(v), Effect::Remembers),
        DATA_HIGH => data_high(memory, w),
        DATA_LOW => data_low(memory, w),
        INCREMENT => taken_in(memory, Effect::Leaves),
        DECREMENT => taken_in(memory, Effect::Leaves),
        RESET => plain(memory.with_address_closed(), Effect::Remembers, w),
        ALL_SOUND_OFF => plain(memory, Effect::ReleasesAll, w),
        ALL_NOTES_OFF => plain(memory, Effect::ReleasesAll, w),
        _ => plain(memory, Effect::Leaves, w),
    }
}

// The bank goes with the program where both halves are present, and is spent either way.
// Kept: each half is a byte of the record in C, so an `Option` of the two would be made here only to be taken apart.
fn program(memory: Memory, w: u32) -> UpwardMessage
    ensures { result ≡ message_in w memory (program_change1 (Word.data1 w)) }
{
    let high = memory.bank_high;
    let low = memory.bank_low;
    let after = memory.with_bank_spent();
    let number = (data1(w) as u32) * 0x100_0000;
    if !(high == MISSING) & !(low == MISSING) {
        let second = number + (high as u32) * 0x100 + low as u32;
        sent_up(after, Effect::Remembers, 12, 0, 1, w, second)
    } else {
        sent_up(after, Effect::Remembers, 12, 0, 0, w, number)
    }
}

// A silent Note On is a Note Off, and so is a silent Note Off.
#[tactic(auto, unfolding(crate::specs::Lift::shown_status))]
fn shown(status: u32, velocity: u8) -> u32
    ensures { result ≡ shown_status status velocity }
{
    if velocity == 0 { NOTE_OFF } else { status }
}

// What a note does to its key, by the status that it is sent with.
#[tactic(auto, unfolding(crate::specs::Lift::key_effect))]
fn key_effect(shown: u32) -> Effect
    ensures { result ≡ key_effect shown }
{
    if shown == NOTE_OFF {
        Effect::Releases
    } else {
        Effect::Presses
    }
}

// Note Off and Note On, by one row: most messages are of these two.
fn note(memory: Memory, w: u32, status: u32) -> UpwardMessage
    ensures { result ≡ note_in w memory status }
{
    let shown = shown(status, data2(w));
    sent_up(
        memory,
        key_effect(shown),
        shown,
        data1(w),
        0,
        w,
        velocity(w),
    )
}

// The message of a checked MIDI 1.0 voice packet, by its word, with its memory.
pub fn lifted(memory: Memory, w: u32) -> UpwardMessage
    ensures { result ≡ message_in w memory (read1 w) }
{
    let s = status(w);
    if (s == 8) | (s == 9) {
        return note(memory, w, s);
    }
    match s {
        10 => sent_up(
            memory,
            Effect::Leaves,
            10,
            data1(w),
            0,
            w,
            seven_bits(data2(w)),
        ),
        11 => control_change(memory, w),
        12 => program(memory, w),
        13 => sent_up(memory, Effect::Leaves, 13, 0, 0, w, seven_bits(data1(w))),
        _ => sent_up(
            memory,
            Effect::Leaves,
            14,
            0,
            0,
            w,
            fourteen(data2(w), data1(w)),
        ),
    }
}
