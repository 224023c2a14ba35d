// Going down: a MIDI 2.0 channel voice message is up to four MIDI 1.0 messages, none where it has no
// MIDI 1.0 form. No record is needed, and `lowered` is total.
#![tactic(auto)]

ghost use Rattle.std.specs.Prelude.{◌≡◌, [], ◌∷◌, ◌%◌, ◌^◌};
ghost use Rattle.scale.specs.Scale.{down};
ghost use Rattle.ump.specs.Word.{bits, channel_of, group_of, voice1};
ghost use Rattle.ump.specs.Word;
ghost use Rattle.message.specs.Message.{bank_of, control_change1, pitch_bend1, program_change2, read2, voice_word, write1};
ghost use Rattle.lower.specs.Lower.{entered, lower, sounding};
ghost use Rattle.lower.specs.Keyed.{keyed, keyed_value, keyed_words};
ghost use Rattle.lower.specs.Values.{packed, words_in};

use message::voice_word;
use ump::{MIDI1_VOICE, byte1, byte3, byte4, has_bank, status};

// Up to four words, as values.
// Kept: as an array and a count, of which so many words were copied at once, it proved, but a call down over played
// music took a tenth longer.
#[derive(Drop)]
pub struct UpToFourWords {
    pub count: usize,
    pub first: u32,
    pub second: u32,
    pub third: u32,
    pub fourth: u32,
}

// A note's velocity, in the first half of its second word.
fn velocity_down(v: u32) -> u8
    ensures { result ≡ down 16 7 (bits 16 16 v) }
{
    scale::down_16_to_7(v >> 16) as u8
}

// A Note On that drops to velocity 0 would be a Note Off.
fn sounding_velocity(v: u8) -> u8
    ensures { result ≡ sounding v }
{
    if v == 0 { 1 } else { v }
}

// The value of pressure and controllers.
fn value_down(v: u32) -> u8
    ensures { result ≡ down 32 7 v }
{
    scale::down_32_to_7(v) as u8
}

fn no_words() -> UpToFourWords
    ensures { result ≡ packed [] }
{
    UpToFourWords {
        count: 0,
        first: 0,
        second: 0,
        third: 0,
        fourth: 0,
    }
}

fn one_word(status: u32, a: u8, b: u8, w: u32) -> UpToFourWords
    ensures { result ≡ packed (voice_word voice1 (group_of w) (status % 2 ^ 4) (channel_of w) a b ∷ []) }
{
    UpToFourWords {
        count: 1,
        first: voice_word(MIDI1_VOICE, status, a, b, w),
        ..no_words()
    }
}

// A control change of the packet that starts with w.
fn control_word(index: u8, value: u8, w: u32) -> u32
    ensures { result ≡ write1 (group_of w) (channel_of w) (control_change1 index value) }
{
    voice_word(MIDI1_VOICE, 11, index, value, w)
}

// The address by two control changes, and the value by 6 and 38.
fn entered_by(bank_control: u8, index_control: u8, w: u32, v: u32) -> UpToFourWords
    ensures { result
        ≡ words_in w (entered bank_control (Word.byte3 w) index_control (Word.byte4 w) (down 32 14 v)) }
{
    let value = scale::down_32_to_14(v);
    UpToFourWords {
        count: 4,
        first: control_word(bank_control, byte3(w), w),
        second: control_word(index_control, byte4(w), w),
        third: control_word(6, (value / 0x80) as u8, w),
        fourth: control_word(38, (value % 0x80) as u8, w),
    }
}

// A set bank flag gives the two bank halves before the program.
fn program_down(w: u32, v: u32) -> UpToFourWords
    ensures { result ≡ words_in w (lower (program_change2 (Word.byte1 v) (bank_of w v))) }
{
    if has_bank(w) {
        UpToFourWords {
            count: 3,
            first: control_word(0, byte3(v), w),
            second: control_word(32, byte4(v), w),
            third: voice_word(MIDI1_VOICE, 12, byte1(v), 0, w),
            ..no_words()
        }
    } else {
        one_word(12, byte1(v), 0, w)
    }
}

fn bend_down(w: u32, v: u32) -> UpToFourWords
    ensures { result ≡ words_in w (pitch_bend1 (down 32 14 v) ∷ []) }
{
    let value = scale::down_32_to_14(v);
    one_word(14, (value % 0x80) as u8, (value / 0x80) as u8, w)
}

// The value of a note, of poly pressure or of a controller, by the message's status.
fn keyed_value(status: u32, v: u32) -> u8
    ensures { result ≡ keyed_value status v }
{
    if status == 8 {
        return velocity_down(v);
    }
    if status == 9 {
        sounding_velocity(velocity_down(v))
    } else {
        value_down(v)
    }
}

// Whether a MIDI 2.0 voice message is a note, poly pressure or a controller, which most are.
pub fn is_keyed(w: u32) -> bool
    ensures { result ≡ keyed (Word.status w) }
{
    let s = status(w);
    (8 <= s) & (s <= 11)
}

// Such a message keeps its status and its number, and has one word, or none if it is a controller that is only a part
// of a message.
pub fn keyed_words(w: u32, v: u32) -> UpToFourWords
    ensures { result ≡ packed (keyed_words w v) }
{
    let s = status(w);
    let n = byte3(w);
    if (s == 11) & message::is_part(n) {
        no_words()
    } else {
        one_word(s, n, keyed_value(s, v), w)
    }
}

// The messages of a checked MIDI 2.0 voice packet, as words in its group and channel.
pub fn lowered(w: u32, v: u32) -> UpToFourWords
    ensures { result ≡ words_in w (lower (read2 w v)) }
{
    if is_keyed(w) {
        return keyed_words(w, v);
    }
    let s = status(w);
    match s {
        2 => {
            if (byte3(w) == 127) & (byte4(w) == 127) {
                no_words()
            } else {
                entered_by(101, 100, w, v)
            }
        }
        3 => entered_by(99, 98, w, v),
        12 => program_down(w, v),
        13 => one_word(13, value_down(v), 0, w),
        14 => bend_down(w, v),
        // 0, 1, 4, 5, 6 and F have no form.
        _ => no_words(),
    }
}
