// One packet going up. A MIDI 1.0 voice message, which most packets are, is one word: it is asked for
// before the packet is cut out.
ghost use Rattle.std.specs.Prelude.{◌≡◌, ◌||◌, [], ◌∷◌, ◌+◌, ◌<◌, ◌^◌};
ghost use Rattle.ump.specs.Word.{message_type, voice1, voice2};
ghost use Rattle.screen.specs.Screen.{screen_by, screened};
ghost use Rattle.channel.specs.Record.{sound};
ghost use Rattle.message.specs.Message.{read1};
ghost use Rattle.lift.specs.Lift.{effect_of};
ghost use Rattle.voice.specs.Packet.{effect_at, packet_if, speak_if, spoken};
ghost use Rattle.voice.specs.Turn.{next, output_of, turned};

use crate::EffectAndReport;
use crate::output::{onward, refuse};
use channel::Record;
use effect::Effect;
use lift::UpwardMessage;
use screen::Rule;
use stream::{Done, NO_ROOM, NOT_SOUND, SENT, TAKEN_IN, report};
use ump::{MIDI1_VOICE, MIDI2_VOICE};

// The record stays.
fn stays(record: Record, done: Done) -> EffectAndReport
    ensures { result ≡ record { after = «record».memory; effect = Effect.Leaves; done = done } }
{
    let after = record.memory;
    EffectAndReport {
        after,
        effect: Effect::Leaves,
        done,
    }
}

// The message has its effect.
fn acts(message: UpwardMessage, done: Done) -> EffectAndReport
    ensures { result ≡ record { after = message.after; effect = message.effect; done = done } }
{
    let after = message.after;
    EffectAndReport {
        after,
        effect: message.effect,
        done,
    }
}

// A checked message with its sound record: its two words, or none, into the output.
fn speak(past: Done, record: Record, w: u32, out: &mut [u32]) -> EffectAndReport
    requires { past.read + 1 < 2 ^ 64 }
    ensures turn { result
        ≡ turned past (w ∷ []) out.old «record» (effect_of (read1 w)) (spoken «record» w) }
    ensures output { out.new ≡ output_of past out.old (spoken «record» w) }
{
    let memory = record.memory;
    let message = lift::lifted(memory, w);
    let read = past.read;
    let to = past.written;
    match message.sends {
        Some(words) => {
            if out.len().saturating_sub(to) < 2 {
                return stays(record, report(NO_ROOM, read, to));
            }
            out[to] = words.first;
            out[to + 1] = words.second;
            acts(message, report(SENT, read + 1, to + 2))
        }
        None => acts(message, report(TAKEN_IN, read + 1, to)),
    }
}

// A MIDI 1.0 voice message, by its one word, under a rule. It is screened once: what is found lets it go on to its
// record, or is what refuses it.
fn voice_up(
    past: Done,
    record: Record,
    known: bool,
    w: u32,
    out: &mut [u32],
    rule: Rule,
) -> EffectAndReport
    requires { (past.read + 1 < 2 ^ 64) × (message_type w ≡ voice1) }
    ensures turn { result ≡ turned past (w ∷ []) out.old «record» (effect_of (read1 w))
        (screened (screen_by rule voice2 (w ∷ [])) «record» (speak_if (known || sound «record») «record» w)) }
    ensures output { out.new ≡ output_of past out.old
        (screened (screen_by rule voice2 (w ∷ [])) «record» (speak_if (known || sound «record») «record» w)) }
{
    let memory = record.memory;
    match screen::screen_voice1(rule, w) {
        Ok(()) => {
            // What a channel remembers is not asked where it is known to be sound.
            if known || memory.is_sound() {
                speak(past, record, w, out)
            } else {
                stays(record, report(NOT_SOUND, past.read, past.written))
            }
        }
        Err(refusal) => stays(record, refuse(past, refusal, 1)),
    }
}

// The packet that is next in the words, with its record, whether that is known to be sound, and under a
// rule.
pub fn up(
    words: &[u32],
    past: Done,
    record: Record,
    known: bool,
    out: &mut [u32],
    rule: Rule,
) -> EffectAndReport
    ensures turn { result ≡ turned past (next words.now past) out.old «record»
        (effect_at (next words.now past))
        (packet_if rule (known || sound «record») «record» (next words.now past)) }
    ensures output { out.new ≡ output_of past out.old
        (packet_if rule (known || sound «record») «record» (next words.now past)) }
{
    let at = past.read;
    let w = ump::word_at(words, at);
    if ump::message_type(w) == MIDI1_VOICE {
        voice_up(past, record, known, w, out, rule)
    } else {
        let done = onward(MIDI2_VOICE, past, ump::packet_at(words, at), out, rule);
        stays(record, done)
    }
}
