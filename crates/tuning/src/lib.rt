// The tuning desk: what sounds on one channel, and the pitch of each note that does. It hears the sound
// MIDI 2.0 voice messages of its channel, and is asked for one note at a time.
//
// Every function is total, and says what the desk is after it, or what it shows, by a definition of
// specs/. A pitch that is shown is exact.
#![tactic(auto)]

ghost use Rattle.std.specs.Prelude.{◌≡◌};
ghost use Rattle.std.specs.Result.{result_ok};
ghost use Rattle.ump.specs.Word.{data1 as note_of};
ghost use Rattle.pitch.specs.Dyadic.{Dyadic};
ghost use Rattle.pitch.specs.Pitch.{float_of};
ghost use Rattle.tuning.specs.Desk.{acted, answer_at, answer_of, base_for, ends_all, fresh, heard, is_for};
ghost use Rattle.tuning.specs.Desk.{message_of, range_of, silenced, sound_of, whole_at, with_pitch, with_sound};

use pitch::{Base, Shown, show};
use screen::screen;
use stream::{BAD_RANGE, NOT_SOUNDING};
use ump::{
    Channel, Group, MIDI2_VOICE, byte3, byte4, channel_of, data1, group_of, message_type,
    packet_at, status, word_at,
};

// How many notes a channel has.
pub const NOTES: usize = 128;

// Where the bend of a channel starts.
const CENTRE: u32 = 0x80000000;

// The attribute type of a Note On, and the registered per-note controller, that are a pitch.
const PITCH: u8 = 3;

// The controllers that end all notes.
const ALL_SOUND_OFF: u8 = 120;

const ALL_NOTES_OFF: u8 = 123;

// The most units that a range may have.
const MOST_UNITS: u32 = 127;

// Whether a note sounds, and with its own pitch, which its Note On brought as Pitch 7.9.
#[derive(Clone, Copy)]
pub enum Sound {
    Silent,
    Plain,
    At(u16),
}

// What is known of a note number: whether it sounds, and the Pitch 7.25 that came last for it.
#[derive(Clone, Copy)]
pub struct Key {
    pub sound: Sound,
    pub tuned: Option<u32>,
}

// What is known of the desk's channel: its bend, and what is known of each note number.
#[derive(Clone, Copy)]
pub struct Desk {
    pub group: Group,
    pub channel: Channel,
    pub bend: u32,
    pub keys: [Key; NOTES],
}

// Why nothing is shown of a note.
#[derive(Clone, Copy)]
pub enum NotShown {
    BadRange,
    NotSounding,
}

impl NotShown {
    // The number of the answer that says so.
    pub fn answer(self) -> u32
        ensures { result ≡ answer_of self }
    {
        match self {
            NotShown::BadRange => BAD_RANGE,
            NotShown::NotSounding => NOT_SOUNDING,
        }
    }
}

// A desk that has heard nothing yet.
#[tactic(auto, unfolding(crate::specs::Desk::fresh))]
pub fn fresh_desk(group: Group, channel: Channel) -> Desk
    ensures { result ≡ fresh group channel }
{
    let key = Key {
        sound: Sound::Silent,
        tuned: None,
    };
    Desk {
        group,
        channel,
        bend: CENTRE,
        keys: [key; NOTES],
    }
}

// The desk where the note of a packet sounds so.
fn with_sound(desk: Desk, w: u32, sound: Sound) -> Desk
    ensures { result ≡ with_sound desk (note_of w) sound }
{
    let mut keys = desk.keys;
    keys[data1(w) as usize].sound = sound;
    Desk { keys, ..desk }
}

// The desk where Pitch 7.25 came for the note of a packet.
fn with_pitch(desk: Desk, w: u32, v: u32) -> Desk
    ensures { result ≡ with_pitch desk (note_of w) v }
{
    let mut keys = desk.keys;
    keys[data1(w) as usize].tuned = Some(v);
    Desk { keys, ..desk }
}

// The desk where no note sounds.
fn silent(desk: Desk) -> Desk
    ensures { result ≡ silenced desk }
{
    let mut keys = desk.keys;
    for key in &mut keys {
        *key = Key {
            sound: Sound::Silent,
            ..*key
        };
    }
    Desk { keys, ..desk }
}

// How the note of a Note On sounds.
fn sound_of(w: u32, v: u32) -> Sound
    ensures { result ≡ sound_of w v }
{
    if byte4(w) == PITCH {
        return Sound::At((v % 0x10000) as u16);
    }
    Sound::Plain
}

// Whether a controller ends all notes.
fn ends_all(index: u8) -> bool
    ensures { result ≡ ends_all index }
{
    (index == ALL_SOUND_OFF) | (index == ALL_NOTES_OFF)
}

// What a MIDI 2.0 voice message of the channel makes of the desk, by its two words.
#[tactic(auto, unfolding(crate::specs::Desk::acted, crate::specs::Desk::message_of))]
fn act(desk: Desk, w: u32, v: u32) -> Desk
    ensures { result ≡ acted desk (message_of w v) }
{
    match status(w) {
        0 if byte4(w) == PITCH => with_pitch(desk, w, v),
        8 => with_sound(desk, w, Sound::Silent),
        9 => with_sound(desk, w, sound_of(w, v)),
        11 if ends_all(byte3(w)) => silent(desk),
        14 => Desk { bend: v, ..desk },
        _ => desk,
    }
}

// Whether a packet is a MIDI 2.0 voice message of the desk's channel, by its first word.
fn is_for(desk: Desk, w: u32) -> bool
    ensures { result ≡ is_for desk.group desk.channel w }
{
    (message_type(w) == MIDI2_VOICE)
        & ((group_of(w) == desk.group) & (channel_of(w) == desk.channel))
}

// Hears the packet at the start of the words. One that is cut, not sound, or not of the channel changes
// nothing.
#[tactic(auto, unfolding(crate::specs::Desk::heard, crate::specs::Desk::said, crate::specs::Desk::acted))]
pub fn hear(desk: Desk, words: &[u32]) -> Desk
    ensures { result ≡ heard desk words.now }
{
    let packet = packet_at(words, 0);
    let w = word_at(packet, 0);
    let v = word_at(packet, 1);
    if screen(None, packet).is_ok() & is_for(desk, w) {
        act(desk, w, v)
    } else {
        desk
    }
}

// What a note is counted from, where it sounds.
fn base_for(key: Key, note: u8) -> Result<Base, NotShown>
    ensures { result ≡ base_for key.sound key.tuned note }
{
    match key.sound {
        Sound::Silent => Err(NotShown::NotSounding),
        Sound::Plain => Ok(match key.tuned {
            None => Base::Number(note),
            Some(w) => Base::Pitch725(w),
        }),
        Sound::At(h) => Ok(Base::Pitch79(h)),
    }
}

// The range in units, where it may be one.
fn range_of(units: u32, cents: u32) -> Result<u8, NotShown>
    ensures { result ≡ range_of units cents }
{
    if (cents == 0) & (units <= MOST_UNITS) {
        Ok(units as u8)
    } else {
        Err(NotShown::BadRange)
    }
}

// What is shown of a note, where the range of the bend is given as units and cents.
#[tactic(auto, unfolding(crate::specs::Desk::asked_at, crate::specs::Desk::answer_as, crate::specs::Desk::whole_as))]
pub fn ask(desk: Desk, note: u8, units: u32, cents: u32) -> Result<Shown, NotShown>
    ensures answer { result ≡ answer_at desk note units cents }
    ensures exact { Dyadic 42 31 (float_of (result_ok result)) (whole_at desk note units cents) }
{
    let k = note as usize;
    if k >= NOTES {
        return Err(NotShown::NotSounding);
    }
    let base = base_for(desk.keys[k], note)?;
    let range = range_of(units, cents)?;
    Ok(show(base, desk.bend, range))
}
