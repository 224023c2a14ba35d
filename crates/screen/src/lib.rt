// The screening of a packet: whatever can refuse it before it acts, in one place for both
// directions. It asks the type (answers 3, 4 and 5), then the fence (13), then the status (6), then the
// fields in packet order (7), then the rule of the room (23), and needs no channel record.
//
// Every function is total, and says what it finds by a definition of specs/.
#![tactic(auto)]

ghost use Rattle.std.specs.Prelude.{◌≡◌, ◌<◌};
ghost use Rattle.stream.specs.Answers.{bad_data};
ghost use Rattle.fields.specs.Check.{checked_fields, good_status};
ghost use Rattle.screen.specs.Screen.{admitted, answering, beginners_controller};
ghost use Rattle.screen.specs.Screen.{check_voice1, checking, for_beginners, group_bit, grouped};
ghost use Rattle.screen.specs.Screen.{open_rule, outside, reserved, screen_by};
ghost use Rattle.screen.specs.Screen.{judged, ruled, screen_voice1, wrong_of};
ghost use Rattle.screen.specs.Downward.{lets_down};
ghost use Rattle.screen.specs.Screen;

use stream::{BAD_DATA, BAD_STATUS, CUT, NOT_FOR_ROOM, NOT_YOURS, RESERVED, WRONG_PROTOCOL};
use ump::{Group, MIDI1_VOICE, MIDI2_VOICE, message_type, word_at};

// What refuses a packet before it acts: the answer, and the place of the first bad field, which is 0 with
// every answer but `BAD_DATA`.
#[derive(Clone, Copy, PartialEq, Eq)]
pub struct Refusal {
    pub answer: u32,
    pub place: u32,
}

// What is asked of a packet besides: of a good one whether it is for the beginners' room; and of one
// with a group whether that lies behind the fence, if there is one: its number has the bits of such groups.
#[derive(Clone, Copy)]
pub struct Rule {
    pub beginners: bool,
    pub fence: Option<u32>,
}

// Nothing is asked besides.
pub fn open_rule() -> Rule
    ensures { result ≡ open_rule }
{
    Rule {
        beginners: false,
        fence: None,
    }
}

// Whether a message type is reserved.
pub fn is_reserved(t: u32) -> bool
    ensures { result ≡ reserved t }
{
    ((6 <= t) & (t <= 12)) | (t == 14)
}

// Whether the packets of a message type have a group.
fn is_grouped(t: u32) -> bool
    ensures { result ≡ grouped t }
{
    ((1 <= t) & (t <= 5)) | (t == 13)
}

// Whether a group's bit is set.
fn has_group(groups: u32, group: Group) -> bool
    requires { group.0 < 16 }
    ensures { result ≡ group_bit groups group.0 }
{
    let g = group.0;
    (groups >> (g as u32)) % 2 == 1
}

// Whether a packet lies outside the fence, by its first word.
#[tactic(auto, unfolding(crate::specs::Screen::outside))]
fn is_outside(rule: Rule, w: u32) -> bool
    ensures { result ≡ outside rule w }
{
    match rule.fence {
        None => false,
        Some(groups) => is_grouped(message_type(w)) & !has_group(groups, ump::group_of(w)),
    }
}

fn is_beginners_controller(i: u8) -> bool
    ensures { result ≡ beginners_controller i }
{
    (i == 1) | (i == 7) | (i == 64) | (i == 120) | (i == 121) | (i == 123)
}

// Whether a good packet is for the beginners' room, by its first word.
fn is_for_beginners(w: u32) -> bool
    ensures { result ≡ for_beginners w }
{
    let t = message_type(w);
    let s = ump::status(w);
    let listed = is_beginners_controller(ump::data1(w));
    let voice = (s == 8) | (s == 9) | (s == 14) | ((s == 11) & listed);
    (t == 0) | ((t == MIDI1_VOICE) & voice)
}

impl Refusal {
    // Without a place.
    pub fn by(answer: u32) -> Refusal
        ensures { result ≡ record { answer = answer; place = 0 } }
    {
        Refusal { answer, place: 0 }
    }

    // By the place of the first bad field.
    pub fn bad_field(place: u32) -> Refusal
        ensures { result ≡ record { answer = bad_data; place = place } }
    {
        Refusal {
            answer: BAD_DATA,
            place,
        }
    }
}

// Whether a rule lets a good packet pass.
#[tactic(auto, unfolding(crate::specs::Screen::admitted))]
fn admit(rule: Rule, w: u32) -> Result<(), Refusal>
    ensures { result ≡ judged (answering (admitted rule w)) }
{
    if rule.beginners && !is_for_beginners(w) {
        return Err(Refusal::by(NOT_FOR_ROOM));
    }
    Ok(())
}

// A packet by its first two words, the second 0 where it has one word.
fn check(rule: Rule, w: u32, v: u32) -> Result<(), Refusal>
    ensures { result ≡ judged (checking (good_status w) (checked_fields w v) (admitted rule w)) }
{
    if !fields::is_good_status(w) {
        return Err(Refusal::by(BAD_STATUS));
    }
    if let Some(place) = fields::bad_place(w, v) {
        return Err(Refusal::bad_field(place));
    }
    admit(rule, w)
}

// A MIDI 1.0 voice message by its one word, where no rule asks anything: the check that the translation
// upward asks most. The place is worked out only where a field is bad.
#[tactic(auto, unfolding(crate::specs::Screen::check_voice1))]
fn check_voice1(w: u32) -> Result<(), Refusal>
    ensures { result ≡ judged (check_voice1 w) }
{
    if !fields::is_voice1_status(w) {
        return Err(Refusal::by(BAD_STATUS));
    }
    if fields::is_good_voice1(w) {
        return Ok(());
    }
    match fields::bad_place_voice1(w) {
        None => Ok(()),
        Some(place) => Err(Refusal::bad_field(place)),
    }
}

// A packet, or the empty part where none is whole, where voice messages of the type `wrong`, if one is given, are
// refused, under a rule.
#[tactic(auto, unfolding(crate::specs::Screen::screen_by))]
pub fn screen_by(rule: Rule, wrong: Option<u32>, packet: &[u32]) -> Result<(), Refusal>
    ensures { result ≡ judged (screen_by rule (wrong_of wrong) packet.now) }
{
    if packet.is_empty() {
        return Err(Refusal::by(CUT));
    }
    let w = word_at(packet, 0);
    let t = message_type(w);
    if is_reserved(t) {
        return Err(Refusal::by(RESERVED));
    }
    if wrong == Some(t) {
        return Err(Refusal::by(WRONG_PROTOCOL));
    }
    if is_outside(rule, w) {
        return Err(Refusal::by(NOT_YOURS));
    }
    check(rule, w, word_at(packet, 1))
}

// Whether a rule asks anything.
pub fn is_ruled(rule: Rule) -> bool
    ensures { result ≡ ruled rule }
{
    rule.beginners | rule.fence.is_some()
}

// Whether a rule lets a packet pass that goes down, by its first word. Of those only MT 0 is for the beginners' room.
pub fn lets_down(rule: Rule, w: u32) -> bool
    ensures { result ≡ lets_down rule w }
{
    if is_ruled(rule) {
        !is_outside(rule, w) & (!rule.beginners | (message_type(w) == 0))
    } else {
        true
    }
}

// A MIDI 1.0 voice message going up under a rule, by its one word.
#[tactic(auto, unfolding(crate::specs::Screen::screen_voice1))]
pub fn screen_voice1(rule: Rule, w: u32) -> Result<(), Refusal>
    ensures { result ≡ judged (screen_voice1 rule w) }
{
    if is_ruled(rule) {
        screen_by(rule, Some(MIDI2_VOICE), &[w])
    } else {
        check_voice1(w)
    }
}

// The same where no rule holds.
pub fn screen(wrong: Option<u32>, packet: &[u32]) -> Result<(), Refusal>
    ensures { result ≡ judged (Screen.screen (wrong_of wrong) packet.now) }
{
    screen_by(open_rule(), wrong, packet)
}
