// What is checked of a packet: its status, and its fields in packet order, of which the first bad one
// has a place. A packet is given by its first two words, the second 0 where it has one word.
//
// Every function is total, and says what it finds by a definition of specs/.
#![tactic(auto)]

ghost use Rattle.std.specs.Prelude.{◌≡◌, not, ◌&&◌, ◌≤◌, eqb, length, map, IfSome};
ghost use Rattle.ump.specs.Word;
ghost use Rattle.fields.specs.Check.{bad_place, checked_fields, exclusive_fields, good_fields, good_status};
ghost use Rattle.fields.specs.Check.{good_unchanged, place_found};
ghost use Rattle.fields.specs.Check.{seven, system_fields, system_status, voice1_fields, voice1_status};
ghost use Rattle.fields.specs.Check.{voice2_fields};

use ump::{byte1, byte2, byte3, byte4, count, has_bank, message_type, status};

// The most that a data byte, a note, an index or a program may be.
const MOST: u8 = 127;

// How many payload bytes a packet of an exclusive has room for.
const PAYLOAD_BYTES: usize = 6;

fn is_system_status(b: u8) -> bool
    ensures { result ≡ system_status b }
{
    (b == 0xF1)
        | (b == 0xF2)
        | (b == 0xF3)
        | (b == 0xF6)
        | (b == 0xF8)
        | (b == 0xFA)
        | (b == 0xFB)
        | (b == 0xFC)
        | (b == 0xFE)
        | (b == 0xFF)
}

pub fn is_voice1_status(w: u32) -> bool
    ensures { result ≡ voice1_status w }
{
    let s = status(w);
    (8 <= s) & (s <= 14)
}

#[tactic(auto, unfolding(crate::specs::Check::good_status))]
pub fn is_good_status(w: u32) -> bool
    ensures { result ≡ good_status w }
{
    let t = message_type(w);
    match t {
        0 => status(w) <= 4,
        1 => is_system_status(byte2(w)),
        2 => is_voice1_status(w),
        3 => status(w) <= 3,
        4 => !(status(w) == 7),
        _ => true,
    }
}

// Whether a MIDI 1.0 voice message has no bad field, which is asked of most packets: two data bytes;
// program change and channel pressure have one.
#[tactic(auto, unfolding(crate::specs::Check::bad_place, crate::specs::Check::voice1_fields))]
pub fn is_good_voice1(w: u32) -> bool
    ensures { result ≡ good_fields (voice1_fields w) }
{
    let s = status(w);
    if (s == 12) | (s == 13) {
        byte3(w) <= MOST
    } else {
        (byte3(w) <= MOST) & (byte4(w) <= MOST)
    }
}

// Whether a system message has no bad field.
#[tactic(auto, unfolding(crate::specs::Check::bad_place, crate::specs::Check::system_fields))]
fn is_good_system(w: u32) -> bool
    ensures { result ≡ good_fields (system_fields w) }
{
    let b = byte2(w);
    if (b == 0xF1) | (b == 0xF3) {
        return byte3(w) <= MOST;
    }
    if b == 0xF2 {
        return (byte3(w) <= MOST) & (byte4(w) <= MOST);
    }
    true
}

// Whether a packet of an exclusive has none: bytes behind the count are not asked.
#[tactic(auto, unfolding(crate::specs::Check::bad_place, crate::specs::Check::exclusive_fields))]
fn is_good_exclusive(w: u32, v: u32) -> bool
    ensures { result ≡ good_fields (exclusive_fields w v) }
{
    let n = count(w);
    let sixth = (n < 6) | (byte4(v) <= MOST);
    let fifth = (n < 5) | (byte3(v) <= MOST);
    let fourth = (n < 4) | (byte2(v) <= MOST);
    let third = (n < 3) | (byte1(v) <= MOST);
    let second = (n < 2) | (byte4(w) <= MOST);
    let first = (n < 1) | (byte3(w) <= MOST);
    (n <= 6) & (first & (second & (third & (fourth & (fifth & sixth)))))
}

// Whether a packet is of a type that is passed on unchanged in both directions, and has no bad status or field.
#[tactic(auto, unfolding(crate::specs::Check::good_unchanged, crate::specs::Check::good_status, crate::specs::Check::checked_fields, crate::specs::Check::bad_place))]
pub fn is_good_unchanged(w: u32, v: u32) -> bool
    ensures { result ≡ good_unchanged w v }
{
    let t = message_type(w);
    match t {
        0 => status(w) <= 4,
        1 => is_system_status(byte2(w)) & is_good_system(w),
        3 => (status(w) <= 3) & is_good_exclusive(w, v),
        5 => true,
        13 => true,
        15 => true,
        _ => false,
    }
}

// Whether a MIDI 2.0 voice message has a good status and no bad field. Notes, poly pressure and controllers, which most
// of them are, have one number that is asked, and are asked for first.
#[tactic(auto, unfolding(crate::specs::Check::bad_place, crate::specs::Check::voice2_fields))]
pub fn is_good_voice2(w: u32, v: u32) -> bool
    ensures { result ≡ (not (eqb (Word.status w) 7) && good_fields (voice2_fields w v)) }
{
    let s = status(w);
    if (8 <= s) & (s <= 11) {
        return byte3(w) <= MOST;
    }
    if (2 <= s) & (s <= 5) {
        return (byte3(w) <= MOST) & (byte4(w) <= MOST);
    }
    if s == 12 {
        if has_bank(w) {
            return (byte1(v) <= MOST) & ((byte3(v) <= MOST) & (byte4(v) <= MOST));
        }
        return byte1(v) <= MOST;
    }
    if (s == 13) | (s == 14) {
        return true;
    }
    !(s == 7) & (byte3(w) <= MOST)
}

// The place of the first of some data bytes that is above its most, counted from 1.
fn first_above(bytes: &[u8]) -> Option<u32>
    requires { length bytes.now ≤ 6 }
    ensures place { result ≡ place_found (bad_place (map seven bytes.now)) }
    ensures few { IfSome result (λ place. place ≤ 6) }
{
    for (i, byte) in bytes.iter().enumerate() {
        if *byte > MOST {
            return Some(i as u32 + 1);
        }
    }
    None
}

// System messages: the data bytes that the status byte has.
#[tactic(auto, unfolding(crate::specs::Check::bad_place, crate::specs::Check::system_fields))]
fn bad_place_system(w: u32) -> Option<u32>
    ensures { result ≡ place_found (bad_place (system_fields w)) }
{
    match byte2(w) {
        0xF1 | 0xF3 => first_above(&[byte3(w)]),
        0xF2 => first_above(&[byte3(w), byte4(w)]),
        _ => None,
    }
}

// A MIDI 1.0 voice message.
#[tactic(auto, unfolding(crate::specs::Check::bad_place, crate::specs::Check::voice1_fields))]
pub fn bad_place_voice1(w: u32) -> Option<u32>
    ensures { result ≡ place_found (bad_place (voice1_fields w)) }
{
    match status(w) {
        12 | 13 => first_above(&[byte3(w)]),
        _ => first_above(&[byte3(w), byte4(w)]),
    }
}

// Exclusives: the count, and as many payload bytes; those behind the count are not asked.
#[tactic(auto, unfolding(crate::specs::Check::bad_place, crate::specs::Check::exclusive_fields))]
fn bad_place_exclusive(w: u32, v: u32) -> Option<u32>
    ensures { result ≡ place_found (bad_place (exclusive_fields w v)) }
{
    let n = count(w) as usize;
    if n <= PAYLOAD_BYTES {
        let payload = [byte3(w), byte4(w), byte1(v), byte2(v), byte3(v), byte4(v)];
        match first_above(&payload[..n]) {
            Some(place) => Some(place + 1),
            None => None,
        }
    } else {
        Some(1)
    }
}

// MIDI 2.0 voice: a note, an index, a bank and an index, or a program and the bank that its flag
// announces.
#[tactic(auto, unfolding(crate::specs::Check::bad_place, crate::specs::Check::voice2_fields))]
fn bad_place_voice2(w: u32, v: u32) -> Option<u32>
    ensures { result ≡ place_found (bad_place (voice2_fields w v)) }
{
    match status(w) {
        2..=5 => first_above(&[byte3(w), byte4(w)]),
        12 => {
            if has_bank(w) {
                first_above(&[byte1(v), byte3(v), byte4(v)])
            } else {
                first_above(&[byte1(v)])
            }
        }
        13 | 14 => None,
        _ => first_above(&[byte3(w)]),
    }
}

// The place of a packet's first bad field, if there is one.
#[tactic(auto, unfolding(crate::specs::Check::bad_place, crate::specs::Check::checked_fields))]
pub fn bad_place(w: u32, v: u32) -> Option<u32>
    ensures { result ≡ place_found (bad_place (checked_fields w v)) }
{
    match message_type(w) {
        1 => bad_place_system(w),
        2 => bad_place_voice1(w),
        3 => bad_place_exclusive(w, v),
        4 => bad_place_voice2(w, v),
        _ => None,
    }
}
