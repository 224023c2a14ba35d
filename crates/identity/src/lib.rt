// Maker identities: from the old form, one byte or 00 and two bytes, to the form of 16 bits and back.
//
// Neither turn has a `requires`. Each says by the definitions of specs/ what it hands back, on every
// input, and an identity without counterpart is an answer of its own. That a turn there and back changes
// nothing, and what exactly has no counterpart, is claimed of the same definitions.
#![tactic(auto)]

ghost use Rattle.std.specs.Prelude.{◌≡◌};
ghost use Rattle.identity.specs.Identity.{identity_from, maker_from, new_of, old_of};
ghost use Rattle.identity.specs.Claims.{Counterparts, Examples, ThereAndBack};

use stream::{ANSWERED, NO_COUNTERPART};

// Kept: C has no `Option`, so an answer stands beside the number.
// The number of an identity, or 0 where it has none.
#[repr(C)]
#[derive(Clone, Copy)]
pub struct Identity {
    pub answer: u32,
    pub number: u32,
}

// Kept: C has no slice to hand back, so a count stands beside the bytes.
// The bytes of an identity, of which the first `count` count, or none. The others are 0.
#[repr(C)]
#[derive(Clone, Copy)]
pub struct Maker {
    pub answer: u32,
    pub count: u32,
    pub bytes: [u8; 4],
}

// The most that a byte of an identity may be.
const MOST: u8 = 127;

// The bit of a number that tells three bytes from one.
const THREE_BYTES: u16 = 0x8000;

// The number of an old form: of one byte, or of three, of which the first has to be 0.
#[tactic(auto, unfolding(crate::specs::Identity::new_of))]
fn number_of(old: &[u8]) -> Option<u16>
    ensures { result ≡ new_of old.now }
{
    match old {
        [byte] if (1 <= *byte) & (*byte <= MOST) => Some(u16::from(*byte)),
        [0, high, low] if (*high <= MOST) & (*low <= MOST) => {
            Some(THREE_BYTES + u16::from(*high) * 0x100 + u16::from(*low))
        }
        _ => None,
    }
}

// The form of 16 bits of an old identity.
#[tactic(auto, unfolding(crate::specs::Identity::identity_from))]
pub fn identity_new(old: &[u8]) -> Identity
    ensures { result ≡ identity_from (new_of old.now) }
{
    match number_of(old) {
        Some(number) => Identity {
            answer: ANSWERED,
            number: u32::from(number),
        },
        None => Identity {
            answer: NO_COUNTERPART,
            number: 0,
        },
    }
}

// The old form of an identity of 16 bits: three bytes from bit 15 on, unless bit 7 is set, or one byte.
#[tactic(auto, unfolding(crate::specs::Identity::old_of, crate::specs::Identity::maker_from))]
pub fn identity_old(number: u16) -> Maker
    ensures { result ≡ maker_from (old_of number) }
{
    if (THREE_BYTES <= number) & (number / 0x80 % 2 == 0) {
        Maker {
            answer: ANSWERED,
            count: 3,
            bytes: [0, (number / 0x100 % 0x80) as u8, (number % 0x80) as u8, 0],
        }
    } else if (1 <= number) & (number <= u16::from(MOST)) {
        Maker {
            answer: ANSWERED,
            count: 1,
            bytes: [number as u8, 0, 0, 0],
        }
    } else {
        Maker {
            answer: NO_COUNTERPART,
            count: 0,
            bytes: [0; 4],
        }
    }
}

// Turned one way and back, an identity is the same, from either side.
pub fn there_and_back()
    ensures { ThereAndBack }
{}

// Those that are listed have no counterpart, and no others.
pub fn counterparts()
    ensures { Counterparts }
{}

// The worked examples, either way.
pub fn examples()
    ensures { Examples }
{}
