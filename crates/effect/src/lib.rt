// What a message does to its channel's record: it presses or releases keys, or changes what is
// remembered, or leaves the record as it is. No message does two of these.
//
// `effected` is total, and says the record after by the definition of specs/.
#![tactic(auto)]

ghost use Rattle.std.specs.Prelude.{◌≡◌};
ghost use Rattle.effect.specs.Effect.{effected, numbered};

use channel::Record;
use keys::Keys;
use memory::Memory;

// What a message does: the record stays, what is remembered changes, all keys are released, or the
// message's own key is released or pressed.
#[derive(Clone, Copy, PartialEq, Eq)]
pub enum Effect {
    Leaves,
    Remembers,
    ReleasesAll,
    Releases,
    Presses,
}

// Every number names an effect, so that a caller who has a number can ask what it does.
impl From<u32> for Effect {
    ghost from_gives = { λ number effect. effect ≡ numbered number };

    #[tactic(auto, unfolding(crate::specs::Effect::numbered))]
    fn from(number: u32) -> Effect {
        match number {
            0 => Effect::Leaves,
            1 => Effect::Remembers,
            2 => Effect::ReleasesAll,
            9 => Effect::Presses,
            _ => Effect::Releases,
        }
    }
}

// The record after an effect, with what is then remembered and the message's key.
#[tactic(auto, unfolding(crate::specs::Effect::effected))]
pub fn effected(record: Record, effect: Effect, after: Memory, key: u8) -> Record
    ensures { result ≡ effected «record» effect after key }
{
    match effect {
        Effect::Leaves => record,
        Effect::Remembers => Record {
            memory: after,
            ..record
        },
        Effect::ReleasesAll => Record {
            keys: Keys::cleared(),
            ..record
        },
        Effect::Releases | Effect::Presses => Record {
            keys: record.keys.with_key(key, effect == Effect::Presses),
            ..record
        },
    }
}
