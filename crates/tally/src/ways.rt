// The ways that a packet goes, and its sort on each: up, down, out to the cable of a group, or to where it is
// only heard.
ghost use Rattle.std.specs.Prelude.{ℕ, ◌≡◌, ◌∷◌, List, drop, take};
ghost use Rattle.ump.specs.Packet.{size};
ghost use Rattle.tally.specs.Near.{down_near, heard_near, out_near, up_near};
ghost use Rattle.tally.specs.Tally.{sort_down, sort_heard, sort_out, sort_up};

use crate::{sort_found, sort_of};
use screen::open_rule;
use stream::{SENT, report};
use ump::MIDI2_VOICE;

// Which call is made at each packet.
pub trait Way: Copy {
    // The sort of the packet that stands first in some words.
    ghost sort: { Self → List ℕ → ℕ };

    // The sort of the packet at a place.
    fn sort_at(self, words: &[u32], at: usize) -> u64
        ensures { result ≡ sort self (drop at words.now) };

    // No word behind a packet has a say in its sort.
    ghost near: { (way : Self) (w : ℕ) (s : List ℕ) → sort way (take (size w) (w ∷ s)) ≡ sort way (w ∷ s) };
}

#[derive(Clone, Copy)]
pub struct Up;

#[derive(Clone, Copy)]
pub struct Down;

// Out to the cable of a group.
#[derive(Clone, Copy)]
pub struct Out(pub u8);

// Heard and not translated, so that no type is a wrong one.
#[derive(Clone, Copy)]
pub struct Heard;

impl Way for Up {
    ghost sort = { λ _ s. sort_up s };

    ghost near = { λ _ w s. up_near w s };

    // The screening alone refuses.
    fn sort_at(self, words: &[u32], at: usize) -> u64 {
        sort_found(screen::screen(Some(MIDI2_VOICE), ump::packet_at(words, at)))
    }
}

impl Way for Down {
    ghost sort = { λ _ s. sort_down s };

    ghost near = { λ _ w s. down_near w s };

    // The packet is lowered once more, into words that nobody reads: it may have no form.
    fn sort_at(self, words: &[u32], at: usize) -> u64 {
        let mut four = [0u32; 4];
        let done = voice::down(words, report(SENT, at, 0), &mut four, open_rule());
        sort_of(done.answer, done.place)
    }
}

impl Way for Out {
    ghost sort = { λ way s. sort_out way.0 s };

    ghost near = { λ way w s. out_near way.0 w s };

    // The screening alone refuses here as well.
    fn sort_at(self, words: &[u32], at: usize) -> u64 {
        sort_found(outlet::screen_out(self.0, ump::packet_at(words, at)))
    }
}

impl Way for Heard {
    ghost sort = { λ _ s. sort_heard s };

    ghost near = { λ _ w s. heard_near w s };

    // The screening alone refuses, as it does going up.
    fn sort_at(self, words: &[u32], at: usize) -> u64 {
        sort_found(screen::screen(None, ump::packet_at(words, at)))
    }
}
