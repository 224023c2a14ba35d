// What is asked of a packet before its chain: a yes or no, since most packets are of no chain, and what
// refuses one is worked out only where it is refused.
ghost use Rattle.std.specs.Prelude.{◌≡◌, ◌&&◌, eqb, leb, length};
ghost use Rattle.ump.specs.Word.{message_type, status};
ghost use Rattle.ump.specs.Word;
ghost use Rattle.ump.specs.Packet.{packet};
ghost use Rattle.fields.specs.Check.{good_unchanged};
ghost use Rattle.screen.specs.Screen.{goes_on, neither_type, screen};
ghost use Rattle.piece.specs.Piece.{exclusive};
ghost use Rattle.chains.specs.Collect.{refusal_of};
ghost use Rattle.chains.specs.Turn.{whole_by};

use piece::{EXCLUSIVE, FLEX, has_strange_address};
use ump::{MIDI1_VOICE, MIDI2_VOICE, byte1, byte2, byte3, byte4, message_type, size};

// The most that a byte of an exclusive may be.
const MOST: u8 = 127;

// How many words the packet at the start of the words has, where it is whole.
pub(crate) fn whole_size(words: &[u32]) -> Option<usize>
    ensures { result ≡ whole_by (length (packet words.now)) }
{
    if words.is_empty() {
        return None;
    }
    let n = size(words[0]);
    if words.len() < n {
        return None;
    }
    Some(n)
}

// Whether the status and the six bytes of an exclusive's packet are good, which most of them have.
// Kept: with the check of what passes unchanged alone, a run of the collector took an eighth longer.
fn is_good_six(w: u32, v: u32) -> bool
    ensures { result ≡ (leb (status w) 3
        && (leb (Word.byte3 w) 127 && (leb (Word.byte4 w) 127 && (leb (Word.byte1 v) 127
        && (leb (Word.byte2 v) 127 && (leb (Word.byte3 v) 127 && leb (Word.byte4 v) 127)))))) }
{
    (ump::status(w) <= 3)
        & ((byte3(w) <= MOST)
            & ((byte4(w) <= MOST)
                & ((byte1(v) <= MOST)
                    & ((byte2(v) <= MOST) & ((byte3(v) <= MOST) & (byte4(v) <= MOST))))))
}

#[tactic(auto, using(crate::proofs::AskLaws::six_good))]
fn is_good_exclusive(w: u32, v: u32) -> bool
    requires { message_type w ≡ exclusive }
    ensures { result ≡ good_unchanged w v }
{
    if ump::count(w) == 6 {
        return is_good_six(w, v);
    }
    fields::is_good_unchanged(w, v)
}

// Whether the chain of the whole packet at the start of the words is asked: it is a good one of the two
// sorts, and its address is none of the strange ones.
pub(crate) fn is_asked(words: &[u32]) -> bool
    requires { length (packet words.now) ≡ 0 → ⊥ }
    ensures { result ≡ eqb (refusal_of words.now) goes_on }
{
    let w = words[0];
    let t = message_type(w);
    if t == EXCLUSIVE {
        return is_good_exclusive(w, words[1]);
    }
    if t == FLEX {
        return !has_strange_address(w);
    }
    false
}

// Whether nothing is bad in the packet at the start of the words, of any type, which has so many words.
pub(crate) fn is_good(words: &[u32], n: usize) -> bool
    requires { (n ≡ length (packet words.now)) × (n ≡ 0 → ⊥) }
    ensures { result ≡ eqb (screen neither_type (packet words.now)).answer goes_on }
{
    let w = words[0];
    let t = message_type(w);
    if t == MIDI1_VOICE {
        return fields::is_voice1_status(w) & fields::is_good_voice1(w);
    }
    if t == MIDI2_VOICE {
        return fields::is_good_voice2(w, words[1]);
    }
    if n < 2 {
        return fields::is_good_unchanged(w, 0);
    }
    fields::is_good_unchanged(w, words[1])
}
