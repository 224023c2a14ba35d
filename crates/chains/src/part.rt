// One piece into one chain and its part of the buffer.
ghost use Rattle.std.specs.Prelude.{◌≡◌, [], ◌∷◌, ◌+◌, ◌≤◌, ◌<◌, cond, get_or, length};
ghost use Rattle.std.proofs.Math.Seq.{paste};
ghost use Rattle.std.proofs.lemmas.List.Edits.{sets};
ghost use Rattle.ump.specs.Word;
ghost use Rattle.stream.specs.Answers.{sent, taken_in};
ghost use Rattle.piece.specs.Piece.{exclusive_bytes, flex_bytes};
ghost use Rattle.chains.specs.Step.{base_of, begins, finishes, part_of, refused_by, step_of, strays, verdict};
ghost use Rattle.chains.specs.Step;
ghost use Rattle.chains.specs.Collect.{part_at, share, with_part};
ghost use Rattle.chains.specs.Turn.{Standing, answered, bare, number_of, piece_at};

use crate::{CHAINS, Chain};
use piece::{EXCLUSIVE_BYTES, FLEX, Format, Head, head_of};
use stream::{OUT_OF_TURN, SENT, TAKEN_IN, TOO_LONG, TOO_MANY_PACKETS};
use ump::{byte1, byte2, byte3, byte4, message_type};

// The most packets that a chain may have.
const MOST_PACKETS: u32 = 32;

// Why a piece is refused.
#[derive(Clone, Copy, PartialEq, Eq)]
pub(crate) enum Refusal {
    OutOfTurn,
    TooManyPackets,
    TooLong,
}

impl From<Refusal> for u32 {
    ghost from_gives = { λ refusal answer. answer ≡ number_of refusal };

    fn from(refusal: Refusal) -> u32 {
        match refusal {
            Refusal::OutOfTurn => OUT_OF_TURN,
            Refusal::TooManyPackets => TOO_MANY_PACKETS,
            Refusal::TooLong => TOO_LONG,
        }
    }
}

// A step on one chain: what it answers, and the chain after it.
#[derive(Clone, Copy)]
pub(crate) struct Stepped {
    pub answer: u32,
    pub chain: Chain,
}

// Where the next bytes go.
#[tactic(auto, unfolding(crate::specs::Step::base_of))]
fn base_of(c: Chain) -> usize
    ensures { result ≡ base_of c }
{
    if c.packets == 0 { 0 } else { c.length }
}

fn is_first(x: Head) -> bool
    ensures { result ≡ begins (bare x) }
{
    matches!(x.format, Format::Complete | Format::Start)
}

fn is_last(x: Head) -> bool
    ensures { result ≡ finishes (bare x) }
{
    matches!(x.format, Format::Complete | Format::End)
}

// Whether a piece comes out of turn.
#[tactic(auto, unfolding(crate::specs::Step::strays))]
fn is_stray(c: Chain, x: Head) -> bool
    ensures { result ≡ strays c (bare x) }
{
    if c.packets == 0 {
        return !is_first(x);
    }
    is_first(x) | (c.shared != x.shared)
}

// Whether a piece is taken. Whether it fits is asked by differences, so that no length can be too large.
#[tactic(auto, unfolding(crate::specs::Step::verdict_by))]
fn check(c: Chain, x: Head, room: usize) -> Result<(), Refusal>
    ensures { answered result (finishes (bare x)) ≡ verdict c room (bare x) }
{
    if is_stray(c, x) {
        return Err(Refusal::OutOfTurn);
    }
    if MOST_PACKETS <= c.packets {
        return Err(Refusal::TooManyPackets);
    }
    let base = base_of(c);
    if (room < base) || (room - base < x.count) {
        return Err(Refusal::TooLong);
    }
    Ok(())
}

// How many packets the chain has with the piece in it.
#[tactic(auto, unfolding(crate::specs::Step::grown))]
fn packets_with(c: Chain, x: Head) -> u32
    requires { c.packets + x.adds ≤ 4294967295 }
    ensures { result ≡ (Step.grown c (bare x)).packets }
{
    if is_last(x) {
        return 0;
    }
    if c.packets == 0 {
        1
    } else {
        c.packets + x.adds
    }
}

// The chain with the piece in it.
#[tactic(auto, unfolding(crate::specs::Step::grown))]
fn grown(c: Chain, x: Head) -> Chain
    requires { (c.packets + x.adds ≤ 4294967295) × (base_of c + x.count ≤ 18446744073709551615) }
    ensures { result ≡ Step.grown c (bare x) }
{
    Chain {
        length: base_of(c) + x.count,
        shared: x.shared,
        packets: packets_with(c, x),
    }
}

// What a piece that is taken answers.
fn answer_taken(x: Head) -> u32
    ensures { result ≡ cond (finishes (bare x)) sent taken_in }
{
    if is_last(x) { SENT } else { TAKEN_IN }
}

// The chain after a refusal: with none open nothing is dropped.
#[tactic(auto, unfolding(crate::specs::Step::refused_by))]
fn refused(refusal: Refusal, c: Chain) -> Chain
    ensures { result ≡ refused_by (number_of refusal) c }
{
    match refusal {
        Refusal::OutOfTurn if c.packets == 0 => c,
        _ => crate::closed_chain(),
    }
}

// Stores the four bytes of a word from a place on.
fn put_word(part: &mut [u8], at: usize, w: u32)
    requires { at + 4 ≤ length part.old }
    ensures { part.new ≡ sets part.old at
        (Word.byte1 w ∷ Word.byte2 w ∷ Word.byte3 w ∷ Word.byte4 w ∷ []) }
{
    part[at..at + 4].copy_from_slice(&w.to_be_bytes());
}

// Stores the twelve bytes of Flex Data, whose packet the words begin with.
fn put_flex(part: &mut [u8], base: usize, words: &[u32])
    requires { (base + 12 ≤ length part.old) × (4 ≤ length words.now) }
    ensures { part.new ≡ paste part.old base
        (flex_bytes (get_or words.now 1 0) (get_or words.now 2 0) (get_or words.now 3 0)) 12 }
{
    put_word(part, base, words[1]);
    put_word(part, base + 4, words[2]);
    put_word(part, base + 8, words[3]);
}

// Stores the first N bytes of an exclusive's packet. N is known where this is called, so the copy is a few stores, and
// the archive asks no other library for it.
fn put_first<const N: usize>(part: &mut [u8], base: usize, w: u32, v: u32)
    requires { (base + N ≤ length part.old) × (N ≤ 6) }
    ensures { part.new ≡ paste part.old base (exclusive_bytes w v) N }
{
    let bytes = [byte3(w), byte4(w), byte1(v), byte2(v), byte3(v), byte4(v)];
    part[base..base + N].copy_from_slice(&bytes[..N]);
}

// Stores so many bytes of an exclusive's packet as its count says. Most packets have all six, which is asked first.
fn put_exclusive(part: &mut [u8], base: usize, w: u32, v: u32, n: usize)
    requires { (base + n ≤ length part.old) × (n ≤ 6) }
    ensures { part.new ≡ paste part.old base (exclusive_bytes w v) n }
{
    if n == EXCLUSIVE_BYTES {
        put_first::<EXCLUSIVE_BYTES>(part, base, w, v);
        return;
    }
    match n {
        5 => put_first::<5>(part, base, w, v),
        4 => put_first::<4>(part, base, w, v),
        3 => put_first::<3>(part, base, w, v),
        2 => put_first::<2>(part, base, w, v),
        1 => put_first::<1>(part, base, w, v),
        _ => put_first::<0>(part, base, w, v),
    }
}

// Stores the bytes of the piece that the words begin with, so many as it has.
fn put(part: &mut [u8], base: usize, words: &[u32], n: usize)
    requires { Standing words.now 0 × (base + n ≤ length part.old) × (n ≡ (piece_at words.now 0).count) }
    ensures { part.new ≡ paste part.old base (piece_at words.now 0).bytes n }
{
    if message_type(words[0]) == FLEX {
        put_flex(part, base, words);
        return;
    }
    put_exclusive(part, base, words[0], words[1], n);
}

// The step with the piece that the words begin with. One that is taken is stored in the chain's part.
#[inline(always)]
fn step(c: Chain, part: &mut [u8], words: &[u32]) -> Stepped
    requires { Standing words.now 0 }
    ensures step { result ≡ step_of c (length part.old) (piece_at words.now 0) }
    ensures part { part.new ≡ part_of c part.old (piece_at words.now 0) }
{
    let x = head_of(words[0]);
    match check(c, x, part.len()) {
        Ok(()) => {
            put(part, base_of(c), words, x.count);
            Stepped {
                answer: answer_taken(x),
                chain: grown(c, x),
            }
        }
        Err(refusal) => Stepped {
            answer: u32::from(refusal),
            chain: refused(refusal, c),
        },
    }
}

// The same with the whole buffer, for chain k: what is lent to the step is that chain's own part.
#[inline(always)]
pub(crate) fn take(c: Chain, buffer: &mut [u8], k: usize, words: &[u32]) -> Stepped
    requires { (k < 32) × Standing words.now 0 }
    ensures step { result ≡ step_of c (share buffer.old) (piece_at words.now 0) }
    ensures buffer { buffer.new
        ≡ with_part k (part_of c (part_at k buffer.old) (piece_at words.now 0))
        buffer.old }
{
    let share = buffer.len() / CHAINS;
    let from = k * share;
    let end = from + share;
    step(c, &mut buffer[from..end], words)
}
