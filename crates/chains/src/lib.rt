// Whole messages out of packets: exclusives and Flex Data, one chain of each sort for every group,
// collected into a buffer that the caller lends. A call sees one chain by value and its own part of the
// buffer, so no packet can touch another chain; the caller keeps all 32.
//
// No public function has a `requires`: `call` and `turn` say by definitions of specs/ what they report,
// what the chain is after them and what the buffer then holds, for any packet, any chain and any buffer.
#![tactic(auto)]

mod check;
mod part;
pub mod run;

ghost use Rattle.std.specs.Prelude.{◌≡◌, false, [], ◌∷◌, ◌*◌, ◌<◌, ◌≤◌, eqb, drop, get_or, length};
ghost use Rattle.ump.specs.Packet.{first, packet, second};
ghost use Rattle.screen.specs.Screen.{goes_on};
ghost use Rattle.piece.specs.Piece.{slot_by};
ghost use Rattle.chains.specs.Step.{fresh};
ghost use Rattle.chains.specs.Collect.{buffer_with, refusal_of, report_with};
ghost use Rattle.chains.specs.Collect;
ghost use Rattle.chains.specs.Run.{drops};
ghost use Rattle.chains.specs.Turn.{besides, called_with, named_by};

use check::{is_asked, is_good, whole_size};
use part::take;
use piece::{NO_CHAIN, has_strange_address, slot_of};
use screen::screen;
use std::ops::ControlFlow;
use stream::{BAD_ADDRESS, CUT, NO_TABLE, OUT_OF_TURN, TAKEN_IN, TOO_LONG, TOO_MANY_PACKETS};
use ump::{packet_at, word_at};

// So many chains there are: exclusives of groups 0 to 15, then Flex Data of groups 0 to 15.
pub const CHAINS: usize = 32;

// One chain: how many bytes stand in its part, the fields that its packets share, and how many packets it
// has, 0 while none is open. An open exclusive counts 1.
// Kept: the C interface has these fields, and 0 packets for a chain that is not open.
#[repr(C)]
#[derive(Clone, Copy)]
pub struct Chain {
    pub length: usize,
    pub shared: u32,
    pub packets: u32,
}

// What a call or a run reports: the answer, the place of bad data, and the words read; the packet's chain,
// or `NO_CHAIN`, with where its bytes stand in the buffer and how many.
// Kept: the C interface has the answer as a number, and `NO_CHAIN` for a packet of none.
#[repr(C)]
#[derive(Clone, Copy)]
pub struct Collected {
    pub answer: u32,
    pub place: u32,
    pub read: usize,
    pub chain: usize,
    pub start: usize,
    pub length: usize,
}

// A call with one chain: what it reports, and the chain after it.
#[derive(Clone, Copy)]
pub struct Called {
    pub report: Collected,
    pub chain: Chain,
}

// How far a run is: it goes on at a place of the words, or is done with its report.
pub type Progress = ControlFlow<Collected, usize>;

// A turn of a run: how far it is then, and the chain after it, where that was asked.
#[derive(Clone, Copy)]
pub struct Turned {
    pub progress: Progress,
    pub chain: Option<Chain>,
}

// A chain before its first packet: none is open.
pub fn closed_chain() -> Chain
    ensures { result ≡ fresh }
{
    Chain {
        length: 0,
        shared: 0,
        packets: 0,
    }
}

// Where in a list of 32 the chain stands that a call at a place of the words is given.
pub fn slot_at(words: &[u32], at: usize) -> usize
    ensures { result ≡ slot_by (get_or words.now at 0) }
{
    slot_of(word_at(words, at))
}

// The answers that drop an open chain.
pub fn is_dropping(answer: u32) -> bool
    ensures { result ≡ drops answer }
{
    matches!(answer, OUT_OF_TURN | TOO_MANY_PACKETS | TOO_LONG)
}

// The report of a packet that names no chain.
#[tactic(auto, unfolding(crate::specs::Collect::beside))]
fn beside(answer: u32, place: u32, read: usize) -> Collected
    ensures { result ≡ besides answer place read }
{
    Collected {
        answer,
        place,
        read,
        chain: NO_CHAIN,
        start: 0,
        length: 0,
    }
}

// The report where the list of chains is not one of 32.
pub fn unlisted() -> Collected
    ensures { result ≡ Collect.unlisted }
{
    beside(NO_TABLE, 0, 0)
}

// The report of a packet of chain k, which is `c` after it, where a part has so many bytes.
fn named(answer: u32, read: usize, k: usize, part: usize, c: Chain) -> Collected
    requires { (k < 32) × (part * 32 ≤ 18446744073709551615) }
    ensures { result ≡ named_by answer read k part c }
{
    Collected {
        answer,
        place: 0,
        read,
        chain: k,
        start: k * part,
        length: c.length,
    }
}

// The report of the packet at the start of the words, which has so many and whose chain is not asked.
fn aside(c: Chain, part: usize, words: &[u32], n: usize) -> Collected
    requires { (n ≡ length (packet words.now)) × (n ≡ 0 → ⊥) × (refusal_of words.now ≡ goes_on → ⊥)
        × (part * 32 ≤ 18446744073709551615) }
    ensures { result ≡ report_with c part words.now }
{
    if is_good(words, n) {
        let w = words[0];
        if has_strange_address(w) {
            return named(BAD_ADDRESS, n, slot_of(w), part, c);
        }
        return beside(TAKEN_IN, 0, n);
    }
    match screen(None, packet_at(words, 0)) {
        Ok(()) => beside(TAKEN_IN, 0, n),
        Err(refusal) => beside(refusal.answer, refusal.place, n),
    }
}

// Takes the packet at the start of the words, with the chain that stands in its slot.
pub fn call(c: Chain, words: &[u32], buffer: &mut [u8]) -> Called
    ensures called { result ≡ called_with c buffer.old words.now }
    ensures buffer { buffer.new ≡ buffer_with c buffer.old words.now }
{
    let Some(n) = whole_size(words) else {
        return Called {
            report: beside(CUT, 0, 0),
            chain: c,
        };
    };
    if is_asked(words) {
        let k = slot_of(words[0]);
        let step = take(c, buffer, k, words);
        return Called {
            report: named(step.answer, n, k, buffer.len() / CHAINS, step.chain),
            chain: step.chain,
        };
    }
    Called {
        report: aside(c, buffer.len() / CHAINS, words, n),
        chain: c,
    }
}
