// A run of the collector, packet by packet: where it begins, and a turn with the chain of its packet.
ghost use Rattle.std.specs.Prelude.{◌≡◌, true, false, drop, length};
ghost use Rattle.chains.specs.Collect.{buffer_with};
ghost use Rattle.chains.specs.Run.{further};
ghost use Rattle.chains.specs.Turn.{begun, going_on, progress_after, turned_at};
ghost use Rattle.chains.specs.Turn;

use crate::check::{is_asked, whole_size};
use crate::part::take;
use crate::{CHAINS, Chain, Collected, Progress, Turned, beside, is_dropping, named, unlisted};
use piece::slot_of;
use stream::{CUT, SENT, TAKEN_IN};

// Where nothing has stopped a run over so many words.
fn going_on(at: usize, words: usize) -> Progress
    ensures { result ≡ going_on at words }
{
    if at < words {
        Progress::Continue(at)
    } else {
        Progress::Break(beside(TAKEN_IN, 0, at))
    }
}

// Before the first packet, with so many chains and words.
#[tactic(auto, unfolding(crate::specs::Turn::begun))]
pub fn start(chains: usize, words: usize) -> Progress
    ensures { result ≡ begun chains words }
{
    if chains == CHAINS {
        return going_on(0, words);
    }
    Progress::Break(unlisted())
}

// After a piece that is told so, with all words read by then: a message that is whole and an open chain
// that is dropped stop the run.
#[tactic(auto, unfolding(crate::specs::Turn::onward))]
fn onward(c: Chain, words: usize, report: Collected) -> Progress
    ensures { result ≡ Turn.onward c words report }
{
    if (report.answer == SENT) | ((c.packets != 0) & is_dropping(report.answer)) {
        return Progress::Break(report);
    }
    going_on(report.read, words)
}

// A turn at a place of the words, with the chain that stands in the slot of its packet.
pub fn turn(c: Chain, words: &[u32], at: usize, buffer: &mut [u8]) -> Turned
    ensures turned { result ≡ turned_at c buffer.old words.now at }
    ensures buffer { buffer.new ≡ buffer_with c buffer.old (drop at words.now) }
{
    let rest = &words[at.min(words.len())..];
    let Some(n) = whole_size(rest) else {
        return Turned {
            progress: Progress::Break(beside(CUT, 0, at)),
            chain: None,
        };
    };
    let end = at + n;
    if is_asked(rest) {
        let k = slot_of(rest[0]);
        let step = take(c, buffer, k, rest);
        return Turned {
            progress: onward(
                c,
                words.len(),
                named(step.answer, end, k, buffer.len() / CHAINS, step.chain),
            ),
            chain: Some(step.chain),
        };
    }
    Turned {
        progress: going_on(end, words.len()),
        chain: None,
    }
}
