// A buffer's worth of whole messages: the packets of some words into their chains, and a line of text for
// each message that is finished and for each open chain that is dropped.
//
// No public function has a `requires`. `gather_some` says by the run of the definitions what it reports,
// what is held after it and what the text holds, on every input. A packet is looked at only where any line
// would still fit, so no line is lost.
#![tactic(auto)]

ghost use Rattle.std.specs.Prelude.{◌≡◌, ◌+◌, ◌-◌, ◌≤◌, ◌&&◌, ltb, drop, length};
ghost use Rattle.ground.specs.Store.{at_start, written};
ghost use Rattle.ump.specs.Packet.{packet};
ghost use Rattle.stream.specs.Answers.{sent};
ghost use Rattle.stream.specs.Call.{left_of, sent_of};
ghost use Rattle.stream.specs.Report.{reported};
ghost use Rattle.text.specs.Lines.{place_if_put, with_row};
ghost use Rattle.chains.specs.Collect.{buffer_of, chains_of, report_of};
ghost use Rattle.chains.specs.Run.{drops, open_at};
ghost use Rattle.gather.specs.Gather.{gather_at, gathered_after, gathering, held_in, line_by, longest};

use chains::{CHAINS, Chain, Collected, call, is_dropping, slot_at};
use stream::{CUT, Done, NO_ROOM, SENT, report};
use tally::{Counts, sort_of};

// What goes on from one packet to the next beside the buffer: the chains, and how often each sort of call
// came.
#[derive(Clone, Copy)]
pub struct Collector {
    pub chains: [Chain; CHAINS],
    pub counts: Counts,
}

// A call with the chain of its packet: what it reports, and whether it dropped a chain that was open.
#[derive(Clone, Copy)]
struct Turn {
    report: Collected,
    dropped: bool,
}

// Whether a text has no room for every line that the parts of a buffer can come to.
fn is_full(len: usize, to: usize, buffer: usize) -> bool
    ensures { result ≡ ltb (len - to) (longest buffer) }
{
    len.saturating_sub(to) < 3 * (buffer / CHAINS) + 16
}

// Whether a chain is open; a packet of none has none.
#[tactic(auto, unfolding(chains::specs::Run::open_at))]
pub fn is_open(chains: &[Chain; CHAINS], chain: usize) -> bool
    ensures { result ≡ open_at chains.now chain }
{
    chain < CHAINS && chains[chain].packets != 0
}

// The call at the start of the words, with the chain of its packet.
fn collect(chains: &mut [Chain; CHAINS], buffer: &mut [u8], words: &[u32]) -> Turn
    ensures report { result.report ≡ report_of chains.old buffer.old words.now }
    ensures dropped { result.dropped
        ≡ (open_at chains.old result.report.chain && drops result.report.answer) }
    ensures chains { chains.new ≡ chains_of chains.old buffer.old words.now }
    ensures buffer { buffer.new ≡ buffer_of chains.old buffer.old words.now }
{
    let i = slot_at(words, 0);
    let before = chains[i];
    let called = call(before, words, buffer);
    chains[i] = called.chain;
    Turn {
        report: called.report,
        dropped: (before.packets != 0) & is_dropping(called.report.answer),
    }
}

// Writes the line of a call, where it has one, and answers the place after it. Where it does not fit, it writes
// nothing and answers None.
fn put_line(turn: Turn, buffer: &[u8], text: &mut [u8], to: usize) -> Option<usize>
    requires { turn.report.answer ≡ sent
        → turn.report.start + turn.report.length ≤ length buffer.now }
    ensures place { result ≡ place_if_put text.old to (line_by turn.dropped turn.report buffer.now) }
    ensures text { text.new ≡ with_row text.old to (line_by turn.dropped turn.report buffer.now) }
{
    let one = turn.report;
    if one.answer == SENT {
        let end = one.start + one.length;
        return text::message(one.chain, &buffer[one.start..end], text, to);
    }
    if turn.dropped {
        return text::dropped(one.answer, one.chain, text, to);
    }
    Some(to)
}

// The packet that is next in the words, after what was read and written so far.
fn gather_one(
    collector: &mut Collector,
    buffer: &mut [u8],
    words: &[u32],
    past: Done,
    text: &mut [u8],
) -> Done
    requires { past.read ≤ length words.now }
    ensures report { result ≡ gathered_after past (packet (drop past.read words.now))
        (gather_at (held_in collector.old buffer.old) words.now past text.old) }
    ensures held { held_in collector.new buffer.new ≡ (left_of
        (length text.old - past.written, held_in collector.old buffer.old)
        (gather_at (held_in collector.old buffer.old) words.now past text.old)).1 }
    ensures text { text.new ≡ written past.written
        (sent_of (gather_at (held_in collector.old buffer.old) words.now past text.old))
        text.old }
{
    let read = past.read;
    let to = past.written;
    if is_full(text.len(), to, buffer.len()) {
        return report(NO_ROOM, read, to);
    }
    let turn = collect(&mut collector.chains, buffer, &words[read..]);
    let one = turn.report;
    if one.read == 0 {
        return report(CUT, read, to);
    }
    let end = put_line(turn, buffer, text, to).unwrap();
    collector.counts.add(sort_of(one.answer, one.place));
    report(one.answer, read + one.read, end)
}

// The packets of the words into their chains, until one is cut or the text has no room for every line. The
// report counts the bytes of the lines as written.
pub fn gather_some(
    collector: &mut Collector,
    buffer: &mut [u8],
    words: &[u32],
    text: &mut [u8],
) -> Done
    ensures report { result ≡ reported
        (gathering (length text.old) (held_in collector.old buffer.old) words.now) }
    ensures held { held_in collector.new buffer.new ≡ (gathering (length text.old)
        (held_in collector.old buffer.old) words.now).left.1 }
    ensures lines { text.new ≡ at_start (gathering (length text.old)
        (held_in collector.old buffer.old) words.now).sends text.old }
{
    let mut read: usize = 0;
    let mut written: usize = 0;
    while read < words.len() {
        let done = gather_one(collector, buffer, words, report(SENT, read, written), text);
        if done.read == read {
            return report(done.answer, read, written);
        }
        read = done.read;
        written = done.written;
    }
    report(SENT, read, written)
}
