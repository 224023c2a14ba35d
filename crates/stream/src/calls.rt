// The run of whatever treats a packet at a time: one loop for all of them.
ghost use Rattle.std.specs.Prelude.{◌≡◌, ◌≤◌, ℕ, List, ◌-◌, drop, length};
ghost use Rattle.ground.specs.Store.{at_start, written};
ghost use Rattle.ump.specs.Packet.{packet};
ghost use Rattle.stream.specs.Call.{Call, left_of, sent_of};
ghost use Rattle.stream.specs.Calls.{OwnPacket, next_call, whole_run};
ghost use Rattle.stream.specs.Report.{further, reported};

use crate::{Done, SENT, report};

// What treats the packets of a stream, one after another, and writes words or text for them.
pub trait Calls {
    // What is written: words, or the bytes of a text.
    type Written;

    // The numbers of what is written.
    ghost numbers: { List Self.Written → List ℕ };

    // The call at the packet that stands first in the words.
    ghost step: { Self → List ℕ → Call Self };

    // Treats the packet that is next in the words, after what was read and written so far.
    fn call(&mut self, words: &[u32], past: Done, out: &mut [Self::Written]) -> Done
        ensures report { result ≡ further past (packet (drop past.read words.now))
            (next_call step words.now past (length (numbers out.old)) self.old) }
        ensures state { self.new ≡ (left_of (length (numbers out.old) - past.written, self.old)
            (next_call step words.now past (length (numbers out.old)) self.old)).1 }
        ensures output { numbers out.new ≡ written past.written
            (sent_of (next_call step words.now past (length (numbers out.old)) self.old)) (numbers out.old) };

    // It looks at its own packet alone, and goes on only with a whole one.
    ghost own_packet: { OwnPacket step };
}

// Every packet of the words, one call for each, until one stops the run.
pub fn run_calls<C: Calls>(calls: &mut C, words: &[u32], out: &mut [C::Written]) -> Done
    ensures report { result ≡ reported (whole_run C.step words.now (length (C.numbers out.old)) calls.old) }
    ensures state { calls.new ≡ (whole_run C.step words.now (length (C.numbers out.old)) calls.old).left.1 }
    ensures output { C.numbers out.new
        ≡ at_start (whole_run C.step words.now (length (C.numbers out.old)) calls.old).sends (C.numbers out.old) }
    ensures inside { result.read ≤ length words.now }
{
    let mut read: usize = 0;
    let mut written: usize = 0;
    while read < words.len() {
        let done = calls.call(words, report(SENT, read, written), out);
        if done.read == read {
            return report(done.answer, read, done.written);
        }
        read = done.read;
        written = done.written;
    }
    report(SENT, read, written)
}
