// The packets that are kept, unchanged and in order.
ghost use Rattle.std.specs.Prelude.{◌≡◌, ◌+◌, ◌-◌, ◌<◌, ◌^◌, drop, length};
ghost use Rattle.ground.specs.Store.{at_start, written};
ghost use Rattle.ump.specs.Packet.{packet};
ghost use Rattle.stream.specs.Call.{sent_of, within};
ghost use Rattle.stream.specs.Report.{further, reported};
ghost use Rattle.rescuing.specs.Rescue.{handed, run_keep};
ghost use Rattle.rescuing.specs.Kept.{keeping, keeping-own};
ghost use Rattle.rescuing.specs.Rescue;

use reader::packets_from;
use recording::is_kept;
use stream::{CUT, Calls, Done, NO_ROOM, SENT, report, run_calls};

// Hands a packet on, if there is room for it.
fn keep(row: &[u32], past: Done, out: &mut [u32]) -> Done
    requires { (past.read + length row.now < 2 ^ 64) × (0 < length row.now) }
    ensures report { let room = length out.old - past.written in
        result ≡ further past row.now (handed room row.now) }
    ensures output { let room = length out.old - past.written in
        out.new ≡ written past.written (sent_of (handed room row.now)) out.old }
{
    let to = past.written;
    if out.len().saturating_sub(to) < row.len() {
        return report(NO_ROOM, past.read, to);
    }
    let end = to + row.len();
    out[to..end].copy_from_slice(row);
    report(SENT, past.read + row.len(), end)
}

// The packet that is next in the words, after what was read and written so far.
#[tactic(auto, unfolding(crate::specs::Rescue::keep, stream::specs::Call::within))]
fn keep_next(words: &[u32], past: Done, out: &mut [u32]) -> Done
    ensures report { let room = length out.old - past.written in
        let left = drop past.read words.now in
        result ≡ further past (packet left) (within Rescue.keep (room, tt) left) }
    ensures output { let room = length out.old - past.written in
        let left = drop past.read words.now in
        out.new ≡ written past.written (sent_of (within Rescue.keep (room, tt) left)) out.old }
{
    let read = past.read;
    let Some(packet) = packets_from(words, read).next() else {
        return report(CUT, read, past.written);
    };
    if is_kept(packet) {
        keep(packet, past, out)
    } else {
        report(SENT, read + packet.len(), past.written)
    }
}

// What keeps packets has nothing to remember.
#[derive(Clone, Copy)]
pub(crate) struct Keeping;

impl Calls for Keeping {
    type Written = u32;

    ghost numbers = { λ words. words };

    ghost step = { keeping };

    fn call(&mut self, words: &[u32], past: Done, out: &mut [u32]) -> Done {
        keep_next(words, past, out)
    }

    ghost own_packet = { keeping-own };
}

// The packets of the words that are kept, out of the words into the output.
pub fn keep_some(words: &[u32], out: &mut [u32]) -> Done
    ensures report { result ≡ reported (run_keep (length out.old) words.now) }
    ensures output { out.new
        ≡ at_start (run_keep (length out.old) words.now).sends out.old }
{
    run_calls(&mut Keeping, words, out)
}
