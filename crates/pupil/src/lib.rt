// One pupil's packets alone, for a replay: of a stream those that are MIDI 1.0 voice messages of one
// channel, unchanged and in order. Whether a translation would refuse one is not asked.
//
// `only` has no `requires`, and says by the run of specs/ what it reports and what the output holds
// after, on every input.
#![tactic(auto)]

ghost use Rattle.std.specs.Prelude.{◌≡◌, ◌+◌, ◌<◌, ◌^◌, [], ◌∷◌, drop, length};
ghost use Rattle.ground.specs.Store.{at_start, written};
ghost use Rattle.ump.specs.Packet.{cut, packet};
ghost use Rattle.stream.specs.Call.{sent_of, within};
ghost use Rattle.stream.specs.Report.{further, reported};
ghost use Rattle.stream.specs.Run.{run};
ghost use Rattle.pupil.specs.Only.{handed_at, pick_at, voice_on};
ghost use Rattle.pupil.specs.Picking.{picking, picking-own};
ghost use Rattle.pupil.specs.Only;

use question::is_in_range;
use stream::{CUT, Calls, Done, NO_ROOM, OUT_OF_RANGE, SENT, TAKEN_IN, report, run_calls};
use ump::{MIDI1_VOICE, channel_of, group_of, message_type, size};

// Hands a packet of one word back, if there is room for it.
fn hand_back(w: u32, past: Done, out: &mut [u32]) -> Done
    requires { past.read + 1 < 2 ^ 64 }
    ensures report { result ≡ further past (w ∷ []) (handed_at w past out.old) }
    ensures output { out.new
        ≡ written past.written (sent_of (handed_at w past out.old)) out.old }
{
    let read = past.read;
    let to = past.written;
    if to < out.len() {
        out[to] = w;
        report(SENT, read + 1, to + 1)
    } else {
        report(NO_ROOM, read, to)
    }
}

// Whose packets are picked: those of one channel of a group.
#[derive(Clone, Copy)]
struct Pupil {
    group: u8,
    channel: u8,
}

impl Pupil {
    // Whether a packet is a MIDI 1.0 voice message of that group and channel, by its first word.
    fn is_voice(self, w: u32) -> bool
        ensures { result ≡ voice_on self.group self.channel w }
    {
        let g = group_of(w);
        let c = channel_of(w);
        (message_type(w) == MIDI1_VOICE) & ((g.0 == self.group) & (c.0 == self.channel))
    }

    // The packet that is next in the words, after what was read and written so far.
    fn pick_next(self, words: &[u32], past: Done, out: &mut [u32]) -> Done
        ensures report { result ≡ further past (packet (drop past.read words.now))
            (pick_at self.group self.channel words.now past out.old) }
        ensures output { out.new ≡ written past.written
            (sent_of (pick_at self.group self.channel words.now past out.old)) out.old }
    {
        let read = past.read;
        if words.len() <= read {
            return report(CUT, read, past.written);
        }
        let w = words[read];
        if message_type(w) == MIDI1_VOICE {
            if self.is_voice(w) {
                return hand_back(w, past, out);
            }
            return report(TAKEN_IN, read + 1, past.written);
        }
        let n = size(w);
        if words.len() - read < n {
            report(CUT, read, past.written)
        } else {
            report(TAKEN_IN, read + n, past.written)
        }
    }
}

impl Calls for Pupil {
    type Written = u32;

    ghost numbers = { λ words. words };

    ghost step = { picking };

    fn call(&mut self, words: &[u32], past: Done, out: &mut [u32]) -> Done {
        self.pick_next(words, past, out)
    }

    ghost own_packet = { picking-own };
}

// The MIDI 1.0 voice messages of a group and channel, out of the words into the output.
pub fn only(words: &[u32], group: u8, channel: u8, out: &mut [u32]) -> Done
    ensures report { result
        ≡ reported (Only.only group channel (length out.old) words.now) }
    ensures output { out.new ≡ at_start
        (Only.only group channel (length out.old) words.now).sends out.old }
{
    if is_in_range(group, channel) {
        run_calls(&mut Pupil { group, channel }, words, out)
    } else {
        report(OUT_OF_RANGE, 0, 0)
    }
}
