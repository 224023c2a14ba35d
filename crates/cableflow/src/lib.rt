// A buffer's worth of a five-pin cable: the bytes of a cable into packets, and packets into bytes for a
// cable, each with counts of the answers.
//
// No function has a `requires`. A run says by the run of the definitions what it reports, which cable it
// leaves and what the output holds after, on every input; and how often each sort of answer came is a
// count over the calls that it made.
#![tactic(auto)]

ghost use Rattle.std.specs.Prelude.{◌≡◌, length, take};
ghost use Rattle.ground.specs.Store.{at_start};
ghost use Rattle.stream.specs.Report;
ghost use Rattle.cable.specs.Hearing.{words_of};
ghost use Rattle.tally.specs.Tally.{tally, tally_out};
ghost use Rattle.inlet.specs.Inlet.{calls_in, reported, run_in};
ghost use Rattle.outlet.specs.Outlet.{run_out};
ghost use Rattle.cableflow.specs.Answers.{answers_in, answers_of};

use cable::{Cable, Words, hear, is_sound};
use flow::Counted;
use inlet::{Imported, run_import};
use outlet::run_export;
use stream::Done;
use tally::{Counts, Out, tally_of};

// How many words a byte sends.
fn length_of(words: Words) -> usize
    ensures { result ≡ length (words_of words) }
{
    match words {
        Words::Nothing => 0,
        Words::One(_) => 1,
        Words::Two(_, _) => 2,
    }
}

// How often each answer comes among the calls at the bytes of a sound cable, up to one whose packet finds
// no room. They are heard once more, and their packets go nowhere.
fn counts_in(cable: Cable, group: u8, bytes: &[u8], room: usize) -> Counts
    ensures { result.times ≡ tally (answers_in room (calls_in group cable bytes.now)) }
{
    let mut state = cable;
    let mut counts = Counts::none();
    let mut at: usize = 0;
    let mut left = room;
    while at < bytes.len() {
        let heard = hear(state, group, bytes[at]);
        let needs = length_of(heard.sends);
        if left < needs {
            return counts;
        }
        counts.add(u64::from(heard.answer));
        at += heard.read;
        left -= needs;
        let after = heard.after;
        state = after;
    }
    counts
}

// The same of any group and cable. Where one of them is refused, no call was made.
// Kept: the run asked both before, and its answer would tell, but only with a law that no byte is answered so.
fn counts_of(cable: Cable, group: u8, bytes: &[u8], room: usize) -> Counts
    ensures { result.times ≡ tally (answers_of group room cable bytes.now) }
{
    if 15 < group {
        return Counts::none();
    }
    if is_sound(cable) {
        counts_in(cable, group, bytes, room)
    } else {
        Counts::none()
    }
}

// The bytes of a cable into packets of a group, until a packet finds no room.
pub fn import_some(cable: Cable, group: u8, bytes: &[u8], out: &mut [u32]) -> Counted<Imported>
    ensures report { result.ran
        ≡ reported (run_in group (length out.old) cable bytes.now) }
    ensures counts { result.counts.times
        ≡ tally (answers_of group (length out.old) cable bytes.now) }
    ensures output { out.new ≡ at_start
        (run_in group (length out.old) cable bytes.now).sends out.old }
{
    let room = out.len();
    let ran = run_import(cable, group, bytes, out);
    let counts = counts_of(cable, group, bytes, room);
    Counted { ran, counts }
}

// The packets of a group into bytes for its cable, until one stops the run.
pub fn export_some(group: u8, words: &[u32], out: &mut [u8]) -> Counted<Done>
    ensures report { result.ran
        ≡ Report.reported (run_out group (length out.old) words.now) }
    ensures counts { result.counts.times ≡ tally_out group (take result.ran.read words.now) }
    ensures output { out.new ≡ at_start
        (run_out group (length out.old) words.now).sends out.old }
{
    let ran = run_export(group, words, out);
    let read = ran.read;
    let counts = tally_of(Out(group), &words[..read]);
    Counted { ran, counts }
}
