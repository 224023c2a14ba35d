// A buffer's worth of a stream: the packets of some words, going up, down or into lines. The table
// goes in and comes out by value, once for each buffer, so whoever keeps it needs no lent slice of
// records. The panel is made of the table alone.
//
// No function has a `requires`. A run says by the run of the definitions what it reports, what table
// it leaves and what the output holds after, on every input; and how often each sort of packet came is
// a count over the words that were read. The panel says by its lines what a text of any length holds.
#![tactic(auto)]

mod lamps;
mod lines;

ghost use Rattle.std.specs.Prelude.{◌≡◌, length, take};
ghost use Rattle.ground.specs.Store.{at_start};
ghost use Rattle.stream.specs.Report.{reported};
ghost use Rattle.voice.specs.Packet.{run_down};
ghost use Rattle.table.specs.Table.{run_up, table_after};
ghost use Rattle.tally.specs.Tally.{tally_down, tally_up};

use channel::{RECORDS, Record};
pub use lamps::{PANEL_BYTES, panel};
pub use lines::list_some;
use stream::Done;
use table::{Job, run_from};
use tally::{Counts, Down, Up, tally_of};

// The channel records.
#[derive(Clone, Copy)]
pub struct Table {
    pub records: [Record; RECORDS],
}

// What a call leaves of its record or a run of its table, and the report. Into lines it counts their bytes
// as written.
#[derive(Clone, Copy)]
pub struct AfterAndReport<T> {
    pub after: T,
    pub done: Done,
}

// A run, and how often each sort of packet came. The sort 0 stands for whatever was not refused.
#[derive(Clone, Copy)]
pub struct Counted<T> {
    pub ran: T,
    pub counts: Counts,
}

// The packets of the words, going up, until one stops the run.
pub fn up_some(table: Table, words: &[u32], out: &mut [u32]) -> Counted<AfterAndReport<Table>>
    ensures report { result.ran.done
        ≡ reported (run_up (length out.old) table.records words.now) }
    ensures table { result.ran.after.records
        ≡ table_after (run_up (length out.old) table.records words.now) }
    ensures counts { result.counts.times ≡ tally_up (take result.ran.done.read words.now) }
    ensures output { out.new ≡ at_start
        (run_up (length out.old) table.records words.now).sends out.old }
{
    let run = run_from(table.records, words, out, Job::run(screen::open_rule()));
    let records = run.records;
    let after = Table { records };
    let done = run.done;
    let read = done.read;
    let counts = tally_of(Up, &words[..read]);
    let ran = AfterAndReport { after, done };
    Counted { ran, counts }
}

// The packets of the words, going down, until one stops the run.
pub fn down_some(words: &[u32], out: &mut [u32]) -> Counted<Done>
    ensures report { result.ran ≡ reported (run_down (length out.old) words.now) }
    ensures counts { result.counts.times ≡ tally_down (take result.ran.read words.now) }
    ensures output { out.new
        ≡ at_start (run_down (length out.old) words.now).sends out.old }
{
    let ran = voice::run_down(words, out, screen::open_rule());
    let read = ran.read;
    let counts = tally_of(Down, &words[..read]);
    Counted { ran, counts }
}
