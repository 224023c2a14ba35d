// The packets of a stream, one after another, going up over the table that the caller lends: one
// record is read for each packet, and read and stored again only where the packet has an effect on it.
// The loop never copies the table.
//
// `treat` has no `requires`, and promises the call or the run itself, on every input. What it is to do
// is a job; `run_told` makes that of a run over a table that may be known to be sound. `run_from` does it
// with a table that the caller has by value.
#![tactic(auto)]

ghost use Rattle.std.specs.Prelude.{◌≡◌, cond, not, ◌&&◌, ◌||◌, eqb, ltb, get_or, length};
ghost use Rattle.std.specs.List.{list_all};
ghost use Rattle.ground.specs.Store.{at_start};
ghost use Rattle.ump.specs.Word.{data1, place_of};
ghost use Rattle.stream.specs.Answers.{no_table, sent};
ghost use Rattle.stream.specs.Report.{counting, placing};
ghost use Rattle.channel.specs.Record.{empty, sound, whole_table};
ghost use Rattle.table.specs.Table.{table_after};
ghost use Rattle.table.specs.Job.{asked, asked_report, call_under, known_run, record_step, run_told, run_under};
ghost use Rattle.table.specs.Job.{table_step};
ghost use Rattle.table.specs.Ended.{ended_by, report_in};
ghost use Rattle.table.specs.Next.{output_after_call, report_after_call, state_after, turn_at};

use channel::{RECORDS, Record};
use effect::{Effect, effected};
use screen::Rule;
use stream::{Done, NO_TABLE, SENT, report, report_place};
use voice::EffectAndReport;

// What the loop is told: whether it is to make one call only, whether its records are known to be
// sound, and which rule holds.
#[derive(Clone, Copy)]
pub struct Job {
    pub once: bool,
    pub known: bool,
    pub rule: Rule,
}

// How far a call or a run is: the report so far, and whether another packet is to be treated.
#[derive(Clone, Copy)]
struct Progress {
    done: Done,
    more: bool,
}

// A report as the loop hands it over.
// Kept: no two fields stand side by side as in `Done`, since two that are copied at once wait until both are written.
#[derive(Clone, Copy)]
struct Ended {
    written: usize,
    answer: u32,
    read: usize,
    place: u32,
}

// A table by value after a run, and the report.
#[derive(Clone, Copy)]
pub struct TableAndReport {
    pub records: [Record; RECORDS],
    pub done: Done,
}

impl Job {
    // One call under a rule.
    pub fn call(rule: Rule) -> Job
        ensures { result ≡ call_under rule }
    {
        Job {
            once: true,
            ..Job::run(rule)
        }
    }

    // A run under a rule, which asks each record that it needs whether it is sound.
    pub fn run(rule: Rule) -> Job
        ensures { result ≡ run_under rule }
    {
        Job {
            once: false,
            known: false,
            rule,
        }
    }
}

// A run over records that are known to be sound: none is asked.
pub fn known_run() -> Job
    ensures { result ≡ known_run }
{
    Job {
        known: true,
        ..Job::run(screen::open_rule())
    }
}

// From so many words on, a run asks all records before its first packet; a shorter one costs less if it asks at each
// voice message.
const LONG_RUN: usize = 512;

// Whether every record of a table is sound.
fn are_sound(table: &[Record]) -> bool
    ensures { result ≡ list_all sound table.now }
{
    table.iter().all(|record| record.is_sound())
}

// The run of so many words over a table: a long one asks all records here, until one is not sound.
pub fn run_told(words: usize, table: &[Record]) -> Job
    ensures { result ≡ run_told words table.now }
{
    Job {
        known: LONG_RUN <= words && are_sound(table),
        ..Job::run(screen::open_rule())
    }
}

// The record at a place, and an empty one past the end.
pub fn record_at(table: &[Record], i: usize) -> Record
    ensures { result ≡ get_or table.now i empty }
{
    match table.get(i) {
        Some(record) => *record,
        None => Record::empty(),
    }
}

// Before the first packet: a call is made whatever there is, a run goes on where there is a word.
fn start(n: usize, words: usize, job: Job) -> Progress
    ensures report { result.done ≡ counting (cond (eqb n whole_table) sent no_table) 0 0 }
    ensures more { result.more ≡ (eqb n whole_table && (job.once || ltb 0 words)) }
{
    if n == RECORDS {
        return Progress {
            done: report(SENT, 0, 0),
            more: job.once | (0 < words),
        };
    }
    Progress {
        done: report(NO_TABLE, 0, 0),
        more: false,
    }
}

// Where the next packet's record stands, and 0 past the end. It is worked out beside the word, which is then read once.
fn place_of(words: &[u32], past: Done) -> usize
    ensures { result ≡ place_of (get_or words.now past.read 0) }
{
    let at = past.read;
    if at < words.len() {
        let w = words[at];
        ump::record_number(ump::group_of(w), ump::channel_of(w))
    } else {
        0
    }
}

// The key of the next packet, if it is a note.
fn key_of(words: &[u32], past: Done) -> u8
    ensures { result ≡ data1 (get_or words.now past.read 0) }
{
    ump::data1(ump::word_at(words, past.read))
}

// The call at the next packet, with its record.
fn step(words: &[u32], job: Job, past: Done, record: Record, out: &mut [u32]) -> EffectAndReport
    ensures turn { result ≡ turn_at (record_step job) words.now past «record» out.old }
    ensures output { out.new
        ≡ output_after_call (record_step job) words.now past «record» out.old }
{
    voice::up(words, past, record, job.known, out, job.rule)
}

// The call at the next packet, with the table, which is a whole one.
fn one(words: &[u32], job: Job, past: Done, table: &mut [Record], out: &mut [u32]) -> Done
    requires { length table.old ≡ whole_table }
    ensures report { result
        ≡ report_after_call (table_step job) words.now past table.old out.old }
    ensures table { table.new
        ≡ state_after (table_step job) words.now past table.old out.old }
    ensures output { out.new
        ≡ output_after_call (table_step job) words.now past table.old out.old }
{
    let i = place_of(words, past);
    let s = step(words, job, past, table[i], out);
    match s.effect {
        Effect::Leaves => s.done,
        effect => {
            table[i] = effected(table[i], effect, s.after, key_of(words, past));
            s.done
        }
    }
}

// After a call. One that is the only one, or that read nothing, is the last and has the answer; a run that goes on has
// none yet. Only a call alone has a place.
fn onward(words: usize, job: Job, past: Done, done: Done) -> Progress
    ensures report { result.done ≡ placing
        (cond (job.once || eqb done.read past.read) done.answer sent) (cond job.once done.place 0)
        done.read done.written }
    ensures more { result.more
        ≡ (not (job.once || eqb done.read past.read) && ltb done.read words) }
{
    if job.once {
        return Progress { done, more: false };
    }
    if done.read == past.read {
        return Progress {
            done: report(done.answer, done.read, done.written),
            more: false,
        };
    }
    Progress {
        done: report(SENT, done.read, done.written),
        more: done.read < words,
    }
}

impl From<Done> for Ended {
    ghost from_gives = { λ d e. e ≡ ended_by d };

    fn from(done: Done) -> Ended {
        Ended {
            written: done.written,
            answer: done.answer,
            read: done.read,
            place: done.place,
        }
    }
}

impl From<Ended> for Done {
    ghost from_gives = { λ e d. d ≡ report_in e };

    fn from(end: Ended) -> Done {
        report_place(end.answer, end.place, end.read, end.written)
    }
}

// The call at the start of the words, or the run over all of them.
// Kept: no `for` goes through the packets, since the report of each call says where the next one starts.
fn go_through(words: &[u32], job: Job, table: &mut [Record], out: &mut [u32]) -> Ended
    ensures report { result ≡ ended_by (asked_report job words.now
        (asked job (length out.old) table.old words.now)) }
    ensures table { table.new
        ≡ table_after (asked job (length out.old) table.old words.now) }
    ensures output { out.new ≡ at_start
        (asked job (length out.old) table.old words.now).sends out.old }
{
    let mut p = start(table.len(), words.len(), job);
    while p.more {
        let done = one(words, job, p.done, table, out);
        p = onward(words.len(), job, p.done, done);
    }
    Ended::from(p.done)
}

// The same, with the report.
pub fn treat(words: &[u32], job: Job, table: &mut [Record], out: &mut [u32]) -> Done
    ensures report { result ≡ asked_report job words.now
        (asked job (length out.old) table.old words.now) }
    ensures table { table.new
        ≡ table_after (asked job (length out.old) table.old words.now) }
    ensures output { out.new ≡ at_start
        (asked job (length out.old) table.old words.now).sends out.old }
{
    Done::from(go_through(words, job, table, out))
}

// The same with a table by value, which is lent to the loop.
pub fn run_from(
    table: [Record; RECORDS],
    words: &[u32],
    out: &mut [u32],
    job: Job,
) -> TableAndReport
    ensures report { result.done ≡ asked_report job words.now
        (asked job (length out.old) «table» words.now) }
    ensures table { result.records
        ≡ table_after (asked job (length out.old) «table» words.now) }
    ensures output { out.new ≡ at_start
        (asked job (length out.old) «table» words.now).sends out.old }
{
    let mut records = table;
    let done = Done::from(go_through(words, job, &mut records, out));
    TableAndReport { records, done }
}
