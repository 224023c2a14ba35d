// Lines that a program says on standard error: what it refused of its input, and which argument is wrong.
//
// No contract can say what a terminal takes, so these functions are proved to be safe and to end.
#![tactic(auto)]

ghost use Rattle.std.specs.Prelude.{◌<◌, ◌≤◌};

use remark::Line;
use std::io::Write;
use stream::{BAD_DATA, NO_FORM};
use tally::{Counts, LAST_ANSWER, SORTS};

// How the input ended: between two packets or messages, or within one.
#[derive(Clone, Copy, PartialEq, Eq)]
pub enum Ending {
    Whole,
    CutPacket,
    OpenMessage,
    OpenExclusive,
}

// How many there are, and the word for what is counted, after a space.
#[derive(Clone, Copy)]
pub struct Amount<'a> {
    pub number: u64,
    pub word: &'a [u8],
}

// A line with the refusals so far, and what stands before the next one.
#[derive(Drop)]
struct Refusals {
    line: Line,
    before: &'static [u8],
}

impl Ending {
    // What is said of it, where anything is.
    fn said(self) -> &'static [u8] {
        match self {
            Ending::Whole => b"",
            Ending::CutPacket => b"; cut packet at the end",
            Ending::OpenMessage => b"; message open at the end",
            Ending::OpenExclusive => b"; exclusive open at the end",
        }
    }
}

impl Refusals {
    // With a sort and how often it came. Those behind the answers are bad data at a place.
    fn with(self, sort: usize, times: u64) -> Refusals
        requires { sort < 33 }
    {
        let line = self.line.with(self.before);
        let answers = LAST_ANSWER as usize;
        let line = if answers < sort {
            line.with_number(u64::from(BAD_DATA))
                .with(b" at ")
                .with_number((sort - answers) as u64)
        } else {
            line.with_number(sort as u64)
        };
        Refusals {
            line: line.with(b" x").with_number(times),
            before: b", ",
        }
    }

    // With each sort that came, from one up to an end.
    fn with_sorts(self, counts: &Counts, from: usize, end: usize) -> Refusals
        requires { end ≤ 33 }
    {
        let mut said = self;
        for sort in from..end {
            let times = counts.of(sort as u64);
            if times != 0 {
                said = said.with(sort, times);
            }
        }
        said
    }
}

// With each refusal that came, in the order of the answers, which start at 2.
fn with_refusals(line: Line, counts: &Counts) -> Line {
    let answers = LAST_ANSWER as usize + 1;
    let behind = BAD_DATA as usize + 1;
    let refusals = Refusals {
        line,
        before: b"; refused: ",
    };
    refusals
        .with_sorts(counts, NO_FORM as usize, behind)
        .with_sorts(counts, answers, SORTS)
        .with_sorts(counts, behind, answers)
        .line
}

// Whether anything was refused.
fn is_refused(counts: &Counts) -> bool {
    (NO_FORM as usize..SORTS).any(|sort| counts.of(sort as u64) != 0)
}

// What a program says at the end: how much it read, and how much it wrote where it writes packets or messages, what
// was refused and how the input ended; and nothing where nothing was refused and nothing cut.
pub fn say_end<E: Write>(
    errors: &mut E,
    name: &[u8],
    read: Amount<'_>,
    written: Option<Amount<'_>>,
    counts: &Counts,
    ending: Ending,
) {
    if !is_refused(counts) & (ending == Ending::Whole) {
        return;
    }
    let mut line = Line::empty()
        .with(name)
        .with(b": read ")
        .with_number(read.number)
        .with(read.word);
    if let Some(written) = written {
        line = line
            .with(b", wrote ")
            .with_number(written.number)
            .with(written.word);
    }
    with_refusals(line, counts)
        .with(ending.said())
        .write(errors);
}

// Says what is wrong with an argument, and its bytes as they came, with what stands for those that are not shown.
pub fn say_wrong<E: Write>(errors: &mut E, name: &[u8], what: &[u8], argument: &[u8], rest: &[u8]) {
    Line::empty()
        .with(name)
        .with(what)
        .with(argument)
        .with(rest)
        .write(errors);
}
