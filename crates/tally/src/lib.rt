// How often each answer came among the calls of a run, with bad data by place: for what a program says
// at its end.
//
// No public function has a `requires`. The counts are a count over the packets of some words, one more
// of a sort, or two counts together, and each says so by definitions of specs/, on every input.
#![tactic(auto)]

mod ways;

ghost use Rattle.std.specs.Prelude.{◌≡◌, ◌+◌, ◌%◌, ◌^◌, [], EachIndex, slice_index};
ghost use Rattle.tally.specs.Tally.{counted, sort_found, sort_of, tally, tally_by};

use screen::Refusal;
use stream::{NOT_FOR_CABLE, SENT};
pub use ways::{Down, Heard, Out, Up, Way};

// The highest of all answers, behind which bad data stand by their places.
pub const LAST_ANSWER: u32 = NOT_FOR_CABLE;

// How many sorts of calls are counted: an answer is its own sort, and bad data at a place the place
// behind all answers, up to the seventh.
pub const SORTS: usize = 33;

// The sort of a call by its answer and the place of bad data, which is 0 where there is none.
pub fn sort_of(answer: u32, place: u32) -> u64
    ensures { result ≡ sort_of answer place }
{
    if place == 0 {
        u64::from(answer)
    } else {
        u64::from(LAST_ANSWER) + u64::from(place)
    }
}

// The sort of a packet by its screening, which is 0 where that lets it go on.
pub fn sort_found(found: Result<(), Refusal>) -> u64
    ensures { result ≡ sort_found found }
{
    match found {
        Ok(()) => sort_of(SENT, 0),
        Err(refusal) => sort_of(refusal.answer, refusal.place),
    }
}

// How often each sort came, at its number. Any numbers are counts, so a caller with its own may hand them over.
#[derive(Clone, Copy)]
pub struct Counts {
    pub times: [u64; SORTS],
}

impl Counts {
    // Before the first call.
    pub fn none() -> Counts
        ensures { result.times ≡ tally [] }
    {
        Counts { times: [0; SORTS] }
    }

    // One more of a sort. A count that is full begins again.
    pub fn add(&mut self, sort: u64)
        ensures { self.new.times ≡ counted self.old.times sort }
    {
        let k = sort as usize;
        if k < SORTS {
            self.times[k] = self.times[k].wrapping_add(1);
        }
    }

    // How often a sort came, and 0 for a number that no sort has.
    pub fn of(&self, sort: u64) -> u64
        ensures { result ≡ slice_index self.now.times sort }
    {
        match self.times.get(sort as usize) {
            Some(times) => *times,
            None => 0,
        }
    }

    // How often each sort came in both together. A count that is full begins again here as well.
    pub fn and(self, more: Counts) -> Counts
        ensures { EachIndex result.times (λ sort. slice_index result.times sort
            ≡ (slice_index self.times sort + slice_index more.times sort) % 2 ^ 64) }
    {
        let mut times = self.times;
        for sort in 0..SORTS {
            times[sort] = times[sort].wrapping_add(more.times[sort]);
        }
        Counts { times }
    }
}

// How often each sort comes among the packets of the words, which all go one way.
pub fn tally_of<W: Way>(way: W, words: &[u32]) -> Counts
    ensures { result.times ≡ tally_by (W.sort way) words.now }
{
    let mut counts = Counts::none();
    let mut at: usize = 0;
    while at < words.len() {
        counts.add(way.sort_at(words, at));
        at += ump::size(words[at]);
    }
    counts
}
