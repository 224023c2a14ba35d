#![tactic(auto)]

use cablefilter::Streams;

fn main(rt: HostRuntime) {
    cablefilter::import(&rt, &mut Streams::new(rt.stdin(), rt.stdout(), rt.stderr()));
}
