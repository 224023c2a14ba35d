#![tactic(auto)]

use cablefilter::Streams;

fn main(rt: HostRuntime) {
    cablefilter::export(&rt, &mut Streams::new(rt.stdin(), rt.stdout(), rt.stderr()));
}
