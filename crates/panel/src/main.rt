#![tactic(auto)]

use filter::Streams;

fn main(rt: HostRuntime) {
    filter::panel(&rt, &mut Streams::new(rt.stdin(), rt.stdout(), rt.stderr()));
}
