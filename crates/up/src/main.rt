#![tactic(auto)]

use filter::Streams;

fn main(rt: HostRuntime) {
    filter::up(&rt, &mut Streams::new(rt.stdin(), rt.stdout(), rt.stderr()));
}
