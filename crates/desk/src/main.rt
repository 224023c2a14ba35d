#![tactic(auto)]

use showing::Streams;

fn main(rt: HostRuntime) {
    showing::desk(&rt, &mut Streams::new(rt.stdin(), rt.stdout(), rt.stderr()));
}
