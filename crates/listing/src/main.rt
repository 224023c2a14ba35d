#![tactic(auto)]

use filter::Streams;

fn main(rt: HostRuntime) {
    filter::listing(&rt, &mut Streams::new(rt.stdin(), rt.stdout(), rt.stderr()));
}
