#![tactic(auto)]

use salvage::Streams;

fn main(rt: HostRuntime) {
    let mut streams = Streams::new(rt.stdin(), rt.stdout(), rt.stderr());
    salvage::rescue(&rt, &mut streams, &mut rt.stderr());
}
