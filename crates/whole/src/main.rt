#![tactic(auto)]

use librarian::Streams;

fn main(rt: HostRuntime) {
    librarian::whole(&rt, &mut Streams::new(rt.stdin(), rt.stdout(), rt.stderr()));
}
