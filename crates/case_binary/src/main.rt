// Binary input of every byte value, longer than two pieces, by a list with ranges; a match lies across a cut.
#![tactic(auto)]

fn main(rt: HostRuntime) {
    program::start(&rt);
}
