// The watch box's program: `abab` by the list of signature 7 after any "ab".
#![tactic(auto)]

fn main(rt: HostRuntime) {
    program::start(&rt);
}
