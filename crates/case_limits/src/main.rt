// A list of 8,192 records with state 1,023 and signature 255: it passes.
#![tactic(auto)]

fn main(rt: HostRuntime) {
    program::start(&rt);
}
