// A list with state 1,024 in an edge: refused by rule 2.
#![tactic(auto)]

fn main(rt: HostRuntime) {
    program::start(&rt);
}
