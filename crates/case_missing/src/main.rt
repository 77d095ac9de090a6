// No rules.bin: it counts as an empty list, refused by rule 1.
#![tactic(auto)]

fn main(rt: HostRuntime) {
    program::start(&rt);
}
