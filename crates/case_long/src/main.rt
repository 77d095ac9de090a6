// A list of 8,193 records: refused by rule 1.
#![tactic(auto)]

fn main(rt: HostRuntime) {
    program::start(&rt);
}
