// A list without a start record: refused by rule 3, whatever the input is.
#![tactic(auto)]

fn main(rt: HostRuntime) {
    program::start(&rt);
}
