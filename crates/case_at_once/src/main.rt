// State 0 of the barn list accepts 5, 3 and 5 again: opening tells two pairs of offset 0, before the input, which is empty.
#![tactic(auto)]

fn main(rt: HostRuntime) {
    program::start(&rt);
}
