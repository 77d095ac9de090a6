// The two breakfasts on a line with resends: the feeder orders twice, and each order is sent more than once, cut, early and late.
#![tactic(auto)]

fn main(rt: HostRuntime) {
    program_segments::start(&rt);
}
