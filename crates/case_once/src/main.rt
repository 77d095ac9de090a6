// The example of two breakfasts: no order for calf number nine is repeated.
#![tactic(auto)]

fn main(rt: HostRuntime) {
    program::start(&rt);
}
