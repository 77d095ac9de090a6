// The example of two breakfasts: the feeder repeats the order for calf number nine.
#![tactic(auto)]

fn main(rt: HostRuntime) {
    program::start(&rt);
}
