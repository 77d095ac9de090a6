// One breakfast on a line with resends: the order comes twice on the line, and once to the calf.
#![tactic(auto)]

fn main(rt: HostRuntime) {
    program_segments::start(&rt);
}
