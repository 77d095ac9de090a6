// A list of more than 4,096 sets whose matrix has not the room: it is fed by the list.
#![tactic(auto)]

fn main(rt: HostRuntime) {
    program_run::start(&rt, b"rules.bin");
}
