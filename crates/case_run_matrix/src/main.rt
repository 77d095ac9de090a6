// A list of more than 4,096 sets of states: it is fed by its matrix, and tells the lines of the program by the list.
#![tactic(auto)]

fn main(rt: HostRuntime) {
    program_run::start(&rt, b"rules.bin");
}
