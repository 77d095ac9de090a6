// The program for a recorded line with resends, as a library: rules.bin, segments on standard input, a line for each pair. What it hands over is promised in
// `program_live`, by the same loop as that of a live line, without a state.
#![tactic(auto)]

// The program.
pub fn start(rt: &HostRuntime) {
    program_live::watch_recorded(rt, "rules.bin");
}
