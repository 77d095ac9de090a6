// All 256 signatures at offset 0 and at every byte: 5,376 pairs, so the piece pauses and its rest is fed from the middle.
#![tactic(auto)]

fn main(rt: HostRuntime) {
    program::start(&rt);
}
