// Feeding a flow of an automaton with bits and counters by segments: what a segment does is the same for every engine; here is how this one feeds.
#![tactic(auto)]

ghost use Rattle.segment_feed.specs.Post.{Hears, sent, kept};
ghost use Rattle.segment_machine.specs.Ways.{machine_way, machine_segment};

use feed::Fed;
use segment_feed::{Feeds, Heard};

#[derive(Clone, Copy)]
struct ByMachine<'a> {
    moves: &'a [u8],
    programs: &'a [u8],
}

impl<'a> Feeds for ByMachine<'a> {
    type Note = ();

    ghost way = { λ s. machine_way s.moves.now s.programs.now };

    ghost says = { λ s R at piece out. tt };

    fn offset(&self, flow: &[u8]) -> u64 {
        machine::offset_of(flow)
    }

    fn refusal(&self, flow: &[u8], at: u64, piece: &[u8]) -> u32 {
        machine::feed_refusal(self.moves, self.programs, flow, at, piece)
    }

    fn feed(
        &self,
        note: &mut (),
        flow: &mut [u8],
        at: u64,
        piece: &[u8],
        pairs: &mut [u32],
    ) -> Fed {
        machine::feed(self.moves, self.programs, flow, at, piece, pairs)
    }
}

// Feeds a segment to a flow of an automaton with bits and counters. A refusal at the door changes nothing.
pub fn feed_segment(
    moves: &[u8],
    programs: &[u8],
    flow: &mut [u8],
    first: u32,
    held: &mut [u8],
    held_start: u32,
    held_length: u32,
    start: u32,
    segment: &[u8],
    pairs: &mut [u32],
) -> Heard
    ensures { Hears (machine_segment moves.now programs.now (sent first start segment.now)
        (kept flow.old held.old held_start held_length) pairs.old)
        result pairs.new flow.new held.new }
{
    let engine = ByMachine { moves, programs };
    segment_feed::feed_by(
        &engine,
        &mut (),
        flow,
        first,
        held,
        held_start,
        held_length,
        start,
        segment,
        pairs,
    )
}
