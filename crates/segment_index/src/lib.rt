// Feeding a flow by segments by its index: what a segment does is the same for every engine; here is how the index feeds, which leaves in its note
// at which split the flow then stands.
#![tactic(auto)]

ghost use Rattle.std.specs.Prelude.{◌≡◌};
ghost use Rattle.index.specs.Stand.{stood_at};
ghost use Rattle.segment_feed.specs.Post.{Hears, sent, kept};
ghost use Rattle.segment_index.specs.Standing.{stand_way, stand_segment, stood_by};

use feed::Fed;
use segment_feed::{Feeds, Heard};

// What feeding a segment by an index answers: as every segment, and the split where the flow then stands.
// The split is a number, as C has it, which hands it in again as the hint.
#[derive(Clone, Copy)]
pub struct HeardAt {
    pub heard: Heard,
    pub split: usize,
}

#[derive(Clone, Copy)]
struct ByIndex<'a> {
    splits: &'a [u8],
    index: &'a [u8],
    hint: usize,
}

impl<'a> Feeds for ByIndex<'a> {
    type Note = usize;

    ghost way = { λ s. stand_way s.splits.now s.index.now s.hint };

    ghost says = { λ s. stood_at s.splits.now s.index.now s.hint };

    fn offset(&self, flow: &[u8]) -> u64 {
        segment_feed::offset_of(flow)
    }

    fn refusal(&self, flow: &[u8], at: u64, piece: &[u8]) -> u32 {
        index_feed::refusal(self.splits, self.index, self.hint, flow, at, piece)
    }

    fn feed(
        &self,
        note: &mut usize,
        flow: &mut [u8],
        at: u64,
        piece: &[u8],
        pairs: &mut [u32],
    ) -> Fed {
        let stood = index_feed::feed(self.splits, self.index, self.hint, flow, at, piece, pairs);
        *note = stood.split;
        stood.fed
    }
}

// Feeds a segment to a flow by its index, each look from the split that is handed in where the flow stands there; any number may be. A refusal at the door
// changes nothing and answers that number.
pub fn feed_segment(
    splits: &[u8],
    index: &[u8],
    hint: usize,
    flow: &mut [u8],
    first: u32,
    held: &mut [u8],
    held_start: u32,
    held_length: u32,
    start: u32,
    segment: &[u8],
    pairs: &mut [u32],
) -> HeardAt
    ensures { Hears (stand_segment splits.now index.now hint (sent first start segment.now)
        (kept flow.old held.old held_start held_length) pairs.old)
        result.heard pairs.new flow.new held.new
        × (result.split ≡ stood_by splits.now index.now hint (sent first start segment.now)
        (kept flow.old held.old held_start held_length) pairs.old) }
{
    let engine = ByIndex {
        splits,
        index,
        hint,
    };
    let mut split = hint;
    let heard = segment_feed::feed_by(
        &engine,
        &mut split,
        flow,
        first,
        held,
        held_start,
        held_length,
        start,
        segment,
        pairs,
    );
    HeardAt { heard, split }
}
