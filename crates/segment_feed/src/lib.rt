// Feeding a flow by segments: each look takes the segment and feeds what is due, until nothing is due or there is no room. What a segment does is the same
// for every engine (`feed_by`); an engine says how it feeds (`Feeds`).
// The parameters are those of C's calls.
#![tactic(auto)]

ghost use Rattle.std.specs.Prelude.{◌≡◌, ℕ, ◌+◌, ◌%◌, ◌≤◌, List, length, if◌then◌else◌};
ghost use Rattle.rules.specs.Rules.{verdict};
ghost use Rattle.feed.specs.Calls.{Way, fed_by};
ghost use Rattle.feed.specs.Fed.{Answers};
ghost use Rattle.list_flow.specs.Flow.{offset_of};
ghost use Rattle.table.specs.Table.{table};
ghost use Rattle.segment.specs.Resend.{circle, bad_sizes};
ghost use Rattle.segment_feed.specs.Segment.{feed_segment};
ghost use Rattle.segment_feed.specs.Noted.{noted_by, Notes};
ghost use Rattle.segment_feed.specs.Ways.{plain_way, split_way, plain_segment, split_segment};
ghost use Rattle.segment_feed.specs.Post.{Hears, More, Roomy, sent, kept, begun_as, idle_as, busy_as, heard_as};

use feed::Fed;
use segment::Held;
use std::ops::ControlFlow;

// As many looks as a segment can need.
pub const MOST_LOOKS: usize = 4;

// As many numbers as there are.
const CIRCLE: u64 = 4294967296;

// What feeding a segment answers: a refusal's number or 0, the bytes passed down, the pairs told, whether nothing is due any more, and the held place
// at exit. Where neither is there a refusal nor is nothing due, the pairs had no room: take them, and hand in the same segment again.
// C's struct has `all`, too; the other fields hold either way.
#[derive(Clone, Copy)]
pub struct Heard {
    pub refusal: u32,
    pub bytes: usize,
    pub pairs: usize,
    pub all: bool,
    pub start: u32,
    pub length: u32,
}

// What is heard so far; where it goes on, a look follows.
pub type Looked = ControlFlow<Heard, Heard>;

// ---- around the feed

// The offset of a record.
pub fn offset_of(flow: &[u8]) -> u64
    ensures { result ≡ offset_of flow.now }
{
    list_flow::offset_of(flow)
}

// The number of the byte at an offset, where the flow's first byte has number `first`.
pub fn next_of(first: u32, offset: u64) -> u32
    ensures { result ≡ (first + offset) % circle }
{
    first.wrapping_add((offset % CIRCLE) as u32)
}

// The refusal at the door, by the sizes and the refusal of a feed of no bytes: 18 for the sizes first.
pub fn door(met: u32, held_size: usize, held_length: u32, size: usize) -> u32
    ensures { result ≡ (if bad_sizes held_size held_length size then 18 else met) }
{
    if segment::bad_sizes(held_size, held_length as usize, size) {
        return segment::NOT_TAKEN;
    }
    met
}

// A segment at the door: nothing is heard yet, and a look follows where there is no refusal.
pub fn begun(refusal: u32, held_start: u32, held_length: u32) -> Looked
    ensures { result ≡ begun_as refusal held_start held_length }
{
    let heard = Heard {
        refusal,
        bytes: 0,
        pairs: 0,
        all: false,
        start: held_start,
        length: held_length,
    };
    if refusal == rules::PASSED {
        ControlFlow::Continue(heard)
    } else {
        ControlFlow::Break(heard)
    }
}

// After a look that found nothing due: what taking the segment answered. No look follows.
pub fn idle(so: Heard, taken: Held) -> Looked
    ensures { result ≡ idle_as so taken }
{
    ControlFlow::Break(Heard {
        refusal: taken.refusal,
        bytes: so.bytes,
        pairs: so.pairs,
        all: taken.refusal == rules::PASSED,
        start: taken.start,
        length: taken.length,
    })
}

// After a look that fed what was due: what the feed answered, behind what was heard before. A look follows where all of it was consumed.
pub fn busy(so: Heard, taken: Held, fed: Fed) -> Looked
    requires { (so.bytes + fed.bytes ≤ 18446744073709551615) × (so.pairs + fed.pairs ≤ 18446744073709551615) }
    ensures { result ≡ busy_as so taken fed }
{
    let heard = Heard {
        refusal: fed.refusal,
        bytes: so.bytes + fed.bytes,
        pairs: so.pairs + fed.pairs,
        all: false,
        start: taken.start,
        length: taken.length,
    };
    if fed.all {
        ControlFlow::Continue(heard)
    } else {
        ControlFlow::Break(heard)
    }
}

// The answer, after the last look.
pub fn answered(so: Looked) -> Heard
    ensures { result ≡ heard_as so }
{
    match so {
        ControlFlow::Continue(heard) | ControlFlow::Break(heard) => heard,
    }
}

// ---- by any engine

// How an engine feeds a flow. Beside what every feed answers it may leave a note, as the index does of the split where the flow then stands.
pub trait Feeds {
    type Note;

    ghost way: { Self → Way };

    // The note of a feed of a record, from a stated start, of a piece, with the words to write to.
    ghost says: { Self → List ℕ → ℕ → List ℕ → List ℕ → Self.Note };

    // The offset of a record.
    fn offset(&self, flow: &[u8]) -> u64
        ensures { result ≡ (way self.now).layout.offset flow.now };

    // The refusal of a feed.
    fn refusal(&self, flow: &[u8], at: u64, piece: &[u8]) -> u32
        ensures { result ≡ verdict ((way self.now).rules flow.now at piece.now) };

    // Feeds a piece, and leaves its note.
    fn feed(
        &self,
        note: &mut Self::Note,
        flow: &mut [u8],
        at: u64,
        piece: &[u8],
        pairs: &mut [u32],
    ) -> Fed
        ensures answers { Answers (fed_by (way self.now) flow.old at piece.now pairs.old) result pairs.new flow.new }
        ensures notes { note.new ≡ says self.now flow.old at piece.now pairs.old };
}

// One look more where one follows: the segment is taken, and what is then due is fed, with the words behind the pairs told.
fn look<E: Feeds>(
    engine: &E,
    note: &mut E::Note,
    flow: &mut [u8],
    first: u32,
    held: &mut [u8],
    so: Looked,
    start: u32,
    segment: &[u8],
    pairs: &mut [u32],
) -> Looked
    requires { Roomy (heard_as so) (length pairs.old) }
    ensures looks { More (E.way engine.now) (sent first start segment.now) so pairs.old flow.old held.old
        result pairs.new flow.new held.new }
    ensures notes { Notes (E.way engine.now) (E.says engine.now) (sent first start segment.now) so pairs.old flow.old held.old
        note.old note.new }
{
    let ControlFlow::Continue(heard) = so else {
        return so;
    };
    let at = engine.offset(flow);
    let next = next_of(first, at);
    let taken = segment::take(next, held, heard.start, heard.length, start, segment);
    let due = segment::due(next, held, taken.start, taken.length, start, segment);
    if due.len() == 0 {
        return idle(heard, taken);
    }
    let w = 2 * heard.pairs;
    let fed = engine.feed(note, flow, at, due, &mut pairs[w..]);
    busy(heard, taken, fed)
}

// Feeds a segment to a flow by an engine. The flow's first byte has number `first`, the segment's first byte number `start`; `held` is the held
// buffer, of which `held_length` bytes are held from number `held_start` on. The note is that of the last feed, and stays where there is none.
// A refusal at the door changes nothing.
pub fn feed_by<E: Feeds>(
    engine: &E,
    note: &mut E::Note,
    flow: &mut [u8],
    first: u32,
    held: &mut [u8],
    held_start: u32,
    held_length: u32,
    start: u32,
    segment: &[u8],
    pairs: &mut [u32],
) -> Heard
    ensures hears { Hears (feed_segment (E.way engine.now) (sent first start segment.now)
        (kept flow.old held.old held_start held_length) pairs.old)
        result pairs.new flow.new held.new }
    ensures notes { note.new ≡ noted_by (E.way engine.now) (E.says engine.now) (sent first start segment.now)
        (kept flow.old held.old held_start held_length) pairs.old note.old }
{
    let at = engine.offset(flow);
    let met = engine.refusal(flow, at, &segment[..0]);
    let refusal = door(met, held.len(), held_length, segment.len());
    let mut so = begun(refusal, held_start, held_length);
    for i in 0..MOST_LOOKS {
        so = look(engine, note, flow, first, held, so, start, segment, pairs);
    }
    answered(so)
}

// ---- by the list alone

#[derive(Clone, Copy)]
struct ByList<'a> {
    list: &'a [u8],
}

impl<'a> Feeds for ByList<'a> {
    type Note = ();

    ghost way = { λ s. plain_way s.list.now };

    ghost says = { λ s R at piece out. tt };

    fn offset(&self, flow: &[u8]) -> u64 {
        offset_of(flow)
    }

    fn refusal(&self, flow: &[u8], at: u64, piece: &[u8]) -> u32 {
        list_flow::feed_refusal(self.list, flow, at, piece)
    }

    fn feed(
        &self,
        note: &mut (),
        flow: &mut [u8],
        at: u64,
        piece: &[u8],
        pairs: &mut [u32],
    ) -> Fed {
        list_feed::feed(self.list, flow, at, piece, pairs)
    }
}

// Feeds a segment to a flow by its list alone.
pub fn feed_segment(
    list: &[u8],
    flow: &mut [u8],
    first: u32,
    held: &mut [u8],
    held_start: u32,
    held_length: u32,
    start: u32,
    segment: &[u8],
    pairs: &mut [u32],
) -> Heard
    ensures { Hears (plain_segment list.now (sent first start segment.now)
        (kept flow.old held.old held_start held_length) pairs.old)
        result pairs.new flow.new held.new }
{
    let engine = ByList { list };
    feed_by(
        &engine,
        &mut (),
        flow,
        first,
        held,
        held_start,
        held_length,
        start,
        segment,
        pairs,
    )
}

// ---- by its table

#[derive(Clone, Copy)]
struct ByTable<'a> {
    list: &'a [u8],
    bound: u64,
    classes: &'a [u8],
    parts: &'a [u8],
    rows: &'a [u8],
    splits: &'a [u8],
}

impl<'a> Feeds for ByTable<'a> {
    type Note = ();

    ghost way = { λ s. split_way s.list.now s.bound (table s.classes.now s.parts.now s.rows.now s.splits.now) };

    ghost says = { λ s R at piece out. tt };

    fn offset(&self, flow: &[u8]) -> u64 {
        offset_of(flow)
    }

    fn refusal(&self, flow: &[u8], at: u64, piece: &[u8]) -> u32 {
        table_feed::feed_refusal(
            self.list,
            self.bound,
            self.classes,
            self.parts,
            self.rows,
            self.splits,
            flow,
            at,
            piece,
        )
    }

    fn feed(
        &self,
        note: &mut (),
        flow: &mut [u8],
        at: u64,
        piece: &[u8],
        pairs: &mut [u32],
    ) -> Fed {
        table_feed::feed(
            self.list,
            self.bound,
            self.classes,
            self.parts,
            self.rows,
            self.splits,
            flow,
            at,
            piece,
            pairs,
        )
    }
}

// Feeds a segment to a flow by its table.
pub fn split_feed_segment(
    list: &[u8],
    bound: u64,
    classes: &[u8],
    parts: &[u8],
    rows: &[u8],
    splits: &[u8],
    flow: &mut [u8],
    first: u32,
    held: &mut [u8],
    held_start: u32,
    held_length: u32,
    start: u32,
    segment: &[u8],
    pairs: &mut [u32],
) -> Heard
    ensures { Hears (split_segment list.now bound
        (table classes.now parts.now rows.now splits.now) (sent first start segment.now)
        (kept flow.old held.old held_start held_length) pairs.old)
        result pairs.new flow.new held.new }
{
    let engine = ByTable {
        list,
        bound,
        classes,
        parts,
        rows,
        splits,
    };
    feed_by(
        &engine,
        &mut (),
        flow,
        first,
        held,
        held_start,
        held_length,
        start,
        segment,
        pairs,
    )
}
