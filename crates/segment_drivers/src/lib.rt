// The drivers: code for no user. Each opens a flow and hands in segments as a caller would, any number of them, and promises of what was answered and left
// what the theorems say. Between two segments there is nothing but what is saved: the record, the held buffer, the held place and the words told.
#![tactic(auto)]

ghost use Rattle.std.specs.Prelude.{◌-◌, ◌≤◌, length, take, drop};
ghost use Rattle.table.specs.Table.{table};
ghost use Rattle.laws.specs.Calls.{way_of, by_list};
ghost use Rattle.segment_feed.specs.Segment.{feed_segment};
ghost use Rattle.segment_feed.specs.Ways.{plain_way, split_way};
ghost use Rattle.segment_feed.specs.Post.{Hears, sent, kept};
ghost use Rattle.segment_feed.specs.Calls.{handed};
ghost use Rattle.segment_feed.specs.Streamed.{glancing};
ghost use Rattle.segment_drivers.specs.Drivers.{SegmentKept, by_flag, Turned, far_by, SegmentsDriven, LooksDriven};

use feed::Opened;
use segment_feed::Heard;

// Where a driver stands: the held place, and the words told.
#[derive(Clone, Copy)]
struct Standing {
    start: u32,
    length: u32,
    words: usize,
}

// What the calls of `drive_segments` answered: the check, the opening, and where it stands in the end.
#[derive(Clone, Copy)]
struct DroveSegments {
    checked: u32,
    opened: Opened,
    stands: Standing,
}

// What a list says at a place; past its end that is the default.
fn at_or<T: Copy>(list: &[T], i: usize, default: T) -> T {
    list.get(i).copied().unwrap_or(default)
}

// What the calls of `drive_each` answered.
#[derive(Clone, Copy)]
struct DroveEach {
    plain: Heard,
    split: Heard,
}

// One segment: hands it in by the list alone and through the table, each on buffers of its own.
fn drive_each(
    list: &[u8],
    bound: u64,
    classes: &[u8],
    parts: &[u8],
    rows: &[u8],
    splits: &[u8],
    first: u32,
    held_start: u32,
    held_length: u32,
    start: u32,
    segment: &[u8],
    flow: &mut [u8],
    held: &mut [u8],
    pairs: &mut [u32],
    split_flow: &mut [u8],
    split_held: &mut [u8],
    split_pairs: &mut [u32],
) -> DroveEach
    ensures plain { SegmentKept (plain_way list.now) (sent first start segment.now)
        (kept flow.old held.old held_start held_length) pairs.old result.plain pairs.new flow.new held.new }
    ensures split { SegmentKept (split_way list.now bound (table classes.now parts.now rows.now splits.now))
        (sent first start segment.now) (kept split_flow.old split_held.old held_start held_length) split_pairs.old
        result.split split_pairs.new split_flow.new split_held.new }
{
    let plain = segment_feed::feed_segment(
        list,
        flow,
        first,
        held,
        held_start,
        held_length,
        start,
        segment,
        pairs,
    );
    let split = segment_feed::split_feed_segment(
        list,
        bound,
        classes,
        parts,
        rows,
        splits,
        split_flow,
        first,
        split_held,
        held_start,
        held_length,
        start,
        segment,
        split_pairs,
    );
    DroveEach { plain, split }
}

// Feeds a segment through the table where the flag says so, else by the list alone.
fn hear(
    list: &[u8],
    bound: u64,
    classes: &[u8],
    parts: &[u8],
    rows: &[u8],
    splits: &[u8],
    through: bool,
    flow: &mut [u8],
    first: u32,
    held: &mut [u8],
    held_start: u32,
    held_length: u32,
    start: u32,
    segment: &[u8],
    pairs: &mut [u32],
) -> Heard
    ensures { Hears (feed_segment (way_of (record { list = list.now; via = by_flag through bound (table classes.now parts.now rows.now splits.now) }))
        (sent first start segment.now) (kept flow.old held.old held_start held_length) pairs.old)
        result pairs.new flow.new held.new }
{
    if through {
        return segment_feed::split_feed_segment(
            list,
            bound,
            classes,
            parts,
            rows,
            splits,
            flow,
            first,
            held,
            held_start,
            held_length,
            start,
            segment,
            pairs,
        );
    }
    segment_feed::feed_segment(
        list,
        flow,
        first,
        held,
        held_start,
        held_length,
        start,
        segment,
        pairs,
    )
}

// Hands in the bytes from n to e as a segment, with the words behind those told, up to word v.
fn turn(
    list: &[u8],
    bound: u64,
    classes: &[u8],
    parts: &[u8],
    rows: &[u8],
    splits: &[u8],
    through: bool,
    flow: &mut [u8],
    first: u32,
    held: &mut [u8],
    so: Standing,
    start: u32,
    bytes: &[u8],
    n: usize,
    e: usize,
    pairs: &mut [u32],
    v: usize,
) -> Standing
    requires { (n ≤ e) × (e ≤ length bytes.now) × (so.words ≤ v) × (v ≤ length pairs.old) }
    ensures { Turned (handed way_of first (record {
      by = record {
        list = list.now;
        via = by_flag through bound (table classes.now parts.now rows.now splits.now);
      };
      at = start;
      piece = take (e - n) (drop n bytes.now);
      out = take (v - so.words) (drop so.words pairs.old);
    }))
        (kept flow.old held.old so.start so.length) so pairs.old result pairs.new flow.new held.new }
{
    let w = so.words;
    let heard = hear(
        list,
        bound,
        classes,
        parts,
        rows,
        splits,
        through,
        flow,
        first,
        held,
        so.start,
        so.length,
        start,
        &bytes[n..e],
        &mut pairs[w..v],
    );
    Standing {
        start: heard.start,
        length: heard.length,
        words: w + 2 * heard.pairs,
    }
}

// Segments: checks a table, opens a flow, and hands in as many segments as there are numbers. Each is the bytes from one lent place to another, and has
// words up to where a list of rooms says; it goes through the table where a list of flags says so.
fn drive_segments(
    list: &[u8],
    bound: u64,
    classes: &[u8],
    parts: &[u8],
    rows: &[u8],
    splits: &[u8],
    flow: &mut [u8],
    first: u32,
    held: &mut [u8],
    numbers: &[u32],
    flags: &[bool],
    from: &[usize],
    to: &[usize],
    rooms: &[usize],
    bytes: &[u8],
    pairs: &mut [u32],
) -> DroveSegments
    ensures { SegmentsDriven list.now bound (table classes.now parts.now rows.now splits.now)
        first numbers.now flow.old pairs.old held.old result.checked result.opened result.stands
        pairs.new flow.new held.new }
{
    let checked = table::check_table(list, bound, classes, parts, rows, splits);
    let opened = list_flow::open_flow(list, flow, pairs);
    let mut so = Standing {
        start: 0,
        length: 0,
        words: 2 * opened.pairs,
    };
    // By index: each list says what it says of segment i at place i.
    for i in 0..numbers.len() {
        let n = at_or(from, i, 0).min(bytes.len());
        let e = at_or(to, i, 0).clamp(n, bytes.len());
        let v = at_or(rooms, i, 0).clamp(so.words, pairs.len());
        let through = at_or(flags, i, false);
        so = turn(
            list, bound, classes, parts, rows, splits, through, flow, first, held, so, numbers[i],
            bytes, n, e, pairs, v,
        );
    }
    DroveSegments {
        checked,
        opened,
        stands: so,
    }
}

// How far a look comes before its caller is killed: to its end, until the held place is saved too, or until the held buffer alone is.
#[derive(Clone, Copy, PartialEq, Eq, Debug)]
enum Reach {
    Whole,
    Placed,
    Torn,
}

// One look of a caller who takes the segment himself, the bytes from n to e: he saves the held buffer, then the held place, feeds what is due with the words
// behind those told, up to word v, and saves the record; `far` says where he is killed.
fn glance(
    list: &[u8],
    flow: &mut [u8],
    first: u32,
    held: &mut [u8],
    so: Standing,
    far: Reach,
    start: u32,
    segment: &[u8],
    pairs: &mut [u32],
    v: usize,
) -> Standing
    requires { (so.words ≤ v) × (v ≤ length pairs.old) }
    ensures { Turned (glancing way_of first (record {
      call = record {
        by = record {
          list = list.now;
          via = by_list;
        };
        at = start;
        piece = segment.now;
        out = take (v - so.words) (drop so.words pairs.old);
      };
      far = far_by far;
    }))
        (kept flow.old held.old so.start so.length) so pairs.old result pairs.new flow.new held.new }
{
    let at = segment_feed::offset_of(flow);
    let next = segment_feed::next_of(first, at);
    let taken = segment::take(next, held, so.start, so.length, start, segment);
    let w = so.words;
    let placed = Standing {
        start: taken.start,
        length: taken.length,
        words: w,
    };
    match far {
        Reach::Torn => so,
        Reach::Placed => placed,
        Reach::Whole => {
            let due = segment::due(next, held, taken.start, taken.length, start, segment);
            if due.len() == 0 {
                return placed;
            }
            let fed = list_feed::feed(list, flow, at, due, &mut pairs[w..v]);
            Standing {
                start: taken.start,
                length: taken.length,
                words: w + 2 * fed.pairs,
            }
        }
    }
}

// What the calls of `drive_looks` answered: the opening, and where it stands in the end.
#[derive(Clone, Copy)]
struct DroveLooks {
    opened: Opened,
    stands: Standing,
}

// Looks of a caller who is killed now and then: opens a flow, and takes as many segments as there are numbers, each the bytes from one lent place to another;
// he comes as far as a list says, and goes on with what is saved.
fn drive_looks(
    list: &[u8],
    flow: &mut [u8],
    first: u32,
    held: &mut [u8],
    numbers: &[u32],
    fars: &[Reach],
    from: &[usize],
    to: &[usize],
    rooms: &[usize],
    bytes: &[u8],
    pairs: &mut [u32],
) -> DroveLooks
    ensures { LooksDriven list.now first numbers.now flow.old pairs.old held.old
        result.opened result.stands pairs.new flow.new held.new }
{
    let opened = list_flow::open_flow(list, flow, pairs);
    let mut so = Standing {
        start: 0,
        length: 0,
        words: 2 * opened.pairs,
    };
    // By index: each list says what it says of segment i at place i.
    for i in 0..numbers.len() {
        let n = at_or(from, i, 0).min(bytes.len());
        let e = at_or(to, i, 0).clamp(n, bytes.len());
        let v = at_or(rooms, i, 0).clamp(so.words, pairs.len());
        let far = at_or(fars, i, Reach::Whole);
        so = glance(
            list,
            flow,
            first,
            held,
            so,
            far,
            numbers[i],
            &bytes[n..e],
            pairs,
            v,
        );
    }
    DroveLooks { opened, stands: so }
}
