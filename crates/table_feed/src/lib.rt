// The split feed: each byte is moved by the rows of the split that is the frontier, and the list gives the pairs.
// The lists are lent one by one, as C lends them.
#![tactic(auto)]

ghost use Rattle.std.specs.Prelude.{◌≡◌, true, ◌+◌, ◌*◌, ◌≤◌, ◌<◌, length};
ghost use Rattle.sets.specs.Set.{set_size, set_of};
ghost use Rattle.rules.specs.Scan.{every};
ghost use Rattle.rules.specs.Rules.{verdict};
ghost use Rattle.feed.specs.Engine.{most_offset};
ghost use Rattle.feed.specs.Fed.{Answers};
ghost use Rattle.list_flow.specs.inner.Leaves.{Leaves};
ghost use Rattle.table.specs.Table.{table, class_count, part_count, split_count, row_at, slots, taken_slots, in_order};
ghost use Rattle.table_feed.specs.Split.{split, split_rules, split_feed};
ghost use Rattle.table_feed.specs.inner.Taken.{TakesSlots, TakesStep};

use feed::Fed;
use list_flow::Ran;
use sets::StateSet;

// What a split gives for a byte: the slots taken, and the union of their rows.
#[derive(Clone, Copy)]
struct Taken {
    rows: u64,
    next: StateSet,
}

// Takes the slots of split i up to the first unused one, where there are n parts and k classes: the rows of class q. One that names no part halts.
fn take_slots(rows: &[u8], splits: &[u8], k: usize, n: usize, i: usize, q: usize) -> Option<Taken>
    requires { (set_size * (n * k) ≤ length rows.now) × (q < k) × (i < split_count splits.now) }
    ensures { TakesSlots n (λ p. row_at rows.now k p q) (taken_slots (slots splits.now i)) result }
{
    let mut next = StateSet::EMPTY;
    // By index: a slot's place is an argument, and how many were taken is the answer.
    for j in 0..table::SLOTS {
        let x = table::slot(splits, i, j);
        if x == table::UNUSED {
            return Some(Taken {
                rows: j as u64,
                next,
            });
        }
        if n <= x {
            return None;
        }
        next = next.union(table::whole_row(rows, k, x, q));
    }
    Some(Taken {
        rows: table::SLOTS as u64,
        next,
    })
}

// The split step at frontier f on byte c, where the bytes have k classes; none where it halts.
fn split_step(
    classes: &[u8],
    parts: &[u8],
    rows: &[u8],
    splits: &[u8],
    k: usize,
    bound: u64,
    f: StateSet,
    c: u8,
) -> Option<Taken>
    requires { (k ≡ class_count classes.now) × (set_size * (part_count parts.now * class_count classes.now) ≤ length rows.now)
        × (every (split_count splits.now) (in_order splits.now) ≡ true) }
    ensures { TakesStep bound (table classes.now parts.now rows.now splits.now) (set_of f) c result }
{
    let i = table::find_sorted(splits, f)?;
    let n = table::part_count(parts);
    let q = list::byte_at(classes, c as usize) as usize;
    let t = take_slots(rows, splits, k, n, i, q)?;
    if bound < t.rows {
        return None;
    }
    Some(t)
}

// The check of a feed: the number of the first of the rules 1 to 9 that refuses it, 0 where none does.
pub fn feed_refusal(
    list: &[u8],
    bound: u64,
    classes: &[u8],
    parts: &[u8],
    rows: &[u8],
    splits: &[u8],
    flow: &[u8],
    start: u64,
    piece: &[u8],
) -> u32
    ensures { result ≡ verdict (split_rules list.now bound
        (table classes.now parts.now rows.now splits.now)
        flow.now start piece.now) }
{
    let met = list_flow::feed_refusal(list, flow, start, piece);
    if met != rules::PASSED {
        return met;
    }
    table::rising_refusal(bound, classes, parts, rows, splits)
}

// Runs the split step from a frontier at an offset over the bytes that it moves and whose pairs all fit the words.
fn feed_bytes(
    list: &[u8],
    bound: u64,
    classes: &[u8],
    parts: &[u8],
    rows: &[u8],
    splits: &[u8],
    first: StateSet,
    offset: u64,
    piece: &[u8],
    pairs: &mut [u32],
) -> Ran
    requires { (offset + length piece.now ≤ most_offset) × (set_size * (part_count parts.now * class_count classes.now) ≤ length rows.now)
        × (every (split_count splits.now) (in_order splits.now) ≡ true) }
    ensures { Leaves (split list.now bound (table classes.now parts.now rows.now splits.now))
        (set_of first) offset piece.now pairs.old result pairs.new }
{
    let accepting = list::accepting(list);
    let k = table::class_count(classes);
    let mut ran = Ran {
        refusal: rules::PASSED,
        frontier: first,
        bytes: 0,
        words: 0,
        rows: 0,
    };
    for i in 0..piece.len() {
        let f = ran.frontier;
        let Some(t) = split_step(classes, parts, rows, splits, k, bound, f, piece[i]) else {
            ran.refusal = rules::NO_SPLIT;
            return ran;
        };
        let next = t.next;
        let at = (offset + i as u64 + 1) as u32;
        let told = if next.meets(accepting) {
            list_flow::tell_accepted(list, next, pairs, ran.words, at)
        } else {
            Some(ran.words)
        };
        let Some(words) = told else {
            return ran;
        };
        let bytes = i + 1;
        let rows = ran.rows + t.rows;
        ran = Ran {
            refusal: rules::PASSED,
            frontier: next,
            bytes,
            words,
            rows,
        };
    }
    ran
}

// Feeds a piece to a flow by its table. A refusal before the first byte changes nothing; one at a later byte keeps what the bytes before it leave.
pub fn feed(
    list: &[u8],
    bound: u64,
    classes: &[u8],
    parts: &[u8],
    rows: &[u8],
    splits: &[u8],
    flow: &mut [u8],
    start: u64,
    piece: &[u8],
    pairs: &mut [u32],
) -> Fed
    ensures { Answers (split_feed list.now bound
        (table classes.now parts.now rows.now splits.now)
        flow.old start piece.now pairs.old) result pairs.new flow.new }
{
    let refusal = feed_refusal(
        list, bound, classes, parts, rows, splits, flow, start, piece,
    );
    if refusal != rules::PASSED {
        return feed::refused(refusal);
    }
    let first = StateSet::from_bytes(flow, 0);
    let ran = feed_bytes(
        list, bound, classes, parts, rows, splits, first, start, piece, pairs,
    );
    list_flow::finish(flow, ran, piece.len())
}
