// The drivers: code for no user. Each calls the entry points as a caller would, and promises a demand of what they answered and left.
#![tactic(auto)]

ghost use Rattle.std.specs.Prelude.{◌≤◌, ◌+◌, ◌*◌, ◌/◌, ◌≡◌, length, get_or, take};
ghost use Rattle.numbers.specs.Number.{placed};
ghost use Rattle.table.specs.Table.{table};
ghost use Rattle.feed.specs.Fed.{Answers};
ghost use Rattle.feed.specs.Calls.{outcome};
ghost use Rattle.laws.specs.Calls.{way_of};
ghost use Rattle.laws.specs.Drivers.{via_by, call_of, nearest, planned, answer, Turn, Came, Driven, built, BuildKept};

use feed::{Fed, Opened};
use table_build::Built;

// By what a flow is fed: the list alone, the split table, the matrix, or the index from a split.
#[derive(Clone, Copy, PartialEq, Eq, Debug)]
pub enum Kind {
    Plain,
    Split,
    Matrix,
    Prepared(usize),
}

// What a list says at a place; past its end that is the default.
fn at_or<T: Copy>(list: &[T], i: usize, default: T) -> T
    ensures { result ≡ get_or list.now i default }
{
    if i < list.len() { list[i] } else { default }
}

// The number, or the nearest to it of those from `low` to `high`.
fn within(low: usize, x: usize, high: usize) -> usize
    requires { low ≤ high }
    ensures between { (low ≤ result) × (result ≤ high) }
    ensures nearest { result ≡ nearest low x high }
{
    x.clamp(low, high)
}

// Writes what feed i answered, four numbers for each feed: the refusal, the bytes, the pairs, and 1 where all was consumed.
fn note(notes: &mut [usize], i: usize, fed: Fed)
    requires { 4 * i + 4 ≤ length notes.old }
    ensures { notes.new ≡ placed notes.old (4 * i) (answer fed) }
{
    let at = 4 * i;
    notes[at] = fed.refusal as usize;
    notes[at + 1] = fed.bytes;
    notes[at + 2] = fed.pairs;
    notes[at + 3] = usize::from(fed.all);
}

// Feeds a piece by what is said.
pub fn feed_by(
    list: &[u8],
    bound: u64,
    classes: &[u8],
    parts: &[u8],
    rows: &[u8],
    splits: &[u8],
    matrix: &[u8],
    index: &[u8],
    kind: Kind,
    flow: &mut [u8],
    start: u64,
    piece: &[u8],
    pairs: &mut [u32],
) -> Fed
    ensures { Answers (outcome way_of flow.old (call_of list.now
        (via_by bound (table classes.now parts.now rows.now splits.now)
        matrix.now index.now kind)
        start piece.now pairs.old)) result pairs.new flow.new }
{
    match kind {
        Kind::Plain => list_feed::feed(list, flow, start, piece, pairs),
        Kind::Split => table_feed::feed(
            list, bound, classes, parts, rows, splits, flow, start, piece, pairs,
        ),
        Kind::Matrix => matrix::feed(list, matrix, flow, start, piece, pairs),
        Kind::Prepared(split) => {
            index_feed::feed(splits, index, split, flow, start, piece, pairs).fed
        }
    }
}

// Feeds bytes n to e of a stream, with words w to v.
fn feed_part(
    list: &[u8],
    bound: u64,
    classes: &[u8],
    parts: &[u8],
    rows: &[u8],
    splits: &[u8],
    matrix: &[u8],
    index: &[u8],
    kind: Kind,
    flow: &mut [u8],
    start: u64,
    stream: &[u8],
    n: usize,
    e: usize,
    pairs: &mut [u32],
    w: usize,
    v: usize,
) -> Fed
    requires { (n ≤ e) × (e ≤ length stream.now) × (w ≤ v) × (v ≤ length pairs.old) }
    ensures { Turn list.now
        (via_by bound (table classes.now parts.now rows.now splits.now)
        matrix.now index.now kind)
        start flow.old stream.now n e pairs.old w v result pairs.new flow.new }
{
    feed_by(
        list,
        bound,
        classes,
        parts,
        rows,
        splits,
        matrix,
        index,
        kind,
        flow,
        start,
        &stream[n..e],
        &mut pairs[w..v],
    )
}

// What feeds one after another did: the bytes consumed by all of them, and the words told with those before them.
#[derive(Clone, Copy)]
struct FedAll {
    bytes: usize,
    words: usize,
}

// Feeds a stream by as many feeds as there are notes for, behind the words told so far: each goes by what a list says, states the start that a list of
// starts says, ends at the byte that a list of cuts says, and has words up to where a list of rooms says. What each answered is noted.
// One that is refused consumes nothing, and the next goes on from the same byte.
fn feed_all(
    list: &[u8],
    bound: u64,
    classes: &[u8],
    parts: &[u8],
    rows: &[u8],
    splits: &[u8],
    matrix: &[u8],
    index: &[u8],
    flow: &mut [u8],
    kinds: &[Kind],
    starts: &[usize],
    cuts: &[usize],
    rooms: &[usize],
    stream: &[u8],
    pairs: &mut [u32],
    notes: &mut [usize],
    told: usize,
) -> FedAll
    requires { told ≤ length pairs.old }
    ensures { Came list.now
        (planned bound (table classes.now parts.now rows.now splits.now) matrix.now index.now
        kinds.now starts.now cuts.now rooms.now stream.now (length pairs.old))
        (length notes.old / 4) flow.old told (take told pairs.old)
        result.bytes result.words pairs.new notes.new flow.new }
{
    let mut n = 0usize;
    let mut w = told;
    let many = notes.len() / 4;
    // By index: each list says what it says of feed i at place i.
    for i in 0..many {
        let e = within(n, at_or(cuts, i, 0), stream.len());
        let v = within(w, at_or(rooms, i, 0), pairs.len());
        let kind = at_or(kinds, i, Kind::Plain);
        let start = at_or(starts, i, 0) as u64;
        let fed = feed_part(
            list, bound, classes, parts, rows, splits, matrix, index, kind, flow, start, stream, n,
            e, pairs, w, v,
        );
        note(notes, i, fed);
        n += fed.bytes;
        w += 2 * fed.pairs;
    }
    FedAll { bytes: n, words: w }
}

// What the calls of `drive` answered: the two checks, the two fillers and the opening; and the bytes consumed by all feeds, and the words told by the opening and all feeds.
#[derive(Clone, Copy)]
struct Drove {
    listed: u32,
    checked: u32,
    filled: u32,
    indexed: u32,
    opened: Opened,
    bytes: usize,
    words: usize,
}

// The demands over any number of calls of any kind: checks a list and a table, fills a matrix and an index, opens a flow with all of the words, and feeds it a
// stream behind the pairs that opening told, as the lent lists say; what each feed answered is noted.
fn drive(
    list: &[u8],
    bound: u64,
    classes: &[u8],
    parts: &[u8],
    rows: &[u8],
    splits: &[u8],
    matrix: &mut [u8],
    index: &mut [u8],
    flow: &mut [u8],
    kinds: &[Kind],
    starts: &[usize],
    cuts: &[usize],
    rooms: &[usize],
    stream: &[u8],
    pairs: &mut [u32],
    notes: &mut [usize],
) -> Drove
    ensures { Driven list.now bound (table classes.now parts.now rows.now splits.now)
        flow.old pairs.old matrix.old matrix.new index.old index.new
        kinds.now starts.now cuts.now rooms.now stream.now (length notes.old / 4)
        result.listed result.checked result.filled result.indexed result.opened
        result.bytes result.words pairs.new notes.new flow.new }
{
    let listed = list::check_list(list);
    let checked = table::check_table(list, bound, classes, parts, rows, splits);
    let filled = matrix::fill(list, matrix);
    let indexed = index_fill::fill(list, bound, classes, parts, rows, splits, index);
    let opened = list_flow::open_flow(list, flow, pairs);
    let told = 2 * opened.pairs;
    let fed = feed_all(
        list,
        bound,
        classes,
        parts,
        rows,
        splits,
        &matrix[..],
        &index[..],
        flow,
        kinds,
        starts,
        cuts,
        rooms,
        stream,
        pairs,
        notes,
        told,
    );
    Drove {
        listed,
        checked,
        filled,
        indexed,
        opened,
        bytes: fed.bytes,
        words: fed.words,
    }
}

// What the calls of `drive_build` answered: the builder, and the check of the fronts that it named.
#[derive(Clone, Copy)]
struct DroveBuild {
    built: Built,
    checked: u32,
}

// Demand 1 of the builder: builds the table of a list, and checks what it made at bound 1.
fn drive_build(
    list: &[u8],
    classes: &mut [u8],
    parts: &mut [u8],
    rows: &mut [u8],
    splits: &mut [u8],
) -> DroveBuild
    ensures { BuildKept list.now (table classes.old parts.old rows.old splits.old)
        (built result.built (table classes.new parts.new rows.new splits.new)) result.checked }
{
    let made = table_build::build(list, classes, parts, rows, splits);
    let c = made.classes;
    let p = made.parts;
    let w = made.rows;
    let s = made.splits;
    let checked = table::check_table(
        list,
        1,
        &classes[..c],
        &parts[..p],
        &rows[..w],
        &splits[..s],
    );
    DroveBuild {
        built: made,
        checked,
    }
}
