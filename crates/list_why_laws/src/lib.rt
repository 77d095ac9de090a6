// The driver of why: code for no user. It calls the entry points as a caller would, and promises of what they answered and left that every pair told has its reason.
#![tactic(auto)]

ghost use Rattle.std.specs.Prelude.{◌+◌, ◌*◌, ◌≤◌, ◌≡◌, ◌↔◌, length, take};
ghost use Rattle.table.specs.Table.{table};
ghost use Rattle.feed.specs.Fed.{Answers};
ghost use Rattle.feed.specs.Calls.{outcome};
ghost use Rattle.laws.specs.Calls.{way_of};
ghost use Rattle.laws.specs.Drivers.{via_by, call_of};
ghost use Rattle.list_why_laws.specs.Drivers.{AllAnswered, WhyDriven};

use feed::{Fed, Opened};
use laws::Kind;

// Asks why of the first n pairs among the words, from a record at offset 0 on, until one is refused; answers that refusal, 0 where none is.
fn ask_all(
    list: &[u8],
    flow: &[u8],
    piece: &[u8],
    pairs: &[u32],
    n: usize,
    run: &mut [u16],
    work: &mut [u8],
) -> u32
    requires { 2 * n ≤ length pairs.now }
    ensures { (result ≡ 0) ↔ AllAnswered list.now flow.now piece.now pairs.now n run.old work.old }
{
    // By index: the promise counts the pairs, two words each.
    for i in 0..n {
        let refusal = list_why::why(
            list,
            flow,
            0,
            piece,
            pairs[2 * i],
            pairs[2 * i + 1] as u64,
            run,
            work,
        );
        if refusal != rules::PASSED {
            return refusal;
        }
    }
    rules::PASSED
}

// What a feed and the questions after it answered.
#[derive(Clone, Copy)]
struct AskedFed {
    fed: Fed,
    refusal: u32,
}

// Feeds a piece at offset 0 by what is said, and asks why of each pair told, from another record at offset 0 on.
fn feed_and_ask(
    list: &[u8],
    bound: u64,
    classes: &[u8],
    parts: &[u8],
    rows: &[u8],
    splits: &[u8],
    matrix: &[u8],
    index: &[u8],
    kind: Kind,
    first: &[u8],
    flow: &mut [u8],
    piece: &[u8],
    pairs: &mut [u32],
    run: &mut [u16],
    work: &mut [u8],
) -> AskedFed
    ensures { Answers (outcome way_of flow.old (call_of list.now
        (via_by bound (table classes.now parts.now rows.now splits.now)
        matrix.now index.now kind)
        0 piece.now pairs.old)) result.fed pairs.new flow.new
        × ((result.refusal ≡ 0) ↔ AllAnswered list.now first.now (take result.fed.bytes piece.now) pairs.new result.fed.pairs run.old work.old) }
{
    let fed = laws::feed_by(
        list, bound, classes, parts, rows, splits, matrix, index, kind, flow, 0, piece, pairs,
    );
    let n = fed.bytes;
    let told = fed.pairs;
    let refusal = ask_all(list, first, &piece[..n], &pairs[..], told, run, work);
    AskedFed { fed, refusal }
}

// What the calls of `drive_why` answered: the check, the two fillers, the two openings, the feed, and the first refusal of a question.
#[derive(Clone, Copy)]
struct DroveWhy {
    checked: u32,
    filled: u32,
    indexed: u32,
    first: Opened,
    again: Opened,
    fed: Fed,
    refusal: u32,
}

// Checks a table, fills a matrix and an index, opens two flows, feeds the second a piece by what is said, and asks why of each pair told, on the first.
fn drive_why(
    list: &[u8],
    bound: u64,
    classes: &[u8],
    parts: &[u8],
    rows: &[u8],
    splits: &[u8],
    matrix: &mut [u8],
    index: &mut [u8],
    kind: Kind,
    first: &mut [u8],
    flow: &mut [u8],
    piece: &[u8],
    pairs: &mut [u32],
    run: &mut [u16],
    work: &mut [u8],
) -> DroveWhy
    ensures { WhyDriven list.now bound (table classes.now parts.now rows.now splits.now)
        first.old flow.old pairs.old matrix.old matrix.new index.old index.new
        kind piece.now run.old work.old
        result.checked result.filled result.indexed result.first result.again result.fed pairs.new flow.new result.refusal }
{
    let checked = table::check_table(list, bound, classes, parts, rows, splits);
    let filled = matrix::fill(list, matrix);
    let indexed = index_fill::fill(list, bound, classes, parts, rows, splits, index);
    let opened = list_flow::open_flow(list, first, pairs);
    let again = list_flow::open_flow(list, flow, pairs);
    let asked = feed_and_ask(
        list,
        bound,
        classes,
        parts,
        rows,
        splits,
        &matrix[..],
        &index[..],
        kind,
        &first[..],
        flow,
        piece,
        pairs,
        run,
        work,
    );
    let fed = asked.fed;
    DroveWhy {
        checked,
        filled,
        indexed,
        first: opened,
        again,
        fed,
        refusal: asked.refusal,
    }
}
