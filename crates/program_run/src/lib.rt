// The program by the fastest engine that its list admits: prepared where few enough sets of states can be reached, else by its matrix where that fits into
// the place of the index, else by the list. The opening's lines come first, then the list is prepared, then the input is read.
// What is handed over is what 01's program (app) hands over, to the byte, for every list, every input and all answers of the writes: each engine answers as
// the plain feed does, and the record that it leaves stands where the plain one does, but for the rows.
// It has no heap, as `program` has none.
#![tactic(auto)]

ghost use Rattle.std.specs.Prelude.{◌≡◌, List, ℕ, suc, ◌≤◌, length, take, drop, IfSome};
ghost use Rattle.feed.specs.Fed.{Answers};
ghost use Rattle.matrix.specs.Matrix.{filled};
ghost use Rattle.program_text.specs.Hand.{handed, Logs, OnArrays};
ghost use Rattle.program.specs.App.{text_size, piece_size, turn_of, texts_from, texts};
ghost use Rattle.program_run.specs.Run.{fed_of, Fits, Readied, Alike, Spoken};

use index_feed::Stood;
use program::Said;
use program_text::{Ends, STANDARD};

// Words of the pairs buffer: room for 1,024 pairs, four times what one byte can tell.
const PAIR_WORDS: usize = 2048;

// Bytes of a piece of the input.
const PIECE: usize = 4096;

// By what a run goes: the list alone, its matrix or its index, and how many bytes of the two places these take.
#[derive(Clone, Copy, PartialEq, Eq, Debug)]
enum By {
    Plain,
    Matrix { index: usize },
    Index { splits: usize, index: usize },
}

// What a turn says, and the split where the flow then stands.
#[derive(Clone, Copy)]
struct Spoke {
    said: Said,
    split: usize,
}

// Fills the matrix of a list into the front of a place; answers its bytes, none where it has not the room or the list is refused.
fn fill_matrix(list: &[u8], index: &mut [u8]) -> Option<usize>
    ensures { (length index.new ≡ length index.old)
        × IfSome result (λ m. (m ≤ length index.new) × (take m index.new ≡ filled list.now)) }
{
    let m = matrix::ROW_SIZE * list::state_count(list);
    if index.len() < m {
        return None;
    }
    let refusal = matrix::fill(list, &mut index[..m]);
    if refusal != rules::PASSED {
        return None;
    }
    Some(m)
}

// Readies the fastest engine that a list admits.
fn ready(list: &[u8], splits: &mut [u8], index: &mut [u8]) -> By
    ensures { Readied list.now splits.new index.new result }
{
    let made = index_prepare::prepare(list, splits, index);
    if made.refusal == rules::PASSED {
        return By::Index {
            splits: made.splits,
            index: made.index,
        };
    }
    match fill_matrix(list, index) {
        Some(m) => By::Matrix { index: m },
        None => By::Plain,
    }
}

// Feeds a piece by an engine, from the split where the flow may stand.
fn feed_by(
    list: &[u8],
    by: By,
    splits: &[u8],
    index: &[u8],
    split: usize,
    flow: &mut [u8],
    offset: u64,
    rest: &[u8],
    out: &mut [u32],
) -> Stood
    requires { Fits by splits.now index.now }
    ensures { Answers (fed_of list.now by splits.now index.now split flow.old offset rest.now out.old)
        result.fed out.new flow.new }
{
    match by {
        By::Plain => Stood {
            fed: list_feed::feed(list, flow, offset, rest, out),
            split: 0,
        },
        By::Matrix { index: n } => Stood {
            fed: matrix::feed(list, &index[..n], flow, offset, rest, out),
            split: 0,
        },
        By::Index {
            splits: m,
            index: n,
        } => index_feed::feed(&splits[..m], &index[..n], split, flow, offset, rest, out),
    }
}

// Feeds what is left of a piece once, and puts the lines of its pairs; where nothing is left, or the feed is refused, it puts the last line.
fn turn(
    list: &[u8],
    by: By,
    splits: &[u8],
    index: &[u8],
    split: usize,
    flow: &mut [u8],
    offset: u64,
    rest: &[u8],
    text: &mut [u8],
) -> Spoke
    requires { (text_size ≤ length text.old) × Readied list.now splits.now index.now by }
    ensures { (R : List ℕ) → Alike list.now R flow.old
        → Spoken list.now (turn_of list.now R offset rest.now) result.said text.new flow.new }
{
    if rest.len() == 0 {
        let ended = Said {
            next: None,
            length: program_text::put_last(text, rules::PASSED, offset),
        };
        return Spoke {
            said: ended,
            split: 0,
        };
    }
    let mut out = [0u32; PAIR_WORDS];
    let stood = feed_by(list, by, splits, index, split, flow, offset, rest, &mut out);
    if stood.fed.refusal != rules::PASSED {
        let refused = Said {
            next: None,
            length: program_text::put_last(text, stood.fed.refusal, offset),
        };
        return Spoke {
            said: refused,
            split: 0,
        };
    }
    let told = Said {
        next: Some(stood.fed.bytes),
        length: program_text::put_pairs(text, &out, stood.fed.pairs),
    };
    Spoke {
        said: told,
        split: stood.split,
    }
}

// Runs from an opened flow on, whose text was the first: each turn's text is handed over, up to the last one or the first that is cut. Answers where the log ends.
fn run(
    ends: Ends<'_>,
    list: &[u8],
    by: By,
    splits: &[u8],
    index: &[u8],
    flow: &mut [u8],
    piece: &mut [u8],
    text: &mut [u8],
    log: &mut [u8],
    begun: usize,
) -> usize
    requires { Readied list.now splits.now index.now by × Alike list.now flow.old flow.old × (length piece.old ≡ piece_size) × (text_size ≤ length text.old) × (begun ≤ length log.old) }
    ensures { OnArrays ends.entry (λ input answers.
        Logs begun (handed (texts_from (suc (length input)) list.now input flow.old 0) (drop 1 answers)) log.old result log.new) }
{
    let mut offset: u64 = 0;
    let mut n: usize = 0;
    let mut i: usize = 1;
    let mut split: usize = 0;
    let mut end = begun;
    // A loop, since how many turns there are is not known before.
    loop {
        n = program::read_piece(ends, offset, piece, n);
        let from = (offset % PIECE as u64) as usize;
        let spoke = turn(
            list,
            by,
            splits,
            index,
            split,
            flow,
            offset,
            &piece[from..n],
            text,
        );
        let taken = program_text::hand(ends, &text[..spoke.said.length], i, log, end);
        end = taken.end;
        let Some(bytes) = spoke.said.next else {
            return end;
        };
        if taken.cut {
            return end;
        }
        offset += bytes as u64;
        split = spoke.split;
        i += 1;
    }
}

// Watches the input by a list, which is refused before any input is read; the two places are for what the engine needs. Answers where the log ends.
fn watch(ends: Ends<'_>, list: &[u8], splits: &mut [u8], index: &mut [u8], log: &mut [u8]) -> usize
    ensures { OnArrays ends.entry (λ input answers. Logs 0 (handed (texts list.now input) answers) log.old result log.new) }
{
    let mut flow = [0u8; list_flow::FLOW_SIZE];
    let mut piece = io::buffer();
    let mut text = io::large_buffer();
    let said = program::begin(list, &mut flow, &mut text);
    let taken = program_text::hand(ends, &text[..said.length], 0, log, 0);
    let end = taken.end;
    let Some(_) = said.next else {
        return end;
    };
    if taken.cut {
        return end;
    }
    let by = ready(list, splits, index);
    run(
        ends, list, by, splits, index, &mut flow, &mut piece, &mut text, log, end,
    )
}

// Zeros for a place. Behind a call its length is known without its bytes.
fn zeros<const N: usize>() -> [u8; N]
    ensures { N ≡ length result }
{
    [0; N]
}

// The program: watches standard input by the list of a path.
pub fn start(rt: &HostRuntime, path: &[u8]) {
    let mut list = program_text::list_buffer();
    let n = program_text::read_rules(rt, path, &mut list);
    let mut splits: [u8; index_prepare::PREPARE_SPLITS] = zeros();
    let mut index: [u8; index_prepare::PREPARE_INDEX] = zeros();
    let mut log = [0u8; 1];
    watch(STANDARD, &list[..n], &mut splits, &mut index, &mut log);
}
