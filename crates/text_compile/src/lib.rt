// From signature text to a list.
#![tactic(auto)]

ghost use Rattle.std.specs.Prelude.{◌≡◌, true, cond, ℕ, suc, ◌≤◌, ◌<◌, ◌+◌, ◌*◌, length, List};
ghost use Rattle.sets.specs.Set.{states, set_of, byte_set_of, holds, insert};
ghost use Rattle.text.specs.Exp.{size};
ghost use Rattle.text.specs.Grammar.{Text, text_reads, ok_body};
ghost use Rattle.text.specs.Records.{each, edges_to, records_of};
ghost use Rattle.text_records.specs.inner.Front.{Writes, Below};
ghost use Rattle.text_walk.specs.inner.Rows.{Sums, rows_size};
ghost use Rattle.text_compile.specs.inner.Code.{exp_of, free_of, Walked, Arrive, Ends, refused, made, Gives};
ghost use Rattle.text_compile.specs.Compile.{Compiles};

use sets::{ByteSet, StateSet};
use sets_words::span;
use text_bytes::run_count;
use text_parse::{Fault, check_text};
use text_records::{put_arrows, put_ends, put_in, sort, start_record, weigh};
use text_walk::Shape;

// What compiling answers: a refusal's number or 0, the place of 19, and the length of the list.
#[derive(Clone, Copy)]
pub struct Compiled {
    pub refusal: u32,
    pub place: usize,
    pub length: usize,
}

// The states that the edges to a state leave, and the bytes that they are taken on.
#[derive(Clone, Copy)]
struct Incoming {
    from: StateSet,
    letter: ByteSet,
}

// The edges from state 0 to itself: on any byte, unless the text is bound.
fn any_arrows(bound: bool) -> Incoming
    ensures { (set_of result.from ≡ cond bound 0 (insert states 0 0)) × ((c : ℕ) → c < 256 → holds (byte_set_of result.letter) c ≡ true) }
{
    let none = StateSet::EMPTY;
    let letter = span(ByteSet::empty(), 0, 255);
    if bound {
        return Incoming { from: none, letter };
    }
    Incoming {
        from: none.with(0),
        letter,
    }
}

// The edges to state t of a good text's position automaton, whose rows stand in the work place.
fn arrows(rows: &[u8], shape: Shape, bound: bool, t: usize) -> Incoming
    requires { (t < states) × (length rows.now ≡ rows_size) }
    ensures { (x : Text) → Walked rows.now shape bound x → size (exp_of x) < states → t ≤ size (exp_of x) → Arrive (free_of x) (exp_of x) t (set_of result.from) (holds (byte_set_of result.letter)) × Below (set_of result.from) (suc (size (exp_of x))) }
{
    if t == 0 {
        return any_arrows(bound);
    }
    let from = StateSet::from_bytes(rows, text_walk::ROW * t);
    let letter = ByteSet::from_bytes(rows, text_walk::ROW * t + sets::BYTES);
    if shape.first.has(t) {
        return Incoming {
            from: from.with(0),
            letter,
        };
    }
    Incoming { from, letter }
}

// The states that accept.
fn ends_of(shape: Shape) -> StateSet
    ensures { (R : List ℕ) (x : Text) → Sums R 1 (exp_of x) shape → size (exp_of x) < states → Ends (exp_of x) (set_of result) × Below (set_of result) (suc (size (exp_of x))) }
{
    if shape.null {
        shape.last.with(0)
    } else {
        shape.last
    }
}

// How many edges a good text's position automaton has; it has m states.
fn count_edges(rows: &[u8], shape: Shape, bound: bool, m: usize) -> usize
    requires { (m ≤ states) × (length rows.now ≡ rows_size) }
    ensures { (result ≤ 262144 * m) × ((x : Text) → Walked rows.now shape bound x → m ≡ suc (size (exp_of x)) → result ≡ length (each (edges_to (free_of x) (exp_of x)) m)) }
{
    let mut total: usize = 0;
    // By index: the state is an argument.
    for t in 0..m {
        let a = arrows(rows, shape, bound, t);
        total += weigh(a.from, run_count(a.letter));
    }
    total
}

// Puts them into an empty front of the list.
fn put_edges(rows: &[u8], shape: Shape, bound: bool, list: &mut [u8], m: usize) -> usize
    requires { (m ≤ states) × (length rows.now ≡ rows_size) }
    ensures { (x : Text) → Walked rows.now shape bound x → m ≡ suc (size (exp_of x)) → Writes list.old list.new 0 (each (edges_to (free_of x) (exp_of x)) m) result }
{
    let mut k: usize = 0;
    for t in 0..m {
        let a = arrows(rows, shape, bound, t);
        k = put_arrows(list, k, a.from, a.letter, t, m);
    }
    k
}

// Puts all records of a good text into an empty front of the list.
fn put_all(
    rows: &[u8],
    shape: Shape,
    bound: bool,
    g: u8,
    list: &mut [u8],
    m: usize,
    ends: StateSet,
) -> usize
    requires { (m ≤ states) × (length rows.now ≡ rows_size) }
    ensures { (x : Text) → Walked rows.now shape bound x → m ≡ suc (size (exp_of x)) → Ends (exp_of x) (set_of ends) → Writes list.old list.new 0 (records_of x g) result }
{
    let k = put_edges(rows, shape, bound, list, m);
    let j = put_in(list, k, start_record());
    put_ends(list, j, ends, g, m)
}

// The answer of a refusal.
fn refused(refusal: u32, place: usize) -> Compiled
    ensures { (result.refusal ≡ refusal) × (result.place ≡ place) × (result.length ≡ 0) }
{
    Compiled {
        refusal,
        place,
        length: 0,
    }
}

// The list of a good text, or 21.
fn build(text: &[u8], g: u8, list: &mut [u8]) -> Compiled
    ensures { (x : Text) → ok_body x.body ≡ true → text_reads x ≡ text.now → Gives (made x g list.old) result list.new }
{
    // On the stack: the library has no heap.
    let mut rows = [0u8; text_walk::ROWS];
    let whole = text_walk::walk(text, &mut rows);
    let n = whole.size;
    if sets::STATES <= n {
        return refused(rules::TOO_BIG, 0);
    }
    let m = n + 1;
    let bound = text::is_bound(text);
    let ends = ends_of(whole);
    let count = count_edges(&rows, whole, bound, m) + 1 + weigh(ends, 1);
    if list::MOST_RECORDS < count {
        return refused(rules::TOO_BIG, 0);
    }
    if list.len() / list::RECORD_SIZE < count {
        return refused(rules::TOO_BIG, 0);
    }
    put_all(&rows, whole, bound, g, list, m, ends);
    sort(list, 0, count, &mut rows);
    Compiled {
        refusal: 0,
        place: 0,
        length: list::RECORD_SIZE * count,
    }
}

// The list of a signature text, under a signature: 20, 19 with the place, 21, or the list in the front of the lent one and its length.
pub fn compile(text: &[u8], signature: u8, list: &mut [u8]) -> Compiled
    ensures { Compiles text.now signature list.old result list.new }
{
    match check_text(text) {
        Ok(()) => build(text, signature, list),
        Err(Fault::Bad(place)) => refused(rules::BAD_TEXT, place),
        Err(Fault::Deep) => refused(rules::TOO_DEEP, 0),
    }
}
