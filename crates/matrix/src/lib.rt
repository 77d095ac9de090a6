// The bit matrix: the filler that writes it from a list, and the feed that joins the stored sets of the frontier's states. Loops go by index, since
// the place of a record, a byte or a word is an argument.
// The list, the matrix and the piece are lent one by one, as C lends them.
#![tactic(auto)]

ghost use Rattle.std.specs.Prelude.{◌≡◌, true, false, cond, ℕ, suc, ◌+◌, ◌*◌, ◌/◌, ◌^◌, ◌≤◌, ◌<◌, length, ltb};
ghost use Rattle.std.specs.Int.Count.{ones};
ghost use Rattle.sets.specs.Set.{states, set_size, set_words, set_of, set_at, meets, join};
ghost use Rattle.rules.specs.Rules.{verdict};
ghost use Rattle.list.specs.List.{records, is_edge, from, target};
ghost use Rattle.list.specs.Automaton.{highest};
ghost use Rattle.feed.specs.Engine.{most_offset};
ghost use Rattle.feed.specs.Fed.{Answers};
ghost use Rattle.list_flow.specs.inner.Leaves.{Leaves};
ghost use Rattle.matrix.specs.Matrix.{byte_values, cell_at, cell, union_over, matrixed, fill_rules, Fills, matrix_rules, matrix_feed};
ghost use Rattle.matrix.specs.inner.Filling.{joined_at, marked, marked_bytes};
ghost use Rattle.matrix.specs.inner.Stepped.{Steps};

use feed::Fed;
use list_flow::Ran;
use sets::StateSet;

// Bytes that a piece may have.
const BYTE_VALUES: usize = 256;

// Bytes of the sets of one state, one for each byte.
pub const ROW_SIZE: usize = sets::BYTES * BYTE_VALUES;

// What a byte leaves: the bytes of the next frontier, and the rows read. The loop of a feed has sets in bytes, as the matrix has them: so a stored set
// is joined 16 bytes at a time.
#[derive(Clone, Copy)]
struct Stepped {
    next: [u8; sets::BYTES],
    rows: u64,
}

// Makes t a member of the set that stands at a place.
fn join_at(matrix: &mut [u8], at: usize, t: usize)
    requires { (at + set_size ≤ length matrix.old) × (t < states) }
    ensures { matrix.new ≡ joined_at matrix.old at t }
{
    let i = at + t / 8;
    matrix[i] |= 1u8 << (t % 8);
}

// Puts target t of record i, which leaves state s, into the set of that state and byte c, where c takes the record.
fn fill_byte(list: &[u8], i: usize, s: usize, t: usize, c: u8, matrix: &mut [u8])
    requires { (i < records list.now) × (s ≡ from list.now i) × (t ≡ target list.now i) × (t < states) × (cell_at (suc s) 0 ≤ length matrix.old) }
    ensures { matrix.new ≡ marked list.now i matrix.old c }
{
    if list::edge(list, c, list::exchanged(c), i) {
        join_at(matrix, sets::BYTES * (BYTE_VALUES * s + c as usize), t);
    }
}

// Puts the target of record i into the sets that it selects, byte after byte.
fn fill_record(list: &[u8], i: usize, matrix: &mut [u8])
    requires { (i < records list.now) × (is_edge list.now i ≡ true → (target list.now i < states) × (cell_at (suc (from list.now i)) 0 ≤ length matrix.old)) }
    ensures { matrix.new ≡ marked_bytes list.now i matrix.old byte_values }
{
    if list::is_edge(list, i) {
        let s = list::from(list, i);
        let t = list::target(list, i);
        for c in 0..BYTE_VALUES {
            fill_byte(list, i, s, t, c as u8, matrix);
        }
    }
}

// The check of the filler: the number of the first of the rules 1 to 3 and 8 that refuses it, 0 where none does; n states have stored sets.
fn fill_refusal(list: &[u8], n: usize, matrix: &[u8]) -> u32
    requires { (n ≡ suc (highest list.now)) × (n ≤ 65536) }
    ensures { result ≡ verdict (fill_rules list.now matrix.now) }
{
    let listed = list::check_list(list);
    if listed != rules::PASSED {
        return listed;
    }
    if matrix.len() != ROW_SIZE * n {
        return rules::TABLE_LISTS;
    }
    rules::PASSED
}

// Writes the matrix of a list: all sets empty, then each record puts its target into those that it selects. A refusal changes nothing.
pub fn fill(list: &[u8], matrix: &mut [u8]) -> u32
    ensures { Fills list.now matrix.old result matrix.new }
{
    let rows = list::state_count(list);
    let refusal = fill_refusal(list, rows, matrix);
    if refusal != rules::PASSED {
        return refusal;
    }
    matrix.fill(0);
    let n = list::records(list);
    for i in 0..n {
        fill_record(list, i, matrix);
    }
    rules::PASSED
}

// Joins the set that stands at a place of the matrix to a set of bytes. By index over a fixed number of bytes, as in `meet`: so the compiler takes 16 at once.
fn join_cell(matrix: &[u8], at: usize, w: &mut [u8])
    requires { (at + set_size ≤ length matrix.now) × (length w.old ≡ set_size) }
    ensures { set_at w.new 0 ≡ join (set_at w.old 0) (set_at matrix.now at) }
{
    for i in 0..sets::BYTES {
        w[i] |= matrix[at + i];
    }
}

// Joins the stored set of state s and byte c to a set of bytes; a state from n on has none.
fn join_state(matrix: &[u8], n: usize, s: usize, c: u8, w: &mut [u8])
    requires { (cell_at n 0 ≤ length matrix.now) × (length w.old ≡ set_size) }
    ensures { set_at w.new 0 ≡ cond (ltb s n) (join (set_at w.old 0) (cell matrix.now s c)) (set_at w.old 0) }
{
    if s < n {
        join_cell(matrix, sets::BYTES * (BYTE_VALUES * s + c as usize), w);
    }
}

// Joins to a set of bytes the stored sets, for byte c, of the states in a word of the frontier, whose lowest bit is state `base`; answers how many
// there are. They are taken from the lowest on, which stands at as many zeros as are below it, until none is left.
fn join_word(matrix: &[u8], n: usize, word: u64, base: usize, c: u8, w: &mut [u8]) -> u64
    requires { (base + 64 ≤ states) × (cell_at n 0 ≤ length matrix.now) × (length w.old ≡ set_size) }
    ensures { (set_at w.new 0 ≡ join (set_at w.old 0) (union_over (λ s. cell matrix.now s c) (word * 2 ^ base) n)) × (result ≡ ones word) }
{
    let mut rest = word;
    let mut rows = 0u64;
    while rest != 0 {
        join_state(matrix, n, base + u64::trailing_zeros(rest) as usize, c, w);
        rest &= rest - 1;
        rows += 1;
    }
    rows
}

// The frontier after byte c by the stored sets of the states below n, and the ones in its words; it has no state past the first `wide` words.
fn step(matrix: &[u8], n: usize, wide: usize, f: &[u8], c: u8) -> Stepped
    requires { (wide ≤ set_words) × (set_at f.now 0 < 2 ^ (64 * wide)) × (cell_at n 0 ≤ length matrix.now) × (length f.now ≡ set_size) }
    ensures { Steps matrix.now n (set_at f.now 0) c result }
{
    let mut w = [0u8; sets::BYTES];
    let mut rows = 0u64;
    for i in 0..wide {
        rows += join_word(
            matrix,
            n,
            numbers::whole_number(f, 8 * i, 8),
            64 * i,
            c,
            &mut w,
        );
    }
    Stepped { next: w, rows }
}

// Says whether some state is in both sets of bytes.
fn meet(a: &[u8], b: &[u8]) -> bool
    requires { (length a.now ≡ set_size) × (length b.now ≡ set_size) }
    ensures { result ≡ meets (set_at a.now 0) (set_at b.now 0) }
{
    let mut shared = 0u8;
    for i in 0..sets::BYTES {
        shared |= a[i] & b[i];
    }
    shared != 0
}

// The bytes of a set.
fn bytes_of(f: StateSet) -> [u8; sets::BYTES]
    ensures { set_at result 0 ≡ set_of f }
{
    let mut b = [0u8; sets::BYTES];
    f.store(&mut b, 0);
    b
}

// The states that the loop looks out for: those of a set, and all past the first `wide` words.
fn watched(accepting: StateSet, wide: usize) -> StateSet
    ensures { (F : ℕ) → F < 2 ^ states → meets F (set_of result) ≡ false → (meets F (set_of accepting) ≡ false) × (F < 2 ^ (64 * wide)) }
{
    let mut w = accepting.words;
    w[wide.min(sets::WORDS)..].fill(u64::MAX);
    StateSet::of_words(w)
}

// The check of a feed: the number of the first of the rules 1 to 6 and 8 that refuses it, 0 where none does; n states have stored sets.
fn feed_refusal(list: &[u8], n: usize, matrix: &[u8], flow: &[u8], start: u64, piece: &[u8]) -> u32
    requires { (n ≡ suc (highest list.now)) × (n ≤ 65536) }
    ensures { result ≡ verdict (matrix_rules list.now matrix.now flow.now start piece.now) }
{
    let met = list_flow::feed_refusal(list, flow, start, piece);
    if met != rules::PASSED {
        return met;
    }
    if matrix.len() != ROW_SIZE * n {
        return rules::TABLE_LISTS;
    }
    rules::PASSED
}

// Runs the matrix from a frontier at an offset over the bytes whose pairs all fit the words; n states have stored sets. While no state stands past the
// words of those, only these words are read.
fn feed_bytes(
    list: &[u8],
    matrix: &[u8],
    n: usize,
    first: StateSet,
    offset: u64,
    piece: &[u8],
    pairs: &mut [u32],
) -> Ran
    requires { (offset + length piece.now ≤ most_offset) × (n ≡ suc (highest list.now)) × (n ≤ states) × (cell_at n 0 ≤ length matrix.now) }
    ensures { Leaves (matrixed list.now matrix.now) (set_of first) offset piece.now pairs.old result pairs.new }
{
    let narrow = (n + 63) / 64;
    let watch = bytes_of(watched(list::accepting(list), narrow));
    let mut f = bytes_of(first);
    let mut wide = sets::WORDS;
    let mut words = 0usize;
    let mut rows = 0u64;
    for i in 0..piece.len() {
        let s = step(matrix, n, wide, &f, piece[i]);
        let next = s.next;
        let at = (offset + i as u64 + 1) as u32;
        wide = narrow;
        let mut told = Some(words);
        if meet(&next, &watch) {
            wide = sets::WORDS;
            told = list_flow::tell_accepted(list, StateSet::from_bytes(&next, 0), pairs, words, at);
        }
        let Some(end) = told else {
            return Ran {
                refusal: rules::PASSED,
                frontier: StateSet::from_bytes(&f, 0),
                bytes: i,
                words,
                rows,
            };
        };
        words = end;
        rows = rows + s.rows;
        f = next;
    }
    Ran {
        refusal: rules::PASSED,
        frontier: StateSet::from_bytes(&f, 0),
        bytes: piece.len(),
        words,
        rows,
    }
}

// Feeds a piece to a flow by a matrix. A refusal changes nothing.
pub fn feed(
    list: &[u8],
    matrix: &[u8],
    flow: &mut [u8],
    start: u64,
    piece: &[u8],
    pairs: &mut [u32],
) -> Fed
    ensures { Answers (matrix_feed list.now matrix.now flow.old start piece.now pairs.old) result pairs.new flow.new }
{
    let n = list::state_count(list);
    let refusal = feed_refusal(list, n, matrix, flow, start, piece);
    if refusal != rules::PASSED {
        return feed::refused(refusal);
    }
    let ran = feed_bytes(
        list,
        matrix,
        n,
        StateSet::from_bytes(flow, 0),
        start,
        piece,
        pairs,
    );
    list_flow::finish(flow, ran, piece.len())
}
