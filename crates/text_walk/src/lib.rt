// The second pass over a good text, in one walk: how many positions a part has, whether it can be empty, which states may begin it and which may
// end it; and, in a lent work place, for each state the states that it may come after and the bytes that lead to it. A repeat is not read again:
// its rows are written again, further on.
#![tactic(auto)]

ghost use Rattle.std.specs.Prelude.{◌≡◌, true, false, cond, ℕ, ◌≤◌, ◌<◌, ◌+◌, ◌*◌, ◌-◌, length, drop, List, ◌++◌};
ghost use Rattle.sets.specs.Set.{states, set_of, byte_set_of};
ghost use Rattle.text.specs.Exp.{Exp, eps, cat, opt, times, size};
ghost use Rattle.text.specs.Grammar.{Text, text_reads, Mark, Body, ok_mark, ok_body, spell_mark, reads, marked, exp};
ghost use Rattle.text.specs.inner.Heads.{Calm, Stop};
ghost use Rattle.text_walk.specs.inner.Rows.{cap, rows_size, Keeps, Leafed, Entered, Seamed, Copied, Sums, Nothing, Single, Both, Either, Alike, Further};
ghost use Rattle.text_marks.specs.inner.Marks.{Atom, ok_atom, atom_then, times_of, UpTo};
ghost use Rattle.text_walk.specs.inner.Trees.{exp_atom, seq, rest};

use sets::{ByteSet, StateSet};
use sets_words::{next_state, shifted};
use text::Read;
use text_bytes::leaf_set;
use text_marks::{Times, leaf_end, mark_of, none_end, past};

// Bytes of a state's row: the set of the states that it may come after, and its byte set.
pub const ROW: usize = sets::BYTES + sets::BYTE_SET_BYTES;

// Bytes of the work place. It is lent as a slice: a lent array, too, would have its length said in each clause, since it may be lost at a call that
// writes it.
pub const ROWS: usize = ROW * sets::STATES;

// What a part of the text is to what stands beside it: how many positions it has, whether it can be empty, and which states may begin and end it.
// No other field hangs on the flag.
#[derive(Clone, Copy)]
pub struct Shape {
    pub size: usize,
    pub null: bool,
    pub first: StateSet,
    pub last: StateSet,
}

// A size that stops at the number of states.
fn capped(n: usize) -> usize
    ensures { result ≡ cap n }
{
    n.min(sets::STATES)
}

// The set, or none.
fn only(c: bool, s: StateSet) -> StateSet
    ensures { set_of result ≡ cond c (set_of s) 0 }
{
    if c { s } else { StateSet::EMPTY }
}

// ---- rows

// The row of a leaf at a state, if it is one.
fn put_leaf(rows: &mut [u8], t: usize, letter: ByteSet)
    requires { length rows.old ≡ rows_size }
    ensures { Leafed t (byte_set_of letter) rows.old rows.new }
{
    if t < sets::STATES {
        let none = StateSet::EMPTY;
        none.store(rows, ROW * t);
        letter.store(rows, ROW * t + sets::BYTES);
    }
}

// State t may come after those of a set, too.
fn enter(rows: &mut [u8], t: usize, from: StateSet)
    requires { (t < states) × (length rows.old ≡ rows_size) }
    ensures { Entered (set_of from) t rows.old rows.new }
{
    let old = StateSet::from_bytes(rows, ROW * t);
    let more = old.union(from);
    more.store(rows, ROW * t);
}

// Each state of a set, from low to high, may come after those of another, too.
fn seam(rows: &mut [u8], from: StateSet, to: StateSet, low: usize, high: usize)
    requires { (low ≤ high) × (high ≤ states) × (length rows.old ≡ rows_size) }
    ensures { Seamed (set_of from) (set_of to) low high rows.old rows.new }
{
    let mut t = next_state(to, low, high);
    // A step is to the next state of the set.
    while t < high {
        enter(rows, t, from);
        t = next_state(to, t + 1, high);
    }
}

// The row of a state is written again, d further on.
fn copy_row(rows: &mut [u8], t: usize, d: usize)
    requires { (t + d < states) × (length rows.old ≡ rows_size) }
    ensures { Copied t 1 d rows.old rows.new }
{
    let old = StateSet::from_bytes(rows, ROW * t);
    let letter = ByteSet::from_bytes(rows, ROW * t + sets::BYTES);
    let more = shifted(old, d);
    more.store(rows, ROW * (t + d));
    letter.store(rows, ROW * (t + d) + sets::BYTES);
}

// So of the n rows from a state on.
fn copy_rows(rows: &mut [u8], base: usize, n: usize, d: usize)
    requires { (n ≤ d) × (base + d + n ≤ states) × (length rows.old ≡ rows_size) }
    ensures { Copied base n d rows.old rows.new }
{
    for i in 0..n {
        copy_row(rows, base + i, d);
    }
}

// ---- shapes

// Nothing.
fn nothing() -> Shape
    ensures { Nothing result }
{
    let none = StateSet::EMPTY;
    Shape {
        size: 0,
        null: true,
        first: none,
        last: none,
    }
}

// One byte, at a state.
fn single(base: usize) -> Shape
    ensures { Single base result }
{
    let none = StateSet::EMPTY;
    let it = none.with(base);
    Shape {
        size: 1,
        null: false,
        first: it,
        last: it,
    }
}

// One after the other, whose states are those from low on.
fn then(rows: &mut [u8], x: Shape, y: Shape, low: usize) -> Shape
    requires { (x.size ≤ states) × (y.size ≤ states) × (low ≤ states) × (length rows.old ≡ rows_size) }
    ensures { Both x y result × Seamed (set_of x.last) (set_of y.first) low (cap (low + y.size)) rows.old rows.new }
{
    seam(rows, x.last, y.first, low, capped(low + y.size));
    let first = x.first.union(only(x.null, y.first));
    let kept = only(y.null, x.last);
    Shape {
        size: capped(x.size + y.size),
        null: x.null && y.null,
        first,
        last: kept.union(y.last),
    }
}

// Either.
fn or(x: Shape, y: Shape) -> Shape
    requires { (x.size ≤ states) × (y.size ≤ states) }
    ensures { Either x y result }
{
    Shape {
        size: capped(x.size + y.size),
        null: x.null || y.null,
        first: x.first.union(y.first),
        last: x.last.union(y.last),
    }
}

// One or more times, from a state on.
fn again(rows: &mut [u8], x: Shape, base: usize)
    requires { (x.size ≤ states) × (base ≤ states) × (length rows.old ≡ rows_size) }
    ensures { Seamed (set_of x.last) (set_of x.first) base (cap (base + x.size)) rows.old rows.new }
{
    seam(rows, x.last, x.first, base, capped(base + x.size));
}

// The same, or nothing.
fn maybe(x: Shape) -> Shape
    ensures { Alike true x result }
{
    Shape { null: true, ..x }
}

// The same, d further on.
fn moved(x: Shape, d: usize) -> Shape
    ensures { Further d x result }
{
    Shape {
        first: shifted(x.first, d),
        last: shifted(x.last, d),
        ..x
    }
}

// ---- repeats

// One time more in front of the rest, whose states are those from low on: it must be there, or both may be left out.
fn before(rows: &mut [u8], one: Shape, other: Shape, must: bool, low: usize) -> Shape
    requires { (one.size ≤ states) × (other.size ≤ states) × (low ≤ states) × (length rows.old ≡ rows_size) }
    ensures { (result.size ≤ states) × Keeps low rows.old rows.new × ((k : ℕ) (e t : Exp) → Sums rows.old k e one → Sums rows.old low t other → (k + size e ≤ states → low ≡ k + size e) → Sums rows.new k (cond must (cat e t) (opt (cat e t))) result) }
{
    let both = then(rows, one, other, low);
    if must { both } else { maybe(both) }
}

// What passes the limits: only its size and whether it can be empty count.
fn lost(all: usize, null: bool) -> Shape
    ensures { (result.size ≡ cap all) × (result.null ≡ null) }
{
    let none = StateSet::EMPTY;
    Shape {
        size: capped(all),
        null,
        first: none,
        last: none,
    }
}

// A part that stands from a state on, so many times, the last time first: its rows are written again for each time but the first.
fn copies(rows: &mut [u8], base: usize, inner: Shape, least: usize, most: usize) -> Shape
    requires { (1 ≤ base) × (base ≤ states) × (inner.size ≤ states) × (most ≤ 4000) × (length rows.old ≡ rows_size) }
    ensures { (result.size ≤ states) × Keeps base rows.old rows.new × ((e : Exp) → Sums rows.old base e inner → least ≤ most → Sums rows.new base (times e least most) result) }
{
    let size = inner.size;
    let all = most * size;
    if all == 0 {
        return nothing();
    }
    if sets::STATES < base + all {
        return lost(all, (least == 0) | inner.null);
    }
    let mut other = nothing();
    for i in (1..most).rev() {
        let d = i * size;
        copy_rows(rows, base, size, d);
        let one = moved(inner, d);
        other = before(rows, one, other, i < least, base + d + size);
    }
    before(rows, inner, other, 0 < least, base + size)
}

// A part that stands from a state on, as often as its mark says.
fn repeated(rows: &mut [u8], base: usize, x: Shape, times: Times) -> Shape
    requires { (1 ≤ base) × (base ≤ states) × (x.size ≤ states) × UpTo 4000 times × (length rows.old ≡ rows_size) }
    ensures { (result.size ≤ states) × Keeps base rows.old rows.new × ((e : Exp) (m : Mark) → Sums rows.old base e x → ok_mark m ≡ true → times_of m ≡ times → Sums rows.new base (marked m e) result) }
{
    match times {
        Times::Once => x,
        Times::Star => {
            again(rows, x, base);
            maybe(x)
        }
        Times::Plus => {
            again(rows, x, base);
            x
        }
        Times::Maybe => maybe(x),
        Times::Between(least, most) => copies(rows, base, x, least, most),
    }
}

// ---- alternatives, sequences, items

// The shape of alternatives at a place, with positions from base on; their rows; and the place after them.
#[cycle(alternatives_atom_item_sequence)]
fn alternatives(text: &[u8], at: usize, base: usize, rows: &mut [u8]) -> Read<Shape>
    requires { (at ≤ length text.now) × (1 ≤ base) × (base ≤ states) × (length rows.old ≡ rows_size) }
    ensures { (at ≤ result.next) × (result.next ≤ length text.now) × (result.value.size ≤ states) × Keeps base rows.old rows.new × ((b : Body) (x : List ℕ) → ok_body b ≡ true → Stop x → drop at text.now ≡ reads b ++ x → Sums rows.new base (exp eps b) result.value × (drop result.next text.now ≡ x)) }
{
    let first = sequence(text, at, base, rows);
    let mut next = first.next;
    let mut shape = first.value;
    // A step is a whole sequence.
    while next < text.len() && text[next] == b'|' {
        let more = sequence(text, next + 1, capped(base + shape.size), rows);
        shape = or(shape, more.value);
        next = more.next;
    }
    Read { value: shape, next }
}

// So of a sequence.
#[cycle(alternatives_atom_item_sequence)]
fn sequence(text: &[u8], at: usize, base: usize, rows: &mut [u8]) -> Read<Shape>
    requires { (at ≤ length text.now) × (1 ≤ base) × (base ≤ states) × (length rows.old ≡ rows_size) }
    ensures { (at ≤ result.next) × (result.next ≤ length text.now) × (result.value.size ≤ states) × Keeps base rows.old rows.new × ((b : Body) (x : List ℕ) → ok_body b ≡ true → Stop x → drop at text.now ≡ reads b ++ x → Sums rows.new base (seq eps b) result.value × (drop result.next text.now ≡ reads (rest b) ++ x)) }
{
    let mut next = at;
    let mut shape = nothing();
    // A step is a whole item.
    while next < text.len() && text[next] != b'|' && text[next] != b')' {
        let low = capped(base + shape.size);
        let one = item(text, next, low, rows);
        shape = then(rows, shape, one.value, low);
        next = one.next;
    }
    Read { value: shape, next }
}

// So of an item with its mark; a group that is repeated no times is passed over.
#[cycle(alternatives_atom_item_sequence)]
fn item(text: &[u8], at: usize, base: usize, rows: &mut [u8]) -> Read<Shape>
    requires { (at < length text.now) × (1 ≤ base) × (base ≤ states) × (length rows.old ≡ rows_size) }
    ensures { (at < result.next) × (result.next ≤ length text.now) × (result.value.size ≤ states) × Keeps base rows.old rows.new × ((a : Atom) (m : Mark) (y : List ℕ) → ok_atom a ≡ true → ok_mark m ≡ true → Calm y → drop at text.now ≡ atom_then a (spell_mark m ++ y) → Sums rows.new base (marked m (exp_atom a)) result.value × (drop result.next text.now ≡ y)) }
{
    if let Some(over) = none_end(text, at) {
        return Read {
            value: nothing(),
            next: over,
        };
    }
    let one = atom(text, at, base, rows);
    let mark = mark_of(text, one.next);
    Read {
        value: repeated(rows, base, one.value, mark.value),
        next: mark.next,
    }
}

// So of an item without its mark.
#[cycle(alternatives_atom_item_sequence)]
fn atom(text: &[u8], at: usize, base: usize, rows: &mut [u8]) -> Read<Shape>
    requires { (at < length text.now) × (1 ≤ base) × (base ≤ states) × (length rows.old ≡ rows_size) }
    ensures { (at < result.next) × (result.next ≤ length text.now) × (result.value.size ≤ states) × Keeps base rows.old rows.new × ((a : Atom) (y : List ℕ) → ok_atom a ≡ true → drop at text.now ≡ atom_then a y → Sums rows.new base (exp_atom a) result.value × (drop result.next text.now ≡ y)) }
{
    if text[at] == b'(' {
        let inner = alternatives(text, at + 1, base, rows);
        return Read {
            value: inner.value,
            next: past(inner.next, text.len()),
        };
    }
    put_leaf(rows, base, leaf_set(text, at));
    Read {
        value: single(base),
        next: leaf_end(text, at),
    }
}

// The position automaton of a good text: positions are the states from 1 on, and their rows stand in the work place. A size of as many as there are
// states says that it has too many.
pub fn walk(text: &[u8], rows: &mut [u8]) -> Shape
    requires { length rows.old ≡ rows_size }
    ensures { (result.size ≤ states) × (length rows.new ≡ rows_size) × ((t : Text) → ok_body t.body ≡ true → text_reads t ≡ text.now → Sums rows.new 1 (exp eps t.body) result) }
{
    let start = usize::from(text::is_bound(text));
    alternatives(text, start, 1, rows).value
}
