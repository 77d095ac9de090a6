// The filler of an index by places: for each split of splits in order, where each byte leads by the list's step, what is told there, what a byte at it costs, and whether its states are all named.
// Loops go by index where a byte or the place of a split is an argument.
#![tactic(auto)]

ghost use Rattle.std.specs.Prelude.{◌≡◌, true, not, ℕ, ◌+◌, ◌*◌, ◌^◌, ◌≤◌, ◌<◌, length, get_or, take, drop, eqb};
ghost use Rattle.numbers.specs.Number.{num, digits, placed};
ghost use Rattle.sets.specs.Set.{states, set_size, set_of, sigs_of};
ghost use Rattle.rules.specs.Scan.{every};
ghost use Rattle.list.specs.Automaton.{step, accepted, accepting, named};
ghost use Rattle.table.specs.Table.{table, byte_values, most_splits, part, split_count, split_set, slots, taken_slots, in_order};
ghost use Rattle.index.specs.Entry.{entry_size, entry_place};
ghost use Rattle.index_fill.specs.inner.Lows.{Led, low_in};
ghost use Rattle.index_fill.specs.Filled.{word_of, words_of, note_of, entry_of, index_of, index_refusal, FillsIndex};

use sets::{SigSet, StateSet};

// What a word has more that tells.
const TELLS: u64 = index::TELLING as u64;

// Bytes for the sets that the bytes lead to from a set.
pub const WORK: usize = sets::BYTES * table::BYTE_VALUES;

// Says whether f accepts any signature; the list is walked only where f has an accepting state.
fn tells(list: &[u8], accepts: StateSet, f: StateSet) -> bool
    requires { (set_of accepts ≡ accepting list.now) × (set_of f < 2 ^ states) }
    ensures { result ≡ not (eqb (accepted list.now (set_of f)) 0) }
{
    f.meets(accepts) && !list::accepted(list, f).is_empty()
}

// The word of a byte that leads to f; where no split has that set, it names the place behind the last.
fn word_of(list: &[u8], accepts: StateSet, splits: &[u8], f: StateSet) -> u64
    requires { (set_of accepts ≡ accepting list.now) × (split_count splits.now ≤ most_splits) × (every (split_count splits.now) (in_order splits.now) ≡ true) × (set_of f < 2 ^ states) }
    ensures { result ≡ word_of list.now splits.now (set_of f) }
{
    let n = table::split_count(splits);
    let at = index::entry_place(table::find_sorted(splits, f).unwrap_or(n)) as u64;
    if tells(list, accepts, f) {
        return at + TELLS;
    }
    at
}

// Writes the word of byte c, which leads to set c of `work`, into the entry at a place, where those of the lower bytes are written: a copy, where a lower byte leads there too.
fn fill_word(
    list: &[u8],
    accepts: StateSet,
    lows: &[u8],
    splits: &[u8],
    work: &[u8],
    at: usize,
    c: usize,
    index: &mut [u8],
)
    requires { (set_of accepts ≡ accepting list.now) × (split_count splits.now ≤ most_splits) × (every (split_count splits.now) (in_order splits.now) ≡ true)
        × (byte_values ≤ length lows.now) × (set_size * byte_values ≤ length work.now) × (c < byte_values) × (at + entry_size ≤ length index.old)
        × Led (part work.now) lows.now c × (part work.now c < 2 ^ states)
        × ((d : ℕ) → d < c → num 8 (take 4 (drop (at + 4 * d) index.old)) ≡ word_of list.now splits.now (part work.now d)) }
    ensures { index.new ≡ placed index.old (at + 4 * c) (digits 8 4 (word_of list.now splits.now (part work.now c))) }
{
    let low = lows[c] as usize;
    if low < c {
        let w = numbers::whole_number(index, at + 4 * low, 4);
        numbers::put_number(index, at + 4 * c, 4, w);
        return;
    }
    let w = word_of(
        list,
        accepts,
        splits,
        StateSet::from_bytes(work, sets::BYTES * c),
    );
    numbers::put_number(index, at + 4 * c, 4, w);
}

// Writes the words of the bytes, which lead to the sets of `work`, into the entry at a place.
fn fill_words(
    list: &[u8],
    accepts: StateSet,
    lows: &[u8],
    splits: &[u8],
    work: &[u8],
    at: usize,
    index: &mut [u8],
)
    requires { (set_of accepts ≡ accepting list.now) × (split_count splits.now ≤ most_splits) × (every (split_count splits.now) (in_order splits.now) ≡ true)
        × (byte_values ≤ length lows.now) × (set_size * byte_values ≤ length work.now) × (at + entry_size ≤ length index.old)
        × ((c : ℕ) → c < byte_values → Led (part work.now) lows.now c × (part work.now c < 2 ^ states)) }
    ensures { index.new ≡ placed index.old at (words_of list.now splits.now (part work.now) byte_values) }
{
    for c in 0..table::BYTE_VALUES {
        fill_word(list, accepts, lows, splits, work, at, c, index);
    }
}

// The slots that split i takes.
fn taken(splits: &[u8], i: usize) -> u64
    requires { i < split_count splits.now }
    ensures { result ≡ length (taken_slots (slots splits.now i)) }
{
    for j in 0..table::SLOTS {
        if table::slot(splits, i, j) == table::UNUSED {
            return j as u64;
        }
    }
    table::SLOTS as u64
}

// The note of a split that costs n rows, as a number in the bytes of a set of signatures.
fn note(n: u64, known: bool) -> SigSet
    requires { n < 256 }
    ensures { sigs_of result ≡ note_of n known }
{
    let mut w = [0u64; sets::SIG_WORDS];
    w[0] = n + 256 * u64::from(known);
    SigSet::of_words(w)
}

// Writes the entry of split i, at which a byte costs m rows more than its slots; `work` holds the steps of its set.
fn fill_entry(
    list: &[u8],
    accepts: StateSet,
    names: StateSet,
    lows: &[u8],
    splits: &[u8],
    m: u64,
    i: usize,
    work: &mut [u8],
    index: &mut [u8],
)
    requires { (set_of accepts ≡ accepting list.now) × (set_of names ≡ named list.now) × (split_count splits.now ≤ most_splits) × (every (split_count splits.now) (in_order splits.now) ≡ true)
        × (byte_values ≤ length lows.now) × (m ≤ 251) × (i < split_count splits.now) × (entry_place i + entry_size ≤ length index.old) × (set_size * byte_values ≤ length work.old)
        × ((c : ℕ) → c < byte_values → Led (step list.now (split_set splits.now i)) lows.now c) }
    ensures { (length work.new ≡ length work.old) × (index.new ≡ placed index.old (entry_place i) (entry_of list.now m splits.now i)) }
{
    let at = index::entry_place(i);
    let set_at = at + index::SIGS_PLACE;
    let note_at = at + index::COST_PLACE;
    let f = table::split_set(splits, i);
    table_classes::fill_steps(list, f, work);
    fill_words(list, accepts, lows, splits, work, at, index);
    list::accepted(list, f).store(index, set_at);
    note(m + taken(splits, i), names.covers(f)).store(index, note_at);
}

// Gives each byte the lowest of its class.
pub fn put_lows(classes: &[u8], lows: &mut [u8])
    requires { (byte_values ≤ length classes.now) × (byte_values ≤ length lows.old) }
    ensures { (length lows.new ≡ length lows.old) × ((c : ℕ) → c < byte_values → get_or lows.new c 0 ≡ low_in classes.now c) }
{
    for c in 0..table::BYTE_VALUES {
        lows[c] = table_classes::lowest_of(classes, classes[c]);
    }
}

// Writes the states that the list names and the entry of each split, at the front of the index; `lows` has for each byte one that leads where it does, `work` the steps of a set.
pub fn fill_all(list: &[u8], lows: &[u8], splits: &[u8], m: u64, work: &mut [u8], index: &mut [u8])
    requires { (split_count splits.now ≤ most_splits) × (every (split_count splits.now) (in_order splits.now) ≡ true) × (byte_values ≤ length lows.now) × (m ≤ 251)
        × (entry_place (split_count splits.now) ≤ length index.old) × (set_size * byte_values ≤ length work.old)
        × ((i c : ℕ) → i < split_count splits.now → c < byte_values → Led (step list.now (split_set splits.now i)) lows.now c) }
    ensures { (length work.new ≡ length work.old) × (index.new ≡ placed index.old 0 (index_of list.now m splits.now (split_count splits.now))) }
{
    let accepts = list::accepting(list);
    let names = list::names(list);
    let n = table::split_count(splits);
    names.store(index, 0);
    for i in 0..n {
        fill_entry(list, accepts, names, lows, splits, m, i, work, index);
    }
}

// The same, where the bytes of a class lead to one set from each split.
fn fill_entries(
    list: &[u8],
    classes: &[u8],
    splits: &[u8],
    m: u64,
    work: &mut [u8],
    index: &mut [u8],
)
    requires { (split_count splits.now ≤ most_splits) × (every (split_count splits.now) (in_order splits.now) ≡ true) × (byte_values ≤ length classes.now) × (m ≤ 251)
        × (entry_place (split_count splits.now) ≤ length index.old) × (set_size * byte_values ≤ length work.old)
        × ((i d e : ℕ) → i < split_count splits.now → d < byte_values → e < byte_values → get_or classes.now d 0 ≡ get_or classes.now e 0
        → step list.now (split_set splits.now i) d ≡ step list.now (split_set splits.now i) e) }
    ensures { (length work.new ≡ length work.old) × (index.new ≡ placed index.old 0 (index_of list.now m splits.now (split_count splits.now))) }
{
    let mut lows = [0u8; table::BYTE_VALUES];
    put_lows(classes, &mut lows);
    fill_all(list, &lows, splits, m, work, index);
}

// The check of the filler: the number of the first rule that refuses, 0 where none does.
fn fill_refusal(
    list: &[u8],
    bound: u64,
    classes: &[u8],
    parts: &[u8],
    rows: &[u8],
    splits: &[u8],
    index: &[u8],
) -> u32
    ensures { result ≡ index_refusal list.now bound
        (table classes.now parts.now rows.now splits.now) index.now }
{
    let listed = list::check_list(list);
    if listed != rules::PASSED {
        return listed;
    }
    let sized = table::size_refusal(bound, classes, parts, rows, splits);
    if sized != rules::PASSED {
        return sized;
    }
    if index::wrong_index(splits, index) {
        return rules::TABLE_LISTS;
    }
    table::check_table(list, bound, classes, parts, rows, splits)
}

// Fills the index of a table that the check accepts for a list and a bound. A refusal changes nothing.
pub fn fill(
    list: &[u8],
    bound: u64,
    classes: &[u8],
    parts: &[u8],
    rows: &[u8],
    splits: &[u8],
    index: &mut [u8],
) -> u32
    ensures { FillsIndex list.now bound (table classes.now parts.now rows.now splits.now)
        index.old result index.new }
{
    let refusal = fill_refusal(list, bound, classes, parts, rows, splits, index);
    if refusal != rules::PASSED {
        return refusal;
    }
    // On the stack: the library has no heap.
    let mut work = [0u8; WORK];
    fill_entries(list, classes, splits, 0, &mut work, index);
    rules::PASSED
}
