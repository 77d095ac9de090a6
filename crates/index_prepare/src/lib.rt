// Splits and an index straight from a list: the sets that can be reached, found by a search, each as a split, and their index.
// Loops go by index where a byte or the place of a set is an argument; the search has no end that is known before.
#![tactic(auto)]

ghost use Rattle.std.specs.Prelude.{◌≡◌, ◌||◌, List, ℕ, ◌+◌, ◌*◌, ◌^◌, ◌<◌, ◌≤◌, length, get_or, ltb, is_none, unwrap_or};
ghost use Rattle.sets.specs.Set.{states, set_size};
ghost use Rattle.list.specs.Automaton.{step};
ghost use Rattle.table.specs.Table.{byte_values, most_splits, split_size, part};
ghost use Rattle.table_build.specs.Build.{Reach, Reached, over};
ghost use Rattle.table_build.specs.inner.Loops.{Rising, Among, Room, Known, Added, Grown, Searched, sets_of};
ghost use Rattle.index.specs.Entry.{entry_place};
ghost use Rattle.index_prepare.specs.Prepare.{splits_of, made_index, Prepares};
ghost use Rattle.index_prepare.specs.inner.Loops.{Leads, Seeks};

use sets::StateSet;

// The bytes that each of the two lent lists has to have.
pub const PREPARE_SPLITS: usize = table::SPLIT_SIZE * table::MOST_SPLITS;

pub const PREPARE_INDEX: usize = sets::BYTES + index::ENTRY_SIZE * table::MOST_SPLITS;

// Four unused slots, as a number.
const NO_SLOTS: u64 = 18446744073709551615;

// What is answered: a refusal, or 0 and the bytes used of each list.
#[derive(Clone, Copy)]
pub struct Made {
    pub refusal: u32,
    pub splits: usize,
    pub index: usize,
}

// Adds the set that byte c leads to, set c of `work`; where a lower byte leads there too, it is there. Answers how many there are then; none where that
// is too many.
fn add_set(
    lows: &[u8],
    work: &[u8],
    queue: &mut [u8],
    parts: &mut [u8],
    n: usize,
    c: usize,
) -> Option<usize>
    requires { (byte_values ≤ length lows.now) × (set_size * byte_values ≤ length work.now) × (c < byte_values) × Room most_splits queue.old × Room most_splits parts.old
        × (n ≤ most_splits) × Rising parts.old n × (part work.now c < 2 ^ states) }
    ensures { (length queue.new ≡ length queue.old) × (length parts.new ≡ length parts.old)
        × ((l : List ℕ) → Known most_splits l queue.old parts.old n → Reach l (part work.now c)
        → (get_or lows.now c 0 < c → Among parts.old n (part work.now c))
        → Added most_splits l queue.old parts.old queue.new parts.new n (unwrap_or result n) (part work.now c) (is_none result)) }
{
    let low = lows[c] as usize;
    if low < c {
        return Some(n);
    }
    table_build::add(
        queue,
        parts,
        n,
        table::MOST_SPLITS,
        StateSet::from_bytes(work, sets::BYTES * c),
    )
}

// Adds the sets that the bytes lead to from set i; `work` holds them. Answers as `add_set` does.
fn steps_of(
    list: &[u8],
    lows: &[u8],
    work: &mut [u8],
    queue: &mut [u8],
    parts: &mut [u8],
    n: usize,
    i: usize,
) -> Option<usize>
    requires { (byte_values ≤ length lows.now) × (set_size * byte_values ≤ length work.old) × Room most_splits queue.old × Room most_splits parts.old
        × Known most_splits list.now queue.old parts.old n × (i < n) × Leads list.now lows.now }
    ensures { (length work.new ≡ length work.old)
        × Grown most_splits (step list.now) list.now queue.old parts.old queue.new parts.new n (unwrap_or result n) i byte_values (is_none result) }
{
    table_classes::fill_steps(list, StateSet::from_bytes(queue, sets::BYTES * i), work);
    let mut m = n;
    for c in 0..table::BYTE_VALUES {
        m = add_set(lows, work, queue, parts, m, c)?;
    }
    Some(m)
}

// All sets that can be reached: in the queue as they are found, in the parts in rising order. Answers as `add_set` does.
fn search(
    list: &[u8],
    lows: &[u8],
    work: &mut [u8],
    queue: &mut [u8],
    parts: &mut [u8],
) -> Option<usize>
    requires { (byte_values ≤ length lows.now) × (set_size * byte_values ≤ length work.old) × Room most_splits queue.old × Room most_splits parts.old
        × Leads list.now lows.now }
    ensures { (length work.new ≡ length work.old)
        × Searched most_splits (step list.now) list.now queue.old parts.old queue.new parts.new (unwrap_or result 0) byte_values (is_none result) }
{
    let s = list::start_set(list);
    s.store(queue, 0);
    s.store(parts, 0);
    let mut n = 1;
    let mut i = 0;
    while i < n {
        n = steps_of(list, lows, work, queue, parts, n, i)?;
        i += 1;
    }
    Some(n)
}

// Writes the splits of the n sets that the index begins with, the index over them, and zeros behind both.
fn finish(list: &[u8], lows: &[u8], work: &mut [u8], splits: &mut [u8], index: &mut [u8], n: usize)
    requires { (byte_values ≤ length lows.now) × (set_size * byte_values ≤ length work.old)
        × (split_size * most_splits ≤ length splits.old) × (entry_place most_splits ≤ length index.old) × (n ≤ most_splits)
        × Reached list.now (sets_of index.old n) × Leads list.now lows.now }
    ensures { (length work.new ≡ length work.old) × (splits.new ≡ over (splits_of (sets_of index.old n)) splits.old)
        × (index.new ≡ over (made_index list.now (sets_of index.old n)) index.old) }
{
    table_build::fill_splits(index, n, splits, |_| NO_SLOTS);
    let end = table::SPLIT_SIZE * n;
    table_classes::clear(splits, end);
    index_fill::fill_all(list, lows, &splits[..end], 1, work, index);
    table_classes::clear(index, index::entry_place(n));
}

// Lower bytes on which the list steps alike, and the sets that can be reached, rising, at the front of the index; none where they are too many.
// The splits hold them as they are found.
fn seek(
    list: &[u8],
    lows: &mut [u8],
    work: &mut [u8],
    splits: &mut [u8],
    index: &mut [u8],
) -> Option<usize>
    requires { (byte_values ≤ length lows.old) × (set_size * byte_values ≤ length work.old) × Room most_splits splits.old × Room most_splits index.old }
    ensures { (length lows.new ≡ length lows.old) × (length work.new ≡ length work.old)
        × Seeks list.now splits.old index.old lows.new splits.new index.new (unwrap_or result 0) (is_none result) }
{
    let mut keys = [0u64; table::BYTE_VALUES];
    list_alike::fill_alikes(list, &mut keys, lows);
    search(list, lows, work, splits, index)
}

// Says whether a lent list is too short, by the lengths of the two.
fn too_short(splits: usize, index: usize) -> bool
    ensures { result ≡ (ltb splits (split_size * most_splits) || ltb index (entry_place most_splits)) }
{
    (splits < PREPARE_SPLITS) | (index < PREPARE_INDEX)
}

// What is answered where nothing is prepared.
fn refused(refusal: u32) -> Made
    ensures { result ≡ record { refusal = refusal; splits = 0; index = 0 } }
{
    Made {
        refusal,
        splits: 0,
        index: 0,
    }
}

// Prepares a list: the sets that can be reached, as splits, and their index. A refusal 1 to 3 or 17 changes nothing; 16 fills both lists with zeros.
pub fn prepare(list: &[u8], splits: &mut [u8], index: &mut [u8]) -> Made
    ensures { Prepares list.now splits.old index.old (record { refusal = result.refusal; splits = result.splits; index = result.index; made = splits.new; indexed = index.new }) }
{
    let listed = list::check_list(list);
    if listed != rules::PASSED {
        return refused(listed);
    }
    if too_short(splits.len(), index.len()) {
        return refused(rules::LENT_LISTS);
    }
    let mut lows = [0u8; table::BYTE_VALUES];
    // On the stack: the library has no heap.
    let mut work = [0u8; index_fill::WORK];
    let Some(n) = seek(list, &mut lows, &mut work, splits, index) else {
        table_classes::clear(splits, 0);
        table_classes::clear(index, 0);
        return refused(rules::TOO_MANY);
    };
    finish(list, &lows, &mut work, splits, index, n);
    Made {
        refusal: rules::PASSED,
        splits: table::SPLIT_SIZE * n,
        index: index::entry_place(n),
    }
}
