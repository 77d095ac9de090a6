// The split table: the reads of its four lists, and its check. Loops go by index, since the place of a split, a part or a byte is an argument; the
// arrays have one place for each byte, on the stack: the library has no heap.
// The lists are lent one by one, as C lends them.
#![tactic(auto)]

ghost use Rattle.std.specs.Prelude.{◌≡◌, true, false, ◌&&◌, cond, ◌++◌, ◌+◌, ◌-◌, ◌*◌, ◌^◌, ◌<◌, ◌≤◌, length, get_or, drop, ltb, eqb, ℕ, IfSome, IfNone, IfOk, IfErr};
ghost use Rattle.numbers.specs.Number.{before};
ghost use Rattle.sets.specs.Set.{set_size, set_of, set_at, set_bytes, join};
ghost use Rattle.rules.specs.Scan.{every};
ghost use Rattle.rules.specs.Rules.{verdict};
ghost use Rattle.list.specs.List.{list_refusal};
ghost use Rattle.list.specs.Automaton.{step};
ghost use Rattle.list_alike.specs.inner.Alike.{Alikes};
ghost use Rattle.table.specs.Table.{table, byte_values, most_parts, largest, class_count, part_count, split_count, part, row_at, row, split_set};
ghost use Rattle.table.specs.Table.{slots, unused_slot, used_slots, all_below, joined, is_split, SetsRise, split_of};
ghost use Rattle.table.specs.Table.{bad_classes, bad_count, bad_rows_length, bad_lengths, good_slots, in_order, size_rules, rising_rules, table_refusal};

use sets::StateSet;
use std::cmp::Ordering;

// Bytes that a piece may have; each has a class.
pub const BYTE_VALUES: usize = 256;

// The largest class.
pub const MOST_CLASS: usize = 63;

// The most parts and the most splits of a table.
pub const MOST_PARTS: usize = 1024;

pub const MOST_SPLITS: usize = 4096;

// The largest bound.
pub const MOST_BOUND: u64 = 4;

// Slots in a split, and the number in one that is not in use.
pub const SLOTS: usize = 4;

pub const UNUSED: usize = 65535;

// Bytes in a split: its set, then its slots of two bytes.
pub const SPLIT_SIZE: usize = sets::BYTES + 2 * SLOTS;

// The largest byte of a list; 0 where it is empty.
fn largest(b: &[u8]) -> u8
    ensures { result ≡ largest b.now }
{
    let mut m = 0u8;
    for x in b {
        m = m.max(*x);
    }
    m
}

// How many classes the bytes have: the largest, plus 1.
pub fn class_count(classes: &[u8]) -> usize
    ensures { result ≡ class_count classes.now }
{
    largest(classes) as usize + 1
}

// How many parts the list has.
pub fn part_count(parts: &[u8]) -> usize
    ensures { result ≡ part_count parts.now }
{
    parts.len() / sets::BYTES
}

// How many splits the list has.
pub fn split_count(splits: &[u8]) -> usize
    ensures { result ≡ split_count splits.now }
{
    splits.len() / SPLIT_SIZE
}

// Copies what a list has from a place on to the front of another, which is as long or longer.
fn copy_end(b: &[u8], at: usize, block: &mut [u8])
    requires { (at ≤ length b.now) × (length b.now ≤ at + length block.old) }
    ensures { block.new ≡ drop at b.now ++ drop (length b.now - at) block.old }
{
    block[..b.len() - at].copy_from_slice(&b[at..]);
}

// The set at the end of a list, from a place on behind which no whole set stands; bytes past the list's end are 0.
fn end_set(b: &[u8], at: usize) -> StateSet
    requires { (at ≤ length b.now) × (length b.now < at + set_size) }
    ensures { set_of result ≡ set_at b.now at }
{
    let mut block = [0u8; sets::BYTES];
    copy_end(b, at, &mut block);
    StateSet::from_bytes(&block, 0)
}

// The set that stands at a place of a list that may end before it does; bytes past the list's end are 0.
fn set_at(b: &[u8], at: usize) -> StateSet
    ensures { set_of result ≡ set_at b.now at }
{
    if b.len() < at {
        return StateSet::EMPTY;
    }
    if b.len() - at < sets::BYTES {
        return end_set(b, at);
    }
    StateSet::from_bytes(b, at)
}

// Part p; past the list's end that is the empty set.
fn part_set(parts: &[u8], p: usize) -> StateSet
    ensures { set_of result ≡ part parts.now p }
{
    if p <= part_count(parts) {
        set_at(parts, sets::BYTES * p)
    } else {
        StateSet::EMPTY
    }
}

// The set of split i; past the list's end that is the empty set.
pub fn split_set(splits: &[u8], i: usize) -> StateSet
    ensures { set_of result ≡ split_set splits.now i }
{
    if i <= split_count(splits) {
        set_at(splits, SPLIT_SIZE * i)
    } else {
        StateSet::EMPTY
    }
}

// Slot j of split i, where that split is there.
pub fn slot(splits: &[u8], i: usize, j: usize) -> usize
    requires { (i < split_count splits.now) × (j < 4) }
    ensures { result ≡ get_or (slots splits.now i) j 0 }
{
    numbers::whole_number(splits, SPLIT_SIZE * i + sets::BYTES + 2 * j, 2) as usize
}

// The row of part p and class q, where there are k classes and that row is there.
pub fn whole_row(rows: &[u8], k: usize, p: usize, q: usize) -> StateSet
    requires { set_size * (p * k + q) + set_size ≤ length rows.now }
    ensures { set_of result ≡ row_at rows.now k p q }
{
    StateSet::from_bytes(rows, sets::BYTES * (p * k + q))
}

// The row of part p, below the most parts, that byte c selects, where the bytes have k classes.
fn row_set(classes: &[u8], rows: &[u8], k: usize, p: usize, c: u8) -> StateSet
    requires { (k ≡ class_count classes.now) × (p < most_parts) }
    ensures { set_of result ≡ row classes.now rows.now p c }
{
    let q = p * k + list::byte_at(classes, c as usize) as usize;
    set_at(rows, sets::BYTES * q)
}

// Says whether the list of classes has the wrong length, or a class is too large.
pub fn bad_classes(classes: &[u8]) -> bool
    ensures { result ≡ bad_classes classes.now }
{
    (classes.len() != BYTE_VALUES) | (MOST_CLASS < largest(classes) as usize)
}

// Says whether a list of entries is empty, too long, or has a broken entry.
pub fn bad_count(entry: usize, most: usize, xs: &[u8]) -> bool
    requires { (0 < entry) × (entry * most < 2 ^ 32) }
    ensures { result ≡ bad_count entry most xs.now }
{
    (xs.len() == 0) | (entry * most < xs.len()) | (xs.len() % entry != 0)
}

// Says whether the list of rows has another length than parts and classes ask for.
fn bad_rows_length(classes: &[u8], parts: &[u8], rows: &[u8], splits: &[u8]) -> bool
    requires { part_count parts.now ≤ most_parts }
    ensures { result ≡ bad_rows_length (table classes.now parts.now rows.now splits.now) }
{
    rows.len() != sets::BYTES * (part_count(parts) * class_count(classes))
}

// Says whether rule 8 refuses the table.
fn bad_lengths(classes: &[u8], parts: &[u8], rows: &[u8], splits: &[u8]) -> bool
    ensures { result ≡ bad_lengths (table classes.now parts.now rows.now splits.now) }
{
    if bad_classes(classes) {
        return true;
    }
    if bad_count(sets::BYTES, MOST_PARTS, parts) {
        return true;
    }
    if bad_count(SPLIT_SIZE, MOST_SPLITS, splits) {
        return true;
    }
    bad_rows_length(classes, parts, rows, splits)
}

// The size rules: 7 where the bound refuses, 8 where a list does, 0 where neither does.
pub fn size_refusal(bound: u64, classes: &[u8], parts: &[u8], rows: &[u8], splits: &[u8]) -> u32
    ensures { result ≡ verdict (size_rules bound (table classes.now parts.now rows.now splits.now)) }
{
    if (bound == 0) | (MOST_BOUND < bound) {
        return rules::BOUND;
    }
    if bad_lengths(classes, parts, rows, splits) {
        return rules::TABLE_LISTS;
    }
    rules::PASSED
}

// Says whether rule 9 passes the slots of split i: n parts, at most `bound` slots in use.
fn good_slots(splits: &[u8], i: usize, n: usize, bound: u64) -> bool
    requires { i < split_count splits.now }
    ensures { result ≡ good_slots n bound (slots splits.now i) }
{
    let mut least = 0;
    let mut left = bound;
    let mut going = true;
    for j in 0..SLOTS {
        let x = slot(splits, i, j);
        if x == UNUSED {
            going = false;
        } else {
            if !(going & (least <= x) & (x < n) & (1 <= left)) {
                return false;
            }
            least = x + 1;
            left -= 1;
        }
    }
    true
}

// Says whether each split's set comes after the one before it.
fn ordered(splits: &[u8]) -> bool
    ensures { result ≡ every (split_count splits.now) (in_order splits.now) }
{
    let n = split_count(splits);
    for i in 1..n {
        let last = i - 1;
        if !sets::before_whole(splits, SPLIT_SIZE * last, SPLIT_SIZE * i) {
            return false;
        }
    }
    true
}

// What a split feed asks of its table: the size rules, then 9 where the splits' sets do not rise.
pub fn rising_refusal(bound: u64, classes: &[u8], parts: &[u8], rows: &[u8], splits: &[u8]) -> u32
    ensures { result ≡ verdict (rising_rules bound (table classes.now parts.now rows.now splits.now)) }
{
    let sized = size_refusal(bound, classes, parts, rows, splits);
    if sized != rules::PASSED {
        return sized;
    }
    if !ordered(splits) {
        return rules::SPLIT_RECORD;
    }
    rules::PASSED
}

// Says whether rule 9 passes the slots of every split.
fn slots_good(splits: &[u8], n: usize, bound: u64) -> bool
    ensures { result ≡ every (split_count splits.now) (λ i. good_slots n bound (slots splits.now i)) }
{
    let m = split_count(splits);
    for i in 0..m {
        if !good_slots(splits, i, n, bound) {
            return false;
        }
    }
    true
}

// Says whether rule 9 passes the splits.
fn splits_good(splits: &[u8], n: usize, bound: u64) -> bool
    ensures { result ≡ every (split_count splits.now) (λ i. good_slots n bound (slots splits.now i) && in_order splits.now i) }
{
    ordered(splits) && slots_good(splits, n, bound)
}

// Says whether the byte that a list has for c is lower and of c's class.
fn same_as_lower(classes: &[u8], lowers: &[u8], c: u8) -> bool
    ensures { result ≡ (ltb (get_or lowers.now c 0) c && eqb (get_or classes.now (get_or lowers.now c 0) 0) (get_or classes.now c 0)) }
{
    let d = list::byte_at(lowers, c as usize);
    d < c && list::byte_at(classes, d as usize) == list::byte_at(classes, c as usize)
}

// Says whether rule 10 passes the rows of part p, whose set is f. A byte that is of the class of a lower one, on which the list steps alike, is not stepped again.
fn rows_at(
    list: &[u8],
    classes: &[u8],
    rows: &[u8],
    alikes: &[u8],
    k: usize,
    p: usize,
    f: StateSet,
) -> bool
    requires { (k ≡ class_count classes.now) × (p < most_parts) × Alikes list.now alikes.now }
    ensures { result ≡ every byte_values (λ c. eqb (row classes.now rows.now p c) (step list.now (set_of f) c)) }
{
    for c in 0..BYTE_VALUES {
        if !same_as_lower(classes, alikes, c as u8) {
            if !row_set(classes, rows, k, p, c as u8).same(list::step(list, f, c as u8)) {
                return false;
            }
        }
    }
    true
}

// Says whether rule 10 passes the rows, by bytes that step alike.
fn parts_good(
    list: &[u8],
    classes: &[u8],
    parts: &[u8],
    rows: &[u8],
    alikes: &[u8],
    k: usize,
) -> bool
    requires { (k ≡ class_count classes.now) × (part_count parts.now ≤ most_parts) × Alikes list.now alikes.now }
    ensures { result ≡ every (part_count parts.now) (λ p. every byte_values (λ c.
        eqb (row classes.now rows.now p c) (step list.now (part parts.now p) c))) }
{
    let n = part_count(parts);
    for p in 0..n {
        if !rows_at(list, classes, rows, alikes, k, p, part_set(parts, p)) {
            return false;
        }
    }
    true
}

// Mixes into the key of each byte its class.
fn mix_classes(classes: &[u8], keys: &mut [u64]) {
    for c in 0..BYTE_VALUES {
        list_alike::mix_key(keys, c, list::byte_at(classes, c) as u64);
    }
}

// Says whether rule 10 passes the rows.
fn rows_good(list: &[u8], classes: &[u8], parts: &[u8], rows: &[u8], k: usize) -> bool
    requires { (k ≡ class_count classes.now) × (part_count parts.now ≤ most_parts) }
    ensures { result ≡ every (part_count parts.now) (λ p. every byte_values (λ c.
        eqb (row classes.now rows.now p c) (step list.now (part parts.now p) c))) }
{
    let mut keys = [0u64; BYTE_VALUES];
    mix_classes(classes, &mut keys);
    let mut alikes = [0u8; BYTE_VALUES];
    list_alike::fill_alikes(list, &mut keys, &mut alikes);
    parts_good(list, classes, parts, rows, &alikes, k)
}

// The set with part x, where the slot that names it is in use.
fn add_part(parts: &[u8], x: usize, all: StateSet) -> StateSet
    ensures { set_of result ≡ cond (unused_slot x) (set_of all) (join (set_of all) (part parts.now x)) }
{
    if x == UNUSED {
        all
    } else {
        all.union(part_set(parts, x))
    }
}

// The set with the row of part x that byte c selects, where the slot that names it is in use.
fn add_row(classes: &[u8], rows: &[u8], k: usize, x: usize, c: u8, all: StateSet) -> StateSet
    requires { (k ≡ class_count classes.now) × (unused_slot x ≡ false → x < most_parts) }
    ensures { set_of result ≡ cond (unused_slot x) (set_of all) (join (set_of all) (row classes.now rows.now x c)) }
{
    if x == UNUSED {
        all
    } else {
        all.union(row_set(classes, rows, k, x, c))
    }
}

// The union of the parts of split i.
fn union_of(parts: &[u8], splits: &[u8], i: usize) -> StateSet
    requires { i < split_count splits.now }
    ensures { set_of result ≡ joined (part parts.now) (used_slots (slots splits.now i)) }
{
    let mut all = StateSet::EMPTY;
    for j in 0..SLOTS {
        all = add_part(parts, slot(splits, i, j), all);
    }
    all
}

// Says whether rule 11 passes the splits.
fn unions_good(parts: &[u8], splits: &[u8]) -> bool
    ensures { result ≡ every (split_count splits.now) (λ i.
        eqb (split_set splits.now i) (joined (part parts.now) (used_slots (slots splits.now i)))) }
{
    let n = split_count(splits);
    for i in 0..n {
        if !split_set(splits, i).same(union_of(parts, splits, i)) {
            return false;
        }
    }
    true
}

// Seeks f by halving among the first n sets of a list, which rise, each at the front of an entry of `size` bytes: its place, or as an error how many
// of them come before it.
// By hand: the library searches a slice of its elements, and these sets stand in bytes.
pub fn seek(b: &[u8], size: usize, n: usize, f: StateSet) -> Result<usize, usize>
    requires { (set_size ≤ size) × (size * n ≤ length b.now) × SetsRise b.now size n }
    ensures there { IfOk result (λ i. (i < n) × (set_at b.now (size * i) ≡ set_of f)) }
    ensures none { IfErr result (λ i. (i ≤ n)
        × ((j : ℕ) → j < i → before (set_bytes (set_at b.now (size * j))) (set_bytes (set_of f)) ≡ true)
        × ((j : ℕ) → i ≤ j → j < n → before (set_bytes (set_of f)) (set_bytes (set_at b.now (size * j))) ≡ true)) }
{
    let mut lo = 0;
    let mut hi = n;
    while lo < hi {
        let mid = (lo + hi) / 2;
        match f.compare_whole(b, size * mid) {
            Ordering::Equal => return Ok(mid),
            Ordering::Less => lo = mid + 1,
            Ordering::Greater => hi = mid,
        }
    }
    Err(lo)
}

// The split whose set is f, where the splits are in order.
pub fn find_sorted(splits: &[u8], f: StateSet) -> Option<usize>
    requires { every (split_count splits.now) (in_order splits.now) ≡ true }
    ensures found { IfSome result (λ i. (i ≡ split_of splits.now (set_of f)) × (i < split_count splits.now)) }
    ensures none { IfNone result (split_of splits.now (set_of f) ≡ split_count splits.now) }
{
    match seek(splits, SPLIT_SIZE, split_count(splits), f) {
        Ok(i) => Some(i),
        Err(_) => None,
    }
}

// The union of the rows that byte c selects for the parts of split i.
fn rows_of(classes: &[u8], rows: &[u8], splits: &[u8], k: usize, i: usize, c: u8) -> StateSet
    requires { (k ≡ class_count classes.now) × (all_below most_parts (used_slots (slots splits.now i)) ≡ true) × (i < split_count splits.now) }
    ensures { set_of result ≡ joined (λ p. row classes.now rows.now p c) (used_slots (slots splits.now i)) }
{
    let mut all = StateSet::EMPTY;
    for j in 0..SLOTS {
        all = add_row(classes, rows, k, slot(splits, i, j), c, all);
    }
    all
}

// Says whether each byte leads from split i to a split, through the rows. A byte that is of the class of a lower one is not looked at again.
fn leads_at(classes: &[u8], rows: &[u8], splits: &[u8], lowers: &[u8], k: usize, i: usize) -> bool
    requires { (k ≡ class_count classes.now) × (all_below most_parts (used_slots (slots splits.now i)) ≡ true)
        × (every (split_count splits.now) (in_order splits.now) ≡ true) × (i < split_count splits.now) }
    ensures { result ≡ every byte_values (λ c.
        is_split splits.now (joined (λ p. row classes.now rows.now p c) (used_slots (slots splits.now i)))) }
{
    for d in 0..BYTE_VALUES {
        if !same_as_lower(classes, lowers, d as u8) {
            if find_sorted(splits, rows_of(classes, rows, splits, k, i, d as u8)).is_none() {
                return false;
            }
        }
    }
    true
}

// Says whether each byte leads from each split to a split, through the rows, by bytes of one class.
fn splits_lead(classes: &[u8], rows: &[u8], splits: &[u8], lowers: &[u8], k: usize) -> bool
    requires { (k ≡ class_count classes.now) × (every (split_count splits.now) (λ i. all_below most_parts (used_slots (slots splits.now i))) ≡ true)
        × (every (split_count splits.now) (in_order splits.now) ≡ true) }
    ensures { result ≡ every (split_count splits.now) (λ i. every byte_values (λ c.
        is_split splits.now (joined (λ p. row classes.now rows.now p c) (used_slots (slots splits.now i))))) }
{
    let n = split_count(splits);
    for i in 0..n {
        if !leads_at(classes, rows, splits, lowers, k, i) {
            return false;
        }
    }
    true
}

// Gives each byte the one before it of its class; where there is none, 0.
fn fill_lowers(classes: &[u8], lowers: &mut [u8]) {
    let mut last = [0u8; BYTE_VALUES];
    for c in 0..BYTE_VALUES {
        let q = list::byte_at(classes, c) as usize;
        list_alike::put_byte(lowers, c, list::byte_at(&last, q));
        list_alike::put_byte(&mut last, q, c as u8);
    }
}

// Says whether each byte leads from each split to a split, through the rows.
fn leads(classes: &[u8], rows: &[u8], splits: &[u8], k: usize) -> bool
    requires { (k ≡ class_count classes.now) × (every (split_count splits.now) (λ i. all_below most_parts (used_slots (slots splits.now i))) ≡ true)
        × (every (split_count splits.now) (in_order splits.now) ≡ true) }
    ensures { result ≡ every (split_count splits.now) (λ i. every byte_values (λ c.
        is_split splits.now (joined (λ p. row classes.now rows.now p c) (used_slots (slots splits.now i))))) }
{
    let mut lowers = [0u8; BYTE_VALUES];
    fill_lowers(classes, &mut lowers);
    splits_lead(classes, rows, splits, &lowers, k)
}

// Rules 9 to 13, for a table that the rules before them pass.
fn entries_refusal(
    list: &[u8],
    bound: u64,
    classes: &[u8],
    parts: &[u8],
    rows: &[u8],
    splits: &[u8],
) -> u32
    requires { (list_refusal list.now ≡ 0) × (verdict (size_rules bound (table classes.now parts.now rows.now splits.now)) ≡ 0) }
    ensures { result ≡ table_refusal list.now bound (table classes.now parts.now rows.now splits.now) }
{
    let k = class_count(classes);
    if !splits_good(splits, part_count(parts), bound) {
        return rules::SPLIT_RECORD;
    }
    if !rows_good(list, classes, parts, rows, k) {
        return rules::WRONG_ROW;
    }
    if !unions_good(parts, splits) {
        return rules::WRONG_UNION;
    }
    if find_sorted(splits, list::start_set(list)).is_none() {
        return rules::NO_START_SPLIT;
    }
    if !leads(classes, rows, splits, k) {
        return rules::NOT_CLOSED;
    }
    rules::PASSED
}

// The table check: the number of the first rule that refuses the table, 0 where none does.
pub fn check_table(
    list: &[u8],
    bound: u64,
    classes: &[u8],
    parts: &[u8],
    rows: &[u8],
    splits: &[u8],
) -> u32
    ensures { result ≡ table_refusal list.now bound (table classes.now parts.now rows.now splits.now) }
{
    let listed = list::check_list(list);
    if listed != rules::PASSED {
        return listed;
    }
    let sized = size_refusal(bound, classes, parts, rows, splits);
    if sized != rules::PASSED {
        return sized;
    }
    entries_refusal(list, bound, classes, parts, rows, splits)
}
