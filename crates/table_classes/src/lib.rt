// The classes of the bytes, as coarse as a list permits: two bytes share one where every state steps alike on both. Loops go by index, since a byte's
// place in a list is the byte, and a record's place is an argument.
// Classes and rows are slices: lists may be lent that are longer than an array of one place for each byte.
#![tactic(auto)]

ghost use Rattle.std.specs.Prelude.{◌≡◌, true, false, not, ◌&&◌, List, ◌++◌, ℕ, ◌+◌, ◌-◌, ◌*◌, ◌^◌, ◌<◌, ◌≤◌, length, get_or, take, replicate, eqb};
ghost use Rattle.sets.specs.Set.{states, set_size, set_of, holds, join};
ghost use Rattle.rules.specs.Scan.{some, first};
ghost use Rattle.list.specs.List.{records, from, target};
ghost use Rattle.list.specs.Automaton.{edge, step};
ghost use Rattle.table.specs.Table.{byte_values, part};
ghost use Rattle.table_classes.specs.Classes.{lowest_like, class_of};
ghost use Rattle.table_classes.specs.inner.Loops.{SetsAre, wide, low_to, parted, Parting, Filled, Lows, Numbered};

use sets::StateSet;

// Writes zeros from a place to the end.
pub fn clear(b: &mut [u8], from: usize)
    requires { from ≤ length b.old }
    ensures { b.new ≡ take from b.old ++ replicate (length b.old - from) 0 }
{
    b[from..].fill(0);
}

// Says whether set i of a list of sets, where its bytes are all there, is f.
pub fn is_set(b: &[u8], i: usize, f: StateSet) -> bool
    requires { set_size * i + set_size ≤ length b.now }
    ensures { result ≡ eqb (part b.now i) (set_of f) }
{
    StateSet::from_bytes(b, sets::BYTES * i).same(f)
}

// Writes a set for each byte.
fn put_sets(f: StateSet, rows: &mut [u8])
    requires { (set_size * byte_values ≤ length rows.old) × (set_of f < 2 ^ states) }
    ensures { SetsAre rows.old rows.new (λ c. set_of f) byte_values }
{
    for c in 0..table::BYTE_VALUES {
        f.store(rows, sets::BYTES * c);
    }
}

// Says whether record i leaves a state of f and is an edge from byte 0 to byte 255.
fn takes_all(list: &[u8], f: StateSet, i: usize) -> bool
    requires { i < records list.now }
    ensures { result ≡ (holds (set_of f) (from list.now i) && wide list.now i) }
{
    f.has(list::from(list, i))
        && list::is_edge(list, i)
        && list::byte_of(list, i, 1) == 0
        && list::byte_of(list, i, 2) == 255
}

// States that every byte leads to from f: those that its edges from byte 0 to byte 255 lead to.
fn always(list: &[u8], f: StateSet) -> StateSet
    ensures { (set_of result < 2 ^ states) × ((c : ℕ) → c < byte_values → join (set_of result) (step list.now (set_of f) c) ≡ step list.now (set_of f) c) }
{
    let mut base = StateSet::EMPTY;
    for i in 0..list.len() / list::RECORD_SIZE {
        if takes_all(list, f, i) {
            base = base.with(list::target(list, i));
        }
    }
    base
}

// Says whether record i leaves a state of f and leads to one that is not in `base`.
fn adds(list: &[u8], f: StateSet, base: StateSet, i: usize) -> bool
    requires { i < records list.now }
    ensures { result ≡ (holds (set_of f) (from list.now i) && not (holds (set_of base) (target list.now i))) }
{
    f.has(list::from(list, i)) && !base.has(list::target(list, i))
}

// No byte below this one takes a record that is a list of its own.
fn first_byte(list: &[u8]) -> usize
    requires { records list.now ≡ 1 }
    ensures { (result ≤ byte_values) × ((c : ℕ) → c < result → edge list.now c 0 ≡ false) }
{
    if list::byte_of(list, 0, 3) == 1 {
        return 0;
    }
    list::byte_of(list, 0, 1) as usize
}

// No byte from this one on takes it.
fn end_byte(list: &[u8]) -> usize
    requires { records list.now ≡ 1 }
    ensures { (result ≤ byte_values) × ((c : ℕ) → result ≤ c → c < byte_values → edge list.now c 0 ≡ false) }
{
    if list::byte_of(list, 0, 3) == 1 {
        return table::BYTE_VALUES;
    }
    list::byte_of(list, 0, 2) as usize + 1
}

// Adds to each byte's set what a record, a list of its own, leads to on that byte from f.
fn add_steps(list: &[u8], f: StateSet, rows: &mut [u8])
    requires { (set_size * byte_values ≤ length rows.old) × (records list.now ≡ 1) }
    ensures { SetsAre rows.old rows.new (λ c. join (part rows.old c) (step list.now (set_of f) c)) byte_values }
{
    let low = first_byte(list);
    let end = end_byte(list);
    for c in low..end {
        let b = c as u8;
        if list::edge(list, b, list::exchanged(b), 0) {
            let t = StateSet::from_bytes(rows, sets::BYTES * c).union(list::step(list, f, b));
            t.store(rows, sets::BYTES * c);
        }
    }
}

// Writes the set that each byte leads to from f, record by record; what every byte leads to is written once.
pub fn fill_steps(list: &[u8], f: StateSet, rows: &mut [u8])
    requires { set_size * byte_values ≤ length rows.old }
    ensures { (length rows.new ≡ length rows.old) × ((c : ℕ) → c < byte_values → part rows.new c ≡ step list.now (set_of f) c) }
{
    let base = always(list, f);
    put_sets(base, rows);
    for i in 0..list.len() / list::RECORD_SIZE {
        if adds(list, f, base, i) {
            let at = list::RECORD_SIZE * i;
            let end = at + list::RECORD_SIZE;
            add_steps(&list[at..end], f, rows);
        }
    }
}

// Says whether byte d has class x and the set f.
fn is_like(classes: &[u8], rows: &[u8], x: u8, f: StateSet, d: usize) -> bool
    requires { (byte_values ≤ length classes.now) × (set_size * byte_values ≤ length rows.now) × (d < byte_values) }
    ensures { result ≡ (eqb (get_or classes.now d 0) x && eqb (part rows.now d) (set_of f)) }
{
    classes[d] == x && is_set(rows, d, f)
}

// The lowest byte that has the class and the set of byte c.
fn first_like(classes: &[u8], rows: &[u8], c: usize) -> usize
    requires { (byte_values ≤ length classes.now) × (set_size * byte_values ≤ length rows.now) × (c < byte_values) }
    ensures { (result ≡ parted classes.now rows.now c) × (result ≤ c) }
{
    let x = classes[c];
    let f = StateSet::from_bytes(rows, sets::BYTES * c);
    for d in 0..c {
        if is_like(classes, rows, x, f, d) {
            return d;
        }
    }
    c
}

// Splits the classes by the sets; each byte gets the lowest byte of its class. The last byte is first, so that the lower ones still have their classes.
fn refine(classes: &mut [u8], rows: &[u8])
    requires { (byte_values ≤ length classes.old) × (set_size * byte_values ≤ length rows.now) }
    ensures { Parting classes.old classes.new rows.now 0 }
{
    for c in (0..table::BYTE_VALUES).rev() {
        let d = first_like(classes, rows, c);
        classes[c] = d as u8;
    }
}

// Says whether a record leaves or names state s.
fn is_left(list: &[u8], s: usize) -> bool
    ensures { result ≡ some (records list.now) (λ i. eqb (from list.now i) s) }
{
    for i in 0..list.len() / list::RECORD_SIZE {
        if list::from(list, i) == s {
            return true;
        }
    }
    false
}

// Splits the classes by one state more, s. A state that no record leaves splits none, and costs little.
fn part_by(list: &[u8], s: usize, classes: &mut [u8], rows: &mut [u8])
    requires { (s < states) × (byte_values ≤ length classes.old) × (set_size * byte_values ≤ length rows.old) }
    ensures { (length classes.new ≡ length classes.old) × (length rows.new ≡ length rows.old)
        × ((C : List ℕ) → Filled C classes.old (low_to list.now s) byte_values → Filled C classes.new (low_to list.now (s + 1)) byte_values) }
{
    if !is_left(list, s) {
        return;
    }
    fill_steps(list, StateSet::EMPTY.with(s), rows);
    refine(classes, rows);
}

// Gives each byte the lowest byte of its class, in a list of zeros.
fn low_bytes(list: &[u8], classes: &mut [u8], rows: &mut [u8])
    requires { (byte_values ≤ length classes.old) × (set_size * byte_values ≤ length rows.old) × ((c : ℕ) → get_or classes.old c 0 ≡ 0) }
    ensures { (length rows.new ≡ length rows.old) × Filled classes.old classes.new (lowest_like list.now) byte_values }
{
    for s in 0..sets::STATES {
        part_by(list, s, classes, rows);
    }
}

// Turns the lowest bytes into class numbers. A byte's place is its number, and the lowest byte's class stands before it.
fn number(classes: &mut [u8])
    requires { byte_values ≤ length classes.old }
    ensures { (length classes.new ≡ length classes.old) × ((l : List ℕ) → Lows l classes.old → Filled classes.old classes.new (class_of l) byte_values) }
{
    let mut next = 0usize;
    for c in 0..table::BYTE_VALUES {
        let low = classes[c] as usize;
        if low == c {
            classes[c] = next as u8;
            next += 1;
        } else {
            classes[c] = classes[low];
        }
    }
}

// Gives each byte its class and answers how many classes there are; zeros follow. The rows are used as a working list.
pub fn classes_of(list: &[u8], classes: &mut [u8], rows: &mut [u8]) -> usize
    requires { (byte_values ≤ length classes.old) × (set_size * byte_values ≤ length rows.old) }
    ensures { Numbered list.now classes.old rows.old classes.new rows.new result }
{
    clear(classes, 0);
    low_bytes(list, classes, rows);
    number(classes);
    table::class_count(&classes[..table::BYTE_VALUES])
}

// The lowest byte of class q, where there is such a class.
// By index: of the closure that the library's `position` takes no proof was found.
pub fn lowest_of(classes: &[u8], q: u8) -> u8
    requires { (byte_values ≤ length classes.now) × (some byte_values (λ c. eqb (get_or classes.now c 0) q) ≡ true) }
    ensures { result ≡ first byte_values (λ c. eqb (get_or classes.now c 0) q) }
{
    for c in 0..table::BYTE_VALUES {
        if classes[c] == q {
            return c as u8;
        }
    }
    0
}
