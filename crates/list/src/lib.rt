// The signature list: the reads of its records, its check, and the automaton that it writes down.
// A record is the list and its place: what reads one asks that it is there, as `byte_of` does.
#![tactic(auto)]

ghost use Rattle.std.specs.Prelude.{◌≡◌, true, ◌&&◌, ◌||◌, cond, ℕ, suc, ◌+◌, ◌-◌, ◌*◌, ◌%◌, ◌<◌, ◌≤◌, length, get_or, leb};
ghost use Rattle.numbers.specs.Number.{num, placed};
ghost use Rattle.sets.specs.Set.{set_words, set_size, set_of, sigs_of, holds, insert, set_at};
ghost use Rattle.rules.specs.Scan.{some, every};
ghost use Rattle.list.specs.List.{record_size, records, byte_of, word_of, is_edge, is_start, is_accept, low, high, either_case, from, record_with};
ghost use Rattle.list.specs.List.{target, zeros, good_edge, good_start, good_accept, good_record, bad_length, bad_record, no_start, list_refusal};
ghost use Rattle.list.specs.Automaton.{exchanged, between, edge, leaves, start, step, accepted, accepting, with_named, named_by, named, higher, highest};
ghost use Rattle.list.specs.inner.Survey.{Surveys};
ghost use Rattle.list.specs.Kinds.{KindIs};

use sets::{SigSet, StateSet};

// The states that a list names are sought in blocks of so many records.
const BLOCK: usize = 64;

// Bytes in a record.
pub const RECORD_SIZE: usize = 8;

// The most records that a list may have.
pub const MOST_RECORDS: usize = 8192;

// Byte 0 of a record, its kind: an edge, a start or an accept.
const EDGE: u8 = 1;

const START: u8 = 2;

const ACCEPT: u8 = 3;

// Byte 3 of an edge that is taken by letters in either case.
const EITHER_CASE: u8 = 1;

// The places of a record's two numbers: the state that it leaves or names, and the state or signature that it leads to.
const FROM: usize = 4;

pub const TARGET: usize = 6;

// What a record says: an edge from a state to one, a start state, or a state that accepts a signature.
#[derive(Clone, Copy, PartialEq, Eq, Debug)]
pub enum Kind {
    Edge,
    Start,
    Accept,
}

// The list check's answer and, where it passes, whether the list names every state of a set.
#[derive(Clone, Copy)]
pub struct Survey {
    pub refusal: u32,
    pub known: bool,
}

// The byte at a place; past the end that is 0.
pub fn byte_at(b: &[u8], at: usize) -> u8
    ensures { result ≡ get_or b.now at 0 }
{
    if at < b.len() { b[at] } else { 0 }
}

// How many records the list has.
pub fn records(list: &[u8]) -> usize
    ensures { result ≡ records list.now }
{
    list.len() / RECORD_SIZE
}

// Byte k of record i.
pub fn byte_of(list: &[u8], i: usize, k: usize) -> u8
    requires { (i < records list.now) × (k < record_size) }
    ensures { result ≡ byte_of list.now i k }
{
    list[RECORD_SIZE * i + k]
}

// The number at bytes k and k + 1 of record i.
fn word_of(list: &[u8], i: usize, k: usize) -> usize
    requires { (i < records list.now) × (k + 1 < record_size) }
    ensures { result ≡ word_of list.now i k }
{
    numbers::whole_number(list, RECORD_SIZE * i + k, 2) as usize
}

// A function each, and not one that takes a kind: the step and the check test one byte, and each is its definition.

// Says whether record i is an edge.
pub fn is_edge(list: &[u8], i: usize) -> bool
    requires { i < records list.now }
    ensures { result ≡ is_edge list.now i }
{
    byte_of(list, i, 0) == EDGE
}

// Says whether record i is a start.
pub fn is_start(list: &[u8], i: usize) -> bool
    requires { i < records list.now }
    ensures { result ≡ is_start list.now i }
{
    byte_of(list, i, 0) == START
}

// Says whether record i is an accept.
pub fn is_accept(list: &[u8], i: usize) -> bool
    requires { i < records list.now }
    ensures { result ≡ is_accept list.now i }
{
    byte_of(list, i, 0) == ACCEPT
}

// The kind of record i, where it is one.
pub fn kind_of(list: &[u8], i: usize) -> Option<Kind>
    requires { i < records list.now }
    ensures { KindIs list.now i result }
{
    match byte_of(list, i, 0) {
        EDGE => Some(Kind::Edge),
        START => Some(Kind::Start),
        ACCEPT => Some(Kind::Accept),
        _ => None,
    }
}

// The state that record i leaves or names.
pub fn from(list: &[u8], i: usize) -> usize
    requires { i < records list.now }
    ensures { result ≡ from list.now i }
{
    word_of(list, i, FROM)
}

// The state that record i leads to, or the signature that it gives.
pub fn target(list: &[u8], i: usize) -> usize
    requires { i < records list.now }
    ensures { result ≡ target list.now i }
{
    word_of(list, i, TARGET)
}

// Says whether bytes 1 to n of record i are zero.
fn zeros(list: &[u8], i: usize, n: usize) -> bool
    requires { (i < records list.now) × (n < record_size) }
    ensures { result ≡ zeros list.now i n }
{
    let mut all = true;
    for k in 0..n {
        all &= byte_of(list, i, k + 1) == 0;
    }
    all
}

// Says whether record i is a good edge.
fn good_edge(list: &[u8], i: usize) -> bool
    requires { i < records list.now }
    ensures { result ≡ good_edge list.now i }
{
    is_edge(list, i)
        & (byte_of(list, i, 1) <= byte_of(list, i, 2))
        & (byte_of(list, i, 3) <= 1)
        & (from(list, i) < sets::STATES)
        & (target(list, i) < sets::STATES)
}

// Says whether record i is a good start.
fn good_start(list: &[u8], i: usize) -> bool
    requires { i < records list.now }
    ensures { result ≡ good_start list.now i }
{
    is_start(list, i) & zeros(list, i, 5) & (target(list, i) < sets::STATES)
}

// Says whether record i is a good accept.
fn good_accept(list: &[u8], i: usize) -> bool
    requires { i < records list.now }
    ensures { result ≡ good_accept list.now i }
{
    is_accept(list, i)
        & zeros(list, i, 3)
        & (from(list, i) < sets::STATES)
        & (target(list, i) < sets::SIGNATURES)
}

// Says whether record i is good.
pub fn good_record(list: &[u8], i: usize) -> bool
    requires { i < records list.now }
    ensures { result ≡ good_record list.now i }
{
    match kind_of(list, i) {
        Some(Kind::Edge) => good_edge(list, i),
        Some(Kind::Start) => good_start(list, i),
        Some(Kind::Accept) => good_accept(list, i),
        None => false,
    }
}

// Says whether rule 1 refuses the list.
pub fn bad_length(list: &[u8]) -> bool
    ensures { result ≡ bad_length list.now }
{
    (list.len() == 0) | (RECORD_SIZE * MOST_RECORDS < list.len()) | (list.len() % RECORD_SIZE != 0)
}

// Says whether the records from `from` to `end` are all good.
fn good_from(list: &[u8], from: usize, end: usize) -> bool
    requires { (from ≤ end) × (end ≤ records list.now) }
    ensures { (every from (good_record list.now) && result) ≡ every end (good_record list.now) }
{
    for i in from..end {
        if !good_record(list, i) {
            return false;
        }
    }
    true
}

// Says whether rule 2 refuses the list.
fn bad_record(list: &[u8]) -> bool
    ensures { result ≡ bad_record list.now }
{
    !good_from(list, 0, records(list))
}

// Says whether rule 3 refuses the list.
pub fn no_start(list: &[u8]) -> bool
    ensures { result ≡ no_start list.now }
{
    let n = records(list);
    for i in 0..n {
        if is_start(list, i) {
            return false;
        }
    }
    true
}

// The list check: the number of the first rule that refuses the list, 0 where none does.
pub fn check_list(list: &[u8]) -> u32
    ensures { result ≡ list_refusal list.now }
{
    if bad_length(list) {
        return rules::LIST_LENGTH;
    }
    if bad_record(list) {
        return rules::LIST_RECORD;
    }
    if no_start(list) {
        return rules::NO_START;
    }
    rules::PASSED
}

// Puts the number at bytes k and k + 1 of record i into the words of a set, where the test holds.
pub fn put_word(list: &[u8], i: usize, k: usize, test: bool, w: &mut [u64])
    requires { (i < records list.now) × (k + 1 < record_size) }
    ensures { num 64 w.new ≡ cond test (insert (64 * length w.old) (num 64 w.old) (word_of list.now i k)) (num 64 w.old) }
{
    if test {
        sets::put_bit(w, word_of(list, i, k));
    }
}

// The states of the start records.
pub fn start_set(list: &[u8]) -> StateSet
    ensures { set_of result ≡ start list.now }
{
    let n = records(list);
    let none = StateSet::EMPTY;
    let mut w = none.words;
    for i in 0..n {
        put_word(list, i, TARGET, is_start(list, i), &mut w);
    }
    StateSet::of_words(w)
}

// The byte with ASCII letter case exchanged.
pub fn exchanged(c: u8) -> u8
    ensures { result ≡ exchanged c }
{
    match c {
        b'A'..=b'Z' => c + 32,
        b'a'..=b'z' => c - 32,
        _ => c,
    }
}

// How far byte c is above low of record i, where 0 follows 255.
fn above(list: &[u8], c: u8, i: usize) -> usize
    requires { i < records list.now }
    ensures { result ≡ (c + 256 - low list.now i) % 256 }
{
    (c as usize + 256 - byte_of(list, i, 1) as usize) % 256
}

// Says whether byte c is no further above low of record i than high is. So a range is tested at once: few records pass, while each of its
// ends alone lets half of them pass, and no processor foresees which.
fn near(list: &[u8], c: u8, i: usize) -> bool
    requires { i < records list.now }
    ensures { result ≡ leb ((c + 256 - low list.now i) % 256) ((high list.now i + 256 - low list.now i) % 256) }
{
    above(list, c, i) <= above(list, byte_of(list, i, 2), i)
}

// Says whether low of record i is at most high, by how far high is above low, which `near` has at hand.
fn ordered(list: &[u8], i: usize) -> bool
    requires { i < records list.now }
    ensures { result ≡ leb (low list.now i) (high list.now i) }
{
    byte_of(list, i, 1) as usize + above(list, byte_of(list, i, 2), i) < 256
}

// Says whether byte c is near or, where record i is for either case, d; where low is at most high, that is the range. Byte 3 is read only where c
// is not near. That low is at most d is then so anyway; testing it keeps the compiler from testing d before byte 3.
fn ranges(list: &[u8], c: u8, d: u8, i: usize) -> bool
    requires { i < records list.now }
    ensures { (result && leb (low list.now i) (high list.now i)) ≡
        (between list.now c i || either_case list.now i && between list.now d i) }
{
    if near(list, c, i) {
        return true;
    }
    if byte_of(list, i, 3) != EITHER_CASE {
        return false;
    }
    (byte_of(list, i, 1) <= d) & near(list, d, i)
}

// Says whether record i is an edge that byte c takes; d is c with its case exchanged.
pub fn edge(list: &[u8], c: u8, d: u8, i: usize) -> bool
    requires { (i < records list.now) × (d ≡ exchanged c) }
    ensures { result ≡ edge list.now c i }
{
    if ranges(list, c, d, i) {
        is_edge(list, i) & ordered(list, i)
    } else {
        false
    }
}

// The words laid over one another: bit j is 1 where some word has it.
fn places(w: &[u64]) -> u64
    ensures { (j : ℕ) → holds result j ≡ some (length w.now) (λ i. holds (get_or w.now i 0) j) }
{
    let mut all = 0u64;
    for x in w {
        all |= *x;
    }
    all
}

// Says whether record i is an edge that byte c takes from a state of the frontier that the words hold; d is c with its case exchanged. `places`
// has the places of its states in their words. It is tested first: that costs least, and at a small frontier few records pass.
fn leads(list: &[u8], frontier: &[u64], places: u64, c: u8, d: u8, i: usize) -> bool
    requires { (i < records list.now) × (d ≡ exchanged c) × ((s : ℕ) → holds (num 64 frontier.now) s ≡ true → holds places (s % 64) ≡ true) }
    ensures { result ≡ leaves list.now (num 64 frontier.now) (edge list.now c) i }
{
    let s = from(list, i);
    if (places >> (s % 64)) % 2 == 0 {
        return false;
    }
    if edge(list, c, d, i) {
        sets::bit_of(frontier, s)
    } else {
        false
    }
}

// The frontier after byte c: the targets of all its states.
pub fn step(list: &[u8], f: StateSet, c: u8) -> StateSet
    ensures { set_of result ≡ step list.now (set_of f) c }
{
    let n = records(list);
    let frontier = f.words;
    let all = places(&frontier);
    let d = exchanged(c);
    let none = StateSet::EMPTY;
    let mut w = none.words;
    for i in 0..n {
        put_word(
            list,
            i,
            TARGET,
            leads(list, &frontier, all, c, d, i),
            &mut w,
        );
    }
    StateSet::of_words(w)
}

// Says whether record i is an accept at a state of the frontier that the words hold.
fn accepts(list: &[u8], frontier: &[u64], i: usize) -> bool
    requires { i < records list.now }
    ensures { result ≡ leaves list.now (num 64 frontier.now) (is_accept list.now) i }
{
    if is_accept(list, i) {
        sets::bit_of(frontier, from(list, i))
    } else {
        false
    }
}

// The signatures that the frontier accepts.
pub fn accepted(list: &[u8], f: StateSet) -> SigSet
    ensures { sigs_of result ≡ accepted list.now (set_of f) }
{
    let n = records(list);
    let frontier = f.words;
    let none = SigSet::EMPTY;
    let mut w = none.words;
    for i in 0..n {
        put_word(list, i, TARGET, accepts(list, &frontier, i), &mut w);
    }
    SigSet::of_words(w)
}

// The states that some accept record names.
pub fn accepting(list: &[u8]) -> StateSet
    ensures { set_of result ≡ accepting list.now }
{
    let n = records(list);
    let none = StateSet::EMPTY;
    let mut w = none.words;
    for i in 0..n {
        put_word(list, i, FROM, is_accept(list, i), &mut w);
    }
    StateSet::of_words(w)
}

// Says whether record i is good, and puts the states that it names into the words of a set where it is. It goes by the kind as `good_record` does,
// so that the kind and the numbers are tested once.
fn put_good(list: &[u8], i: usize, w: &mut [u64]) -> bool
    requires { i < records list.now }
    ensures { (result ≡ good_record list.now i)
        × (num 64 w.new ≡ cond result (with_named (64 * length w.old) list.now i (num 64 w.old)) (num 64 w.old)) }
{
    match kind_of(list, i) {
        Some(Kind::Edge) if good_edge(list, i) => {
            sets::put_bit(w, from(list, i));
            sets::put_bit(w, target(list, i));
            true
        }
        Some(Kind::Start) if good_start(list, i) => {
            sets::put_bit(w, target(list, i));
            true
        }
        Some(Kind::Accept) if good_accept(list, i) => {
            sets::put_bit(w, from(list, i));
            true
        }
        _ => false,
    }
}

// Goes through the records from `from` to `end`, and puts the states that they name into the words of a set; says whether they are all good. The words
// hold what the records before name.
fn put_from(list: &[u8], from: usize, end: usize, w: &mut [u64]) -> bool
    requires { (from ≤ end) × (end ≤ records list.now) × (length w.old ≡ set_words) × (num 64 w.old ≡ named_by list.now from) }
    ensures { ((every from (good_record list.now) && result) ≡ every end (good_record list.now))
        × (result ≡ true → num 64 w.new ≡ named_by list.now end) }
{
    for i in from..end {
        if !put_good(list, i, w) {
            return false;
        }
    }
    true
}

// Where the block that begins at i ends, of n records.
fn block_end(i: usize, n: usize) -> usize
    requires { i < n }
    ensures { (i < result) × (result ≤ n) }
{
    if n - i < BLOCK { n } else { i + BLOCK }
}

// The list check, and whether the list names every state of the set that a list of bytes begins with, in one walk: by blocks, until all of them
// are found.
pub fn survey_list(list: &[u8], flow: &[u8]) -> Survey
    requires { set_size ≤ length flow.now }
    ensures { Surveys list.now (set_at flow.now 0) result }
{
    if bad_length(list) {
        return Survey {
            refusal: rules::LIST_LENGTH,
            known: false,
        };
    }
    let n = records(list);
    let none = StateSet::EMPTY;
    let mut w = none.words;
    let mut known = false;
    let mut i = 0usize;
    while !known & (i < n) {
        let end = block_end(i, n);
        if !put_from(list, i, end, &mut w) {
            return Survey {
                refusal: rules::LIST_RECORD,
                known: false,
            };
        }
        known = StateSet::of_words(w).covers_whole(flow, 0);
        i = end;
    }
    if !good_from(list, i, n) {
        return Survey {
            refusal: rules::LIST_RECORD,
            known: false,
        };
    }
    if no_start(list) {
        return Survey {
            refusal: rules::NO_START,
            known: false,
        };
    }
    Survey {
        refusal: rules::PASSED,
        known,
    }
}

// Puts the states that record i names into the words of a set.
fn put_named(list: &[u8], i: usize, w: &mut [u64])
    requires { i < records list.now }
    ensures { num 64 w.new ≡ with_named (64 * length w.old) list.now i (num 64 w.old) }
{
    let linked = is_edge(list, i);
    put_word(list, i, FROM, linked | is_accept(list, i), w);
    put_word(list, i, TARGET, linked | is_start(list, i), w);
}

// The states that some record of the list names.
pub fn names(list: &[u8]) -> StateSet
    ensures { set_of result ≡ named list.now }
{
    let n = records(list);
    let none = StateSet::EMPTY;
    let mut w = none.words;
    for i in 0..n {
        put_named(list, i, &mut w);
    }
    StateSet::of_words(w)
}

// The higher of n and the states that record i names.
pub fn higher(list: &[u8], i: usize, n: usize) -> usize
    requires { i < records list.now }
    ensures { result ≡ higher list.now i n }
{
    match kind_of(list, i) {
        Some(Kind::Edge) => n.max(from(list, i)).max(target(list, i)),
        Some(Kind::Start) => n.max(target(list, i)),
        Some(Kind::Accept) => n.max(from(list, i)),
        None => n,
    }
}

// How many numbers the states of a list take: 0 to the highest that a record names.
pub fn state_count(list: &[u8]) -> usize
    ensures { (result ≡ suc (highest list.now)) × (result ≤ 65536) }
{
    let n = records(list);
    let mut top = 0usize;
    for i in 0..n {
        top = higher(list, i, top);
    }
    top + 1
}

// Writes record i of a list at a place of another, with other numbers at bytes 4 and 5, and at 6 and 7.
pub fn copy_record(list: &mut [u8], at: usize, from: &[u8], i: usize, f: usize, t: usize)
    requires { (i < records from.now) × (at + record_size ≤ length list.old) }
    ensures { list.new ≡ placed list.old at (record_with from.now i f t) }
{
    let start = RECORD_SIZE * i;
    list[at..at + FROM].copy_from_slice(&from[start..start + FROM]);
    numbers::put_number(list, at + FROM, 2, f as u64);
    numbers::put_number(list, at + TARGET, 2, t as u64);
}
