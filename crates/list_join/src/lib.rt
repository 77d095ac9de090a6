// Two signature lists joined into one: the second's states are renamed, and its records come behind the first's. Where both have a state that every
// frontier holds, or one that the start set alone holds, the two become one. One walk over each list checks it and finds all that the naming needs;
// then what the second adds is measured, and only then is anything written, by a table of the new numbers.
// A record is the list and its place, as in `list`. The marks stand in an array of their own, so that many are read at a time.
#![tactic(auto)]

ghost use Rattle.std.specs.Prelude.{◌≡◌, Bool, Some, None, true, false, ◌&&◌, cond, eqb, ℕ, suc, ◌+◌, ◌*◌, ◌<◌, ◌≤◌, length, take, drop, get_or, set};
ghost use Rattle.numbers.specs.Number.{num, placed};
ghost use Rattle.sets.specs.Set.{states, holds};
ghost use Rattle.rules.specs.Scan.{some, first};
ghost use Rattle.list.specs.List.{most_records, records, is_edge, is_start, low, high, from, target, good_record, list_refusal};
ghost use Rattle.list.specs.Automaton.{highest};
ghost use Rattle.list_join.specs.inner.Found.{overfull, spare_by, flag, bump, ever, once, some_state, Ends, Seen, Outlines, Fitted, Narrow, Numbers, Plans};
ghost use Rattle.list_join.specs.Join.{two, shared_as, is_shared, own_state, name_by, renamed, spare, adds, added, kept};
ghost use Rattle.list_join.specs.Join.{Joins};

use list::Kind;

// A state that two lists share: the second list's state `own` is the first list's state `same`.
#[derive(Clone, Copy)]
pub struct Shared {
    pub own: usize,
    pub same: usize,
}

// How the states of the second list are named in the joined one: `next` is the first number that is free; one state may be shared.
#[derive(Clone, Copy)]
pub struct Naming {
    pub next: usize,
    pub shared: Option<Shared>,
}

// What one walk over a list finds: a refusal's number or 0, and then the highest state that it names, a mark for each state that is not 0 where it is
// named, with a bit where it starts and one where an edge leads to it, the states with a loop that every byte takes, and for each state how many records
// are spare where it is the shared one.
#[derive(Clone, Copy)]
pub struct Outline {
    pub refusal: u32,
    pub top: usize,
    pub marks: [u8; 1024],
    pub staying: [u8; 1024],
    pub spares: [u16; 1024],
}

// What is decided before anything is written: a refusal's number or 0, and then the naming, and the highest state of the second list.
#[derive(Clone, Copy)]
pub struct Plan {
    pub refusal: u32,
    pub naming: Naming,
    pub top: usize,
}

// What joining answers: a refusal's number or 0, and the length of the joined list.
#[derive(Clone, Copy)]
pub struct Joined {
    pub refusal: u32,
    pub length: usize,
}

// The bits of a mark: an edge or an accept names the state that it leaves, a start its state, an edge the state that it leads to.
const LEFT: u8 = 1;

const STARTS: u8 = 2;

const REACHED: u8 = 4;

// Bytes 0 to 3 of a good start record as one number.
const START_HEAD: u64 = 2;

// Bytes 1 and 2 of a record that every byte takes, as one number: 0 and 255.
const EVERY_BYTE: u64 = 65280;

// Puts the bits of k into the mark of state s.
fn put_flag(marks: &mut [u8], s: usize, k: u8)
    requires { s < length marks.old }
    ensures { marks.new ≡ flag marks.old s k }
{
    marks[s] |= k;
}

// Makes byte s of the marks 1, where a test holds.
fn put_mark(marks: &mut [u8], s: usize, test: bool)
    requires { test ≡ true → s < length marks.old }
    ensures { marks.new ≡ cond test (set marks.old s 1) marks.old }
{
    if test {
        marks[s] = 1;
    }
}

// Counts one record more that is spare where s is the shared state.
fn put_spare(spares: &mut [u16], s: usize)
    requires { (s < length spares.old) × (get_or spares.old s 0 < 65535) }
    ensures { spares.new ≡ bump spares.old s }
{
    spares[s] += 1;
}

// Says whether every byte is in the range of record i.
fn full(list: &[u8], i: usize) -> bool
    requires { i < records list.now }
    ensures { result ≡ (eqb (low list.now i) 0 && eqb (high list.now i) 255) }
{
    numbers::whole_number(list, list::RECORD_SIZE * i + 1, 2) == EVERY_BYTE
}

// Takes in a good edge that leads from a state to itself.
fn note_loop(list: &[u8], i: usize, marks: &mut [u8], staying: &mut [u8], spares: &mut [u16])
    requires { (i < records list.now) × (i < most_records) × (is_edge list.now i ≡ true) × (target list.now i < states) × (from list.now i ≡ target list.now i)
        × Seen list.now i marks.old staying.old spares.old }
    ensures { Seen list.now (suc i) marks.new staying.new spares.new }
{
    let t = list::target(list, i);
    put_spare(spares, t);
    put_flag(marks, t, REACHED);
    put_mark(staying, t, full(list, i));
}

// Takes in record i, which is an edge, where it is good; says whether it is.
fn note_edge(
    list: &[u8],
    i: usize,
    marks: &mut [u8],
    staying: &mut [u8],
    spares: &mut [u16],
) -> bool
    requires { (i < records list.now) × (i < most_records) × (is_edge list.now i ≡ true) × Seen list.now i marks.old staying.old spares.old }
    ensures { (result ≡ good_record list.now i)
        × (result ≡ true → Seen list.now (suc i) marks.new staying.new spares.new) }
{
    let f = list::from(list, i);
    let t = list::target(list, i);
    let good = (list::byte_of(list, i, 1) <= list::byte_of(list, i, 2))
        & (list::byte_of(list, i, 3) <= 1)
        & (f < sets::STATES)
        & (t < sets::STATES);
    if !good {
        return false;
    }
    if f == t {
        note_loop(list, i, marks, staying, spares);
        return true;
    }
    put_flag(marks, f, LEFT);
    put_flag(marks, t, REACHED);
    true
}

// Bytes 0 to 3 of record i as one number.
fn head(list: &[u8], i: usize) -> u64
    requires { i < records list.now }
    ensures { result ≡ num 8 (take 4 (drop (8 * i) list.now)) }
{
    numbers::whole_number(list, list::RECORD_SIZE * i, 4)
}

// Takes in record i, which is a start, where it is good; says whether it is.
fn note_start(list: &[u8], i: usize, marks: &mut [u8], spares: &mut [u16]) -> bool
    requires { (i < records list.now) × (is_start list.now i ≡ true) × (length marks.old ≡ states) × (length spares.old ≡ states)
        × ((s : ℕ) → s < states → get_or spares.old s 0 < 65535) }
    ensures { (result ≡ good_record list.now i)
        × (result ≡ true → (target list.now i < states) × (marks.new ≡ flag marks.old (target list.now i) 2)
        × (spares.new ≡ bump spares.old (target list.now i))) }
{
    let t = list::target(list, i);
    let good = (head(list, i) == START_HEAD) & (list::from(list, i) == 0) & (t < sets::STATES);
    if !good {
        return false;
    }
    put_flag(marks, t, STARTS);
    put_spare(spares, t);
    true
}

// Takes in record i, which is neither, where it is good; says whether it is.
fn note_accept(list: &[u8], i: usize, marks: &mut [u8]) -> bool
    requires { (i < records list.now) × (is_edge list.now i ≡ false) × (is_start list.now i ≡ false) × (length marks.old ≡ states) }
    ensures { (result ≡ good_record list.now i)
        × (result ≡ true → (from list.now i < states) × (marks.new ≡ flag marks.old (from list.now i) 1)) }
{
    if !list::good_record(list, i) {
        return false;
    }
    put_flag(marks, list::from(list, i), LEFT);
    true
}

// Takes in record i, where it is good; says whether it is.
fn note(list: &[u8], i: usize, marks: &mut [u8], staying: &mut [u8], spares: &mut [u16]) -> bool
    requires { (i < records list.now) × (i < most_records) × Seen list.now i marks.old staying.old spares.old }
    ensures { (result ≡ good_record list.now i)
        × (result ≡ true → Seen list.now (suc i) marks.new staying.new spares.new) }
{
    match list::kind_of(list, i) {
        Some(Kind::Edge) => note_edge(list, i, marks, staying, spares),
        Some(Kind::Start) => note_start(list, i, marks, spares),
        Some(Kind::Accept) => note_accept(list, i, marks),
        None => false,
    }
}

// One past the highest place below m whose mark is not 0; 0 where there is none. It goes down one by one.
// The answer is the end of a front, as a length is: a state for none would be turned back into it.
fn end_near(marks: &[u8], m: usize) -> usize
    requires { m ≤ length marks.now }
    ensures { Ends marks.now m result }
{
    match marks[..m].iter().rposition(|&mark| mark != 0) {
        Some(s) => s + 1,
        None => 0,
    }
}

// The same, eight marks at a time as long as they are all 0.
fn end_below(marks: &[u8], m: usize) -> usize
    requires { m ≤ length marks.now }
    ensures { Ends marks.now m result }
{
    let mut s = m;
    while 8 <= s {
        if numbers::whole_number(marks, s - 8, 8) != 0 {
            return end_near(marks, s);
        }
        s -= 8;
    }
    end_near(marks, s)
}

// Says whether some mark has the bit of a start. All of them are laid over one another, which the compiler does many at a time.
fn some_start(marks: &[u8]) -> bool
    requires { length marks.now ≡ states }
    ensures { result ≡ some states (λ s. holds (get_or marks.now s 0) 1) }
{
    let mut all = 0u8;
    for m in marks {
        all |= *m;
    }
    all / 2 % 2 == 1
}

// The outline of a list that is refused.
fn refused(refusal: u32) -> Outline
    ensures { result.refusal ≡ refusal }
{
    Outline {
        refusal,
        top: 0,
        marks: [0u8; 1024],
        staying: [0u8; 1024],
        spares: [0u16; 1024],
    }
}

// The list check, with what else there is to know of the list, in one walk.
fn find_outline(list: &[u8]) -> Outline
    ensures { Outlines list.now result }
{
    if list::bad_length(list) {
        return refused(1);
    }
    let n = list::records(list);
    let mut marks = [0u8; 1024];
    let mut staying = [0u8; 1024];
    let mut spares = [0u16; 1024];
    for i in 0..n {
        if !note(list, i, &mut marks, &mut staying, &mut spares) {
            return refused(2);
        }
    }
    if !some_start(&marks) {
        return refused(3);
    }
    let end = end_below(&marks, sets::STATES);
    Outline {
        refusal: rules::PASSED,
        top: end - 1,
        marks,
        staying,
        spares,
    }
}

// The lowest state that starts, by the marks, and that the test takes.
fn lowest_start<P: Fn(usize) -> bool>(marks: &[u8], test: P) -> Option<usize>
    requires long { length marks.now ≡ states }
    requires asked { (s : ℕ) → s < states → P.pre test s }
    ensures { (p : ℕ → Bool) → ((s : ℕ) (b : Bool) → s < states → P.post test s b → b ≡ p s) → result ≡ some_state (first states (λ s. holds (get_or marks.now s 0) 1 && p s)) }
{
    for s in 0..sets::STATES {
        if marks[s] / 2 % 2 == 1 && test(s) {
            return Some(s);
        }
    }
    None
}

// The lowest state that starts and stays, by the marks.
fn ever_at(marks: &[u8], staying: &[u8]) -> Option<usize>
    requires { (length marks.now ≡ states) × (length staying.now ≡ states) }
    ensures { result ≡ some_state (ever marks.now staying.now) }
{
    lowest_start(marks, |s| staying[s] != 0)
}

// The lowest state that starts and that no edge leads to, by the marks.
fn once_at(marks: &[u8]) -> Option<usize>
    requires { length marks.now ≡ states }
    ensures { result ≡ some_state (once marks.now) }
{
    lowest_start(marks, |s| marks[s] / 4 % 2 != 1)
}

// Two states as the one that is shared, where both are there.
fn shared_by(same: Option<usize>, own: Option<usize>) -> Option<Shared>
    ensures { (i j : ℕ) → same ≡ some_state i → own ≡ some_state j → result ≡ cond (two i j) (Some (shared_as j i)) None }
{
    Some(Shared {
        same: same?,
        own: own?,
    })
}

// How the states of the second list are named, by what the walks over both found. States that are there once are sought where two that are always there
// are not.
fn name_states(a: Outline, b: Outline) -> Naming
    requires { a.top < states }
    ensures { result ≡ name_by (suc a.top) (ever a.marks a.staying) (ever b.marks b.staying) (once a.marks) (once b.marks) }
{
    let next = a.top + 1;
    let ever = shared_by(ever_at(&a.marks, &a.staying), ever_at(&b.marks, &b.staying));
    if ever.is_some() {
        return Naming { next, shared: ever };
    }
    let shared = shared_by(once_at(&a.marks), once_at(&b.marks));
    Naming { next, shared }
}

// The new number of a state.
fn rename(n: Naming, t: usize) -> usize
    requires { (n.next ≤ 65536) × (t < 65536) }
    ensures { result ≡ renamed n t }
{
    match n.shared {
        Some(s) if t == s.own => s.same,
        Some(s) if s.own < t => n.next + t - 1,
        _ => n.next + t,
    }
}

// Bytes 4 to 7 of record i as one number: its first number, and 65,536 times its second.
fn tail(list: &[u8], i: usize) -> u64
    requires { i < records list.now }
    ensures { result ≡ num 8 (take 4 (drop (8 * i + 4) list.now)) }
{
    numbers::whole_number(list, list::RECORD_SIZE * i + 4, 4)
}

// That number where both are 1.
const TWICE: u64 = 65537;

// Says whether the first list has all that record i says. Bytes 4 to 7 are read at once: an edge is spare where they have the shared state twice.
fn spare(n: Naming, b: &[u8], i: usize) -> bool
    requires { (i < records b.now) × (own_state n < states) }
    ensures { result ≡ spare n b.now i }
{
    let Some(s) = n.shared else {
        return false;
    };
    if list::is_edge(b, i) {
        return tail(b, i) == TWICE * s.own as u64;
    }
    list::is_start(b, i) & (list::target(b, i) == s.own)
}

// Says whether k records more behind a pass the lent list, or are more than a list may have.
fn overfull(a: &[u8], lent: usize, k: usize) -> bool
    requires { (list_refusal a.now ≡ 0) × (k ≤ most_records) }
    ensures { result ≡ overfull a.now lent k }
{
    (lent < a.len() + list::RECORD_SIZE * k) | (list::MOST_RECORDS < list::records(a) + k)
}

// Says whether what b adds behind a passes the lent list, or makes more records than a list may have: all of b's records but those that are spare.
fn too_long(a: &[u8], lent: usize, n: Naming, b: &[u8], spares: &[u16]) -> bool
    requires { (list_refusal a.now ≡ 0) × (list_refusal b.now ≡ 0) × (is_shared n ≡ true → own_state n < states) × (length spares.now ≡ states)
        × ((s : ℕ) → s < states → get_or spares.now s 0 ≡ spare_by b.now s (records b.now)) }
    ensures { result ≡ overfull a.now lent (kept n b.now (records b.now)) }
{
    let m = list::records(b);
    match n.shared {
        Some(s) => overfull(a, lent, m - usize::from(spares[s.own])),
        None => overfull(a, lent, m),
    }
}

// Says whether each state that is marked gets the number of a state. The shared one does; so the highest of the others decides.
fn all_fit(n: Naming, top: usize, named: &[u8]) -> bool
    requires { Narrow n top × (length named.now ≡ states) × (get_or named.now top 0 ≡ 0 → ⊥) }
    ensures { Fitted n top named.now result }
{
    let Some(s) = n.shared else {
        return n.next + top < sets::STATES;
    };
    if s.own < top {
        return n.next + top <= sets::STATES;
    }
    n.next + end_below(named, s.own) <= sets::STATES
}

// The new numbers of the states up to the highest.
fn new_numbers(n: Naming, top: usize) -> [u16; 1024]
    requires { Narrow n top }
    ensures { Numbers n top result }
{
    let mut new = [0u16; 1024];
    for t in 0..=top {
        new[t] = rename(n, t) as u16;
    }
    new
}

// The new number of a state, where the test holds; else the number as it is.
fn new_number(new: &[u16], test: bool, s: usize) -> usize
    requires { test ≡ true → s < length new.now }
    ensures { result ≡ cond test (get_or new.now s 0) s }
{
    if test { usize::from(new[s]) } else { s }
}

// Writes what record i adds at a place; answers the place behind it.
fn add_record(list: &mut [u8], at: usize, n: Naming, new: &[u16], b: &[u8], i: usize) -> usize
    requires { Numbers n (highest b.now) new.now × (i < records b.now) × (good_record b.now i ≡ true) × (at + length (adds n b.now i) ≤ length list.old) × (own_state n < states) }
    ensures { (result ≡ at + length (adds n b.now i)) × (list.new ≡ placed list.old at (adds n b.now i)) }
{
    if spare(n, b, i) {
        return at;
    }
    let f = new_number(new, !list::is_start(b, i), list::from(b, i));
    let t = new_number(new, !list::is_accept(b, i), list::target(b, i));
    list::copy_record(list, at, b, i, f, t);
    at + list::RECORD_SIZE
}

// Writes what b adds, from a place on; answers the place behind it.
fn add(list: &mut [u8], used: usize, n: Naming, top: usize, b: &[u8]) -> usize
    requires { (list_refusal b.now ≡ 0) × (top ≡ highest b.now) × Narrow n top × (used + length (added n b.now (records b.now)) ≤ length list.old) }
    ensures { (result ≡ used + length (added n b.now (records b.now)))
        × (list.new ≡ placed list.old used (added n b.now (records b.now))) }
{
    let m = list::records(b);
    let new = new_numbers(n, top);
    let mut at = used;
    for i in 0..m {
        at = add_record(list, at, n, &new, b, i);
    }
    at
}

// The plan of a call that is refused.
fn stopped(refusal: u32) -> Plan
    ensures { result.refusal ≡ refusal }
{
    let naming = Naming {
        next: 0,
        shared: None,
    };
    Plan {
        refusal,
        naming,
        top: 0,
    }
}

// Decides on joining the front a, of `used` bytes, of a lent list with b: 1 to 3 of a, then 27, then 28.
fn decide(a: &[u8], used: usize, lent: usize, b: &[u8]) -> Plan
    ensures { Plans a.now used lent b.now result }
{
    let x = find_outline(a);
    if x.refusal != rules::PASSED {
        return stopped(x.refusal);
    }
    let y = find_outline(b);
    if y.refusal != rules::PASSED {
        return stopped(rules::OTHER_LIST);
    }
    let n = name_states(x, y);
    if (lent < used) | too_long(a, lent, n, b, &y.spares) | !all_fit(n, y.top, &y.marks) {
        return stopped(rules::LIST_ROOM);
    }
    Plan {
        refusal: rules::PASSED,
        naming: n,
        top: y.top,
    }
}

// Joins the list that stands in front of a lent list, in its first `used` bytes, with another: the joined list stands there then. On a refusal the
// lent list stays as it was.
pub fn join(list: &mut [u8], used: usize, other: &[u8]) -> Joined
    ensures { Joins list.old used other.now result list.new }
{
    let lent = list.len();
    let end = used.min(lent);
    let p = decide(&list[..end], used, lent, other);
    if p.refusal != rules::PASSED {
        return Joined {
            refusal: p.refusal,
            length: 0,
        };
    }
    let n = p.naming;
    let length = add(list, used, n, p.top, other);
    Joined {
        refusal: rules::PASSED,
        length,
    }
}
