// States of a signature list that have the same past become one: both start or neither does, and the same edges lead to them. One pass over the states,
// rising: each joins the lowest chief that it may join, or is a chief itself. The edges that lead to one state are linked first, so that two pasts are
// compared edge by edge; then the chiefs are numbered anew, and the records of others than chiefs left out.
// A record is the list and its place, as in `list`. The tables are arrays with a place for each state or record: the library has no heap.
#![tactic(auto)]

ghost use Rattle.std.specs.Prelude.{◌≡◌, [], ◌∷◌, ◌++◌, cond, eqb, ℕ, suc, ◌+◌, ◌<◌, ◌≤◌, length, get_or, set, take};
ghost use Rattle.numbers.specs.Number.{placed};
ghost use Rattle.sets.specs.Set.{states, set_of};
ghost use Rattle.rules.specs.Scan.{first};
ghost use Rattle.list.specs.List.{records};
ghost use Rattle.list.specs.Automaton.{start, highest};
ghost use Rattle.list_fold.specs.Fold.{counted, same, chief, mark, past, alike, follows, chiefs, chief_of, renumbered, new_from, new_target, new_record, stays};
ghost use Rattle.list_fold.specs.inner.Known.{gives, Linked, Known};
ghost use Rattle.list_fold.specs.Fold.{folded, FoldAnswers};

use sets::StateSet;

// What folding answers: a refusal's number or 0, and the length of the folded list.
#[derive(Clone, Copy)]
pub struct Folded {
    pub refusal: u32,
    pub length: usize,
}

// The number at a place.
fn number_at(a: &[u16], i: usize) -> usize
    requires { i < length a.now }
    ensures { (result ≡ get_or a.now i 0) × (result < 65536) }
{
    usize::from(a[i])
}

// Writes a number at a place.
fn put_at(a: &mut [u16], i: usize, x: usize)
    requires { (i < length a.old) × (x < 65536) }
    ensures { a.new ≡ set a.old i x }
{
    a[i] = x as u16;
}

// Puts record i in front of the edges that lead to its state.
fn link_record(list: &[u8], i: usize, head: &mut [u16], next: &mut [u16])
    requires { (i < records list.now) × Linked list.now head.old next.old (suc i) }
    ensures { Linked list.now head.new next.new i }
{
    if list::is_edge(list, i) {
        let t = list::target(list, i);
        if t < sets::STATES {
            let h = number_at(head, t);
            put_at(next, i, h);
            put_at(head, t, i);
        }
    }
}

// Links the edges that lead to one state, from the last on.
fn link(list: &[u8], head: &mut [u16], next: &mut [u16])
    requires { Linked list.now head.old next.old (records list.now) }
    ensures { Linked list.now head.new next.new 0 }
{
    for i in (0..list::records(list)).rev() {
        link_record(list, i, head, next);
    }
}

// The chief of p, where s joins r. By two tests: a comparison as a value costs the fold up to twice the time.
fn chief_of(leads: &[u16], s: usize, r: usize, p: usize) -> usize
    requires { s ≤ length leads.now }
    ensures { result ≡ chief (take s leads.now ++ (r ∷ [])) p }
{
    if p < s {
        return number_at(leads, p);
    }
    if p == s {
        return r;
    }
    p
}

// Says whether the edges i and j have the same mark, where s joins r.
// Three bytes and a chief: a comparison of slices is no plainer.
fn same_mark(list: &[u8], leads: &[u16], s: usize, r: usize, i: usize, j: usize) -> bool
    requires { (i < records list.now) × (j < records list.now) × (s ≤ length leads.now) }
    ensures { result ≡ same (mark (take s leads.now ++ (r ∷ [])) list.now i) (mark (take s leads.now ++ (r ∷ [])) list.now j) }
{
    (list::byte_of(list, i, 1) == list::byte_of(list, j, 1))
        & (list::byte_of(list, i, 2) == list::byte_of(list, j, 2))
        & (list::byte_of(list, i, 3) == list::byte_of(list, j, 3))
        & (chief_of(leads, s, r, list::from(list, i)) == chief_of(leads, s, r, list::from(list, j)))
}

// Says whether the same marks lead to s and r, where s joins r. The number of records stands for no edge: it takes no more room than a place does.
fn same_past(list: &[u8], head: &[u16], next: &[u16], leads: &[u16], s: usize, r: usize) -> bool
    requires { Linked list.now head.now next.now 0 × (s < states) × (r < states) × (s ≤ length leads.now) }
    ensures { result ≡ same (past (take s leads.now ++ (r ∷ [])) list.now s) (past (take s leads.now ++ (r ∷ [])) list.now r) }
{
    let n = list::records(list);
    let mut i = number_at(head, s);
    let mut j = number_at(head, r);
    // A step is to the next edge of both.
    while (i < n) & (j < n) {
        if !same_mark(list, leads, s, r, i, j) {
            return false;
        }
        i = number_at(next, i);
        j = number_at(next, j);
    }
    (n <= i) & (n <= j)
}

// Says whether s and r have the same past, where s joins r.
fn alike(
    list: &[u8],
    starts: StateSet,
    head: &[u16],
    next: &[u16],
    leads: &[u16],
    s: usize,
    r: usize,
) -> bool
    requires { (set_of starts ≡ start list.now) × Linked list.now head.now next.now 0 × (s < states) × (r < states) × (s ≤ length leads.now) }
    ensures { result ≡ alike (take s leads.now ++ (r ∷ [])) list.now s r }
{
    let a = starts.has(s);
    let b = starts.has(r);
    a == b && same_past(list, head, next, leads, s, r)
}

// Says whether s may join r.
fn follows(
    list: &[u8],
    starts: StateSet,
    head: &[u16],
    next: &[u16],
    leads: &[u16],
    s: usize,
    r: usize,
) -> bool
    requires { (set_of starts ≡ start list.now) × Linked list.now head.now next.now 0 × (s < states) × (r < s) × (s ≤ length leads.now) }
    ensures { result ≡ follows (take s leads.now) list.now s r }
{
    number_at(leads, r) == r && alike(list, starts, head, next, leads, s, r)
}

// The chief of s.
fn find(list: &[u8], starts: StateSet, head: &[u16], next: &[u16], leads: &[u16], s: usize) -> usize
    requires { (set_of starts ≡ start list.now) × Linked list.now head.now next.now 0 × (s < states) × (s ≤ length leads.now) }
    ensures { (result ≡ first s (follows (take s leads.now) list.now s)) × (result ≤ s) }
{
    for r in 0..s {
        if follows(list, starts, head, next, leads, s, r) {
            return r;
        }
    }
    s
}

// The chiefs of the first states.
fn lead(list: &[u8], starts: StateSet, head: &[u16], next: &[u16], top: usize, leads: &mut [u16])
    requires { (set_of starts ≡ start list.now) × Linked list.now head.now next.now 0 × (top ≤ states) × (length leads.old ≡ states) }
    ensures { (take top leads.new ≡ chiefs list.now top) × (length leads.new ≡ states) }
{
    for s in 0..top {
        let r = find(list, starts, head, next, leads, s);
        put_at(leads, s, r);
    }
}

// Numbers state s: a chief gets the next number, another state that of its chief; answers the next number then.
fn number_state(leads: &[u16], s: usize, next: usize, numbers: &mut [u16]) -> usize
    requires { (s < states) × (length leads.now ≡ states) × (get_or leads.now s 0 ≤ s) × (next ≤ s) × (length numbers.old ≡ states) }
    ensures { (result ≡ cond (eqb (get_or leads.now s 0) s) (suc next) next)
        × (numbers.new ≡ set numbers.old s (cond (eqb (get_or leads.now s 0) s) next (get_or numbers.old (get_or leads.now s 0) 0))) }
{
    let r = number_at(leads, s);
    if r == s {
        put_at(numbers, s, next);
        return next + 1;
    }
    let x = number_at(numbers, r);
    put_at(numbers, s, x);
    next
}

// The new numbers of the first states.
fn number(list: &[u8], leads: &[u16], top: usize, numbers: &mut [u16])
    requires { (top ≡ suc (highest list.now)) × (top ≤ states) × (take top leads.now ≡ chiefs list.now top) × (length leads.now ≡ states) × (length numbers.old ≡ states) }
    ensures { Known list.now leads.now numbers.new top }
{
    let mut next = 0;
    for s in 0..top {
        next = number_state(leads, s, next, numbers);
    }
}

// Says whether record i is kept.
fn stays(list: &[u8], leads: &[u16], top: usize, i: usize) -> bool
    requires { (i < records list.now) × (top ≡ suc (highest list.now)) × (top ≤ length leads.now) × (take top leads.now ≡ chiefs list.now top) }
    ensures { result ≡ stays (chief_of list.now) list.now i }
{
    if list::is_accept(list, i) {
        return true;
    }
    let t = list::target(list, i);
    top <= t || number_at(leads, t) == t
}

// The state that record i leaves or names, renumbered.
fn new_from(list: &[u8], numbers: &[u16], i: usize) -> usize
    requires { (i < records list.now) × (suc (highest list.now) ≤ length numbers.now) × ((s : ℕ) → s < suc (highest list.now) → get_or numbers.now s 0 ≡ renumbered (chief_of list.now) s) }
    ensures { result ≡ new_from (chief_of list.now) list.now i }
{
    let t = list::from(list, i);
    if list::is_edge(list, i) | list::is_accept(list, i) {
        number_at(numbers, t)
    } else {
        t
    }
}

// The state that record i leads to, renumbered, or the signature that it gives.
fn new_target(list: &[u8], numbers: &[u16], i: usize) -> usize
    requires { (i < records list.now) × (suc (highest list.now) ≤ length numbers.now) × ((s : ℕ) → s < suc (highest list.now) → get_or numbers.now s 0 ≡ renumbered (chief_of list.now) s) }
    ensures { result ≡ new_target (chief_of list.now) list.now i }
{
    let t = list::target(list, i);
    if list::is_edge(list, i) | list::is_start(list, i) {
        number_at(numbers, t)
    } else {
        t
    }
}

// Writes record i, renumbered, at a place.
fn put_record(list: &[u8], numbers: &[u16], i: usize, out: &mut [u8], at: usize)
    requires { (i < records list.now) × (suc (highest list.now) ≤ length numbers.now) × ((s : ℕ) → s < suc (highest list.now) → get_or numbers.now s 0 ≡ renumbered (chief_of list.now) s) × (at + 8 ≤ length out.old) }
    ensures { out.new ≡ placed out.old at (new_record (chief_of list.now) list.now i) }
{
    let f = new_from(list, numbers, i);
    let t = new_target(list, numbers, i);
    list::copy_record(out, at, list, i, f, t);
}

// How many records are kept.
fn count(list: &[u8], leads: &[u16], top: usize) -> usize
    requires { (top ≡ suc (highest list.now)) × (top ≤ length leads.now) × (take top leads.now ≡ chiefs list.now top) }
    ensures { result ≡ counted (stays (chief_of list.now) list.now) (records list.now) }
{
    let n = list::records(list);
    let mut kept = 0;
    for i in 0..n {
        if stays(list, leads, top, i) {
            kept += 1;
        }
    }
    kept
}

// Writes what record i gives at a place; answers the place behind it.
fn add_record(
    list: &[u8],
    leads: &[u16],
    numbers: &[u16],
    top: usize,
    i: usize,
    out: &mut [u8],
    at: usize,
) -> usize
    requires { Known list.now leads.now numbers.now top × (i < records list.now) × (at + length (gives (chief_of list.now) list.now i) ≤ length out.old) }
    ensures { (result ≡ at + length (gives (chief_of list.now) list.now i)) × (out.new ≡ placed out.old at (gives (chief_of list.now) list.now i)) }
{
    if stays(list, leads, top, i) {
        put_record(list, numbers, i, out, at);
        return at + list::RECORD_SIZE;
    }
    at
}

// Writes the folded list.
fn add(list: &[u8], leads: &[u16], numbers: &[u16], top: usize, out: &mut [u8])
    requires { Known list.now leads.now numbers.now top × (length (folded list.now) ≤ length out.old) }
    ensures { out.new ≡ placed out.old 0 (folded list.now) }
{
    let n = list::records(list);
    let mut at = 0;
    for i in 0..n {
        at = add_record(list, leads, numbers, top, i, out, at);
    }
}

// Folds a list: states that have the same past become one. The folded list stands in front of the lent one then; on a refusal that stays as it was.
pub fn fold(list: &[u8], out: &mut [u8]) -> Folded
    ensures { FoldAnswers list.now out.old result out.new }
{
    let refusal = list::check_list(list);
    if refusal != rules::PASSED {
        return Folded { refusal, length: 0 };
    }
    let n = list::records(list);
    let top = list::state_count(list);
    let starts = list::start_set(list);
    let none = n as u16;
    let mut head = [none; sets::STATES];
    let mut next = [0u16; list::MOST_RECORDS];
    let mut leads = [0u16; sets::STATES];
    let mut numbers = [0u16; sets::STATES];
    link(list, &mut head, &mut next);
    lead(list, starts, &head, &next, top, &mut leads);
    number(list, &leads, top, &mut numbers);
    let length = list::RECORD_SIZE * count(list, &leads, top);
    if out.len() < length {
        return Folded {
            refusal: rules::LIST_ROOM,
            length: 0,
        };
    }
    add(list, &leads, &numbers, top, out);
    Folded {
        refusal: rules::PASSED,
        length,
    }
}
