// Why a pair is due, or a state in the frontier: the lowest run of the automaton that leads there, found backwards through the frontiers of a
// piece; and the first edge record that leads from one state to another on a byte.
// What is asked is lent as C lends it.
#![tactic(auto)]

ghost use Rattle.std.specs.Prelude.{◌≡◌, Bool, true, ◌&&◌, cond, ◌++◌, ℕ, suc, ◌*◌, ◌^◌, ◌<◌, ◌≤◌, length, drop, ltb};
ghost use Rattle.std.specs.Bool.{then_some};
ghost use Rattle.numbers.specs.Number.{placed};
ghost use Rattle.sets.specs.Set.{states, set_size, set_of, set_at, holds};
ghost use Rattle.rules.specs.Scan.{some, first};
ghost use Rattle.rules.specs.Rules.{verdict};
ghost use Rattle.list.specs.List.{records, from};
ghost use Rattle.list.specs.Automaton.{exchanged};
ghost use Rattle.feed.specs.Engine.{run};
ghost use Rattle.list_feed.specs.Plain.{plain};
ghost use Rattle.list_why.specs.Run.{of_signature, of_state};
ghost use Rattle.list_why.specs.inner.Asked.{question, some_state};
ghost use Rattle.list_why.specs.Reason.{front, lowest, source_of, end_of, trace, fronts, place_rules, Explains, links, Finds};

use sets::StateSet;

// The answer to which edge record leads from one state to another on a byte: its place, counted from 0.
#[derive(Clone, Copy)]
pub struct Found {
    pub refusal: u32,
    pub place: usize,
}

// What is asked of an offset: why a signature is given there, or why a state is in the frontier.
#[derive(Clone, Copy)]
enum Asked {
    Signature(u32),
    State(u32),
}

// The state that record i leaves or names, where the test holds and it is lower than `best`; else `best`.
fn lower(list: &[u8], i: usize, test: bool, best: Option<usize>) -> Option<usize>
    requires { i < records list.now }
    ensures { (k : ℕ) → k ≤ states → best ≡ some_state k → result ≡ some_state (cond (test && ltb (from list.now i) k) (from list.now i) k) }
{
    if !test {
        return best;
    }
    let s = list::from(list, i);
    if s < best.unwrap_or(sets::STATES) {
        Some(s)
    } else {
        best
    }
}

// The lowest state of a frontier from which a record that the test takes leads to t.
fn lowest<P: Fn(usize) -> bool>(list: &[u8], f: StateSet, t: usize, test: P) -> Option<usize>
    requires { (i : ℕ) → i < records list.now → P.pre test i }
    ensures { (p : ℕ → Bool) → ((i : ℕ) (b : Bool) → i < records list.now → P.post test i b → b ≡ p i) → result ≡ some_state (lowest list.now (set_of f) p t) }
{
    let n = list::records(list);
    let frontier = f.words;
    let mut best = None;
    for i in 0..n {
        let taken = list::target(list, i) == t
            && test(i)
            && sets::bit_of(&frontier, list::from(list, i));
        best = lower(list, i, taken, best);
    }
    best
}

// The lowest state of a frontier that accepts g.
fn giving(list: &[u8], f: StateSet, g: usize) -> Option<usize>
    ensures { result ≡ some_state (end_of list.now (set_of f) (of_signature g)) }
{
    lowest(list, f, g, |i| list::is_accept(list, i))
}

// The state, where a frontier has it.
fn holding(f: StateSet, state: usize) -> Option<usize>
    ensures { result ≡ some_state (cond (holds (set_of f) state) state states) }
{
    f.has(state).then_some(state)
}

// The lowest state of a frontier that answers what is asked.
fn answering(list: &[u8], f: StateSet, asked: Asked) -> Option<usize>
    ensures { result ≡ some_state (end_of list.now (set_of f) (question asked)) }
{
    match asked {
        Asked::Signature(g) => giving(list, f, g as usize),
        Asked::State(t) => holding(f, t as usize),
    }
}

// The lowest state of a frontier from which byte c leads to t.
fn source(list: &[u8], f: StateSet, c: u8, t: usize) -> Option<usize>
    ensures { result ≡ some_state (source_of list.now (set_of f) c t) }
{
    let d = list::exchanged(c);
    lowest(list, f, t, |i| list::edge(list, c, d, i))
}

// The frontier after the bytes that come before.
fn front(list: &[u8], first: StateSet, before: &[u8]) -> StateSet
    ensures { set_of result ≡ run (plain list.now) (set_of first) before.now }
{
    let mut f = first;
    for c in before {
        f = list::step(list, f, *c);
    }
    f
}

// Writes the frontiers after 0 to n bytes of a piece to the front of the work place. By index: it is a frontier's place, too.
fn keep_fronts(list: &[u8], first: StateSet, piece: &[u8], n: usize, work: &mut [u8])
    requires { (n ≤ length piece.now) × (set_size * suc n ≤ length work.old) }
    ensures { work.new ≡ placed work.old 0 (fronts list.now (set_of first) piece.now n) }
{
    let mut f = first;
    for i in 0..n {
        f.store(work, sets::BYTES * i);
        f = list::step(list, f, piece[i]);
    }
    f.store(work, sets::BYTES * n);
}

// Writes a run that ends in a state of the last frontier backwards, through the frontiers that stand in the work place. To each state of a frontier an
// edge leads from the one before. By index: it is a frontier's place, too.
fn trace_back(list: &[u8], piece: &[u8], n: usize, work: &[u8], end: usize, run: &mut [u16])
    requires { (n ≤ length piece.now) × (n < length run.old) × (set_size * suc n ≤ length work.now) × (set_at work.now 0 < 2 ^ states)
        × ((i : ℕ) → i ≤ n → set_at work.now (set_size * i) ≡ front list.now (set_at work.now 0) piece.now i)
        × (holds (front list.now (set_at work.now 0) piece.now n) end ≡ true) }
    ensures { run.new ≡ trace list.now (set_at work.now 0) piece.now n end ++ drop (suc n) run.old }
{
    let mut t = end;
    for i in (0..n).rev() {
        run[i + 1] = t as u16;
        let f = StateSet::from_bytes(work, sets::BYTES * i);
        t = source(list, f, piece[i], t).unwrap();
    }
    run[0] = t as u16;
}

// Tells the run that ends in a state of the frontier after n bytes.
fn tell_run(
    list: &[u8],
    first: StateSet,
    piece: &[u8],
    n: usize,
    end: usize,
    run: &mut [u16],
    work: &mut [u8],
)
    requires { (n ≤ length piece.now) × (n < length run.old) × (set_size * suc n ≤ length work.old) × (holds (front list.now (set_of first) piece.now n) end ≡ true) }
    ensures { (run.new ≡ trace list.now (set_of first) piece.now n end ++ drop (suc n) run.old)
        × (work.new ≡ placed work.old 0 (fronts list.now (set_of first) piece.now n)) }
{
    keep_fronts(list, first, piece, n, work);
    trace_back(list, piece, n, work, end, run);
}

// The check before what is asked is looked for: the number of the first of the rules 1 to 6 and 25 that refuses the call, 0 where none does.
fn place_refusal(
    list: &[u8],
    flow: &[u8],
    start: u64,
    piece: &[u8],
    offset: u64,
    run: &[u16],
    work: &[u8],
) -> u32
    ensures { result ≡ verdict (place_rules list.now flow.now start piece.now offset run.now work.now) }
{
    let met = list_flow::feed_refusal(list, flow, start, piece);
    if met != rules::PASSED {
        return met;
    }
    if offset < start {
        return rules::PLACE;
    }
    if (piece.len() as u64) < offset - start {
        return rules::PLACE;
    }
    let n = (offset - start) as usize;
    if run.len() < n + 1 {
        return rules::PLACE;
    }
    if work.len() < sets::BYTES * (n + 1) {
        return rules::PLACE;
    }
    rules::PASSED
}

// Says why what is asked is so at an offset: writes the states of a run that answers it, from the frontier of a flow before a piece on. A refusal
// changes nothing.
fn explain(
    list: &[u8],
    flow: &[u8],
    start: u64,
    piece: &[u8],
    asked: Asked,
    offset: u64,
    run: &mut [u16],
    work: &mut [u8],
) -> u32
    ensures { Explains list.now flow.now start piece.now (question asked) offset run.old work.old result run.new work.new }
{
    let refusal = place_refusal(list, flow, start, piece, offset, run, work);
    if refusal != rules::PASSED {
        return refusal;
    }
    let n = (offset - start) as usize;
    let first = StateSet::from_bytes(flow, 0);
    let Some(end) = answering(list, front(list, first, &piece[..n]), asked) else {
        return rules::NOT_DUE;
    };
    tell_run(list, first, piece, n, end, run, work);
    rules::PASSED
}

// Says why a pair is due: writes the states of a run that gives it, from the frontier of a flow before a piece on. A refusal changes nothing.
pub fn why(
    list: &[u8],
    flow: &[u8],
    start: u64,
    piece: &[u8],
    signature: u32,
    offset: u64,
    run: &mut [u16],
    work: &mut [u8],
) -> u32
    ensures { Explains list.now flow.now start piece.now (of_signature signature) offset run.old work.old result run.new work.new }
{
    let asked = Asked::Signature(signature);
    explain(list, flow, start, piece, asked, offset, run, work)
}

// Says why a state is in the frontier at an offset: writes the states of a run that leads to it, from the frontier of a flow before a piece on. A refusal
// changes nothing.
pub fn why_state(
    list: &[u8],
    flow: &[u8],
    start: u64,
    piece: &[u8],
    state: u32,
    offset: u64,
    run: &mut [u16],
    work: &mut [u8],
) -> u32
    ensures { Explains list.now flow.now start piece.now (of_state state) offset run.old work.old result run.new work.new }
{
    let asked = Asked::State(state);
    explain(list, flow, start, piece, asked, offset, run, work)
}

// Says whether record i is an edge that byte c takes from s to t; d is c with its case exchanged.
fn joins(list: &[u8], s: usize, c: u8, d: u8, t: usize, i: usize) -> bool
    requires { (i < records list.now) × (d ≡ exchanged c) }
    ensures { result ≡ links list.now s c t i }
{
    list::from(list, i) == s && list::target(list, i) == t && list::edge(list, c, d, i)
}

// The place of the first edge record that a byte takes from s to t; a number over 255 is no byte.
fn first_edge(list: &[u8], s: usize, byte: u32, t: usize) -> Option<usize>
    ensures { result ≡ then_some (some (records list.now) (links list.now s byte t)) (first (records list.now) (links list.now s byte t)) }
{
    let Ok(c) = u8::try_from(byte) else {
        return None;
    };
    let n = list::records(list);
    let d = list::exchanged(c);
    for i in 0..n {
        if joins(list, s, c, d, t, i) {
            return Some(i);
        }
    }
    None
}

// Says which edge record leads from one state to another on a byte: the first.
pub fn find_edge(list: &[u8], from: u32, byte: u32, to: u32) -> Found
    ensures { Finds list.now from byte to result }
{
    let listed = list::check_list(list);
    if listed != rules::PASSED {
        return Found {
            refusal: listed,
            place: 0,
        };
    }
    match first_edge(list, from as usize, byte, to as usize) {
        Some(place) => Found {
            refusal: rules::PASSED,
            place,
        },
        None => Found {
            refusal: rules::NOT_DUE,
            place: 0,
        },
    }
}
