// The feed by places: the check of a call and of its hint, the run over the piece, and what the call answers and saves.
#![tactic(auto)]

ghost use Rattle.std.specs.Prelude.{◌≡◌, true, false, not, ◌&&◌, cond, [], ◌∷◌, ◌++◌, ◌+◌, ◌*◌, ◌-◌, ◌/◌, ◌<◌, ◌≤◌, ◌^◌, length, leb, ltb, eqb};
ghost use Rattle.numbers.specs.Number.{placed};
ghost use Rattle.sets.specs.Set.{set_size, set_bytes, set_at};
ghost use Rattle.rules.specs.Rules.{verdict};
ghost use Rattle.feed.specs.Engine.{most_offset};
ghost use Rattle.feed.specs.Fed.{Answers};
ghost use Rattle.feed.specs.inner.Tells.{Unfed};
ghost use Rattle.list_flow.specs.Flow.{flow_size, frontier_of, rows_of, flow_bytes, flow_rules};
ghost use Rattle.table.specs.Table.{split_count, split_set};
ghost use Rattle.index.specs.Entry.{entry_size, entry_place, telling, limit, flag_at, known_in, bad_index};
ghost use Rattle.index.specs.Stand.{found_of, place_from, IsEntry, holds_at, stand_rules, stand_feed, stood_at};
ghost use Rattle.index_turns.specs.inner.Goes.{Strides};

use feed::Fed;
use index_turns::{Stands, Strode};
use sets::StateSet;
use std::ops::ControlFlow;

// A piece of fewer bytes than these is first tried byte by byte.
const SHORT: usize = 16;

// What a call answers: as every feed, and the split where the flow then stands.
#[derive(Clone, Copy)]
pub struct Stood {
    pub fed: Fed,
    pub split: usize,
}

// Says whether the set that stands at a place of the splits is the one that a record begins with, where the bytes of both are all there. It goes on behind a
// byte that differs, so that the compiler compares several at once.
fn same_set(splits: &[u8], at: usize, flow: &[u8]) -> bool
    requires { (at + set_size ≤ length splits.now) × (set_size ≤ length flow.now) }
    ensures { result ≡ eqb (set_at splits.now at) (frontier_of flow.now) }
{
    let mut all = true;
    for k in 0..sets::BYTES {
        all &= splits[at + k] == flow[k];
    }
    all
}

// Says whether split `hint` is there and the lists are good: by one division, since where the split is there the splits are not none.
fn there(splits: &[u8], index: &[u8], hint: usize) -> bool
    ensures { result ≡ (ltb hint (split_count splits.now) && not (bad_index splits.now index.now)) }
{
    let n = table::split_count(splits);
    if n <= hint {
        return false;
    }
    if table::MOST_SPLITS < n {
        return false;
    }
    if table::SPLIT_SIZE * n != splits.len() {
        return false;
    }
    index.len() == index::entry_place(n)
}

// Says whether the lists are good and split `hint` is there and has the set that a record begins with.
fn holds_at(splits: &[u8], index: &[u8], hint: usize, flow: &[u8]) -> bool
    requires { set_size ≤ length flow.now }
    ensures { result ≡ holds_at splits.now index.now hint (frontier_of flow.now) }
{
    there(splits, index, hint) && same_set(splits, table::SPLIT_SIZE * hint, flow)
}

// Says whether the entry of split `hint` has its flag, where it is there.
fn flag_at(index: &[u8], hint: usize) -> bool
    requires { (entry_place hint + entry_size ≤ length index.now) × (length index.now < telling) }
    ensures { result ≡ not (eqb (flag_at index.now (entry_place hint)) 0) }
{
    index[index::entry_place(hint) + index::FLAG_PLACE] != 0
}

// The split where a call begins, where it is known whether the hint holds.
fn begin(splits: &[u8], hint: usize, flow: &[u8], held: bool) -> Option<usize>
    requires { set_size ≤ length flow.now }
    ensures { result ≡ cond held (Some hint) (found_of splits.now (frontier_of flow.now)) }
{
    if held {
        Some(hint)
    } else {
        index::find(splits, StateSet::from_bytes(flow, 0))
    }
}

// The check of a call whose hint holds: the number of the first of the rules 4 to 6 that refuses it, 0 where none does. 8 does not.
fn held_refusal(index: &[u8], hint: usize, flow: &[u8], start: u64, piece: &[u8]) -> u32
    requires { (entry_place hint + entry_size ≤ length index.now) × (length index.now < telling) }
    ensures { result ≡ verdict (flow_rules (not (eqb (flag_at index.now (entry_place hint)) 0)) flow.now start piece.now) }
{
    list_flow::flow_refusal(flag_at(index, hint), flow, start, piece)
}

// The check of a call whose hint does not hold, on a record of the right size: the number of the first of the rules 4 to 6 and 8 that refuses it, 0 where none does.
fn sought_refusal(splits: &[u8], index: &[u8], flow: &[u8], start: u64, piece: &[u8]) -> u32
    requires { set_size ≤ length flow.now }
    ensures { result ≡ verdict (flow_rules (known_in index.now (frontier_of flow.now)) flow.now start piece.now ++ ((8, bad_index splits.now index.now) ∷ [])) }
{
    let known = index::known(index, StateSet::from_bytes(flow, 0));
    let met = list_flow::flow_refusal(known, flow, start, piece);
    if met != rules::PASSED {
        return met;
    }
    if index::bad_index(splits, index) {
        return rules::TABLE_LISTS;
    }
    rules::PASSED
}

// The check of a call, whatever the size of its record: the number of the first of the rules 4 to 6 and 8 that refuses it, 0 where none does.
pub fn refusal(
    splits: &[u8],
    index: &[u8],
    hint: usize,
    flow: &[u8],
    start: u64,
    piece: &[u8],
) -> u32
    ensures { result ≡ verdict (stand_rules splits.now index.now hint flow.now start piece.now) }
{
    if flow.len() != list_flow::FLOW_SIZE {
        return rules::FLOW_RECORD;
    }
    if holds_at(splits, index, hint, flow) {
        return held_refusal(index, hint, flow, start, piece);
    }
    sought_refusal(splits, index, flow, start, piece)
}

// Runs from a place with a whole entry: byte by byte where the piece is short and no byte of it tells, else by turns.
fn run_at(index: &[u8], place: usize, offset: u64, piece: &[u8], pairs: &mut [u32]) -> Strode
    requires { (place < limit index.now) × (length index.now < telling) × (offset + length piece.now ≤ most_offset) }
    ensures { Strides index.now piece.now offset 0 place pairs.old 0 (length piece.now) result pairs.new }
{
    if piece.len() < SHORT {
        let led = index_quiet::few(index, piece, place);
        if led.bytes == piece.len() {
            return ControlFlow::Continue(Stands {
                place: led.place,
                bytes: led.bytes,
                words: 0,
                rows: led.rows,
            });
        }
    }
    index_turns::run(index, piece, offset, place, pairs)
}

// Runs from a split, where there is one; else it stands behind the last entry and does nothing.
fn run_from(
    index: &[u8],
    first: Option<usize>,
    offset: u64,
    piece: &[u8],
    pairs: &mut [u32],
) -> Strode
    requires { (offset + length piece.now ≤ most_offset) × (length index.now < telling) × IsEntry index.now first }
    ensures { Strides index.now piece.now offset 0 (place_from index.now first) pairs.old 0 (length piece.now) result pairs.new }
{
    match first {
        Some(i) => run_at(index, index::entry_place(i), offset, piece, pairs),
        None => ControlFlow::Break(Stands {
            place: index.len(),
            bytes: 0,
            words: 0,
            rows: 0,
        }),
    }
}

// The split whose entry stands at a place, of n splits; n where no whole entry does.
// A number, as C has it, which hands it in again as the hint.
fn split_at(index: &[u8], n: usize, place: usize) -> usize
    requires { entry_size ≤ length index.now }
    ensures { result ≡ cond (ltb place (limit index.now)) ((place - set_size) / entry_size) n }
{
    if index.len() - index::REST <= place {
        return n;
    }
    if place < sets::BYTES {
        return 0;
    }
    (place - sets::BYTES) / index::ENTRY_SIZE
}

// The refusal at a place after some bytes of a piece of `len`: 14 where any are left and no whole entry stands there.
fn halted(index: &[u8], place: usize, bytes: usize, len: usize) -> u32
    requires { entry_size ≤ length index.now }
    ensures { result ≡ cond (ltb bytes len && leb (limit index.now) place) 14 0 }
{
    if len <= bytes {
        return rules::PASSED;
    }
    if place < index.len() - index::REST {
        return rules::PASSED;
    }
    rules::NO_SPLIT
}

// Writes the set that stands at a place of the splits in front of a record, where the bytes of both are all there.
fn put_set(splits: &[u8], at: usize, flow: &mut [u8])
    requires { (at + set_size ≤ length splits.now) × (set_size ≤ length flow.old) }
    ensures { flow.new ≡ placed flow.old 0 (set_bytes (set_at splits.now at)) }
{
    flow[..sets::BYTES].copy_from_slice(&splits[at..at + sets::BYTES]);
}

// Writes the set of split i in front of a record, where there are n splits at least.
fn put_frontier(splits: &[u8], n: usize, i: usize, flow: &mut [u8])
    requires { (n ≤ split_count splits.now) × (set_size ≤ length flow.old) }
    ensures { flow.new ≡ placed flow.old 0 (set_bytes (split_set splits.now i)) }
{
    if i < n {
        put_set(splits, table::SPLIT_SIZE * i, flow);
    } else {
        table::split_set(splits, i).store(flow, 0);
    }
}

// Writes an offset and more rows into a record; its frontier stays.
fn advance(flow: &mut [u8], offset: u64, rows: u64)
    requires { (length flow.old ≡ flow_size) × (rows_of flow.old + rows < 2 ^ 64) }
    ensures { flow.new ≡ flow_bytes (frontier_of flow.old) offset (rows_of flow.old + rows) }
{
    let all = numbers::number_at(flow, list_flow::ROWS_AT, 8) + rows;
    numbers::put_number(flow, list_flow::OFFSET_AT, 4, offset);
    numbers::put_number(flow, list_flow::RESERVED_AT, 4, 0);
    numbers::put_number(flow, list_flow::ROWS_AT, 8, all);
}

// Saves a record at an offset, with more rows: at split i of n, where the feed has moved there.
fn save(splits: &[u8], n: usize, i: usize, moved: bool, flow: &mut [u8], offset: u64, rows: u64)
    requires { (n ≤ split_count splits.now) × (length flow.old ≡ flow_size) × (rows_of flow.old + rows < 2 ^ 64) }
    ensures { flow.new ≡ flow_bytes (cond moved (split_set splits.now i) (frontier_of flow.old)) offset (rows_of flow.old + rows) }
{
    advance(flow, offset, rows);
    if moved {
        put_frontier(splits, n, i, flow);
    }
}

// Says whether a feed that consumed some bytes, and stands at split i, may have another frontier than it began with.
fn moves(held: bool, hint: usize, i: usize, bytes: usize) -> bool
    ensures { result ≡ (not (held && eqb i hint) && not (eqb bytes 0)) }
{
    !(held & (i == hint)) & (bytes != 0)
}

// As `sought_refusal`, which it calls: a function between it and the feed, so that the lists which that is handed are laid out only where the hint fails.
fn unheld_refusal(splits: &[u8], index: &[u8], flow: &[u8], start: u64, piece: &[u8]) -> u32
    requires { set_size ≤ length flow.now }
    ensures { result ≡ verdict (flow_rules (known_in index.now (frontier_of flow.now)) flow.now start piece.now ++ ((8, bad_index splits.now index.now) ∷ [])) }
{
    sought_refusal(splits, index, flow, start, piece)
}

// The check of a call on a record of the right size, where it is known whether the hint holds.
fn checked(
    splits: &[u8],
    index: &[u8],
    hint: usize,
    held: bool,
    flow: &[u8],
    start: u64,
    piece: &[u8],
) -> u32
    requires { (held ≡ holds_at splits.now index.now hint (frontier_of flow.now)) × (set_size ≤ length flow.now) }
    ensures { result ≡ verdict (stand_rules splits.now index.now hint flow.now start piece.now) }
{
    if held {
        return held_refusal(index, hint, flow, start, piece);
    }
    unheld_refusal(splits, index, flow, start, piece)
}

// Runs from where a call begins, saves what that leaves, and answers, where no rule refuses the call and it is known whether its hint holds.
fn go(
    splits: &[u8],
    index: &[u8],
    hint: usize,
    held: bool,
    flow: &mut [u8],
    start: u64,
    piece: &[u8],
    pairs: &mut [u32],
) -> Stood
    requires { (held ≡ holds_at splits.now index.now hint (frontier_of flow.old)) × (verdict (stand_rules splits.now index.now hint flow.old start piece.now) ≡ 0) }
    ensures { Answers (stand_feed splits.now index.now hint flow.old start piece.now pairs.old) result.fed pairs.new flow.new
        × (result.split ≡ stood_at splits.now index.now hint flow.old start piece.now pairs.old) }
{
    let n = table::split_count(splits);
    let first = begin(splits, hint, flow, held);
    let strode = run_from(index, first, start, piece, pairs);
    let stands = index_turns::stands_of(strode);
    let split = split_at(index, n, stands.place);
    let bytes = stands.bytes;
    let moved = moves(held, hint, split, bytes);
    save(
        splits,
        n,
        split,
        moved,
        flow,
        start + bytes as u64,
        stands.rows,
    );
    let fed = Fed {
        refusal: halted(index, stands.place, bytes, piece.len()),
        bytes,
        pairs: stands.words / 2,
        all: bytes == piece.len(),
    };
    Stood { fed, split }
}

// The answer of a call that a rule refuses: its number, and the hint.
fn refused(refusal: u32, hint: usize) -> Stood
    ensures { Unfed refusal result.fed × (result.split ≡ hint) }
{
    Stood {
        fed: feed::refused(refusal),
        split: hint,
    }
}

// Feeds a piece to a flow by its index, from the split that is handed in where the flow stands there. A refusal before the first byte changes nothing; one at a later byte keeps what the bytes before it leave.
pub fn feed(
    splits: &[u8],
    index: &[u8],
    hint: usize,
    flow: &mut [u8],
    start: u64,
    piece: &[u8],
    pairs: &mut [u32],
) -> Stood
    ensures { Answers (stand_feed splits.now index.now hint flow.old start piece.now pairs.old) result.fed pairs.new flow.new
        × (result.split ≡ stood_at splits.now index.now hint flow.old start piece.now pairs.old) }
{
    if flow.len() != list_flow::FLOW_SIZE {
        return refused(rules::FLOW_RECORD, hint);
    }
    let held = holds_at(splits, index, hint, flow);
    let refusal = checked(splits, index, hint, held, flow, start, piece);
    if refusal != rules::PASSED {
        return refused(refusal, hint);
    }
    go(splits, index, hint, held, flow, start, piece, pairs)
}
