// The record of a list's flow: opened, read, checked and written.
#![tactic(auto)]

ghost use Rattle.std.specs.Prelude.{◌≡◌, true, cond, [], ◌∷◌, ◌++◌, ◌+◌, ◌^◌, ◌<◌, ◌≤◌, length, eqb};
ghost use Rattle.sets.specs.Set.{set_of};
ghost use Rattle.rules.specs.Rules.{verdict};
ghost use Rattle.list_flow.specs.Flow.{flow_size, offset_of, reserved_of, rows_of, flow_bytes, bad_flow, flow_rules, feed_rules};
ghost use Rattle.list_flow.specs.Opening.{first_rules, open_flow};
ghost use Rattle.feed.specs.Opening.{Opens};
ghost use Rattle.list.specs.List.{list_rules};
ghost use Rattle.list.specs.Automaton.{accepted};
ghost use Rattle.list_flow.specs.inner.Ran.{Finishes};
ghost use Rattle.feed.specs.inner.Told.{TellsAll};

use feed::{Fed, Opened};
use sets::StateSet;

// Bytes in a flow record.
pub const FLOW_SIZE: usize = sets::BYTES + 16;

// The places of the offset, the reserved bytes and the rows read in a record.
pub const OFFSET_AT: usize = sets::BYTES;

pub const RESERVED_AT: usize = sets::BYTES + 4;

pub const ROWS_AT: usize = sets::BYTES + 8;

// The most rows that a byte reads.
const MOST_ROWS: u64 = sets::STATES as u64;

// What the loop of a feed leaves: the refusal of the byte where it stops, the frontier, the bytes consumed, the words written and the rows read.
#[derive(Clone, Copy)]
pub struct Ran {
    pub refusal: u32,
    pub frontier: StateSet,
    pub bytes: usize,
    pub words: usize,
    pub rows: u64,
}

// What `number_at` reads, by the name of each field.

// The offset of a record.
pub fn offset_of(flow: &[u8]) -> u64
    ensures { result ≡ offset_of flow.now }
{
    numbers::number_at(flow, OFFSET_AT, 4)
}

// The reserved bytes of a record, as a number.
fn reserved_of(flow: &[u8]) -> u64
    ensures { result ≡ reserved_of flow.now }
{
    numbers::number_at(flow, RESERVED_AT, 4)
}

// The rows read of a record.
fn rows_of(flow: &[u8]) -> u64
    ensures { result ≡ rows_of flow.now }
{
    numbers::number_at(flow, ROWS_AT, 8)
}

// Says whether rule 4 refuses the record.
fn bad_flow(flow: &[u8]) -> bool
    ensures { result ≡ bad_flow flow.now }
{
    if flow.len() != FLOW_SIZE {
        return true;
    }
    (reserved_of(flow) != 0) | (MOST_ROWS * offset_of(flow) < rows_of(flow))
}

// The flow check: the number of the first of the rules 4 to 6 that refuses the piece, 0 where none does. `known` says whether every state of the
// frontier is one that is named.
pub fn flow_refusal(known: bool, flow: &[u8], start: u64, piece: &[u8]) -> u32
    ensures { result ≡ verdict (flow_rules known flow.now start piece.now) }
{
    if bad_flow(flow) | !known {
        return rules::FLOW_RECORD;
    }
    feed::piece_refusal(offset_of(flow), start, piece)
}

// The check of a feed over a list whose record has not the size of one: the number of the first of the rules 1 to 4 that refuses it.
fn sizeless_refusal(list: &[u8]) -> u32
    ensures { result ≡ verdict (list_rules list.now ++ ((4, true) ∷ [])) }
{
    let listed = list::check_list(list);
    if listed != rules::PASSED {
        return listed;
    }
    4
}

// The check of a feed over a list: the number of the first of the rules 1 to 6 that refuses it, 0 where none does.
pub fn feed_refusal(list: &[u8], flow: &[u8], start: u64, piece: &[u8]) -> u32
    ensures { result ≡ verdict (feed_rules list.now flow.now start piece.now) }
{
    if flow.len() != FLOW_SIZE {
        return sizeless_refusal(list);
    }
    let survey = list::survey_list(list, flow);
    if survey.refusal != rules::PASSED {
        return survey.refusal;
    }
    flow_refusal(survey.known, flow, start, piece)
}

// Writes a record in place; what has not the size of one stays as it is.
pub fn save(flow: &mut [u8], f: StateSet, offset: u64, rows: u64)
    ensures { flow.new ≡ cond (eqb (length flow.old) flow_size) (flow_bytes (set_of f) offset rows) flow.old }
{
    if flow.len() == FLOW_SIZE {
        f.store(flow, 0);
        numbers::put_number(flow, OFFSET_AT, 4, offset);
        numbers::put_number(flow, RESERVED_AT, 4, 0);
        numbers::put_number(flow, ROWS_AT, 8, rows);
    }
}

// Tells what a frontier accepts, behind the words that are written: all of it, and answers the word after; or nothing, where it does not fit.
pub fn tell_accepted(
    list: &[u8],
    f: StateSet,
    pairs: &mut [u32],
    words: usize,
    offset: u32,
) -> Option<usize>
    requires { words ≤ length pairs.old }
    ensures { TellsAll (accepted list.now (set_of f)) pairs.old words offset result pairs.new }
{
    feed::tell_all(pairs, words, list::accepted(list, f), offset)
}

// The end of a feed of a piece of `len` bytes: what its loop leaves is saved and answered.
pub fn finish(flow: &mut [u8], ran: Ran, len: usize) -> Fed
    requires { (offset_of flow.old + ran.bytes < 2 ^ 64) × (rows_of flow.old + ran.rows < 2 ^ 64) }
    ensures { Finishes ran len flow.old result flow.new }
{
    let offset = offset_of(flow) + ran.bytes as u64;
    let rows = rows_of(flow) + ran.rows;
    let frontier = ran.frontier;
    save(flow, frontier, offset, rows);
    feed::ended(ran.refusal, ran.bytes, ran.words, len)
}

// The check of opening before the room: the number of the first of the rules 1 to 4 that refuses it, 0 where none does.
fn open_refusal(list: &[u8], flow: &[u8]) -> u32
    ensures { result ≡ verdict (first_rules list.now flow.now) }
{
    let listed = list::check_list(list);
    if listed != rules::PASSED {
        return listed;
    }
    if flow.len() != FLOW_SIZE {
        return rules::FLOW_RECORD;
    }
    rules::PASSED
}

// Opens a flow: its record then has the start states, offset 0 and no rows read, and the pairs of offset 0 are told. A refusal changes nothing.
pub fn open_flow(list: &[u8], flow: &mut [u8], pairs: &mut [u32]) -> Opened
    ensures { Opens (open_flow list.now flow.old pairs.old) result pairs.new flow.new }
{
    let refusal = open_refusal(list, flow);
    if refusal != rules::PASSED {
        return Opened {
            refusal: refusal,
            pairs: 0,
        };
    }
    let first = list::start_set(list);
    let Some(words) = tell_accepted(list, first, pairs, 0, 0) else {
        return Opened {
            refusal: rules::NO_ROOM,
            pairs: 0,
        };
    };
    save(flow, first, 0, 0);
    Opened {
        refusal: rules::PASSED,
        pairs: words / 2,
    }
}
