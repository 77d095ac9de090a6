// One turn of a live line or of a recorded one. What is known of a line is its state, bytes of one size: what list it goes by, the flow's record, the held
// place, and three counts of 64 bits: the bytes before the last renewal, the place in the line, and the lines' length.
// A turn feeds what one read gave, or one segment, and makes the text of its lines; where a state is kept the next turn's text is the state behind them.
// A state is lent as a slice, and `turn`, `begin` and `fresh_state` ask that it has its size: an array's type in its place would ask more of callers.
// Records, words and texts stand in arrays: so a turn can't run out of memory.
#![tactic(auto)]

ghost use Rattle.std.specs.Prelude.{◌≡◌, ◌==◌, ℕ, Bool, false, true, ◌+◌, ◌*◌, ◌%◌, ◌<◌, ◌≤◌, ◌++◌, length, take, drop, replicate, MatchOption};
ghost use Rattle.io.specs.Counts.{IsPrefixLen};
ghost use Rattle.numbers.specs.Number.{placed};
ghost use Rattle.list_flow.specs.Flow.{flow_size};
ghost use Rattle.segment.specs.Resend.{held_size};
ghost use Rattle.program_text.specs.Text.{line_size, Puts};
ghost use Rattle.program_turn.specs.State.{state_size, kind_at, word_at, kept_state, whole_numbers, sum_of, short_at, flow_offset, plus_number, numbered, renew_on, is_state_of, fresh_state};
ghost use Rattle.program_turn.specs.Turn.{number_of, most_pairs, most_unit, text_size, lines_from, again_of, sent_again, told_of, saves, comes, number_in, passed_of, over_of, is_end, plain_given, segment_given, given_of, last_turn, lines_turn, feed_turn, turn_of, open_turn, Gives, Says};

// The places of the state: length and checksum of the list, the kind of the line, the held place, the number of the flow's first byte, the three counts, the
// record, and the held buffer.
pub const STATE_SIZE: usize = 4304;

pub const LENGTH_AT: usize = 0;

pub const SUM_AT: usize = 8;

pub const KIND_AT: usize = 16;

pub const FIRST_AT: usize = 20;

pub const HELD_START_AT: usize = 24;

pub const HELD_LENGTH_AT: usize = 28;

pub const BEFORE_AT: usize = 32;

pub const PLACE_AT: usize = 40;

pub const LINES_AT: usize = 48;

pub const FLOW_AT: usize = 64;

pub const HELD_AT: usize = 208;

// The largest number of a kind.
const NUMBERED: u64 = 2;

// From an offset past this one on a record is renewed before it is fed: a segment and the held bytes would come to the largest.
const NEAR: u64 = 4294897664;

// As many numbers as there are.
pub const CIRCLE: u64 = 4294967296;

// The number that a checksum stays below, and the factor of its step.
const MODULUS: u64 = 4294967291;

const FACTOR: u64 = 257;

// Words of the pairs buffer: room for 1,024 pairs.
const PAIR_WORDS: usize = 2048;

// What is recorded before a segment's bytes: its number, 4 bytes, and its length, 2 bytes.
pub const HEAD: usize = 6;

// The kind of a line: bytes; segments, of which none came yet; segments, and the first came.
#[derive(Clone, Copy, PartialEq, Eq, Debug)]
pub enum Kind {
    Bytes,
    Segments,
    Numbered,
}

// What a turn does: it saves the state, or feeds a unit.
#[derive(Clone, Copy, PartialEq, Eq, Debug)]
pub enum Next {
    Save,
    Feed,
}

// What feeding a unit gave: a refusal's number or 0, the pairs told, the bytes that are done with, how far the place in the line moves, and the number of a segment
// that has to be sent again.
#[derive(Clone, Copy)]
struct Given {
    refusal: u32,
    pairs: usize,
    done: usize,
    moved: usize,
    again: Option<u32>,
}

// What a turn says: the length of its text, what the next turn does, none where the text is the last, the bytes that are done with, and the number of a segment that
// has to be sent again.
#[derive(Clone, Copy)]
pub struct Said {
    pub length: usize,
    pub next: Option<Next>,
    pub done: usize,
    pub again: Option<u32>,
}

// ---- the state

// The checksum of a list.
fn sum_of(list: &[u8]) -> u64
    ensures { result ≡ sum_of list.now }
{
    let mut sum = 0;
    for b in list {
        sum = next_sum(sum, *b);
    }
    sum
}

// A checksum with one byte more.
fn next_sum(sum: u64, b: u8) -> u64
    requires { sum < 4294967291 }
    ensures { result ≡ (sum * 257 + b) % 4294967291 }
{
    (sum * FACTOR + b as u64) % MODULUS
}

// Takes a part of the state, from a place on, as long as the array that it is put into.
pub fn take_part(state: &[u8], at: usize, part: &mut [u8])
    requires { at + length part.old ≤ length state.now }
    ensures { part.new ≡ take (length part.old) (drop at state.now) }
{
    let n = part.len();
    program_text::put_bytes(part, 0, &state[at..at + n]);
}

// Puts a part into the state, from a place on.
fn put_part(state: &mut [u8], at: usize, part: &[u8])
    requires { at + length part.now ≤ length state.old }
    ensures { state.new ≡ placed state.old at part.now }
{
    program_text::put_bytes(state, at, part);
}

// Adds to one of the counts.
fn plus_number(state: &mut [u8], at: usize, n: u64)
    requires { at + 8 ≤ length state.old }
    ensures { state.new ≡ plus_number state.old at n }
{
    let v = numbers::number_at(state, at, 8);
    numbers::put_number(state, at, 8, v.wrapping_add(n));
}

// A number of 4 bytes of the state.
pub fn short_number(state: &[u8], at: usize) -> u32
    ensures { result ≡ short_at state.now at }
{
    (numbers::number_at(state, at, 4) % CIRCLE) as u32
}

impl Kind {
    // Its number in a state.
    pub fn number(self) -> u64
        ensures { result ≡ number_of self }
    {
        match self {
            Kind::Bytes => 0,
            Kind::Segments => 1,
            Kind::Numbered => NUMBERED,
        }
    }

    // The kind of a number in a state; none where there is none of that number.
    pub fn of_number(number: u64) -> Option<Kind>
        ensures { MatchOption result (2 < number) (λ k. number_of k ≡ number) }
    {
        match number {
            0 => Some(Kind::Bytes),
            1 => Some(Kind::Segments),
            NUMBERED => Some(Kind::Numbered),
            _ => None,
        }
    }
}

// Whether a state is one of a line of that kind.
pub fn is_kind(state: &[u8], kind: Kind) -> bool
    ensures { result ≡ (word_at state.now kind_at == number_of kind) }
{
    numbers::number_at(state, KIND_AT, 4) == kind.number()
}

// The first segment's number is that of the flow's first byte.
fn number(state: &mut [u8], start: u32)
    requires { length state.old ≡ state_size }
    ensures { state.new ≡ numbered start state.old }
{
    if !is_kind(state, Kind::Segments) {
        return;
    }
    numbers::put_number(state, FIRST_AT, 4, start as u64);
    numbers::put_number(state, KIND_AT, 4, Kind::Numbered.number());
}

// Renews the record where its offset comes near the largest: the bytes since the last renewal are added to those before, and to the first number.
fn renew(state: &mut [u8])
    requires { length state.old ≡ state_size }
    ensures { state.new ≡ renew_on state.old }
{
    let mut flow = [0u8; list_flow::FLOW_SIZE];
    take_part(state, FLOW_AT, &mut flow);
    let offset = segment_feed::offset_of(&flow);
    if offset <= NEAR {
        return;
    }
    let refusal = list_renew::renew(&mut flow);
    if refusal != rules::PASSED {
        return;
    }
    let first = short_number(state, FIRST_AT).wrapping_add((offset % CIRCLE) as u32);
    put_part(state, FLOW_AT, &flow);
    plus_number(state, BEFORE_AT, offset);
    numbers::put_number(state, FIRST_AT, 4, first as u64);
}

// A state of a list that nothing is fed by yet; the array holds zeros.
pub fn fresh_state(list: &[u8], kind: u64, state: &mut [u8])
    requires { length state.old ≡ state_size }
    ensures { state.new ≡ fresh_state list.now kind state.old }
{
    numbers::put_number(state, LENGTH_AT, 8, list.len() as u64);
    numbers::put_number(state, SUM_AT, 8, sum_of(list));
    numbers::put_number(state, KIND_AT, 4, kind);
}

// Whether a state is one of a list.
pub fn is_state_of(list: &[u8], state: &[u8]) -> bool
    ensures { result ≡ is_state_of list.now state.now }
{
    if numbers::number_at(state, LENGTH_AT, 8) != list.len() as u64 {
        return false;
    }
    numbers::number_at(state, SUM_AT, 8) == sum_of(list)
}

// ---- texts

// An offset of the flow: the bytes before the last renewal and those since.
fn raised(before: u64, offset: u32) -> u64
    ensures { result ≡ (before + offset) % whole_numbers }
{
    before.wrapping_add(offset as u64)
}

// Puts the lines of the first n pairs of the words at the text's start, with the bytes before the last renewal added to each offset; answers where they end.
fn put_lines(text: &mut [u8], out: &[u32], n: usize, before: u64) -> usize
    requires { (2 * n ≤ length out.now) × (line_size * n ≤ length text.old) }
    ensures { Puts (line_size * n) (lines_from before out.now n) text.old 0 result text.new }
{
    let mut at: usize = 0;
    // By index: a pair is two words, and the promise counts pairs.
    for i in 0..n {
        let offset = raised(before, out[2 * i + 1]);
        at = program_text::put_line(text, at, out[2 * i], offset);
    }
    at
}

// Puts `again` and the number of a segment at a place, where one is told that has to be sent again; answers the place after it.
fn put_again(text: &mut [u8], at: usize, told: Option<u32>) -> usize
    requires { at + line_size ≤ length text.old }
    ensures { Puts line_size (again_of told) text.old at result text.new }
{
    let Some(start) = told else {
        return at;
    };
    let a = program_text::put_bytes(text, at, b"again ");
    let b = program_text::put_number(text, a, start as u64);
    program_text::put_byte(text, b, b'\n')
}

// Puts the text of a turn: the lines of its pairs, and `again` where that is told.
fn put_turn(text: &mut [u8], out: &[u32], n: usize, before: u64, told: Option<u32>) -> usize
    requires { (2 * n ≤ length out.now) × (n ≤ most_pairs) × (text_size ≤ length text.old) }
    ensures prefix_len { IsPrefixLen result text.new }
    ensures text_after { take result text.new ≡ lines_from before out.now n ++ again_of told }
{
    let a = put_lines(text, out, n, before);
    put_again(text, a, told)
}

// ---- a turn

// Feeds bytes to the state's flow.
fn give_plain(list: &[u8], state: &mut [u8], rest: &[u8], out: &mut [u32]) -> Given
    requires { length state.old ≡ state_size }
    ensures { (start : ℕ) → Gives (plain_given list.now state.old rest.now out.old) start result out.new state.new }
{
    let mut flow = [0u8; list_flow::FLOW_SIZE];
    take_part(state, FLOW_AT, &mut flow);
    let at = segment_feed::offset_of(&flow);
    let fed = list_feed::feed(list, &mut flow, at, rest, out);
    put_part(state, FLOW_AT, &flow);
    Given {
        refusal: fed.refusal,
        pairs: fed.pairs,
        done: fed.bytes,
        moved: fed.bytes,
        again: None,
    }
}

// Keeps a record, the held buffer and the held place.
fn keep(state: &mut [u8], flow: &[u8], held: &[u8], place: u32, count: u32)
    requires { (length state.old ≡ state_size) × (length flow.now ≡ flow_size) × (length held.now ≡ held_size) }
    ensures { state.new ≡ kept_state state.old flow.now held.now place count }
{
    put_part(state, FLOW_AT, flow);
    put_part(state, HELD_AT, held);
    numbers::put_number(state, HELD_START_AT, 4, place as u64);
    numbers::put_number(state, HELD_LENGTH_AT, 4, count as u64);
}

// The refusal of a flow, by that of a segment: one that has to be sent again is none.
fn passed(refusal: u32) -> u32
    ensures { result ≡ passed_of refusal }
{
    if refusal == segment::NOT_TAKEN {
        0
    } else {
        refusal
    }
}

// What is done with of some bytes: all of them where the segment is over, else none.
fn over(all: bool, refusal: u32, n: usize) -> usize
    ensures { result ≡ over_of all refusal n }
{
    if all || refusal == segment::NOT_TAKEN {
        n
    } else {
        0
    }
}

// The number of a segment that has to be sent again, by its refusal.
fn again(refusal: u32, start: u32) -> Option<u32>
    ensures { result ≡ sent_again (refusal == 18) start }
{
    if refusal == segment::NOT_TAKEN {
        Some(start)
    } else {
        None
    }
}

// Feeds a segment to the state's flow.
fn give_segment(list: &[u8], state: &mut [u8], start: u32, bytes: &[u8], out: &mut [u32]) -> Given
    requires { (length state.old ≡ state_size) × (length bytes.now ≤ most_unit) }
    ensures { Gives (segment_given list.now state.old start bytes.now out.old) start result out.new state.new }
{
    let mut flow = [0u8; list_flow::FLOW_SIZE];
    let mut held = io::buffer();
    take_part(state, FLOW_AT, &mut flow);
    take_part(state, HELD_AT, &mut held);
    let heard = segment_feed::feed_segment(
        list,
        &mut flow,
        short_number(state, FIRST_AT),
        &mut held,
        short_number(state, HELD_START_AT),
        short_number(state, HELD_LENGTH_AT),
        start,
        bytes,
        out,
    );
    keep(state, &flow, &held, heard.start, heard.length);
    Given {
        refusal: passed(heard.refusal),
        pairs: heard.pairs,
        done: over(heard.all, heard.refusal, bytes.len()),
        moved: over(heard.all, heard.refusal, bytes.len() + HEAD),
        again: again(heard.refusal, start),
    }
}

// Feeds a unit to the state's flow, by the kind of the line.
fn give(list: &[u8], state: &mut [u8], start: u32, rest: &[u8], out: &mut [u32]) -> Given
    requires { (length state.old ≡ state_size) × (length rest.now ≤ most_unit) }
    ensures { Gives (given_of list.now state.old start rest.now out.old) start result out.new state.new }
{
    if is_kind(state, Kind::Bytes) {
        give_plain(list, state, rest, out)
    } else {
        give_segment(list, state, start, rest, out)
    }
}

// Whether a unit that was read says that nothing more comes: of bytes, none came.
fn is_end(state: &[u8], rest: &[u8]) -> bool
    ensures { result ≡ is_end state.now true (length rest.now) }
{
    if !rest.is_empty() {
        return false;
    }
    is_kind(state, Kind::Bytes)
}

// What of `again` is told among the lines: all where no state is kept. Where one is, what is sent again depends on when the run was cut, and the lines shall not.
fn told(keeping: bool, again: Option<u32>) -> Option<u32>
    ensures { result ≡ told_of keeping again }
{
    if keeping { None } else { again }
}

// What comes behind lines: where a state is kept, that.
fn behind_lines(keeping: bool) -> Next
    ensures { saves result ≡ keeping }
{
    if keeping { Next::Save } else { Next::Feed }
}

// The offset of a state's flow.
fn offset_of(state: &[u8]) -> u64
    requires { length state.now ≡ state_size }
    ensures { result ≡ flow_offset state.now }
{
    let mut flow = [0u8; list_flow::FLOW_SIZE];
    take_part(state, FLOW_AT, &mut flow);
    let before = numbers::number_at(state, BEFORE_AT, 8);
    before.wrapping_add(segment_feed::offset_of(&flow))
}

// Says the last line: `end` and the offset, or `refused` and the number.
fn say_last(text: &mut [u8], state: &[u8], refusal: u32) -> Said
    requires { (length state.now ≡ state_size) × (text_size ≤ length text.old) }
    ensures { Says (last_turn refusal state.now) result text.new state.now }
{
    let offset = offset_of(state);
    Said {
        length: program_text::put_last(text, refusal, offset),
        next: None,
        done: 0,
        again: None,
    }
}

// Says the lines of the pairs that a unit gave, and counts them and the bytes.
fn say_lines(keeping: bool, text: &mut [u8], out: &[u32], state: &mut [u8], given: Given) -> Said
    requires { (length state.old ≡ state_size) × (text_size ≤ length text.old) × (2 * given.pairs ≤ length out.now) × (given.pairs ≤ most_pairs) }
    ensures { (again : Bool) (start : ℕ) → given.again ≡ sent_again again start
        → Says (lines_turn keeping given.pairs given.done given.moved again out.now state.old start) result text.new state.new }
{
    let before = numbers::number_at(state, BEFORE_AT, 8);
    let told = told(keeping, given.again);
    let length = put_turn(text, out, given.pairs, before, told);
    plus_number(state, PLACE_AT, given.moved as u64);
    plus_number(state, LINES_AT, length as u64);
    Said {
        length,
        next: Some(behind_lines(keeping)),
        done: given.done,
        again: given.again,
    }
}

// Feeds what is left of a unit, and says the lines of its pairs; where it is refused, the last line.
fn feed_turn(
    keeping: bool,
    list: &[u8],
    state: &mut [u8],
    start: u32,
    rest: &[u8],
    text: &mut [u8],
) -> Said
    requires { (length state.old ≡ state_size) × (length rest.now ≤ most_unit) × (text_size ≤ length text.old) }
    ensures { Says (feed_turn keeping list.now state.old start rest.now) result text.new state.new }
{
    number(state, start);
    renew(state);
    let mut out = [0u32; PAIR_WORDS];
    let given = give(list, state, start, rest, &mut out);
    if given.refusal != rules::PASSED {
        return say_last(text, state, given.refusal);
    }
    say_lines(keeping, text, &out, state, given)
}

// Makes the text of a turn: the state, where that comes next; the last line, where nothing more comes, as no unit was read; else a unit is fed, of which the first byte
// has a number.
pub fn turn(
    keeping: bool,
    next: Next,
    list: &[u8],
    state: &mut [u8],
    start: Option<u32>,
    rest: &[u8],
    text: &mut [u8],
) -> Said
    requires { (length state.old ≡ state_size) × (length rest.now ≤ most_unit) × (text_size ≤ length text.old) }
    ensures { Says (turn_of keeping (saves next) list.now state.old (comes start) (number_in start) rest.now) result text.new state.new }
{
    match next {
        Next::Save => Said {
            length: program_text::put_bytes(text, 0, state),
            next: Some(Next::Feed),
            done: 0,
            again: None,
        },
        Next::Feed => match start {
            Some(start) => next_turn(keeping, list, state, start, rest, text),
            None => say_last(text, state, rules::PASSED),
        },
    }
}

// Feeds a unit that was read, or says the last line where nothing more comes.
fn next_turn(
    keeping: bool,
    list: &[u8],
    state: &mut [u8],
    start: u32,
    rest: &[u8],
    text: &mut [u8],
) -> Said
    requires { (length state.old ≡ state_size) × (length rest.now ≤ most_unit) × (text_size ≤ length text.old) }
    ensures { Says (turn_of keeping false list.now state.old true start rest.now) result text.new state.new }
{
    if is_end(state, rest) {
        return say_last(text, state, rules::PASSED);
    }
    feed_turn(keeping, list, state, start, rest, text)
}

// Opens the flow of a fresh state, and says the lines of the pairs of offset 0; where it is refused, the last line.
pub fn begin(keeping: bool, list: &[u8], state: &mut [u8], text: &mut [u8]) -> Said
    requires { (length state.old ≡ state_size) × (text_size ≤ length text.old) }
    ensures { Says (open_turn keeping list.now state.old) result text.new state.new }
{
    let mut flow = [0u8; list_flow::FLOW_SIZE];
    let mut out = [0u32; PAIR_WORDS];
    let opened = list_flow::open_flow(list, &mut flow, &mut out);
    if opened.refusal != rules::PASSED {
        return say_last(text, state, opened.refusal);
    }
    put_part(state, FLOW_AT, &flow);
    let given = Given {
        refusal: rules::PASSED,
        pairs: opened.pairs,
        done: 0,
        moved: 0,
        again: None,
    };
    say_lines(keeping, text, &out, state, given)
}

// Zeros for a state.
pub fn state_buffer() -> [u8; STATE_SIZE]
    ensures { result ≡ replicate state_size 0 }
{
    [0; STATE_SIZE]
}
