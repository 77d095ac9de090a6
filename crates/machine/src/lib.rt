// The automaton with bits and counters: its check, opening a flow, and the feed that runs it over a piece, byte by byte.
// Moves and programs are lent one by one, as C lends them.
#![tactic(auto)]

ghost use Rattle.std.specs.Prelude.{◌≡◌, true, false, ◌+◌, ◌*◌, ◌/◌, ◌≤◌, ◌<◌, length, drop};
ghost use Rattle.numbers.specs.Number.{placed};
ghost use Rattle.sets.specs.Set.{sig_words, sigs_of};
ghost use Rattle.rules.specs.Scan.{every};
ghost use Rattle.rules.specs.Rules.{verdict};
ghost use Rattle.feed.specs.Engine.{most_offset, room, consumed};
ghost use Rattle.feed.specs.Fed.{Answers};
ghost use Rattle.feed.specs.Opening.{Opens};
ghost use Rattle.feed.specs.inner.Going.{Going};
ghost use Rattle.feed.specs.inner.Told.{TellsAll};
ghost use Rattle.machine.specs.Program.{counter_count, program_length, lower, bits_by, counters_by, alert_now, word};
ghost use Rattle.machine.specs.Machine.{most_states, byte_values, move_size, program_size, state_count, move, bad_lengths, good_target, good_instruction, good_record};
ghost use Rattle.machine.specs.Machine.{bad_machine, machine_refusal, idle, machine};
ghost use Rattle.machine.specs.Record.{flow_size, offset_of, fours, config_at, config_of, four_bytes, flow_bytes, good_counters, bad_flow, flow_rules};
ghost use Rattle.machine.specs.Extended.{first_rules, extended_open, feed_rules, extended_feed};
ghost use Rattle.machine.specs.inner.Ran.{Runs, Programs};

use feed::{Fed, Opened};
use sets::SigSet;

// The most states of a machine.
pub const X_STATES: usize = 1024;

// Bytes of a state's targets: two for each byte that may come.
pub const X_MOVES_SIZE: usize = 512;

// Records in a program, bytes in a record, and bytes in a program.
const X_PROGRAM_LENGTH: usize = 8;

const X_RECORD_SIZE: usize = 4;

pub const X_PROGRAM_SIZE: usize = 32;

// Bits and counters of a configuration.
pub const X_BITS: usize = 64;

pub const X_COUNTERS: usize = 16;

// A counter that is off: a number, as the record has it.
pub const X_OFF: u32 = 65536;

// Bytes in a flow record, and the places of its reserved bytes, offset, bits and counters. The state stands first.
pub const X_FLOW_SIZE: usize = 80;

const X_RESERVED_AT: usize = 2;

const X_OFFSET_AT: usize = 4;

const X_BITS_AT: usize = 8;

const X_COUNTERS_AT: usize = 16;

// The kinds of instructions: nothing, set and clear a bit, set, turn off and lower a counter, alert, and alert by a bit or a counter.
const KINDS: usize = 9;

const SET_BIT: u8 = 1;

const CLEAR_BIT: u8 = 2;

const SET_COUNTER: u8 = 3;

const TURN_OFF: u8 = 4;

const LOWER: u8 = 5;

const ALERT: u8 = 6;

const ALERT_BIT: u8 = 7;

const ALERT_COUNTER: u8 = 8;

// By kind: what the bit or counter of a record is below, and what its number or signature is below.
const WHICH_LIMITS: [u8; KINDS] = [1, 64, 64, 16, 16, 16, 1, 64, 16];

const NUMBER_LIMITS: [u32; KINDS] = [1, 1, 1, 65536, 1, 1, 256, 256, 256];

// A configuration: one state, the set of the bits that are set, and the counters.
#[derive(Clone, Copy)]
pub struct Config {
    pub state: usize,
    pub bits: u64,
    pub counters: [u32; X_COUNTERS],
}

// What a program leaves: the configuration, and the signatures that it alerts.
#[derive(Clone, Copy)]
pub struct Step {
    pub config: Config,
    pub alerts: SigSet,
}

// What the loop of a feed leaves: the configuration, the bytes consumed and the words written.
#[derive(Clone, Copy)]
struct Ran {
    config: Config,
    bytes: usize,
    words: usize,
}

// The number that two bytes at a place write, low byte first, where they are there.
fn two_bytes(b: &[u8], at: usize) -> u16
    requires { at + 2 ≤ length b.now }
    ensures { result ≡ word b.now at }
{
    u16::from_le_bytes([b[at], b[at + 1]])
}

// Says whether the lengths of the two lists are wrong.
fn bad_lengths(moves: &[u8], programs: &[u8]) -> bool
    ensures { result ≡ bad_lengths moves.now programs.now }
{
    if (moves.len() == 0)
        | (X_MOVES_SIZE * X_STATES < moves.len())
        | (moves.len() % X_MOVES_SIZE != 0)
    {
        return true;
    }
    programs.len() != X_PROGRAM_SIZE * (moves.len() / X_MOVES_SIZE)
}

// Says whether every target is a state. It goes on behind one that is not, so that the compiler tests several at once.
fn good_targets(moves: &[u8]) -> bool
    requires { length moves.now ≤ move_size * most_states }
    ensures { result ≡ every (byte_values * state_count moves.now) (good_target moves.now) }
{
    let states = moves.len() / X_MOVES_SIZE;
    let n = states as u16;
    let mut all = true;
    for i in 0..256 * states {
        all &= two_bytes(moves, 2 * i) < n;
    }
    all
}

// Says whether an instruction is good.
fn good_instruction(k: u8, w: u8, n: u16) -> bool
    ensures { result ≡ good_instruction k w n }
{
    let kind = k as usize;
    if kind < KINDS {
        return (w < WHICH_LIMITS[kind]) & ((n as u32) < NUMBER_LIMITS[kind]);
    }
    false
}

// Says whether record i of the programs is good.
fn good_record(programs: &[u8], i: usize) -> bool
    requires { 4 * i + 4 ≤ length programs.now }
    ensures { result ≡ good_record programs.now i }
{
    good_instruction(
        programs[X_RECORD_SIZE * i],
        programs[X_RECORD_SIZE * i + 1],
        two_bytes(programs, X_RECORD_SIZE * i + 2),
    )
}

// Says whether every record of the programs is good.
fn good_programs(programs: &[u8]) -> bool
    ensures { result ≡ every (length programs.now / 4) (good_record programs.now) }
{
    for i in 0..programs.len() / X_RECORD_SIZE {
        if !good_record(programs, i) {
            return false;
        }
    }
    true
}

// Says whether rule 24 refuses the machine.
pub fn bad_machine(moves: &[u8], programs: &[u8]) -> bool
    ensures { result ≡ bad_machine moves.now programs.now }
{
    if bad_lengths(moves, programs) {
        return true;
    }
    if !good_targets(moves) {
        return true;
    }
    !good_programs(programs)
}

// The check of a machine: 24 where it is refused, 0 where it is not.
pub fn check(moves: &[u8], programs: &[u8]) -> u32
    ensures { result ≡ machine_refusal moves.now programs.now }
{
    if bad_machine(moves, programs) {
        return rules::MACHINE;
    }
    rules::PASSED
}

// Says whether the program of state q does nothing.
fn idle(programs: &[u8], q: usize) -> bool
    requires { program_size * q + program_size ≤ length programs.now }
    ensures { result ≡ idle programs.now q }
{
    let mut all = 0u64;
    for k in 0..4usize {
        all |= numbers::whole_number(programs, X_PROGRAM_SIZE * q + 8 * k, 8);
    }
    all == 0
}

// The state that byte c leads to from state q.
pub fn target(moves: &[u8], q: usize, c: u8) -> usize
    requires { q < state_count moves.now }
    ensures { result ≡ move moves.now q c }
{
    two_bytes(moves, 2 * (256 * q + c as usize)) as usize
}

// A counter lowered by one.
fn lowered(n: u32) -> u32
    ensures { result ≡ lower n }
{
    match n {
        0 | X_OFF => X_OFF,
        _ => n - 1,
    }
}

// The bits after an instruction.
fn bits_by(k: u8, w: usize, n: u16, bits: u64) -> u64
    requires { good_instruction k w n ≡ true }
    ensures { result ≡ bits_by k w bits }
{
    match k {
        SET_BIT => bits | (1u64 << w),
        CLEAR_BIT => {
            let one = 1u64 << w;
            (bits | one) ^ one
        }
        _ => bits,
    }
}

// The counters after an instruction.
fn counters_by(k: u8, w: usize, n: u16, counters: &mut [u32])
    requires { (good_instruction k w n ≡ true) × (length counters.old ≡ counter_count) }
    ensures { counters.new ≡ counters_by k w n counters.old }
{
    match k {
        SET_COUNTER => counters[w] = u32::from(n),
        TURN_OFF => counters[w] = X_OFF,
        LOWER => counters[w] = lowered(counters[w]),
        _ => {}
    }
}

// Says whether an instruction alerts.
fn alert_now(k: u8, w: usize, n: u16, bits: u64, counters: &[u32]) -> bool
    requires { (good_instruction k w n ≡ true) × (length counters.now ≡ counter_count) }
    ensures { result ≡ alert_now k w bits counters.now }
{
    match k {
        ALERT => true,
        ALERT_BIT => (bits >> w) % 2 == 1,
        ALERT_COUNTER => counters[w] == 0,
        _ => false,
    }
}

// Runs record i of the programs on the counters and the words of the alerts; answers the bits after it.
fn run_record(programs: &[u8], i: usize, bits: u64, counters: &mut [u32], alerts: &mut [u64]) -> u64
    requires { (4 * i + 4 ≤ length programs.now) × (good_record programs.now i ≡ true) × (length counters.old ≡ counter_count) × (length alerts.old ≡ sig_words) }
    ensures { Runs programs.now i bits counters.old alerts.old result counters.new alerts.new }
{
    let k = programs[X_RECORD_SIZE * i];
    let w = programs[X_RECORD_SIZE * i + 1] as usize;
    let n = two_bytes(programs, X_RECORD_SIZE * i + 2);
    if k < SET_COUNTER {
        return bits_by(k, w, n, bits);
    }
    if k < ALERT {
        counters_by(k, w, n, counters);
        return bits;
    }
    if alert_now(k, w, n, bits, counters) {
        sets::put_bit(alerts, n as usize);
    }
    bits
}

// Runs the program of state q on a configuration that is moved there.
pub fn run_program(programs: &[u8], q: usize, x: Config) -> Step
    requires { (program_size * q + program_size ≤ length programs.now) × (every (program_length * q + program_length) (good_record programs.now) ≡ true) }
    ensures { Programs programs.now q x result }
{
    let mut bits = x.bits;
    let mut counters = x.counters;
    let mut alerts = [0u64; sets::SIG_WORDS];
    for j in 0..X_PROGRAM_LENGTH {
        bits = run_record(
            programs,
            X_PROGRAM_LENGTH * q + j,
            bits,
            &mut counters,
            &mut alerts,
        );
    }
    Step {
        config: Config {
            state: q,
            bits,
            counters,
        },
        alerts: SigSet::of_words(alerts),
    }
}

// Tells a set of signatures behind the words that are written: all of it, or nothing where it does not fit. One without any costs little.
fn tell_alerts(pairs: &mut [u32], words: usize, g: SigSet, offset: u32) -> Option<usize>
    requires { words ≤ length pairs.old }
    ensures { TellsAll (sigs_of g) pairs.old words offset result pairs.new }
{
    if g.is_empty() {
        return Some(words);
    }
    feed::tell_all(pairs, words, g, offset)
}

// What `number_at` reads, by the name of the field: the record is another than a list's.

// The offset of a record.
pub fn offset_of(flow: &[u8]) -> u64
    ensures { result ≡ offset_of flow.now }
{
    numbers::number_at(flow, X_OFFSET_AT, 4)
}

// The counters that stand at a place of a list of bytes, where they are all there.
fn counters_at(b: &[u8], at: usize) -> [u32; X_COUNTERS]
    requires { at + 4 * counter_count ≤ length b.now }
    ensures { result ≡ fours counter_count (drop at b.now) }
{
    let mut c = [0u32; X_COUNTERS];
    for i in 0..X_COUNTERS {
        c[i] = numbers::whole_number(b, at + 4 * i, 4) as u32;
    }
    c
}

// Says whether no counter is over the number that says off.
pub fn good_counters(x: Config) -> bool
    ensures { result ≡ good_counters x.counters }
{
    x.counters.iter().all(|n| *n <= X_OFF)
}

// The configuration that stands at a place of a list of bytes, with its bits at a place behind that and the counters behind them, where all are there.
pub fn config_at(b: &[u8], at: usize, bits: usize) -> Config
    requires { (at + 2 ≤ length b.now) × (at + bits + 8 + 4 * counter_count ≤ length b.now) }
    ensures { result ≡ config_at bits (drop at b.now) }
{
    let counters = counters_at(b, at + bits + 8);
    Config {
        state: numbers::whole_number(b, at, 2) as usize,
        bits: numbers::whole_number(b, at + bits, 8),
        counters,
    }
}

// The configuration of a record.
fn load(flow: &[u8]) -> Config
    requires { length flow.now ≡ flow_size }
    ensures { result ≡ config_of flow.now }
{
    config_at(flow, 0, X_BITS_AT)
}

// Says whether rule 4 refuses the record under so many states.
fn bad_flow(states: usize, flow: &[u8]) -> bool
    ensures { result ≡ bad_flow states flow.now }
{
    if flow.len() != X_FLOW_SIZE {
        return true;
    }
    let x = load(flow);
    let reserved = numbers::whole_number(flow, X_RESERVED_AT, 2);
    !(x.state < states) | (reserved != 0) | !good_counters(x)
}

// The flow check: the number of the first of the rules 4 to 6 that refuses the piece under so many states, 0 where none does.
fn flow_refusal(states: usize, flow: &[u8], start: u64, piece: &[u8]) -> u32
    ensures { result ≡ verdict (flow_rules states flow.now start piece.now) }
{
    if bad_flow(states, flow) {
        return rules::FLOW_RECORD;
    }
    feed::piece_refusal(offset_of(flow), start, piece)
}

// The check of a feed: the number of the first of the rules 24 and 4 to 6 that refuses it, 0 where none does.
pub fn feed_refusal(moves: &[u8], programs: &[u8], flow: &[u8], start: u64, piece: &[u8]) -> u32
    ensures { result ≡ verdict (feed_rules moves.now programs.now flow.now start piece.now) }
{
    if bad_machine(moves, programs) {
        return rules::MACHINE;
    }
    flow_refusal(moves.len() / X_MOVES_SIZE, flow, start, piece)
}

// Writes the counters of a record.
fn put_counters(flow: &mut [u8], values: &[u32; X_COUNTERS])
    requires { length flow.old ≡ flow_size }
    ensures { flow.new ≡ placed flow.old 16 (four_bytes values.now) }
{
    for (i, n) in values.iter().enumerate() {
        numbers::put_number(flow, X_COUNTERS_AT + 4 * i, 4, u64::from(*n));
    }
}

// Writes a record in place.
fn save(flow: &mut [u8], x: Config, offset: u64)
    requires { length flow.old ≡ flow_size }
    ensures { flow.new ≡ flow_bytes x offset }
{
    numbers::put_number(flow, 0, 2, x.state as u64);
    numbers::put_number(flow, X_RESERVED_AT, 2, 0);
    numbers::put_number(flow, X_OFFSET_AT, 4, offset);
    numbers::put_number(flow, X_BITS_AT, 8, x.bits);
    put_counters(flow, &x.counters);
}

// The check of opening before the room: the number of the first of the rules 24 and 4 that refuses it, 0 where none does.
fn open_refusal(moves: &[u8], programs: &[u8], flow: &[u8]) -> u32
    ensures { result ≡ verdict (first_rules moves.now programs.now flow.now) }
{
    if bad_machine(moves, programs) {
        return rules::MACHINE;
    }
    if flow.len() != X_FLOW_SIZE {
        return rules::FLOW_RECORD;
    }
    rules::PASSED
}

// Opens a flow: the start state's program runs on clear bits and counters that are off, and its alerts are told at offset 0. A refusal changes nothing.
pub fn open_flow(moves: &[u8], programs: &[u8], flow: &mut [u8], pairs: &mut [u32]) -> Opened
    ensures { Opens (extended_open moves.now programs.now flow.old pairs.old) result pairs.new flow.new }
{
    let refusal = open_refusal(moves, programs, flow);
    if refusal != rules::PASSED {
        return Opened { refusal, pairs: 0 };
    }
    let first = run_program(
        programs,
        0,
        Config {
            state: 0,
            bits: 0,
            counters: [X_OFF; X_COUNTERS],
        },
    );
    let Some(words) = tell_alerts(pairs, 0, first.alerts, 0) else {
        return Opened {
            refusal: rules::NO_ROOM,
            pairs: 0,
        };
    };
    let config = first.config;
    save(flow, config, 0);
    Opened {
        refusal: rules::PASSED,
        pairs: words / 2,
    }
}

// Runs the automaton from a configuration at an offset over the bytes whose pairs all fit the words; it ends where the definition does.
fn feed_bytes(
    moves: &[u8],
    programs: &[u8],
    first: Config,
    offset: u64,
    piece: &[u8],
    pairs: &mut [u32],
) -> Ran
    requires { (bad_machine moves.now programs.now ≡ false) × (first.state < state_count moves.now) × (offset + length piece.now ≤ most_offset) }
    ensures { Going (machine moves.now programs.now) first offset piece.now pairs.old result.config pairs.new result.bytes result.words 0
        × (consumed (machine moves.now programs.now) first (room pairs.old) piece.now ≡ result.bytes) }
{
    let mut x = first;
    let mut words = 0usize;
    for i in 0..piece.len() {
        let q = target(moves, x.state, piece[i]);
        if idle(programs, q) {
            x.state = q;
            continue;
        }
        let step = run_program(programs, q, x);
        let Some(end) = tell_alerts(pairs, words, step.alerts, (offset + i as u64 + 1) as u32)
        else {
            return Ran {
                config: x,
                bytes: i,
                words,
            };
        };
        words = end;
        x = step.config;
    }
    Ran {
        config: x,
        bytes: piece.len(),
        words,
    }
}

// Feeds a piece to a flow. A refusal changes nothing.
pub fn feed(
    moves: &[u8],
    programs: &[u8],
    flow: &mut [u8],
    start: u64,
    piece: &[u8],
    pairs: &mut [u32],
) -> Fed
    ensures { Answers (extended_feed moves.now programs.now flow.old start piece.now pairs.old) result pairs.new flow.new }
{
    let refusal = feed_refusal(moves, programs, flow, start, piece);
    if refusal != rules::PASSED {
        return feed::refused(refusal);
    }
    let ran = feed_bytes(moves, programs, load(flow), start, piece, pairs);
    let config = ran.config;
    save(flow, config, start + ran.bytes as u64);
    feed::ended(rules::PASSED, ran.bytes, ran.words, piece.len())
}
