// The calls that the programs `list_replay` and `segment_replay` replay: each function makes one call of the matcher, with the buffers in use and what its command says, and
// writes the line of its answer. Here it is shown alone that the calls are safe and end, so that the programs above need to know nothing of what the matcher
// promises.
#![tactic(auto)]

use feed::Fed;
use replay_tape::Table;
use segment_feed::Heard;

// By what a flow is fed: the list alone, a table at a bound, the matrix, or an index from the split that a hint names.
#[derive(Clone, Copy)]
pub enum Engine<'a> {
    List {
        list: &'a [u8],
    },
    Table {
        list: &'a [u8],
        bound: u64,
        table: Table<'a>,
    },
    Matrix {
        list: &'a [u8],
        matrix: &'a [u8],
    },
    Index {
        splits: &'a [u8],
        index: &'a [u8],
        hint: usize,
    },
}

// By what a segment is fed: the list alone, a table at a bound, an automaton with bits and counters, or an index from the split that a hint names.
#[derive(Clone, Copy)]
pub enum Hearer<'a> {
    List {
        list: &'a [u8],
    },
    Table {
        list: &'a [u8],
        bound: u64,
        table: Table<'a>,
    },
    Machine {
        moves: &'a [u8],
        programs: &'a [u8],
    },
    Index {
        splits: &'a [u8],
        index: &'a [u8],
        hint: usize,
    },
}

// A segment: the number of its first byte, and its bytes.
#[derive(Clone, Copy)]
pub struct Segment<'a> {
    pub start: u32,
    pub bytes: &'a [u8],
}

// The number of a flow's first byte, and the held place.
#[derive(Clone, Copy)]
pub struct Place {
    pub first: u32,
    pub start: u32,
    pub length: u32,
}

// Replays a check of the list.
pub fn check_list(list: &[u8]) {
    replay_tape::put_check(b'c', list::check_list(list));
}

// Replays a check of the table.
pub fn check_table(list: &[u8], bound: u64, table: Table<'_>) {
    let Table {
        classes,
        parts,
        rows,
        splits,
    } = table;
    let refusal = table::check_table(list, bound, classes, parts, rows, splits);
    replay_tape::put_check(b'k', refusal);
}

// Replays a filling of the matrix.
pub fn fill_matrix(list: &[u8], matrix: &mut [u8]) {
    let refusal = matrix::fill(list, matrix);
    replay_tape::put_filling(b'm', refusal, matrix);
}

// Replays a filling of the index.
pub fn fill_index(list: &[u8], bound: u64, table: Table<'_>, index: &mut [u8]) {
    let Table {
        classes,
        parts,
        rows,
        splits,
    } = table;
    let refusal = index_fill::fill(list, bound, classes, parts, rows, splits, index);
    replay_tape::put_filling(b'i', refusal, index);
}

// Replays an opening.
pub fn open(list: &[u8], record: &mut [u8], words: &mut [u32]) {
    replay_tape::fill_words(words);
    let opened = list_flow::open_flow(list, record, words);
    replay_tape::put_opening(opened, words, record);
}

// Replays an opening of which the words are not told.
pub fn open_silent(list: &[u8], record: &mut [u8], words: &mut [u32]) {
    let opened = list_flow::open_flow(list, record, words);
    replay_tape::begin(b'o');
    replay_tape::put(&replay_tape::opening(opened));
    replay_tape::put(&[replay_tape::digest(record)]);
    replay_tape::end();
}

// Feeds a piece; answers the split as well where it goes by an index.
fn feed_by(
    engine: Engine<'_>,
    record: &mut [u8],
    start: u64,
    piece: &[u8],
    words: &mut [u32],
) -> (Fed, Option<usize>) {
    match engine {
        Engine::List { list } => (list_feed::feed(list, record, start, piece, words), None),
        Engine::Table { list, bound, table } => {
            let Table {
                classes,
                parts,
                rows,
                splits,
            } = table;
            let fed = table_feed::feed(
                list, bound, classes, parts, rows, splits, record, start, piece, words,
            );
            (fed, None)
        }
        Engine::Matrix { list, matrix } => {
            let fed = matrix::feed(list, matrix, record, start, piece, words);
            (fed, None)
        }
        Engine::Index {
            splits,
            index,
            hint,
        } => {
            let stood = index_feed::feed(splits, index, hint, record, start, piece, words);
            (stood.fed, Some(stood.split))
        }
    }
}

// Replays a feed; its line begins with a letter.
pub fn feed(
    letter: u8,
    engine: Engine<'_>,
    record: &mut [u8],
    start: u64,
    piece: &[u8],
    words: &mut [u32],
) {
    replay_tape::fill_words(words);
    let (fed, split) = feed_by(engine, record, start, piece, words);
    replay_tape::put_feed(letter, fed, split, words, record);
}

// Writes the part that is due and the digest of its bytes, and ends the line.
fn put_due(next: u32, held: &[u8], held_start: u32, held_length: u32, segment: Segment<'_>) {
    let Segment { start, bytes } = segment;
    let part = segment::part_due(
        next,
        held.len(),
        held_start,
        held_length,
        start,
        bytes.len(),
    );
    let (source, at, length) = match part {
        None => (0, 0, 0),
        Some(part) => (segment::source_number(part.source), part.at, part.length),
    };
    let due = segment::due(next, held, held_start, held_length, start, bytes);
    replay_tape::put(&[
        source as u64,
        at as u64,
        length as u64,
        replay_tape::digest(due),
    ]);
    replay_tape::end();
}

// Replays what is due: the input has the next number, the held place and the segment's start.
pub fn due(held: &[u8], bytes: &[u8]) {
    let next = replay_tape::read_u32();
    let held_start = replay_tape::read_u32();
    let held_length = replay_tape::read_u32();
    let start = replay_tape::read_u32();
    replay_tape::begin(b'd');
    put_due(
        next,
        held,
        held_start,
        held_length,
        Segment { start, bytes },
    );
}

// Replays what is due after the segment is taken: the input has the same. The line begins with a letter.
pub fn take(letter: u8, held: &mut [u8], bytes: &[u8]) {
    let next = replay_tape::read_u32();
    let held_start = replay_tape::read_u32();
    let held_length = replay_tape::read_u32();
    let start = replay_tape::read_u32();
    let taken = segment::take(next, held, held_start, held_length, start, bytes);
    replay_tape::begin(letter);
    replay_tape::put(&[
        u64::from(taken.refusal),
        u64::from(taken.start),
        u64::from(taken.length),
        replay_tape::digest(held),
    ]);
    put_due(
        next,
        held,
        taken.start,
        taken.length,
        Segment { start, bytes },
    );
}

// Feeds a segment through a table.
fn split_heard(
    list: &[u8],
    bound: u64,
    table: Table<'_>,
    flow: &mut [u8],
    place: Place,
    held: &mut [u8],
    segment: Segment<'_>,
    words: &mut [u32],
) -> Heard {
    segment_feed::split_feed_segment(
        list,
        bound,
        table.classes,
        table.parts,
        table.rows,
        table.splits,
        flow,
        place.first,
        held,
        place.start,
        place.length,
        segment.start,
        segment.bytes,
        words,
    )
}

// Feeds a segment; answers the split as well where it goes by an index.
fn hear_by(
    hearer: Hearer<'_>,
    flow: &mut [u8],
    place: Place,
    held: &mut [u8],
    segment: Segment<'_>,
    words: &mut [u32],
) -> (Heard, Option<usize>) {
    let Place {
        first,
        start: held_start,
        length: held_length,
    } = place;
    let Segment { start, bytes } = segment;
    match hearer {
        Hearer::List { list } => {
            let heard = segment_feed::feed_segment(
                list,
                flow,
                first,
                held,
                held_start,
                held_length,
                start,
                bytes,
                words,
            );
            (heard, None)
        }
        Hearer::Table { list, bound, table } => {
            let heard = split_heard(list, bound, table, flow, place, held, segment, words);
            (heard, None)
        }
        Hearer::Machine { moves, programs } => {
            let heard = segment_machine::feed_segment(
                moves,
                programs,
                flow,
                first,
                held,
                held_start,
                held_length,
                start,
                bytes,
                words,
            );
            (heard, None)
        }
        Hearer::Index {
            splits,
            index,
            hint,
        } => {
            let stood = segment_index::feed_segment(
                splits,
                index,
                hint,
                flow,
                first,
                held,
                held_start,
                held_length,
                start,
                bytes,
                words,
            );
            (stood.heard, Some(stood.split))
        }
    }
}

// Writes the line of a segment that was fed: what it answered and left, and the split where one is answered as well.
fn put_heard(
    letter: u8,
    heard: Heard,
    split: Option<usize>,
    words: &[u32],
    flow: &[u8],
    held: &[u8],
) {
    replay_tape::begin(letter);
    replay_tape::put(&[
        u64::from(heard.refusal),
        heard.bytes as u64,
        heard.pairs as u64,
        u64::from(heard.all),
        u64::from(heard.start),
        u64::from(heard.length),
        replay_tape::digest_words(words),
        replay_tape::digest(flow),
        replay_tape::digest(held),
    ]);
    if let Some(split) = split {
        replay_tape::put(&[split as u64]);
    }
    replay_tape::end();
}

// Replays feeding a segment, whose line begins with a letter; answers the place that it leaves.
pub fn hear(
    letter: u8,
    hearer: Hearer<'_>,
    flow: &mut [u8],
    place: Place,
    held: &mut [u8],
    segment: Segment<'_>,
    words: &mut [u32],
) -> Place {
    let (heard, split) = hear_by(hearer, flow, place, held, segment, words);
    put_heard(letter, heard, split, words, flow, held);
    Place {
        first: place.first,
        start: heard.start,
        length: heard.length,
    }
}

// The number of the byte at offset 0 of a renewed record, which was the one at an offset before.
fn moved(first: u32, offset: u64) -> u32 {
    first.wrapping_add((offset % 4294967296) as u32)
}

// Replays a renewal of the record; answers the number of the flow's first byte, moved on where it is not refused.
pub fn renew(first: u32, flow: &mut [u8]) -> u32 {
    let offset = list_renew::offset(flow);
    let refusal = list_renew::renew(flow);
    let left = if refusal == 0 {
        moved(first, offset)
    } else {
        first
    };
    let numbers = [
        u64::from(refusal),
        u64::from(left),
        replay_tape::digest(flow),
    ];
    replay_tape::put_line(b'n', &numbers);
    left
}

// Replays the question for a record's offset.
pub fn offset(flow: &[u8]) {
    replay_tape::put_line(b'z', &[list_renew::offset(flow)]);
}
