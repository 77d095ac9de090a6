// The program as a library: it reads rules.bin and standard input, feeds the flow, and writes a line for each pair.
// From the first write that is not whole on it writes nothing more, so that output without its last line has lost something.
// It has no heap: the list, a piece and a text stand in arrays.
// Each text is made and promised before it is handed over. `read_piece` and `hand` alone reach out, to standard input and output or to arrays in their place,
// and of a run on arrays `watch` promises what is handed over, for every list, every input and all answers of the writes.
// A piece and a text are lent as slices, and `begin` and `read_piece` ask for their lengths.
#![tactic(auto)]

ghost use Rattle.std.specs.Prelude.{◌≡◌, suc, ◌%◌, ◌≤◌, ◌<◌, min, length, take, drop};
ghost use Rattle.program_text.specs.Hand.{handed, Logs, OnArrays};
ghost use Rattle.program.specs.App.{text_size, piece_size, open_turn, turn_of, texts_from, texts, Says, Held};

use program_text::{Ends, STANDARD};

// Words of the pairs buffer: room for 1,024 pairs, four times what one byte can tell.
const PAIR_WORDS: usize = 2048;

// Bytes of a piece of the input.
const PIECE: usize = 4096;

// What a turn says, as `Turn` (program/App) has it: the bytes consumed, none where its text is the last, and the length of the text.
#[derive(Clone, Copy)]
pub struct Said {
    pub next: Option<usize>,
    pub length: usize,
}

// Opens the flow, and puts the lines of the pairs of offset 0; where it is refused, the last line.
pub fn begin(list: &[u8], flow: &mut [u8], text: &mut [u8]) -> Said
    requires { text_size ≤ length text.old }
    ensures { Says (open_turn list.now flow.old) result text.new flow.new }
{
    let mut out = [0u32; PAIR_WORDS];
    let opened = list_flow::open_flow(list, flow, &mut out);
    if opened.refusal != rules::PASSED {
        return Said {
            next: None,
            length: program_text::put_last(text, opened.refusal, 0),
        };
    }
    Said {
        next: Some(0),
        length: program_text::put_pairs(text, &out, opened.pairs),
    }
}

// Feeds what is left of a piece once, and puts the lines of its pairs; where nothing is left, or the feed is refused, it puts the last line.
fn turn(list: &[u8], flow: &mut [u8], offset: u64, rest: &[u8], text: &mut [u8]) -> Said
    requires { text_size ≤ length text.old }
    ensures { Says (turn_of list.now flow.old offset rest.now) result text.new flow.new }
{
    if rest.len() == 0 {
        return Said {
            next: None,
            length: program_text::put_last(text, rules::PASSED, offset),
        };
    }
    let mut out = [0u32; PAIR_WORDS];
    let fed = list_feed::feed(list, flow, offset, rest, &mut out);
    if fed.refusal != rules::PASSED {
        return Said {
            next: None,
            length: program_text::put_last(text, fed.refusal, offset),
        };
    }
    Said {
        next: Some(fed.bytes),
        length: program_text::put_pairs(text, &out, fed.pairs),
    }
}

// Reads a piece of the input at an offset into the piece's buffer; answers how many bytes came.
fn read_array(input: &[u8], offset: usize, piece: &mut [u8]) -> usize
    requires { length piece.old ≡ piece_size }
    ensures { (result ≤ piece_size) × (take result piece.new ≡ take piece_size (drop offset input.now)) }
{
    let Some(left) = input.get(offset..) else {
        return 0;
    };
    let n = left.len().min(PIECE);
    program_text::put_bytes(piece, 0, &left[..n])
}

// Where the offset is at a piece's start, reads the piece: it is filled unless the input ends. Answers how many bytes the piece has.
pub fn read_piece(ends: Ends<'_>, offset: u64, piece: &mut [u8], n: usize) -> usize
    requires { (length piece.old ≡ piece_size) × (n ≤ piece_size) × (offset % piece_size ≤ n) }
    ensures upper_bound { (result ≤ piece_size) × (offset % piece_size ≤ result) }
    ensures held { OnArrays ends.entry (λ input answers. (0 < offset % piece_size → Held input offset piece.old n)
        → Held input offset piece.new result) }
{
    if offset % PIECE as u64 != 0 {
        return n;
    }
    match ends {
        Ends::Descriptors { input, .. } => io::read_full(input, piece),
        Ends::Arrays { input, .. } => read_array(input, offset as usize, piece),
    }
}

// Runs from an opened flow on, whose text was the first: each turn's text is handed over, up to the last one or the first that is cut. Answers where the log ends.
fn run(
    ends: Ends<'_>,
    list: &[u8],
    flow: &mut [u8],
    piece: &mut [u8],
    text: &mut [u8],
    log: &mut [u8],
    begun: usize,
) -> usize
    requires { (length piece.old ≡ piece_size) × (text_size ≤ length text.old) × (begun ≤ length log.old) }
    ensures { OnArrays ends.entry (λ input answers.
        Logs begun (handed (texts_from (suc (length input)) list.now input flow.old 0) (drop 1 answers)) log.old result log.new) }
{
    let mut offset: u64 = 0;
    let mut n: usize = 0;
    let mut i: usize = 1;
    let mut end = begun;
    // A loop, since how many turns there are is not known before.
    loop {
        n = read_piece(ends, offset, piece, n);
        let from = (offset % PIECE as u64) as usize;
        let said = turn(list, flow, offset, &piece[from..n], text);
        let taken = program_text::hand(ends, &text[..said.length], i, log, end);
        end = taken.end;
        let Some(bytes) = said.next else {
            return end;
        };
        if taken.cut {
            return end;
        }
        offset += bytes as u64;
        i += 1;
    }
}

// Watches the input by a list, which is refused before any input is read. Answers where the log ends.
fn watch(ends: Ends<'_>, list: &[u8], log: &mut [u8]) -> usize
    ensures { OnArrays ends.entry (λ input answers. Logs 0 (handed (texts list.now input) answers) log.old result log.new) }
{
    let mut flow = [0u8; list_flow::FLOW_SIZE];
    let mut piece = io::buffer();
    let mut text = io::large_buffer();
    let said = begin(list, &mut flow, &mut text);
    let taken = program_text::hand(ends, &text[..said.length], 0, log, 0);
    let end = taken.end;
    let Some(_) = said.next else {
        return end;
    };
    if taken.cut {
        return end;
    }
    run(ends, list, &mut flow, &mut piece, &mut text, log, end)
}

// The program.
pub fn start(rt: &HostRuntime) {
    let mut list = program_text::list_buffer();
    let n = program_text::read_rules(rt, b"rules.bin", &mut list);
    let mut log = [0u8; 1];
    watch(STANDARD, &list[..n], &mut log);
}
