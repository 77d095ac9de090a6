// `watch why`: why a pair is told, as the run of the automaton behind it. The flow is read in pieces of 4,096 bytes, and the record before each is kept. The
// question is asked of the piece in which the offset lies; why the run's first state is in the frontier there is asked of the piece before it, and so on back
// to the opening. Then each piece is asked again, from the first on, and its states are written. So no more room than for one piece is needed.
// Here it is shown that this is safe and ends; what a run is, `reasons` promises.
#![tactic(auto)]

ghost use Rattle.std.specs.Prelude.{◌≤◌, ◌<◌, ⊤, length, MatchOption};
ghost use Rattle.io.specs.Counts.{IsPrefixLen};

use list_flow::FLOW_SIZE;
use std::fs::File;
use std::os::unix::fs::FileExt;

// Bytes of a piece, and the most pieces.
const PIECE: usize = 4096;

const MOST_PIECES: usize = 4096;

// States of a run through a piece: before each byte and behind the last.
const RUN: usize = 4097;

// Bytes for the frontiers of a piece, before each byte and behind the last.
const WORK: usize = 524416;

// Words for the pairs of a feed.
const PAIR_WORDS: usize = 2048;

// A refusal, by its number: why nothing is told.
#[derive(Clone, Copy)]
struct Refused(u32);

// What is asked of a piece: why the pair of a signature is due at an offset, or why a state is in the frontier there.
#[derive(Clone, Copy)]
enum Asked {
    Pair { signature: u32, offset: u64 },
    State { state: u16, offset: u64 },
}

// What is kept of a piece: the record before it and the state at its end.
#[derive(Clone, Copy)]
struct Part {
    record: [u8; FLOW_SIZE],
    end: u16,
}

// What is kept: what there is of each piece, the run through the last one that was asked, and room to ask.
#[derive(Drop)]
struct Kept {
    pieces: [Part; MOST_PIECES],
    run: [u16; RUN],
    work: [u8; WORK],
}

// A pair that is asked about: its list, the file of its flow, its signature, its offset, and the piece in which that lies.
#[derive(Clone, Copy)]
struct Pair<'a> {
    rt: &'a HostRuntime,
    list: &'a [u8],
    file: &'a File,
    signature: u32,
    offset: u64,
    last: usize,
    ghost in_room: { last < 4096 },
}

// A check's answer, its refusal's number or 0, as a result.
fn passed(refusal: u32) -> Result<(), Refused> {
    if refusal == rules::PASSED {
        Ok(())
    } else {
        Err(Refused(refusal))
    }
}

// Where piece k begins.
// What goes by the place of a piece asks that there is room for one there.
fn start_of(k: usize) -> u64
    requires { k ≤ 4096 }
    ensures { result ≤ 16777216 }
{
    (PIECE * k) as u64
}

// The piece in which an offset lies; none where that is behind the last one.
fn piece_of(offset: u64) -> Option<usize>
    ensures { MatchOption result ⊤ (λ k. k < 4096) }
{
    let k = offset.saturating_sub(1) / PIECE as u64;
    if k < MOST_PIECES as u64 {
        Some(k as usize)
    } else {
        None
    }
}

// How many bytes of piece k stand before an offset.
fn bytes_before(k: usize, offset: u64) -> usize
    requires { k ≤ 4096 }
    ensures { result ≤ 4096 }
{
    offset.saturating_sub(start_of(k)).min(PIECE as u64) as usize
}

// Reads piece k of a file; answers how many bytes came, none where the read fails.
fn read_piece(file: &File, k: usize, piece: &mut [u8]) -> usize
    requires { k ≤ 4096 }
    ensures { IsPrefixLen result piece.new }
{
    file.read_at(piece, start_of(k)).unwrap_or(0)
}

// Feeds a piece that begins at an offset.
fn feed_piece(
    list: &[u8],
    flow: &mut [u8],
    start: u64,
    piece: &[u8],
    out: &mut [u32],
) -> Result<(), Refused> {
    let mut at = start;
    let mut rest = piece;
    // A step is as many bytes as one feed takes.
    while !rest.is_empty() {
        let fed = list_feed::feed(list, flow, at, rest, out);
        passed(fed.refusal)?;
        match rest.get(fed.bytes..) {
            Some(left) if fed.bytes > 0 => rest = left,
            _ => return Err(Refused(rules::TOO_LONG)),
        }
        at = at.wrapping_add(fed.bytes as u64);
    }
    Ok(())
}

impl Pair<'_> {
    // Keeps the record before each piece; a piece that cannot be fed is refused as too long.
    fn keep_records(&self, kept: &mut Kept) -> Result<(), Refused> {
        let mut flow = [0u8; FLOW_SIZE];
        let mut piece = io::buffer();
        let mut out = [0u32; PAIR_WORDS];
        let opened = list_flow::open_flow(self.list, &mut flow, &mut out);
        passed(opened.refusal)?;
        for k in 0..self.last + 1 {
            kept.pieces[k].record = flow;
            let n = read_piece(self.file, k, &mut piece);
            if feed_piece(self.list, &mut flow, start_of(k), &piece[..n], &mut out).is_err() {
                return Err(Refused(rules::TOO_LONG));
            }
        }
        Ok(())
    }

    // What is asked of piece k: the pair of the last piece, and of the others the state at the piece's end.
    fn asked_of(&self, k: usize, kept: &Kept) -> Asked
        requires { k < 4096 }
    {
        if k == self.last {
            Asked::Pair {
                signature: self.signature,
                offset: self.offset,
            }
        } else {
            Asked::State {
                state: kept.pieces[k].end,
                offset: start_of(k + 1),
            }
        }
    }

    // Asks of piece k, which is given, with the record before it: the run stands in what is kept.
    fn ask(&self, k: usize, piece: &[u8], kept: &mut Kept) -> Result<(), Refused>
        requires { k < 4096 }
    {
        let asked = self.asked_of(k, kept);
        let flow = &kept.pieces[k].record;
        let run = &mut kept.run;
        let work = &mut kept.work;
        let start = start_of(k);
        passed(match asked {
            Asked::Pair { signature, offset } => {
                list_why::why(self.list, flow, start, piece, signature, offset, run, work)
            }
            Asked::State { state, offset } => list_why::why_state(
                self.list,
                flow,
                start,
                piece,
                state as u32,
                offset,
                run,
                work,
            ),
        })
    }

    // Asks backwards from the last piece on: the run's first state is the one at the end of the piece before.
    fn ask_all(&self, kept: &mut Kept) -> Result<(), Refused> {
        for k in (0..self.last + 1).rev() {
            let mut piece = io::buffer();
            let n = read_piece(self.file, k, &mut piece);
            self.ask(k, &piece[..n], kept)?;
            if k > 0 {
                kept.pieces[k - 1].end = kept.run[0];
            }
        }
        Ok(())
    }

    // Writes the line of a state and of the record that led to it.
    fn say_state(&self, before: u16, byte: u8, state: u16) {
        let edge = list_why::find_edge(self.list, before as u32, byte as u32, state as u32);
        let place = edge.place;
        let _said = println!(self.rt; "{state} {place}").is_ok();
    }

    // Writes the states behind the first of a run through some bytes.
    fn say_states(&self, run: &[u16], bytes: &[u8])
        requires { 0 < length run.now }
    {
        for ((before, state), byte) in run.iter().zip(&run[1..]).zip(bytes) {
            self.say_state(*before, *byte, *state);
        }
    }

    // Asks of piece k again and writes its states; the first of a flow has no record that led to it.
    fn say_piece(&self, k: usize, kept: &mut Kept)
        requires { k < 4096 }
    {
        let mut piece = io::buffer();
        let n = read_piece(self.file, k, &mut piece);
        if self.ask(k, &piece[..n], kept).is_err() {
            return;
        }
        if k == 0 {
            let state = kept.run[0];
            let _said = println!(self.rt; "{state} -").is_ok();
        }
        let before = n.min(bytes_before(k, self.offset));
        self.say_states(&kept.run, &piece[..before]);
    }

    // Says why the pair is due.
    fn explain(&self) -> Result<(), Refused> {
        let none = Part {
            record: [0; FLOW_SIZE],
            end: 0,
        };
        let mut kept = Kept {
            pieces: [none; MOST_PIECES],
            run: [0; RUN],
            work: [0; WORK],
        };
        self.keep_records(&mut kept)?;
        self.ask_all(&mut kept)?;
        for k in 0..self.last + 1 {
            self.say_piece(k, &mut kept);
        }
        Ok(())
    }
}

// Says why a pair of a flow is due; the last line is `passed`, or `refused` and a number.
fn explain(rt: &HostRuntime, list: &[u8], file: &File, signature: u32, offset: u64) {
    let told = match piece_of(offset) {
        Some(last) => Pair {
            rt,
            list,
            file,
            signature,
            offset,
            last,
        }
        .explain(),
        None => {
            let _said = eprintln!(rt;
                "watch: the offset is behind the first 16,777,216 bytes"
            ).is_ok();
            Err(Refused(rules::PLACE))
        }
    };
    let _said = match told {
        Ok(()) => println!(rt; "passed"),
        Err(Refused(number)) => println!(rt; "refused {number}"),
    }
    .is_ok();
}

// The number that a word is, in decimal digits alone; none where it is none of 32 bits.
fn number(word: &str) -> Option<u32> {
    if word.bytes().all(|c| c.is_ascii_digit()) {
        word.parse::<u32>().ok()
    } else {
        None
    }
}

// The same of a word as bytes.
fn number_in(word: &[u8]) -> Option<u32> {
    number(str::from_utf8(word).ok()?)
}

// `watch why DIR FLOW SIGNATURE OFFSET`, of the list at a path: a line for each offset from 0 on, the state there and the record that led to it.
// Paths and words are bytes; a path that is no UTF-8 names no file.
pub fn why(rt: &HostRuntime, path: &[u8], flow: &[u8], signature: &[u8], offset: &[u8]) {
    let (Some(signature), Some(offset)) = (number_in(signature), number_in(offset)) else {
        let _said = eprintln!(rt;
            "watch: signature and offset are numbers up to 4294967295"
        ).is_ok();
        return;
    };
    let mut list = program_text::list_buffer();
    let n = program_text::read_rules(rt, path, &mut list);
    match program_system::open_read(rt, flow) {
        Ok(file) => explain(rt, &list[..n], &file, signature, offset as u64),
        Err(_) => {
            let _said = eprintln!(rt; "watch: the flow cannot be opened").is_ok();
        }
    }
}

// The same, by texts.
pub fn why_told(rt: &HostRuntime, path: &str, flow: &str, signature: &str, offset: &str) {
    why(
        rt,
        path.as_bytes(),
        flow.as_bytes(),
        signature.as_bytes(),
        offset.as_bytes(),
    );
}
