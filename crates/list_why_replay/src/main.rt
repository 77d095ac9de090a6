// The program of the vectors for why: it replays the commands of standard input through the library, and writes a line for each question.
#![tactic(auto)]

use replay_tape::{Buffer, PIECE_BYTES, Program};

// Room for a list: the most records, and 256 bytes more.
const ROOM_FOR_LIST: usize = 65792;

// Room for a flow record, and bytes more.
const RECORD_ROOM: usize = 400;

// The most states of a run, and the most bytes of the frontiers.
const MOST_STATES: usize = 512;

const MOST_WORK: usize = 65536;

// A command.
#[derive(Clone, Copy)]
enum Command {
    ReadList,
    ReadRecord,
    ReadPiece,
    Why,
    FindEdge,
}

// What is asked for: why a signature was told, or why a state was reached.
#[derive(Clone, Copy)]
enum Target {
    Signature(u32),
    State(u32),
}

// A question: the stated start, what is asked for, and the offset.
#[derive(Clone, Copy)]
struct Question {
    start: u64,
    target: Target,
    offset: u64,
}

// The list, the record and the piece that are asked about.
#[derive(Drop)]
struct Asked<'a> {
    list: Buffer<'a>,
    record: Buffer<'a>,
    piece: Buffer<'a>,
}

// Reads a question.
fn read_question() -> Question {
    let kind = replay_tape::read_byte();
    let start = replay_tape::read_u64();
    let number = replay_tape::read_u32();
    let offset = replay_tape::read_u64();
    let target = match kind {
        Some(b's') => Target::State(number),
        _ => Target::Signature(number),
    };
    Question {
        start,
        target,
        offset,
    }
}

// Writes the line of a question: the answer, the digest of the work place, and all states.
fn put_why(refusal: u32, run: &[u16], work: &[u8]) {
    replay_tape::begin(b'w');
    replay_tape::put(&[u64::from(refusal), replay_tape::digest(work)]);
    for state in run {
        replay_tape::put(&[u64::from(*state)]);
    }
    replay_tape::end();
}

impl<'a> Asked<'a> {
    // Asks a question.
    fn ask(&self, question: Question, run: &mut [u16], work: &mut [u8]) -> u32 {
        let list = self.list.bytes();
        let record = self.record.bytes();
        let piece = self.piece.bytes();
        let Question {
            start,
            target,
            offset,
        } = question;
        match target {
            Target::State(state) => {
                list_why::why_state(list, record, start, piece, state, offset, run, work)
            }
            Target::Signature(signature) => {
                list_why::why(list, record, start, piece, signature, offset, run, work)
            }
        }
    }

    // Replays a question: the input says what is asked, and how many states and bytes are lent.
    fn why(&self) {
        let question = read_question();
        let mut run = [0; MOST_STATES];
        let run = replay_tape::front(&mut run, replay_tape::read_size());
        let mut work = [0; MOST_WORK];
        let work = replay_tape::front(&mut work, replay_tape::read_size());
        replay_tape::fill_states(run);
        replay_tape::fill_bytes(work);
        let refusal = self.ask(question, run, work);
        put_why(refusal, run, work);
    }

    // Replays the question which edge is taken.
    fn find_edge(&self) {
        let from = replay_tape::read_u32();
        let byte = replay_tape::read_u32();
        let to = replay_tape::read_u32();
        let found = list_why::find_edge(self.list.bytes(), from, byte, to);
        replay_tape::put_line(b'e', &[u64::from(found.refusal), found.place as u64]);
    }
}

impl<'a> Program for Asked<'a> {
    type Command = Command;

    fn command(letter: u8) -> Option<Command> {
        match letter {
            b'L' => Some(Command::ReadList),
            b'R' => Some(Command::ReadRecord),
            b'P' => Some(Command::ReadPiece),
            b'w' => Some(Command::Why),
            b'e' => Some(Command::FindEdge),
            _ => None,
        }
    }

    fn replay(&mut self, command: Command) {
        match command {
            Command::ReadList => self.list.read_field(),
            Command::ReadRecord => self.record.read_field(),
            Command::ReadPiece => self.piece.read_field(),
            Command::Why => self.why(),
            Command::FindEdge => self.find_edge(),
        }
    }
}

// The program.
fn main() {
    let mut list = [0; ROOM_FOR_LIST];
    let mut record = [0; RECORD_ROOM];
    let mut piece = [0; PIECE_BYTES];
    replay_tape::replay(&mut Asked {
        list: Buffer::new(&mut list),
        record: Buffer::new(&mut record),
        piece: Buffer::new(&mut piece),
    });
}
