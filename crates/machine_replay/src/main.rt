// The program of the vectors for the automaton with bits and counters: it replays the commands of standard input through the library, and writes a line
// for each that answers.
#![tactic(auto)]

ghost use Rattle.std.specs.Prelude.{◌≡◌, length};

use replay_tape::{Buffer, MOST_WORDS, PIECE_BYTES, Program};

// Room for moves and for programs: those of 1,024 states, and 1,024 bytes more.
const MOVES_ROOM: usize = 525312;

const PROGRAMS_ROOM: usize = 33792;

// Room for a record.
const RECORD_ROOM: usize = 512;

// A command; what no other letter says has no answer.
#[derive(Clone, Copy)]
enum Command {
    ReadMoves,
    ReadPrograms,
    ReadRecord,
    Check,
    Open,
    Feed,
    Pass,
}

// The automaton, and the record of a flow.
#[derive(Drop)]
struct Machine<'a> {
    moves: Buffer<'a>,
    programs: Buffer<'a>,
    record: Buffer<'a>,
}

impl<'a> Machine<'a> {
    // Replays a check.
    fn check(&self) {
        replay_tape::put_check(
            b'c',
            machine::check(self.moves.bytes(), self.programs.bytes()),
        );
    }

    // Replays an opening: the input says how many words there are.
    fn open(&mut self) {
        let mut words = [0; MOST_WORDS];
        let words = replay_tape::front(&mut words, replay_tape::read_size());
        replay_tape::fill_words(words);
        let record = self.record.bytes_mut();
        let opened = machine::open_flow(self.moves.bytes(), self.programs.bytes(), record, words);
        replay_tape::put_opening(opened, words, record);
    }

    // Replays a feed: the input says where it starts, how many words there are, and the piece.
    fn feed(&mut self) {
        let start = replay_tape::read_u64();
        let mut words = [0; MOST_WORDS];
        let words = replay_tape::front(&mut words, replay_tape::read_size());
        let mut piece = [0; PIECE_BYTES];
        let n = replay_tape::read_field(&mut piece);
        replay_tape::fill_words(words);
        let record = self.record.bytes_mut();
        let fed = machine::feed(
            self.moves.bytes(),
            self.programs.bytes(),
            record,
            start,
            &piece[..n],
            words,
        );
        replay_tape::put_feed(b'f', fed, None, words, record);
    }
}

impl<'a> Program for Machine<'a> {
    type Command = Command;

    fn command(letter: u8) -> Option<Command> {
        match letter {
            0 => None,
            b'M' => Some(Command::ReadMoves),
            b'P' => Some(Command::ReadPrograms),
            b'R' => Some(Command::ReadRecord),
            b'c' => Some(Command::Check),
            b'o' => Some(Command::Open),
            b'f' => Some(Command::Feed),
            _ => Some(Command::Pass),
        }
    }

    fn replay(&mut self, command: Command) {
        match command {
            Command::ReadMoves => self.moves.read_field(),
            Command::ReadPrograms => self.programs.read_field(),
            Command::ReadRecord => self.record.read_field(),
            Command::Check => self.check(),
            Command::Open => self.open(),
            Command::Feed => self.feed(),
            Command::Pass => {}
        }
    }
}

// Zeros for a buffer. Behind a call its length is known without its bytes.
fn zeros<const N: usize>() -> [u8; N]
    ensures { N ≡ length result }
{
    [0; N]
}

// The program.
fn main() {
    let mut moves: [u8; MOVES_ROOM] = zeros();
    let mut programs: [u8; PROGRAMS_ROOM] = zeros();
    let mut record: [u8; RECORD_ROOM] = zeros();
    replay_tape::replay(&mut Machine {
        moves: Buffer::new(&mut moves),
        programs: Buffer::new(&mut programs),
        record: Buffer::new(&mut record),
    });
}
