// The program of the vectors: it replays the commands of standard input through the library, and writes a line for each that answers.
#![tactic(auto)]

ghost use Rattle.std.specs.Prelude.{◌≡◌, length};

use replay::Engine;
use replay_tape::{Buffer, MOST_WORDS, PIECE_BYTES, Program, Table, TableBuffer};

// Room for a list: 8,192 records, and 256 bytes more.
const ROOM_FOR_LIST: usize = 65792;

// Room for the lists of a table, one after the other: the classes, 1,024 parts, their rows on four classes and 4,096 splits, and 256 bytes more of each.
const TABLE_ROOM: usize = 1213696;

// Room for a matrix or an index: a matrix of 8 states, and 256 bytes more.
const MATRIX_ROOM: usize = 262400;

// Room for a record.
const RECORD_ROOM: usize = 512;

// By what a flow is fed. By the matrix it is fed at any letter that has no other meaning, with which the line begins.
#[derive(Clone, Copy)]
enum By {
    List,
    Table,
    Index,
    Matrix(u8),
}

// A command.
#[derive(Clone, Copy)]
enum Command {
    ReadList,
    ReadTable,
    ReadMatrix,
    SowMatrix,
    ChangeMatrix,
    ReadRecord,
    Open,
    CheckList,
    CheckTable,
    FillMatrix,
    FillIndex,
    Feed(By),
}

// A list, a table, a matrix or an index, and the record of a flow.
#[derive(Drop)]
struct Flow<'a> {
    list: Buffer<'a>,
    table: TableBuffer<'a>,
    matrix: Buffer<'a>,
    record: Buffer<'a>,
}

impl<'a> Flow<'a> {
    // Replays a check of the table: the input says the bound.
    fn check_table(&self) {
        let bound = replay_tape::read_u64();
        replay::check_table(self.list.bytes(), bound, self.table.table());
    }

    // Replays a filling of the matrix.
    fn fill_matrix(&mut self) {
        replay::fill_matrix(self.list.bytes(), self.matrix.bytes_mut());
    }

    // Replays a filling of the index: the input says the bound.
    fn fill_index(&mut self) {
        let bound = replay_tape::read_u64();
        replay::fill_index(
            self.list.bytes(),
            bound,
            self.table.table(),
            self.matrix.bytes_mut(),
        );
    }

    // Replays an opening: the input says how many words there are.
    fn open(&mut self) {
        let mut words = [0; MOST_WORDS];
        let words = replay_tape::front(&mut words, replay_tape::read_size());
        replay::open(self.list.bytes(), self.record.bytes_mut(), words);
    }

    // Replays a feed.
    fn feed(&mut self, by: By) {
        let list = self.list.bytes();
        let matrix = self.matrix.bytes();
        let (letter, engine) = engine(by, list, self.table.table(), matrix);
        feed_piece(letter, engine, self.record.bytes_mut());
    }
}

// By what a flow is fed, and the letter of its line: the input says the bound of a table, and the hint of an index.
fn engine<'a>(by: By, list: &'a [u8], table: Table<'a>, matrix: &'a [u8]) -> (u8, Engine<'a>) {
    match by {
        By::List => (b'f', Engine::List { list }),
        By::Table => {
            let bound = replay_tape::read_u64();
            (b's', Engine::Table { list, bound, table })
        }
        By::Index => {
            let by_index = Engine::Index {
                splits: table.splits,
                index: matrix,
                hint: replay_tape::read_size(),
            };
            (b'p', by_index)
        }
        By::Matrix(letter) => (letter, Engine::Matrix { list, matrix }),
    }
}

// Replays a feed: the input says where it starts, how many words there are, and the piece.
fn feed_piece(letter: u8, engine: Engine<'_>, record: &mut [u8]) {
    let start = replay_tape::read_u64();
    let mut words = [0; MOST_WORDS];
    let words = replay_tape::front(&mut words, replay_tape::read_size());
    let mut piece = [0; PIECE_BYTES];
    let n = replay_tape::read_field(&mut piece);
    replay::feed(letter, engine, record, start, &piece[..n], words);
}

impl<'a> Program for Flow<'a> {
    type Command = Command;

    fn command(letter: u8) -> Option<Command> {
        match letter {
            b'L' => Some(Command::ReadList),
            b'T' => Some(Command::ReadTable),
            b'M' => Some(Command::ReadMatrix),
            b'S' => Some(Command::SowMatrix),
            b'N' => Some(Command::ChangeMatrix),
            b'R' => Some(Command::ReadRecord),
            b'o' => Some(Command::Open),
            b'c' => Some(Command::CheckList),
            b'k' => Some(Command::CheckTable),
            b'm' => Some(Command::FillMatrix),
            b'i' => Some(Command::FillIndex),
            b'f' => Some(Command::Feed(By::List)),
            b's' => Some(Command::Feed(By::Table)),
            b'p' => Some(Command::Feed(By::Index)),
            b'a'.. => Some(Command::Feed(By::Matrix(letter))),
            _ => None,
        }
    }

    fn replay(&mut self, command: Command) {
        match command {
            Command::ReadList => self.list.read_field(),
            Command::ReadTable => self.table.read(),
            Command::ReadMatrix => self.matrix.read_field(),
            Command::SowMatrix => self.matrix.read_sown(),
            Command::ChangeMatrix => self.matrix.read_change(),
            Command::ReadRecord => self.record.read_field(),
            Command::Open => self.open(),
            Command::CheckList => replay::check_list(self.list.bytes()),
            Command::CheckTable => self.check_table(),
            Command::FillMatrix => self.fill_matrix(),
            Command::FillIndex => self.fill_index(),
            Command::Feed(by) => self.feed(by),
        }
    }
}

// Zeros for a buffer. Behind a call its length is known without its bytes.
fn zeros<const N: usize>() -> [u8; N]
    ensures { N ≡ length result }
{
    [0; N]
}

// The program.
fn main() {
    let mut list: [u8; ROOM_FOR_LIST] = zeros();
    let mut table: [u8; TABLE_ROOM] = zeros();
    let mut matrix: [u8; MATRIX_ROOM] = zeros();
    let mut record: [u8; RECORD_ROOM] = zeros();
    replay_tape::replay(&mut Flow {
        list: Buffer::new(&mut list),
        table: TableBuffer::new(&mut table),
        matrix: Buffer::new(&mut matrix),
        record: Buffer::new(&mut record),
    });
}
