// The program of the vectors of resends and renewals: it replays the commands of standard input through the library, and writes a line for each that answers.
#![tactic(auto)]

use replay::{Hearer, Place, Segment};
use replay_tape::{Buffer, MOST_WORDS, Program, Table, TableBuffer};

// Room for a segment, 65,535 bytes and 257 more, and for the lists of a table, one after the other.
const SEGMENT_ROOM: usize = 65792;

// Room for the held buffer, 4,096 bytes and 256 more, for a record and for a list.
const HELD_ROOM: usize = 4352;

// By what a segment is fed: the list alone or a table, as its bound says, an automaton with bits and counters, or an index.
#[derive(Clone, Copy)]
enum By {
    ListOrTable,
    Machine,
    Index,
}

// A command. A segment is taken at any letter that has no other meaning, with which the line begins.
#[derive(Clone, Copy)]
enum Command {
    ReadList,
    ReadTable,
    ReadRecord,
    SowHeld,
    SowSegment,
    ReadSegment,
    Open,
    Hear(By),
    Renew,
    Offset,
    Due,
    Take(u8),
}

// A list, a table, the record of a flow, what is held, a segment, and the place.
#[derive(Drop)]
struct Flow<'a> {
    list: Buffer<'a>,
    table: TableBuffer<'a>,
    flow: Buffer<'a>,
    held: Buffer<'a>,
    segment: Buffer<'a>,
    place: Place,
}

// By what a segment is fed, and the letter of its line. A number is the bound, which is 0 for the list alone, or the hint. The moves and programs of an
// automaton stand in the place of the table's parts and rows, and an index in the place of its rows.
fn hearer<'a>(by: By, number: u32, list: &'a [u8], table: Table<'a>) -> (u8, Hearer<'a>) {
    match by {
        By::ListOrTable if number == 0 => (b'g', Hearer::List { list }),
        By::ListOrTable => {
            let bound = u64::from(number);
            (b'g', Hearer::Table { list, bound, table })
        }
        By::Machine => {
            let moves = table.parts;
            let programs = table.rows;
            (b'x', Hearer::Machine { moves, programs })
        }
        By::Index => {
            let splits = table.splits;
            let index = table.rows;
            let hint = number as usize;
            let by_index = Hearer::Index {
                splits,
                index,
                hint,
            };
            (b'p', by_index)
        }
    }
}

impl<'a> Flow<'a> {
    // Replays an opening: nothing is held then, and the flow's first byte has the number that follows.
    fn open(&mut self) {
        self.place = Place {
            first: replay_tape::read_u32(),
            start: 0,
            length: 0,
        };
        let mut words = [0; MOST_WORDS];
        replay::open_silent(self.list.bytes(), self.flow.bytes_mut(), &mut words);
    }

    // Replays feeding a segment: the input says the bound or the hint, how many words there are, and the segment's start.
    fn hear(&mut self, by: By) {
        let number = replay_tape::read_u32();
        let mut words = [0; MOST_WORDS];
        let words = replay_tape::front(&mut words, replay_tape::read_size());
        let start = replay_tape::read_u32();
        let (letter, hearer) = hearer(by, number, self.list.bytes(), self.table.table());
        self.place = replay::hear(
            letter,
            hearer,
            self.flow.bytes_mut(),
            self.place,
            self.held.bytes_mut(),
            Segment {
                start,
                bytes: self.segment.bytes(),
            },
            words,
        );
    }

    // Replays a renewal.
    fn renew(&mut self) {
        self.place.first = replay::renew(self.place.first, self.flow.bytes_mut());
    }
}

impl<'a> Program for Flow<'a> {
    type Command = Command;

    fn command(letter: u8) -> Option<Command> {
        match letter {
            b'L' => Some(Command::ReadList),
            b'T' => Some(Command::ReadTable),
            b'R' => Some(Command::ReadRecord),
            b'H' => Some(Command::SowHeld),
            b'S' => Some(Command::SowSegment),
            b'P' => Some(Command::ReadSegment),
            b'o' => Some(Command::Open),
            b'g' => Some(Command::Hear(By::ListOrTable)),
            b'p' => Some(Command::Hear(By::Index)),
            b'x' => Some(Command::Hear(By::Machine)),
            b'n' => Some(Command::Renew),
            b'z' => Some(Command::Offset),
            b'd' => Some(Command::Due),
            b'a'.. => Some(Command::Take(letter)),
            _ => None,
        }
    }

    fn replay(&mut self, command: Command) {
        match command {
            Command::ReadList => self.list.read_field(),
            Command::ReadTable => self.table.read(),
            Command::ReadRecord => self.flow.read_field(),
            Command::SowHeld => self.held.read_sown(),
            Command::SowSegment => self.segment.read_sown(),
            Command::ReadSegment => self.segment.read_field(),
            Command::Open => self.open(),
            Command::Hear(by) => self.hear(by),
            Command::Renew => self.renew(),
            Command::Offset => replay::offset(self.flow.bytes()),
            Command::Due => replay::due(self.held.bytes(), self.segment.bytes()),
            Command::Take(letter) => {
                replay::take(letter, self.held.bytes_mut(), self.segment.bytes());
            }
        }
    }
}

// The program.
fn main() {
    let mut list = [0; HELD_ROOM];
    let mut table = [0; SEGMENT_ROOM];
    let mut flow = [0; HELD_ROOM];
    let mut held = [0; HELD_ROOM];
    let mut segment = [0; SEGMENT_ROOM];
    replay_tape::replay(&mut Flow {
        list: Buffer::new(&mut list),
        table: TableBuffer::new(&mut table),
        flow: Buffer::new(&mut flow),
        held: Buffer::new(&mut held),
        segment: Buffer::new(&mut segment),
        place: Place {
            first: 0,
            start: 0,
            length: 0,
        },
    });
}
