// The program of the vectors for joining and folding: it replays the commands of standard input through the library, and writes a line for each that
// answers.
#![tactic(auto)]

use replay_tape::{Buffer, Program};

// Room for a list: the most records, and 1,024 bytes more.
const ROOM_FOR_LIST: usize = 66560;

// A command; what no other letter says has no answer.
#[derive(Clone, Copy)]
enum Command {
    ReadList,
    ReadOther,
    Join,
    Fold,
    Pass,
}

// The lent list and the other one.
#[derive(Drop)]
struct Lists<'a> {
    list: Buffer<'a>,
    other: Buffer<'a>,
}

impl<'a> Lists<'a> {
    // Joins the lists: the input says how long the front of the lent list is.
    fn join(&mut self) {
        let used = replay_tape::read_u64() as usize;
        let made = list_join::join(self.list.bytes_mut(), used, self.other.bytes());
        self.put_made(b'j', made.refusal, made.length);
    }

    // Folds the other list into the lent one.
    fn fold(&mut self) {
        let made = list_fold::fold(self.other.bytes(), self.list.bytes_mut());
        self.put_made(b'f', made.refusal, made.length);
    }

    // Writes the line of a call: its answer, and the lent list.
    fn put_made(&self, letter: u8, refusal: u32, length: usize) {
        let list = replay_tape::digest(self.list.bytes());
        replay_tape::put_line(letter, &[u64::from(refusal), length as u64, list]);
    }
}

impl<'a> Program for Lists<'a> {
    type Command = Command;

    fn command(letter: u8) -> Option<Command> {
        match letter {
            0 => None,
            b'L' => Some(Command::ReadList),
            b'O' => Some(Command::ReadOther),
            b'j' => Some(Command::Join),
            b'f' => Some(Command::Fold),
            _ => Some(Command::Pass),
        }
    }

    fn replay(&mut self, command: Command) {
        match command {
            Command::ReadList => self.list.read_field(),
            Command::ReadOther => self.other.read_field(),
            Command::Join => self.join(),
            Command::Fold => self.fold(),
            Command::Pass => {}
        }
    }
}

// The program.
fn main() {
    let mut list = [0; ROOM_FOR_LIST];
    let mut other = [0; ROOM_FOR_LIST];
    replay_tape::replay(&mut Lists {
        list: Buffer::new(&mut list),
        other: Buffer::new(&mut other),
    });
}
