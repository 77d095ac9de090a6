// The program of the vectors for the compiler: it replays the commands of standard input through the library, and writes a line for each that answers.
#![tactic(auto)]

use replay_tape::{Buffer, MOST_WORDS, PIECE_BYTES, Program};

// Room for a text.
const TEXT_ROOM: usize = 16384;

// Room for a list: the most records, and 1,024 bytes more.
const ROOM_FOR_LIST: usize = 66560;

// A command; what no other letter says has no answer.
#[derive(Clone, Copy)]
enum Command {
    ReadText,
    Compile,
    Match,
    Pass,
}

// A text, and the list that was compiled last.
#[derive(Drop)]
struct Compiler<'a> {
    text: Buffer<'a>,
    list: Buffer<'a>,
}

// Compiles a text to a lent list; answers the length of its list.
fn compile_lent(text: &[u8], signature: u8, list: &mut [u8]) -> usize {
    replay_tape::fill_bytes(list);
    let compiled = text_compile::compile(text, signature, list);
    let numbers = [
        u64::from(compiled.refusal),
        compiled.place as u64,
        compiled.length as u64,
        replay_tape::digest(list),
    ];
    replay_tape::put_line(b'k', &numbers);
    compiled.length
}

// Opens a flow under a list, and feeds it a piece behind the pairs of the opening.
fn match_piece(list: &[u8], piece: &[u8], words: &mut [u32]) {
    replay_tape::fill_words(words);
    let mut record = [0; 144];
    let opened = list_flow::open_flow(list, &mut record, words);
    let told = words.len().min(opened.pairs.saturating_mul(2));
    let fed = list_feed::feed(list, &mut record, 0, piece, &mut words[told..]);
    replay_tape::begin(b'm');
    replay_tape::put(&replay_tape::opening(opened));
    replay_tape::put(&replay_tape::feeding(fed));
    replay_tape::put(&[replay_tape::digest_words(words)]);
    replay_tape::end();
}

impl<'a> Compiler<'a> {
    // Replays a compilation: the input says the signature and how many bytes are lent.
    fn compile(&mut self) {
        let signature = replay_tape::read_byte().unwrap_or(0);
        let lent = replay_tape::read_size();
        let list = replay_tape::front(self.list.room_mut(), lent);
        let length = compile_lent(self.text.bytes(), signature, list);
        self.list.use_front(length);
    }

    // Replays a match: the input says how many words there are, and the piece.
    fn match_list(&self) {
        let size = replay_tape::read_size();
        let mut piece = [0; PIECE_BYTES];
        let n = replay_tape::read_field(&mut piece);
        let mut words = [0; MOST_WORDS];
        match_piece(
            self.list.bytes(),
            &piece[..n],
            replay_tape::front(&mut words, size),
        );
    }
}

impl<'a> Program for Compiler<'a> {
    type Command = Command;

    fn command(letter: u8) -> Option<Command> {
        match letter {
            0 => None,
            b'T' => Some(Command::ReadText),
            b'k' => Some(Command::Compile),
            b'm' => Some(Command::Match),
            _ => Some(Command::Pass),
        }
    }

    fn replay(&mut self, command: Command) {
        match command {
            Command::ReadText => self.text.read_field(),
            Command::Compile => self.compile(),
            Command::Match => self.match_list(),
            Command::Pass => {}
        }
    }
}

// The program.
fn main() {
    let mut text = [0; TEXT_ROOM];
    let mut list = [0; ROOM_FOR_LIST];
    replay_tape::replay(&mut Compiler {
        text: Buffer::new(&mut text),
        list: Buffer::new(&mut list),
    });
}
