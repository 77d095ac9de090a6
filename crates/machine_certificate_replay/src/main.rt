// The program of the vectors for certificates: it replays the commands of standard input through the library, and writes a line for each check.
#![tactic(auto)]

ghost use Rattle.std.specs.Prelude.{◌≡◌, length};

use replay_tape::{Buffer, Program};

// Room for a list: the longest, and 256 bytes more.
const ROOM_FOR_LIST: usize = 65792;

// Room for moves and for programs: those of 512 states, and 256 bytes more.
const MOVES_ROOM: usize = 262400;

const PROGRAMS_ROOM: usize = 16640;

// Room for a certificate: 512 records, and 256 bytes more.
const CERTIFICATE_ROOM: usize = 104704;

// A command.
#[derive(Clone, Copy)]
enum Command {
    ReadList,
    ReadMoves,
    ReadPrograms,
    ReadCertificate,
    ReadLength,
    ReadOver,
    Check,
}

// A list, the automaton that is said to be its own, and the certificate of that.
#[derive(Drop)]
struct Certified<'a> {
    list: Buffer<'a>,
    moves: Buffer<'a>,
    programs: Buffer<'a>,
    certificate: Buffer<'a>,
}

impl<'a> Certified<'a> {
    // Reads the certificate's length.
    fn read_length(&mut self) {
        let n = replay_tape::read_size();
        self.certificate.use_front(n);
    }

    // Reads bytes over those of the certificate from a place on.
    fn read_over(&mut self) {
        let place = replay_tape::read_size();
        let certificate = self.certificate.room_mut();
        let place = place.min(certificate.len());
        replay_tape::read_field(&mut certificate[place..]);
    }

    // Replays a check.
    fn check(&self) {
        let refusal = machine_certificate::check_certificate(
            self.list.bytes(),
            self.moves.bytes(),
            self.programs.bytes(),
            self.certificate.bytes(),
        );
        replay_tape::put_check(b'z', refusal);
    }
}

impl<'a> Program for Certified<'a> {
    type Command = Command;

    fn command(letter: u8) -> Option<Command> {
        match letter {
            b'L' => Some(Command::ReadList),
            b'M' => Some(Command::ReadMoves),
            b'P' => Some(Command::ReadPrograms),
            b'Z' => Some(Command::ReadCertificate),
            b'N' => Some(Command::ReadLength),
            b'E' => Some(Command::ReadOver),
            b'z' => Some(Command::Check),
            _ => None,
        }
    }

    fn replay(&mut self, command: Command) {
        match command {
            Command::ReadList => self.list.read_field(),
            Command::ReadMoves => self.moves.read_field(),
            Command::ReadPrograms => self.programs.read_field(),
            Command::ReadCertificate => self.certificate.read_field(),
            Command::ReadLength => self.read_length(),
            Command::ReadOver => self.read_over(),
            Command::Check => self.check(),
        }
    }
}

// Zeros for a buffer. Behind a call its length is known without its bytes.
fn zeros<const N: usize>() -> [u8; N]
    ensures { N ≡ length result }
{
    [0; N]
}

// The program.
fn main() {
    let mut list: [u8; ROOM_FOR_LIST] = zeros();
    let mut moves: [u8; MOVES_ROOM] = zeros();
    let mut programs: [u8; PROGRAMS_ROOM] = zeros();
    let mut certificate: [u8; CERTIFICATE_ROOM] = zeros();
    replay_tape::replay(&mut Certified {
        list: Buffer::new(&mut list),
        moves: Buffer::new(&mut moves),
        programs: Buffer::new(&mut programs),
        certificate: Buffer::new(&mut certificate),
    });
}
