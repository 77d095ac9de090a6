// The tape of a vector program: the commands that stand on its input, what it keeps between them, and the lines that it writes.
// A command is a letter and what follows it: numbers, low byte first, and fields. A field is a length and its bytes in runs, each some zeros and some bytes
// that are written out. A reader takes what it is asked for from standard input; where the input ends early it leaves zeros, and it never writes past its buffer.
// A line is a letter and numbers; bytes and words stand in it by their digest. tools/second/README.md has the commands and the lines of each program.
#![tactic(auto)]

ghost use Rattle.std.specs.Prelude.{◌≡◌, [], ◌∷◌, ◌+◌, ◌<◌, ◌≤◌, cond, min, length};

use feed::{Fed, Opened};

// The most commands that a program replays.
const MOST_COMMANDS: usize = 1000000;

// The most words for the pairs, and the most bytes of a piece.
pub const MOST_WORDS: usize = 1200;

pub const PIECE_BYTES: usize = 8192;

// What stands before a call in the first of what is lent to it: of the words of the pairs, of the states of a run, and of other bytes.
const FIRST_WORD: u32 = 2774138880;

const FIRST_STATE: u16 = 40000;

const FIRST_BYTE: u8 = 165;

// The number that a digest stays below, and the factor of its step.
const MODULUS: u64 = 4294967291;

const FACTOR: u64 = 257;

// ---- programs

// A program that replays vectors: what it keeps from one command to the next.
pub trait Program {
    type Command: Drop;

    // The command of a letter; a letter that is none's ends the program, as the end of the input does.
    fn command(letter: u8) -> Option<Self::Command>;

    // Reads what a command has behind its letter, and replays it.
    fn replay(&mut self, command: Self::Command);
}

// The next command of the input.
fn next_command<P: Program>() -> Option<P::Command> {
    P::command(read_byte()?)
}

// Replays the commands of the input.
pub fn replay<P: Program>(program: &mut P) {
    for _ in 0..MOST_COMMANDS {
        let Some(command) = next_command::<P>() else {
            return;
        };
        program.replay(command);
    }
}

// ---- what is read

// The next bytes of the input, with zeros behind where it ends.
fn read_array<const N: usize>() -> [u8; N] {
    let mut bytes = [0; N];
    io::read_full(0, &mut bytes);
    bytes
}

// The next byte of the input; none at its end.
pub fn read_byte() -> Option<u8> {
    let mut byte = [0];
    if io::read_full(0, &mut byte) == 0 {
        return None;
    }
    Some(byte[0])
}

// The next four bytes of the input as a number.
pub fn read_u32() -> u32 {
    u32::from_le_bytes(read_array())
}

// The next eight bytes of the input as a number.
pub fn read_u64() -> u64 {
    u64::from_le_bytes(read_array())
}

// The next four bytes of the input as a size.
pub fn read_size() -> usize {
    read_u32() as usize
}

// The first of what is lent, so many, or all where there are fewer.
pub fn front<T>(all: &mut [T], n: usize) -> &mut [T]
    ensures { length result.now ≡ min n (length all.old) }
{
    let n = n.min(all.len());
    &mut all[..n]
}

// Reads a run into the front of a field: the input's next byte says how many zeros it has, the one after how many bytes follow them. Answers the rest of the field.
fn read_run(field: &mut [u8]) -> &mut [u8]
    ensures { length result.now ≤ length field.old }
{
    let [zeros, written] = read_array::<2>();
    let n = field.len().min(usize::from(zeros));
    let (blank, rest) = field.split_at_mut(n);
    blank.fill(0);
    let n = rest.len().min(usize::from(written));
    let (run, rest) = rest.split_at_mut(n);
    io::read_full(0, run);
    rest
}

// Reads the runs of a field until it is full.
fn read_runs(mut field: &mut [u8]) {
    for _ in 0..field.len() {
        if field.is_empty() {
            return;
        }
        field = read_run(field);
    }
}

// Reads a field into the front of a buffer; answers how many bytes it takes there.
pub fn read_field(bytes: &mut [u8]) -> usize
    ensures { result ≤ length bytes.new }
{
    let n = read_size().min(bytes.len());
    read_runs(&mut bytes[..n]);
    n
}

// Fills bytes from a seed: each is a little more than the one before, and a little more again after 256.
fn sow(bytes: &mut [u8], seed: u32) {
    let seed = seed as usize % 256;
    for (i, byte) in bytes.iter_mut().enumerate() {
        *byte = ((seed + 7 * (i % 256) + i / 256 % 256) % 256) as u8;
    }
}

// ---- what a program keeps

// Bytes that are kept from one command to the next: those at the front are in use, and those behind them stay as they are.
#[derive(Drop)]
pub struct Buffer<'a> {
    bytes: &'a mut [u8],
    used: usize,
}

impl<'a> Buffer<'a> {
    ghost use Rattle.replay_tape.specs.Buffers.{in_use};

    // What has room for as many bytes as are lent, none of them in use.
    pub fn new(bytes: &'a mut [u8]) -> Buffer<'a> {
        Buffer { bytes, used: 0 }
    }

    // The bytes in use.
    pub fn bytes(&self) -> &[u8]
        ensures { length result.now ≡ in_use self.now }
    {
        &self.bytes[..self.used.min(self.bytes.len())]
    }

    // The bytes in use, to be written.
    pub fn bytes_mut(&mut self) -> &mut [u8]
        ensures { length result.now ≡ in_use self.old }
    {
        let n = self.used.min(self.bytes.len());
        &mut self.bytes[..n]
    }

    // All that there is room for, to be written.
    pub fn room_mut(&mut self) -> &mut [u8] {
        self.bytes
    }

    // Takes so many bytes into use, or all where there are fewer.
    pub fn use_front(&mut self, n: usize) {
        self.used = n.min(self.bytes.len());
    }

    // Reads a field, whose bytes are in use then.
    pub fn read_field(&mut self) {
        let n = read_field(self.bytes);
        self.use_front(n);
    }

    // Reads a length and a seed: so many bytes are in use then, filled from the seed.
    pub fn read_sown(&mut self) {
        let n = read_size();
        let seed = read_u32();
        self.use_front(n);
        sow(self.bytes_mut(), seed);
    }

    // Reads a length, a place and a field: so many bytes are in use then, the field among them, and zeros behind those that were.
    pub fn read_change(&mut self) {
        let before = self.used;
        let n = read_size();
        let place = read_size();
        self.use_front(n);
        change(self.bytes_mut(), before, place);
    }
}

// Reads a field to a place of bytes of which the first `used` ones stay and the others become 0.
fn change(bytes: &mut [u8], used: usize, place: usize) {
    let used = used.min(bytes.len());
    bytes[used..].fill(0);
    let place = place.min(bytes.len());
    read_field(&mut bytes[place..]);
}

// The four lists of a table.
#[derive(Clone, Copy)]
pub struct Table<'a> {
    pub classes: &'a [u8],
    pub parts: &'a [u8],
    pub rows: &'a [u8],
    pub splits: &'a [u8],
}

// A table that is kept from one command to the next: its four lists one after the other, and how long each is.
#[derive(Drop)]
pub struct TableBuffer<'a> {
    bytes: &'a mut [u8],
    classes: usize,
    parts: usize,
    rows: usize,
    splits: usize,
}

// The first so many bytes and the others, or all and none where there are fewer.
fn split_front(bytes: &[u8], n: usize) -> (&[u8], &[u8]) {
    let n = n.min(bytes.len());
    bytes.split_at(n)
}

// Reads a field to the front of bytes; answers how many it takes there, and the others.
fn read_next_field(bytes: &mut [u8]) -> (usize, &mut [u8]) {
    let n = read_field(bytes);
    (n, &mut bytes[n..])
}

impl<'a> TableBuffer<'a> {
    // What has room for as many bytes as are lent, and a table of empty lists.
    pub fn new(bytes: &'a mut [u8]) -> TableBuffer<'a> {
        TableBuffer {
            bytes,
            classes: 0,
            parts: 0,
            rows: 0,
            splits: 0,
        }
    }

    // The table.
    pub fn table(&self) -> Table<'_> {
        let (classes, rest) = split_front(self.bytes, self.classes);
        let (parts, rest) = split_front(rest, self.parts);
        let (rows, rest) = split_front(rest, self.rows);
        let (splits, _) = split_front(rest, self.splits);
        Table {
            classes,
            parts,
            rows,
            splits,
        }
    }

    // Reads a table, a field for each of its lists.
    pub fn read(&mut self) {
        let (classes, rest) = read_next_field(self.bytes);
        let (parts, rest) = read_next_field(rest);
        let (rows, rest) = read_next_field(rest);
        let splits = read_field(rest);
        self.classes = classes;
        self.parts = parts;
        self.rows = rows;
        self.splits = splits;
    }
}

// ---- what is written

// A digest of bytes and words so far.
#[derive(Clone, Copy)]
struct Digester {
    value: u64,
    ghost small: { value < 4294967291 },
}

impl Digester {
    // The digest of nothing.
    fn new() -> Digester {
        Digester { value: 0 }
    }

    // Takes one more byte.
    fn add(&mut self, byte: u8) {
        self.value = (self.value * FACTOR + u64::from(byte) + 1) % MODULUS;
    }

    // Takes the four bytes of a word, low byte first.
    fn add_word(&mut self, word: u32) {
        for byte in word.to_le_bytes() {
            self.add(byte);
        }
    }
}

// The digest of bytes.
pub fn digest(bytes: &[u8]) -> u64 {
    let mut digest = Digester::new();
    for byte in bytes {
        digest.add(*byte);
    }
    digest.value
}

// The digest of words.
pub fn digest_words(words: &[u32]) -> u64 {
    let mut digest = Digester::new();
    for word in words {
        digest.add_word(*word);
    }
    digest.value
}

// Fills what is lent to a call, each with the number after the one before it.
fn fill<T: Copy, F: Fn(T) -> T>(lent: &mut [T], first: T, next: F)
    requires { F.IsAlwaysCallable next }
{
    let mut number = first;
    for place in lent {
        *place = number;
        number = next(number);
    }
}

// Fills words that are lent to a call.
pub fn fill_words(words: &mut [u32]) {
    fill(words, FIRST_WORD, |word| word.wrapping_add(1));
}

// Fills states that are lent to a question.
pub fn fill_states(states: &mut [u16]) {
    fill(states, FIRST_STATE, |state| state.wrapping_add(1));
}

// Fills other bytes that are lent to a call.
pub fn fill_bytes(bytes: &mut [u8]) {
    fill(bytes, FIRST_BYTE, |byte| byte.wrapping_add(1));
}

// Begins a line with its letter.
pub fn begin(letter: u8) {
    io::write_all(1, &[letter]);
}

// Writes numbers, each behind a space.
pub fn put(numbers: &[u64]) {
    for number in numbers {
        io::write_all(1, b" ");
        io::print_decimal(1, *number);
    }
}

// Ends a line.
pub fn end() {
    io::write_all(1, b"\n");
}

// Writes a line.
pub fn put_line(letter: u8, numbers: &[u64]) {
    begin(letter);
    put(numbers);
    end();
}

// Writes the line of a check.
pub fn put_check(letter: u8, refusal: u32) {
    put_line(letter, &[u64::from(refusal)]);
}

// Writes the line of a filling: the answer and the bytes filled.
pub fn put_filling(letter: u8, refusal: u32, filled: &[u8]) {
    put_line(letter, &[u64::from(refusal), digest(filled)]);
}

// The numbers of an opening's answer.
pub fn opening(opened: Opened) -> [u64; 2]
    ensures { result ≡ opened.refusal ∷ opened.pairs ∷ [] }
{
    [u64::from(opened.refusal), opened.pairs as u64]
}

// The numbers of a feed's answer.
pub fn feeding(fed: Fed) -> [u64; 4]
    ensures { result ≡ fed.refusal ∷ fed.bytes ∷ fed.pairs ∷ cond fed.all 1 0 ∷ [] }
{
    [
        u64::from(fed.refusal),
        fed.bytes as u64,
        fed.pairs as u64,
        u64::from(fed.all),
    ]
}

// Writes the line of an opening: the answer, the words and the record.
pub fn put_opening(opened: Opened, words: &[u32], record: &[u8]) {
    begin(b'o');
    put(&opening(opened));
    put(&[digest_words(words), digest(record)]);
    end();
}

// Writes the line of a feed: the answer, the split where one is answered as well, the words and the record.
pub fn put_feed(letter: u8, fed: Fed, split: Option<usize>, words: &[u32], record: &[u8]) {
    begin(letter);
    put(&feeding(fed));
    if let Some(split) = split {
        put(&[split as u64]);
    }
    put(&[digest_words(words), digest(record)]);
    end();
}
