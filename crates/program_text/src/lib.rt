// What the programs share: the texts of pairs and of the last line; handing a text over, to a descriptor or to a log; and reading a list.
// A text is made in an array and promised before it is handed over. `hand` alone writes. Of a run on arrays the text goes to the end of a log in the place of a
// descriptor, with an answer out of an array, and of such a run a program promises what is handed over, for all answers of the writes.
#![tactic(auto)]

ghost use Rattle.std.specs.Prelude.{◌≡◌, ◌+◌, ◌*◌, ◌≤◌, ◌<◌, [], ◌∷◌, ◌++◌, length, take, get_or};
ghost use Rattle.io.specs.Counts.{IsPrefixLen};
ghost use Rattle.program_text.specs.Text.{most_digits, word_size, line_size, decimal, line, lines, last_line, Puts};
ghost use Rattle.program_text.specs.Hand.{is_cut, Takes, OnArrays};

use std::fs::File;
use std::os::fd::AsRawFd;

// The most digits of a number.
const DIGITS: usize = 20;

// Where a program reads and writes: descriptors; or arrays, the input and the answers of the writes.
#[derive(Clone, Copy)]
pub enum Ends<'a> {
    Descriptors { input: i32, output: i32 },
    Arrays { input: &'a [u8], answers: &'a [u8] },
}

// Standard input and output.
pub const STANDARD: Ends<'static> = Ends::Descriptors {
    input: 0,
    output: 1,
};

// How a text was taken: whether it was cut, that is, not taken whole, and where the log ends, cut or not.
#[derive(Clone, Copy)]
pub struct Taken {
    pub cut: bool,
    pub end: usize,
}

// Puts a byte at a place of the text; answers the place after it.
pub fn put_byte(text: &mut [u8], at: usize, b: u8) -> usize
    requires { at < length text.old }
    ensures { Puts 1 (b ∷ []) text.old at result text.new }
{
    text[at] = b;
    at + 1
}

// Puts some bytes at a place of the text; answers the place after them.
pub fn put_bytes(text: &mut [u8], at: usize, bytes: &[u8]) -> usize
    requires { at + length bytes.now ≤ length text.old }
    ensures { Puts (length bytes.now) bytes.now text.old at result text.new }
{
    let end = at + bytes.len();
    text[at..end].copy_from_slice(bytes);
    end
}

// Puts a number in decimal at a place of the text; answers the place after it.
pub fn put_number(text: &mut [u8], at: usize, n: u64) -> usize
    requires { at + most_digits ≤ length text.old }
    ensures { Puts most_digits (decimal n) text.old at result text.new }
{
    // An array, as `io::decimal` takes it.
    let mut digits = [0u8; DIGITS];
    let k = io::decimal(n, &mut digits);
    put_bytes(text, at, &digits[..k])
}

// Puts the line of a signature and an offset: the two, with a space between and a line feed behind.
pub fn put_line(text: &mut [u8], at: usize, signature: u32, offset: u64) -> usize
    requires { at + line_size ≤ length text.old }
    ensures { Puts line_size (line signature offset) text.old at result text.new }
{
    let a = put_number(text, at, signature as u64);
    let b = put_byte(text, a, b' ');
    let c = put_number(text, b, offset);
    put_byte(text, c, b'\n')
}

// Puts the lines of the first n pairs of the words at the text's start; answers where they end. By index, as `lines` counts pairs.
pub fn put_pairs(text: &mut [u8], out: &[u32], n: usize) -> usize
    requires { (2 * n ≤ length out.now) × (line_size * n ≤ length text.old) }
    ensures prefix_len { IsPrefixLen result text.new }
    ensures text_after { take result text.new ≡ lines out.now n }
{
    let mut at: usize = 0;
    for i in 0..n {
        at = put_line(text, at, out[2 * i], out[2 * i + 1] as u64);
    }
    at
}

// Puts a word, a number and a line feed at the text's start; answers where they end.
pub fn put_ending(text: &mut [u8], word: &[u8], n: u64) -> usize
    requires { (length word.now ≤ word_size) × (line_size ≤ length text.old) }
    ensures prefix_len { IsPrefixLen result text.new }
    ensures text_after { take result text.new ≡ word.now ++ decimal n ++ (10 ∷ []) }
{
    let a = put_bytes(text, 0, word);
    let b = put_number(text, a, n);
    put_byte(text, b, b'\n')
}

// Puts the last line: `refused` and the number, or `end` and the offset; answers where it ends.
pub fn put_last(text: &mut [u8], refusal: u32, offset: u64) -> usize
    requires { line_size ≤ length text.old }
    ensures prefix_len { IsPrefixLen result text.new }
    ensures text_after { take result text.new ≡ last_line refusal offset }
{
    if refusal != rules::PASSED {
        return put_ending(text, b"refused ", refusal as u64);
    }
    put_ending(text, b"end ", offset)
}

// Whether answer number i is that a text was cut: it is 0. Past the end each is.
pub fn cut_at(answers: &[u8], i: usize) -> bool
    ensures { result ≡ is_cut (get_or answers.now i 0) }
{
    match answers.get(i) {
        Some(answer) => *answer == 0,
        None => true,
    }
}

// Hands a text over, to a descriptor, and says whether all of it was written; or to the end of the log, with answer number i.
// A log without room takes nothing.
pub fn hand(ends: Ends<'_>, text: &[u8], i: usize, log: &mut [u8], end: usize) -> Taken
    requires { end ≤ length log.old }
    ensures end_in_bounds { result.end ≤ length log.new }
    ensures takes { OnArrays ends.entry (λ input answers. end + length text.now ≤ length log.old
        → Takes text.now answers i log.old end result log.new) }
{
    match ends {
        Ends::Descriptors { output, .. } => Taken {
            cut: !io::write_all(output, text),
            end,
        },
        Ends::Arrays { .. } if log.len() - end < text.len() => Taken { cut: true, end },
        Ends::Arrays { answers, .. } => Taken {
            cut: cut_at(answers, i),
            end: put_bytes(log, end, text),
        },
    }
}

// Zeros for the list: more bytes than the longest has, so that a longer one is seen as too long.
// Behind a call its length is known without its bytes.
pub fn list_buffer() -> [u8; 65544]
    ensures { 65544 ≡ length result }
{
    [0; 65544]
}

// A list that cannot be opened counts as an empty one wherever a list is read.

// Reads the list of a path into the list, up to its end, a read that fails, or the list's size; answers how many bytes came, none where it cannot be opened.
pub fn read_list(rt: &HostRuntime, path: &str, list: &mut [u8]) -> usize
    ensures { IsPrefixLen result list.new }
{
    match File::open(rt, path) {
        // By the file's number: a read of std that fills a slice does not say how many bytes came.
        Ok(file) => io::read_full(file.as_raw_fd(), list),
        Err(_) => 0,
    }
}

// The same of a path as bytes; one that is no UTF-8 names no file.
pub fn read_rules(rt: &HostRuntime, path: &[u8], list: &mut [u8]) -> usize
    ensures { IsPrefixLen result list.new }
{
    match str::from_utf8(path) {
        Ok(path) => read_list(rt, path, list),
        Err(_) => 0,
    }
}
