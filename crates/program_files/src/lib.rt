// What the commands on files share: paths; reading a file; the number and the name at the front of a line; and how a command ends. That they are safe and end
// is shown, and that what is split off a line and what is left of it are that line. Paths and files stand in arrays: so there is no memory that may be missing.
#![tactic(auto)]

ghost use Rattle.std.specs.Prelude.{◌≡◌, ◌+◌, ◌-◌, ◌<◌, ◌≤◌, ◌++◌, length, take, drop, IfSome};
ghost use Rattle.io.specs.Counts.{IsPrefixLen};

use std::fmt;
use std::os::fd::AsRawFd;

// The most bytes of a file of texts.
pub const MOST_TEXTS: usize = 1048576;

// ---- paths

// Puts two runs of bytes at the text's start, one after the other; answers where they end, 0 where they have not the room.
pub fn put_both(text: &mut [u8], first: &[u8], second: &[u8]) -> usize
    ensures prefix_len { IsPrefixLen result text.new }
    ensures text_after { 0 < result → take result text.new ≡ first.now ++ second.now }
{
    if text.len() < first.len() {
        return 0;
    }
    if text.len() - first.len() < second.len() {
        return 0;
    }
    let at = program_text::put_bytes(text, 0, first);
    program_text::put_bytes(text, at, second)
}

// The path of two parts, in an array that is lent; an empty one, which names no file, where it has not the room.
pub fn path_of<'a>(room: &'a mut [u8], first: &[u8], second: &[u8]) -> &'a [u8] {
    let n = put_both(room, first, second);
    &room[..n]
}

// ---- files

// Zeros for a place. Behind a call its length is known without its bytes.
fn zeros<const N: usize>() -> [u8; N]
    ensures { N ≡ length result }
{
    [0; N]
}

// Zeros for a file of texts: a byte more than it may have, so that a longer one is seen as too long.
pub fn texts_buffer() -> [u8; 1048577]
    ensures { 1048577 ≡ length result }
{
    zeros()
}

// Reads a file into what is lent, up to its end, a read that fails, or as many bytes as are lent; none where it cannot be opened.
pub fn read_start<'a>(rt: &HostRuntime, path: &[u8], bytes: &'a mut [u8]) -> Option<&'a [u8]>
    ensures { IfSome result (λ b. length b.now ≤ length bytes.old) }
{
    let file = program_system::open_read(rt, path).ok()?;
    let n = io::read_full(file.as_raw_fd(), bytes);
    Some(&bytes[..n])
}

// ---- lines

// A line of a file, without its end.
pub fn line_of(line: &[u8]) -> &[u8]
    ensures { result.now ≡ take (length result.now) line.now }
{
    line.strip_suffix(b"\n").unwrap_or(line)
}

// Splits off a signature's number, three digits at most, at the front of a line.
pub fn split_number(line: &[u8]) -> Option<(u8, &[u8])>
    ensures { IfSome result (λ p. (p.1.now ≡ drop (length line.now - length p.1.now) line.now) × (length line.now ≤ length p.1.now + 3)) }
{
    let n = line
        .iter()
        .take(3)
        .take_while(|c| c.is_ascii_digit())
        .count();
    let (digits, rest) = line.split_at_checked(n)?;
    let number = str::from_utf8(digits).ok()?.parse::<u8>().ok()?;
    Some((number, rest))
}

// Whether a byte may stand in a name.
fn in_name(c: u8) -> bool {
    c.is_ascii_alphanumeric() || c == b'-' || c == b'_'
}

// Splits off the name at the front of a line; it may be empty.
pub fn split_name(line: &[u8]) -> (&[u8], &[u8])
    ensures { result.0.now ++ result.1.now ≡ line.now }
{
    let n = line.iter().position(|c| !in_name(*c)).unwrap_or(line.len());
    line.split_at(n)
}

// ---- how a command ends

// How a command ends, which its last line says.
#[derive(Clone, Copy, PartialEq, Eq, Debug)]
pub enum Ending {
    Passed,
    Refused,
    RefusedBy(u32),
}

impl fmt::Display for Ending {
    fn fmt<W: fmt::Write>(&self, f: &mut fmt::Formatter<W>) -> fmt::Result {
        match self {
            Ending::Passed => write!(f, "passed"),
            Ending::Refused => write!(f, "refused"),
            Ending::RefusedBy(refusal) => write!(f, "refused {refusal}"),
        }
    }
}
