// What the live line asks of the system, over std: what it reads and writes where a file or a standard stream may be meant, and an error in words.
// That all of this is safe and ends is shown.
#![tactic(auto)]

ghost use Rattle.std.specs.Io.{ReadsAtMost};
ghost use Rattle.io.specs.Counts.{IsPrefixLen};

use std::fs::{File, OpenOptions};
use std::io;
use std::io::{Error, ErrorKind, Read, Write, writer};

// What a device answers that cannot be synced, since it is no file.
const NO_FILE: i32 = 22;

// ---- paths

// The text of a path; one that is no UTF-8 names no file.
pub fn text_of(path: &[u8]) -> Result<&str, Error> {
    str::from_utf8(path).map_err(|_| Error::from(ErrorKind::InvalidInput))
}

// Opens a file to read it.
pub fn open_read(rt: &HostRuntime, path: &[u8]) -> Result<File, Error> {
    File::open(rt, text_of(path)?)
}

// Opens a file to write it, empty; where there is none, a new one.
pub fn open_overwrite(rt: &HostRuntime, path: &[u8]) -> Result<File, Error> {
    File::create(rt, text_of(path)?)
}

// Opens a file to read and write it, with its bytes as they are.
pub fn open_update(rt: &HostRuntime, path: &[u8]) -> Result<File, Error> {
    let text = text_of(path)?;
    OpenOptions::new().read(true).write(true).open(rt, text)
}

// ---- files

// Reads what has come of a file, or of standard input where none is lent; answers how many bytes came.
pub fn try_read(rt: &HostRuntime, file: Option<&File>, bytes: &mut [u8]) -> io::Result<usize>
    ensures { ReadsAtMost result bytes.new }
{
    match file {
        Some(file) => {
            let mut from = file;
            from.read(bytes)
        }
        None => rt.stdin().read(bytes),
    }
}

// The same, where a read that fails counts as one of no bytes.
pub fn read_some(rt: &HostRuntime, file: Option<&File>, bytes: &mut [u8]) -> usize
    ensures { IsPrefixLen result bytes.new }
{
    try_read(rt, file, bytes).unwrap_or(0)
}

// Writes all the bytes to a file, or to standard output where none is lent.
pub fn write_whole(rt: &HostRuntime, file: Option<&File>, bytes: &[u8]) -> Result<(), Error> {
    match file {
        Some(file) => {
            let mut to = file;
            to.write_all(bytes)
        }
        None => {
            let mut to = writer(rt);
            to.write_all(bytes)
        }
    }
}

// Waits until what was written has reached its device; of what is no file nothing is asked.
pub fn sync_where_file(file: &File) -> Result<(), Error> {
    match file.sync_all() {
        Err(error) if error.raw_os_error() == Some(NO_FILE) => Ok(()),
        synced => synced,
    }
}

// ---- words

// An error's text without its number.
fn word_of(text: &str) -> &str {
    text.split_once(" (os error ")
        .map_or(text, |(word, _)| word)
}

// Says to people what went wrong, and the system's word for it.
pub fn say_error(rt: &HostRuntime, what: &str, error: &Error) {
    let _said = match format!(in rt.alloc(); "{error}") {
        Ok(text) => {
            let word = word_of(text.as_str());
            eprintln!(rt; "{what}: {word}")
        }
        Err(_) => eprintln!(rt; "{what}: "),
    }
    .is_ok();
}
