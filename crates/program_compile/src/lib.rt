// `watch compile FILE [OUT]`: a file of texts to a list and its names, over the library's own calls. Each text is compiled, its list joined to those before it
// and the whole folded. Here it is shown that this is safe and ends; what a list is, the crates below promise. A line that is refused is said on standard
// error, with a caret under the place; then nothing is written.
#![tactic(auto)]

use program_files::Ending;
use program_lines::{Fault, Size};
use std::fs::File;
use std::io::{Error, Write};
use std::{fmt, fs};

// The most bytes of a list, how many lines are said to be refused, and how many signatures there are.
const MOST_LIST: usize = 65536;

const MOST_SAID: u64 = 20;

const SIGNATURES: usize = 256;

// ---- the list

// That a text's list and those before it are too many.
fn too_many(refusal: u32, before: &[u8], own: &[u8]) -> Fault {
    Fault::TooMany {
        refusal,
        before: Size::of(before),
        own: Size::of(own),
    }
}

// Where a name stands in the file of texts.
#[derive(Clone, Copy)]
struct Place {
    from: usize,
    to: usize,
}

// What is made of the lines so far: the list and the bytes of it that are in use, the name of each signature, and how many texts were taken and lines refused.
// Beside it the places for one text's list and for a folded one. In arrays: so there is no memory that may be missing.
#[derive(Clone, Copy)]
struct Gathered {
    list: [u8; MOST_LIST],
    used: usize,
    names: [Option<Place>; SIGNATURES],
    texts: u64,
    refused: u64,
    one: [u8; MOST_LIST],
    work: [u8; MOST_LIST],
}

// The bytes in use at the front of what is lent.
fn front(bytes: &[u8], used: usize) -> &[u8] {
    &bytes[..used.min(bytes.len())]
}

// Puts a list to the front of what is lent; answers how many bytes are in use then.
fn put(bytes: &mut [u8], list: &[u8]) -> usize {
    let n = list.len().min(bytes.len());
    bytes[..n].copy_from_slice(&list[..n]);
    n
}

// The name at a place of the file.
fn name_at(file: &[u8], place: Place) -> &[u8] {
    file.get(place.from..place.to).unwrap_or(b"")
}

impl Gathered {
    // Joins the list of a text to those before it, and folds the whole.
    fn add(&mut self, length: usize) -> Result<(), Fault> {
        let used = self.used;
        let one = front(&self.one, length);
        if used == 0 {
            self.used = put(&mut self.list, one);
            return Ok(());
        }
        let joined = list_join::join(&mut self.list, used, one);
        if joined.refusal != rules::PASSED {
            return Err(too_many(joined.refusal, front(&self.list, used), one));
        }
        let folded = list_fold::fold(front(&self.list, joined.length), &mut self.work);
        if folded.refusal != rules::PASSED {
            return Err(too_many(folded.refusal, front(&self.list, used), one));
        }
        self.used = put(&mut self.list, front(&self.work, folded.length));
        Ok(())
    }

    // Keeps the name of a signature, which stands at a place of the file; says whether it has no other.
    fn keep_name(&mut self, file: &[u8], signature: u8, place: Place) -> bool {
        match self.names[usize::from(signature)] {
            Some(had) => name_at(file, had) == name_at(file, place),
            None => {
                self.names[usize::from(signature)] = Some(place);
                true
            }
        }
    }

    // Takes a line, which begins at a place of the file: its name is kept, its text compiled, and, where no line was refused before, its list added.
    fn take_line(&mut self, file: &[u8], begins: usize, line: &[u8]) -> Result<(), Fault> {
        if line.is_empty() || line[0] == b'#' {
            return Ok(());
        }
        let Some(read) = program_lines::read_line(line) else {
            return Err(Fault::NoFront);
        };
        if let Some(name) = read.name {
            let from = begins.saturating_add(name.at);
            let place = Place {
                from,
                to: from.saturating_add(name.word.len()),
            };
            if !self.keep_name(file, read.signature, place) {
                return Err(Fault::OtherName { at: name.at });
            }
        }
        let made = text_compile::compile(read.text, read.signature, &mut self.one);
        if made.refusal != rules::PASSED {
            return Err(Fault::of_text(line, read.text, made.refusal, made.place));
        }
        if self.refused == 0 {
            self.add(made.length)?;
            self.texts = self.texts.saturating_add(1);
        }
        Ok(())
    }

    // Takes the lines of a file of texts, and says which are refused.
    fn take_lines(&mut self, rt: &HostRuntime, file: &[u8]) {
        let mut begins = 0usize;
        let lines = file.split_inclusive(|c| *c == b'\n');
        for (number, whole) in (1..u64::MAX).zip(lines) {
            let line = program_files::line_of(whole);
            if let Err(fault) = self.take_line(file, begins, line) {
                if self.refused < MOST_SAID {
                    program_lines::say_fault(rt, number, line, &fault);
                }
                self.refused = self.refused.saturating_add(1);
            }
            begins = begins.saturating_add(whole.len());
        }
    }
}

// ---- files

// Whether a path is a folder that can be read.
fn is_folder(rt: &HostRuntime, path: &[u8]) -> bool {
    let mut room = io::buffer();
    program_system::open_read(rt, program_files::path_of(&mut room, path, b"/.")).is_ok()
}

// Takes a file away, where there is one.
fn remove(rt: &HostRuntime, path: &[u8]) {
    if let Ok(text) = program_system::text_of(path) {
        let _ = fs::remove_file(rt, text);
    }
}

// Gives a file another name.
fn rename(rt: &HostRuntime, from: &[u8], to: &[u8]) -> Result<(), Error> {
    fs::rename(
        rt,
        program_system::text_of(from)?,
        program_system::text_of(to)?,
    )
}

// Writes bytes to a file, and waits until they have reached its device.
fn put_list(mut file: File, bytes: &[u8]) -> Result<(), Error> {
    file.write_all(bytes)?;
    file.sync_all()
}

// Writes the lines of the names, by their signatures, to a file, and waits until they have reached its device.
fn put_names(
    mut file: File,
    texts: &[u8],
    names: &[Option<Place>; SIGNATURES],
) -> Result<(), Error> {
    for (signature, name) in names.iter().enumerate() {
        if let Some(place) = *name {
            write!(file, "{signature} ")?;
            file.write_all(name_at(texts, place))?;
            file.write_all(b"\n")?;
        }
    }
    file.sync_all()
}

// Ends a new file, which stands on the disk then; where it was not written there is none.
fn end_new(rt: &HostRuntime, path: &[u8], written: Result<(), Error>) -> Result<(), Error> {
    if written.is_err() {
        remove(rt, path);
    }
    written
}

// Writes a new list, which stands on the disk then; where that fails, there is none.
fn write_list(rt: &HostRuntime, path: &[u8], list: &[u8]) -> Result<(), Error> {
    let file = program_system::open_overwrite(rt, path)?;
    end_new(rt, path, put_list(file, list))
}

// Writes a new file of names in the same way.
fn write_names(
    rt: &HostRuntime,
    path: &[u8],
    texts: &[u8],
    names: &[Option<Place>; SIGNATURES],
) -> Result<(), Error> {
    let file = program_system::open_overwrite(rt, path)?;
    end_new(rt, path, put_names(file, texts, names))
}

// Writes a list and its names in the place of the old ones: both are whole before one takes its place.
fn write_both(
    rt: &HostRuntime,
    rules: &[u8],
    list: &[u8],
    beside: &[u8],
    texts: &[u8],
    names: &[Option<Place>; SIGNATURES],
) -> Result<(), Failure> {
    let mut room = io::buffer();
    let new_rules = program_files::path_of(&mut room, rules, b".new");
    let mut other = io::buffer();
    let new_names = program_files::path_of(&mut other, beside, b".new");
    write_list(rt, new_rules, list)?;
    if write_names(rt, new_names, texts, names).is_err() {
        remove(rt, new_rules);
        return Err(Failure::NotWritten);
    }
    if rename(rt, new_rules, rules).is_err() {
        remove(rt, new_rules);
        remove(rt, new_names);
        return Err(Failure::NotWritten);
    }
    rename(rt, new_names, beside)?;
    Ok(())
}

// The front of a path up to its last stroke, which it has; none where there is no stroke.
fn folder_of(path: &[u8]) -> &[u8] {
    match path.iter().rposition(|c| *c == b'/') {
        Some(place) => path.get(..=place).unwrap_or(path),
        None => b"",
    }
}

// Writes a list to OUT, or to rules.bin where that is a folder, and the names beside it.
fn write_out(
    rt: &HostRuntime,
    out: &[u8],
    list: &[u8],
    texts: &[u8],
    names: &[Option<Place>; SIGNATURES],
) -> Result<(), Failure> {
    let mut room = io::buffer();
    let mut other = io::buffer();
    if is_folder(rt, out) {
        let rules = program_files::path_of(&mut room, out, b"/rules.bin");
        let beside = program_files::path_of(&mut other, out, b"/names");
        return write_both(rt, rules, list, beside, texts, names);
    }
    let beside = program_files::path_of(&mut other, folder_of(out), b"names");
    write_both(rt, out, list, beside, texts, names)
}

// ---- the command

// Why the command ends without a last line.
#[derive(Clone, Copy, PartialEq, Eq, Debug)]
enum Failure {
    NotRead,
    TooLong,
    NotWritten,
}

impl fmt::Display for Failure {
    fn fmt<W: fmt::Write>(&self, f: &mut fmt::Formatter<W>) -> fmt::Result {
        f.write_str(match *self {
            Failure::NotRead => "the file is empty, or cannot be read",
            Failure::TooLong => "the file has more than 1,048,576 bytes",
            Failure::NotWritten => "cannot write the list or its names",
        })
    }
}

impl From<Error> for Failure {
    fn from(_error: Error) -> Failure {
        Failure::NotWritten
    }
}

// Says how many texts a list has been made of, and how large it is.
fn say_list(rt: &HostRuntime, texts: u64, list: &[u8]) {
    let size = Size::of(list);
    let word = if texts == 1 { "text" } else { "texts" };
    let _ = eprintln!(rt;
        "watch: {texts} {word}, {} states, {} records",
        size.states, size.records
    );
}

// Compiles the texts of a file that is read; writes the list where `out` names a place.
fn compile_texts(rt: &HostRuntime, file: &[u8], out: &[u8]) -> Result<Ending, Failure> {
    let mut made = Gathered {
        list: [0; MOST_LIST],
        used: 0,
        names: [None; SIGNATURES],
        texts: 0,
        refused: 0,
        one: [0; MOST_LIST],
        work: [0; MOST_LIST],
    };
    made.take_lines(rt, file);
    if made.refused > MOST_SAID {
        let _ = eprintln!(rt;
            "watch: {} more lines are refused",
            made.refused - MOST_SAID
        );
    }
    if made.refused > 0 {
        return Ok(Ending::Refused);
    }
    if made.used == 0 {
        let _ = eprintln!(rt; "watch: no text in the file");
        return Ok(Ending::Refused);
    }
    let list = front(&made.list, made.used);
    say_list(rt, made.texts, list);
    if !out.is_empty() {
        write_out(rt, out, list, file, &made.names)?;
    }
    Ok(Ending::Passed)
}

// Reads a file of texts, and compiles it.
fn compile_path(rt: &HostRuntime, path: &[u8], out: &[u8]) -> Result<Ending, Failure> {
    let mut room = program_files::texts_buffer();
    let file = program_files::read_start(rt, path, &mut room).ok_or(Failure::NotRead)?;
    if file.is_empty() {
        return Err(Failure::NotRead);
    }
    if file.len() > program_files::MOST_TEXTS {
        return Err(Failure::TooLong);
    }
    if list::check_list(file) == rules::PASSED {
        let _ = eprintln!(rt; "watch: the file is a list, and no file of texts");
        return Ok(Ending::Refused);
    }
    compile_texts(rt, file, out)
}

// `watch compile FILE [OUT]`; OUT has no bytes where none is named. Paths are bytes; one that is no UTF-8 names no file.
pub fn compile_file(rt: &HostRuntime, path: &[u8], out: &[u8]) {
    let _ = match compile_path(rt, path, out) {
        Ok(ending) => println!(rt; "{ending}"),
        Err(failure) => eprintln!(rt; "watch: {failure}"),
    };
}

// The same, by paths that are texts.
pub fn compile(rt: &HostRuntime, path: &str, out: Option<&str>) {
    compile_file(rt, path.as_bytes(), out.unwrap_or("").as_bytes());
}
