// `watch check DIR [STATE]`: looks at what the programs read of a box: the list, the names beside it, and the state of a live line where one is named. Each has
// a line or two of its own, and the last line says `passed` or `refused`. Here it is shown that this is safe and ends; what a check says of a list, a record or
// a state, the crates below promise.
#![tactic(auto)]

ghost use Rattle.std.specs.Prelude.{◌≡◌, length};
ghost use Rattle.program_turn.specs.State.{state_size};

use program_files::Ending;
use program_turn::Kind;
use std::fmt;

// The bytes of a state that are read: one more than it has, so that a longer one is seen as too long.
const STATE_READ: usize = 4305;

// What is not good about a box.
#[derive(Clone, Copy, PartialEq, Eq, Debug)]
enum Fault {
    NamesTooLong,
    NoName { line: u64 },
    StateNotRead,
    NoState,
    OtherList,
    BadRecord,
    BadPlace,
}

impl fmt::Display for Fault {
    fn fmt<W: fmt::Write>(&self, f: &mut fmt::Formatter<W>) -> fmt::Result {
        match *self {
            Fault::NamesTooLong => write!(f, "names: this has more than 1,048,576 bytes"),
            Fault::NoName { line } => write!(
                f,
                "names: line {line} is no number below 256, space and name"
            ),
            Fault::StateNotRead => write!(f, "the state cannot be read"),
            Fault::NoState => write!(f, "this is no state: it has not 4,304 bytes"),
            Fault::OtherList => write!(f, "the state is one of another list"),
            Fault::BadRecord => write!(f, "the state has a record that the list refuses, with 4"),
            Fault::BadPlace => write!(
                f,
                "the state has a kind or a held place that there is none of"
            ),
        }
    }
}

// ---- the list

// Says how many states and records a list has.
fn say_list(rt: &HostRuntime, list: &[u8]) {
    let _ = println!(rt; "states {}", list::state_count(list));
    let _ = println!(rt; "records {}", list::records(list));
}

// ---- the names

// Whether a line is a signature's number, a space and a name.
fn is_name(line: &[u8]) -> bool {
    let Some((_signature, rest)) = program_files::split_number(line) else {
        return false;
    };
    let Some(named) = rest.strip_prefix(b" ") else {
        return false;
    };
    let (name, rest) = program_files::split_name(named);
    !name.is_empty() && rest.is_empty()
}

// Says how many names a file has, where each line is one.
fn check_lines(rt: &HostRuntime, file: &[u8]) -> Result<(), Fault> {
    let mut names: u64 = 0;
    for line in file.split_inclusive(|c| *c == b'\n') {
        names = names.saturating_add(1);
        if !is_name(program_files::line_of(line)) {
            return Err(Fault::NoName { line: names });
        }
    }
    let _ = println!(rt; "names {names}");
    Ok(())
}

// Checks the file of names at a path, where there is one.
fn check_names(rt: &HostRuntime, path: &[u8]) -> Result<(), Fault> {
    let mut room = program_files::texts_buffer();
    let Some(file) = program_files::read_start(rt, path, &mut room) else {
        return Ok(());
    };
    if file.len() > program_files::MOST_TEXTS {
        return Err(Fault::NamesTooLong);
    }
    check_lines(rt, file)
}

// ---- the state

// Says the offset of a state that has a record which goes on by a list, and a kind and a held place that there are.
fn check_parts(rt: &HostRuntime, list: &[u8], state: &[u8]) -> Result<(), Fault>
    requires { length state.now ≡ state_size }
{
    if !program_turn::is_state_of(list, state) {
        return Err(Fault::OtherList);
    }
    let mut flow = [0u8; list_flow::FLOW_SIZE];
    program_turn::take_part(state, program_turn::FLOW_AT, &mut flow);
    let offset = list_flow::offset_of(&flow);
    if list_flow::feed_refusal(list, &flow, offset, b"") != rules::PASSED {
        return Err(Fault::BadRecord);
    }
    let held = numbers::number_at(state, program_turn::HELD_LENGTH_AT, 4);
    let kind = numbers::number_at(state, program_turn::KIND_AT, 4);
    if held > segment::HELD_SIZE as u64 || Kind::of_number(kind).is_none() {
        return Err(Fault::BadPlace);
    }
    let before = numbers::number_at(state, program_turn::BEFORE_AT, 8);
    let _ = println!(rt; "offset {}", before.wrapping_add(offset));
    Ok(())
}

// Checks the state at a path, which is one of a list with nothing behind it.
fn check_state(rt: &HostRuntime, list: &[u8], path: &[u8]) -> Result<(), Fault> {
    let mut room = [0u8; STATE_READ];
    let Some(state) = program_files::read_start(rt, path, &mut room) else {
        return Err(Fault::StateNotRead);
    };
    if state.len() != program_turn::STATE_SIZE {
        return Err(Fault::NoState);
    }
    check_parts(rt, list, state)
}

// ---- the command

// Checks what is in a folder, and a state where one is named.
fn check_box(rt: &HostRuntime, folder: &[u8], state: &[u8]) -> Result<Ending, Fault> {
    let mut room = io::buffer();
    let rules = program_files::path_of(&mut room, folder, b"/rules.bin");
    let mut bytes = program_text::list_buffer();
    let n = program_text::read_rules(rt, rules, &mut bytes);
    let list = &bytes[..n];
    let refusal = list::check_list(list);
    if refusal != rules::PASSED {
        return Ok(Ending::RefusedBy(refusal));
    }
    say_list(rt, list);
    let mut beside = io::buffer();
    let names = program_files::path_of(&mut beside, folder, b"/names");
    check_names(rt, names)?;
    if !state.is_empty() {
        check_state(rt, list, state)?;
    }
    Ok(Ending::Passed)
}

// `watch check DIR [STATE]`; the state has no bytes where none is named. Paths are bytes; one that is no UTF-8 names no file.
pub fn check_folder(rt: &HostRuntime, folder: &[u8], state: &[u8]) {
    let ending = match check_box(rt, folder, state) {
        Ok(ending) => ending,
        Err(fault) => {
            let _ = eprintln!(rt; "watch: {fault}");
            Ending::Refused
        }
    };
    let _ = println!(rt; "{ending}");
}

// The same, by paths that are texts.
pub fn check(rt: &HostRuntime, folder: &str, state: Option<&str>) {
    check_folder(rt, folder.as_bytes(), state.unwrap_or("").as_bytes());
}
