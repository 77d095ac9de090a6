// The program: its first word says what it does, and the words behind it with what.
#![tactic(auto)]

mod command;

use command::Command;
use std::alloc::AllocError;
use std::env;

// How the program is called.
const USAGE: &str = "usage: watch run DIR < input
       watch check DIR [STATE]
       watch compile FILE [OUT]
       watch why DIR FLOW SIGNATURE OFFSET
       watch live [--segments] DIR LINE STATE LINES
       watch segments DIR < recorded
";

// The most bytes of a word, as of a path; a longer one counts as an empty one.
const MOST_WORD: usize = 4096;

// A word of the command line.
fn short(word: &str) -> &str {
    if word.len() > MOST_WORD { "" } else { word }
}

// The path of a folder's list, in an array that is lent.
fn rules_of<'a>(room: &'a mut [u8], folder: &str) -> &'a str {
    let path = program_files::path_of(room, folder.as_bytes(), b"/rules.bin");
    str::from_utf8(path).unwrap_or("")
}

// Does what a command says.
fn perform(rt: &HostRuntime, command: Command<'_>) {
    let mut room = io::buffer();
    match command {
        Command::Run { folder } => {
            let rules = rules_of(&mut room, folder);
            program_run::start(rt, rules.as_bytes());
        }
        Command::Check { folder, state } => program_check::check(rt, folder, state),
        Command::Compile { file, out } => program_compile::compile(rt, file, out),
        Command::Why {
            folder,
            flow,
            signature,
            offset,
        } => {
            let rules = rules_of(&mut room, folder);
            program_why::why_told(rt, rules, flow, signature, offset);
        }
        Command::Live {
            segments,
            folder,
            line,
            state,
            lines,
        } => {
            let rules = rules_of(&mut room, folder);
            program_live::watch_line(rt, segments, rules, line, state, lines);
        }
        Command::Segments { folder } => {
            let rules = rules_of(&mut room, folder);
            program_live::watch_recorded(rt, rules);
        }
    }
}

// Does what the words of the command line say, or says how the program is called. Words that are no UTF-8 are those of no command.
fn answer(rt: &HostRuntime) -> Result<(), AllocError> {
    let Ok(given) = env::args(rt) else {
        let _ = rt.eprint(USAGE);
        return Ok(());
    };
    let kept = given.skip(1).collect::<Vec<String>>(rt.alloc())?;
    let words = kept
        .iter()
        .map(|word| short(word.as_str()))
        .collect::<Vec<&str>>(rt.alloc())?;
    match Command::try_from(words.as_slice()) {
        Ok(command) => perform(rt, command),
        Err(_) => {
            let _ = rt.eprint(USAGE);
        }
    }
    Ok(())
}

// Where there is no memory for the words, they are those of no command.
fn main(rt: HostRuntime) {
    if answer(&rt).is_err() {
        let _ = rt.eprint(USAGE);
    }
}
