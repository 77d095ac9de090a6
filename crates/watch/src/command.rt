// The words of the command line, as a command.

// What the program is asked for.
#[derive(Clone, Copy, PartialEq, Eq, Debug)]
pub enum Command<'a> {
    // Watches standard input by the list of a folder.
    Run {
        folder: &'a str,
    },
    // Checks what the programs read of a box.
    Check {
        folder: &'a str,
        state: Option<&'a str>,
    },
    // Compiles a file of texts.
    Compile {
        file: &'a str,
        out: Option<&'a str>,
    },
    // Says why a pair is told.
    Why {
        folder: &'a str,
        flow: &'a str,
        signature: &'a str,
        offset: &'a str,
    },
    // Watches a line that is still open, of bytes or of segments.
    Live {
        segments: bool,
        folder: &'a str,
        line: &'a str,
        state: &'a str,
        lines: &'a str,
    },
    // Watches a recorded line of segments on standard input.
    Segments {
        folder: &'a str,
    },
}

// The words are those of no command.
#[derive(Clone, Copy, PartialEq, Eq, Debug)]
pub struct NoCommand;

// A word that may be left out: an empty one counts as none.
fn unless_empty(word: &str) -> Option<&str> {
    Some(word).filter(|word| !word.is_empty())
}

impl<'a> TryFrom<&[&'a str]> for Command<'a> {
    type Error = NoCommand;

    fn try_from(words: &[&'a str]) -> Result<Command<'a>, NoCommand> {
        match words {
            ["run", folder] => Ok(Command::Run { folder }),
            ["check", folder] => Ok(Command::Check {
                folder,
                state: None,
            }),
            ["check", folder, state] => Ok(Command::Check {
                folder,
                state: unless_empty(state),
            }),
            ["compile", file] => Ok(Command::Compile { file, out: None }),
            ["compile", file, out] => Ok(Command::Compile {
                file,
                out: unless_empty(out),
            }),
            ["why", folder, flow, signature, offset] => Ok(Command::Why {
                folder,
                flow,
                signature,
                offset,
            }),
            ["live", folder, line, state, lines] => Ok(Command::Live {
                segments: false,
                folder,
                line,
                state,
                lines,
            }),
            ["live", "--segments", folder, line, state, lines] => Ok(Command::Live {
                segments: true,
                folder,
                line,
                state,
                lines,
            }),
            ["segments", folder] => Ok(Command::Segments { folder }),
            _ => Err(NoCommand),
        }
    }
}
