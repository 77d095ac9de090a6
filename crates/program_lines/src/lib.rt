// The lines of a file of texts: their fronts, and why a line is refused, in words and with a caret under the place. That this is safe and ends is shown.
#![tactic(auto)]

ghost use Rattle.std.specs.Prelude.{◌≡◌, suc};
ghost use Rattle.list.specs.List.{records};
ghost use Rattle.list.specs.Automaton.{highest};

use std::fmt;
use std::fmt::Write;

// The depth at which brackets are too deep; the bytes of a line that are shown, and how many of them before a place at most.
const DEEP: u32 = 17;

const SHOWN: usize = 100;

const BEFORE: usize = 60;

// ---- the front of a line

// A name, and where it begins in its line.
#[derive(Clone, Copy, Debug)]
pub struct Name<'a> {
    pub at: usize,
    pub word: &'a str,
}

// What stands in front of a line's text, and the text.
#[derive(Clone, Copy, Debug)]
pub struct Front<'a> {
    pub signature: u8,
    pub name: Option<Name<'a>>,
    pub text: &'a [u8],
}

// Where the rest of a line begins.
fn place_of(line: &[u8], rest: &[u8]) -> usize {
    line.len().saturating_sub(rest.len())
}

// Reads a line: a number, = and a name where there is one, a space, and the text.
pub fn read_line(line: &[u8]) -> Option<Front<'_>> {
    let (signature, rest) = program_files::split_number(line)?;
    let Some(named) = rest.strip_prefix(b"=") else {
        let text = rest.strip_prefix(b" ")?;
        return Some(Front {
            signature,
            name: None,
            text,
        });
    };
    let (word, rest) = program_files::split_name(named);
    if word.is_empty() {
        return None;
    }
    let name = Name {
        at: place_of(line, named),
        word: str::from_utf8(word).ok()?,
    };
    let text = rest.strip_prefix(b" ")?;
    Some(Front {
        signature,
        name: Some(name),
        text,
    })
}

// ---- why a line is refused

// How large a list is.
#[derive(Clone, Copy, PartialEq, Eq, Debug)]
pub struct Size {
    pub states: usize,
    pub records: usize,
}

impl Size {
    // How large a list is.
    pub fn of(list: &[u8]) -> Size
        ensures states { result.states ≡ suc (highest list.now) }
        ensures records { result.records ≡ records list.now }
    {
        Size {
            states: list::state_count(list),
            records: list::records(list),
        }
    }
}

// Why a line is refused, and at which of its bytes; or that its text and those before it are too many for a list.
#[derive(Clone, Copy, PartialEq, Eq, Debug)]
pub enum Fault {
    NoFront,
    OtherName {
        at: usize,
    },
    TooDeep {
        at: usize,
    },
    EndsTooSoon {
        at: usize,
    },
    DoesNotFit {
        at: usize,
    },
    TooBig {
        refusal: u32,
    },
    TooMany {
        refusal: u32,
        before: Size,
        own: Size,
    },
}

// The place of the bracket that opens too deep in a text that is refused for it. In a class none opens or closes.
fn deep_place(text: &[u8]) -> usize {
    let mut depth: u32 = 0;
    let mut in_class = false;
    for (i, c) in text.iter().enumerate() {
        in_class = if in_class { *c != b']' } else { *c == b'[' };
        depth = match c {
            b'(' if !in_class => depth.wrapping_add(1),
            b')' if !in_class => depth.wrapping_sub(1),
            _ => depth,
        };
        if depth == DEEP {
            return i;
        }
    }
    text.len()
}

impl Fault {
    // Why a text of a line is refused with a number, which was met at a place of the text.
    pub fn of_text(line: &[u8], text: &[u8], refusal: u32, place: usize) -> Fault {
        let begins = place_of(line, text);
        match refusal {
            rules::TOO_DEEP => Fault::TooDeep {
                at: begins.saturating_add(deep_place(text)),
            },
            rules::BAD_TEXT if place < text.len() => Fault::DoesNotFit {
                at: begins.saturating_add(place),
            },
            rules::BAD_TEXT => Fault::EndsTooSoon { at: line.len() },
            _ => Fault::TooBig { refusal },
        }
    }

    // The byte of the line under which a caret stands.
    fn place(&self) -> Option<usize> {
        match *self {
            Fault::NoFront => Some(0),
            Fault::OtherName { at }
            | Fault::TooDeep { at }
            | Fault::EndsTooSoon { at }
            | Fault::DoesNotFit { at } => Some(at),
            Fault::TooBig { .. } | Fault::TooMany { .. } => None,
        }
    }
}

impl fmt::Display for Fault {
    fn fmt<W: fmt::Write>(&self, f: &mut fmt::Formatter<W>) -> fmt::Result {
        match *self {
            Fault::NoFront => f.write_str(
                "no number below 256, or = and a name behind it, and space before a text",
            ),
            Fault::OtherName { .. } => f.write_str("the signature has another name already"),
            Fault::TooDeep { at } => write!(
                f,
                "refused {} at byte {at}: this bracket is the seventeenth in one another, and 16 may be",
                rules::TOO_DEEP
            ),
            Fault::EndsTooSoon { at } => write!(
                f,
                "refused {} at byte {at}: the text ends too soon",
                rules::BAD_TEXT
            ),
            Fault::DoesNotFit { at } => write!(
                f,
                "refused {} at byte {at}: the text does not fit from there on",
                rules::BAD_TEXT
            ),
            Fault::TooBig { refusal } => write!(
                f,
                "refused {refusal}: the text needs more than a list has, 1,024 states and 8,192 records"
            ),
            Fault::TooMany {
                refusal,
                before,
                own,
            } => write!(
                f,
                "refused {refusal}: the texts before it take {} states and {} records, and this one {} and {}; a list has at most 1,024 and 8,192: take fewer texts for a list",
                before.states, before.records, own.states, own.records
            ),
        }
    }
}

// ---- what is said

// A line as it is shown, or of a long one the part around a place, and a caret under that byte.
#[derive(Clone, Copy)]
struct Excerpt<'a> {
    line: &'a [u8],
    place: usize,
}

// A byte as it is shown: one that is no printing ASCII as a question mark.
fn shown(c: u8) -> char {
    match c {
        b' '..=b'~' => char::from(c),
        _ => '?',
    }
}

impl fmt::Display for Excerpt<'_> {
    fn fmt<W: fmt::Write>(&self, f: &mut fmt::Formatter<W>) -> fmt::Result {
        let begin = self.place.saturating_sub(BEFORE);
        f.write_str("    ")?;
        for c in self.line.iter().skip(begin).take(SHOWN) {
            f.write_char(shown(*c))?;
        }
        f.write_str("\n    ")?;
        for _ in begin..self.place {
            f.write_char(' ')?;
        }
        f.write_char('^')
    }
}

// Says why a line is refused, and shows it with a caret under the place.
pub fn say_fault(rt: &HostRuntime, number: u64, line: &[u8], fault: &Fault) {
    let _ = eprintln!(rt; "watch: line {number}: {fault}");
    if let Some(place) = fault.place() {
        let excerpt = Excerpt { line, place };
        let _ = eprintln!(rt; "{excerpt}");
    }
}
