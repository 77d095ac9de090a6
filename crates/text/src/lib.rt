// Signature text: its grammar, the byte strings that it stands for, its position automaton and that automaton's list, as definitions and laws; and what
// every reader of a text asks of a byte.
#![tactic(auto)]

ghost use Rattle.std.specs.Prelude.{◌≡◌, ◌<◌, eqb, true};
ghost use Rattle.text.specs.Grammar.{Text, text_reads, ok_body, is_digit, hex_value};
ghost use Rattle.text.specs.inner.Heads.{head_of};

// What is read at a place of a text, and the place after it.
#[derive(Clone, Copy)]
pub struct Read<T> {
    pub value: T,
    pub next: usize,
}

// Says whether a byte is a decimal digit.
#[tactic(auto, unfolding(crate::specs::Grammar::is_digit))]
pub fn is_digit(c: u8) -> bool
    ensures { result ≡ is_digit c }
{
    matches!(c, b'0'..=b'9')
}

// The value of a hex digit.
#[tactic(auto, unfolding(crate::specs::Grammar::is_digit, crate::specs::Grammar::hex_value))]
pub fn hex_value(c: u8) -> usize
    ensures { (result ≡ hex_value c) × (result < 256) }
{
    let zero = match c {
        b'0'..=b'9' => b'0',
        ..=b'F' => b'A' - 10,
        _ => b'a' - 10,
    };
    usize::from(c.saturating_sub(zero))
}

// Says whether one `^` binds a text to the front.
pub fn is_bound(text: &[u8]) -> bool
    ensures first { result ≡ eqb (head_of 0 text.now) 94 }
    ensures bound { (x : Text) → ok_body x.body ≡ true → text_reads x ≡ text.now → result ≡ x.bound }
{
    !text.is_empty() && text[0] == b'^'
}
