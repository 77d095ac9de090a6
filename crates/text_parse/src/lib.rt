// The parser of signature text. What stands inside an item is read byte by byte, by a mode; alternatives, sequences and items
// call one another, with remaining length falling.
// A place in the text is a number, since the promises say what is left of the text behind it.
#![tactic(auto)]

ghost use Rattle.std.specs.Prelude.{◌≡◌, true, ℕ, ◌≤◌, ◌<◌, ◌+◌, length, drop, get_or, eqb, cond, false};
ghost use Rattle.std.specs.Bool.{then_some};
ghost use Rattle.text.specs.Grammar.{amid, special, class_special, is_hex};
ghost use Rattle.text.specs.Acceptor.{begin, fresh, after, esc, lone1, cesc, chex2, to, tesc, thex1, thex2, num, live, can, members, mode, verdict};
ghost use Rattle.text_parse.specs.inner.Went.{state_of, mode_of, counted, Within, went, Ahead, Pauses, Halts, answer};

use text::Read;

// Why a text does not fit: it is bad at a place, or a seventeenth bracket opens.
#[derive(Clone, Copy, PartialEq, Eq, Debug)]
pub enum Fault {
    Bad(usize),
    Deep,
}

// What is read of a class or an escape.
#[derive(Clone, Copy, PartialEq, Eq, Debug)]
enum Inner {
    Esc,
    Hex1,
    Hex2,
    Opened,
    Caret,
    Member,
    Lone(usize),
    ClassEsc,
    ClassHex1,
    ClassHex2(u8),
    To(usize),
    ToEsc(usize),
    ToHex1(usize),
    ToHex2(usize, u8),
}

// After one more byte of a class or an escape: the item is over, or it goes on.
#[derive(Clone, Copy, PartialEq, Eq, Debug)]
enum Step {
    Over,
    On(Inner),
}

// Brackets that may be open, each inside the one before.
const MOST_OPEN: usize = 16;

// Says whether a byte is a hex digit.
#[tactic(auto, unfolding(text::specs::Grammar::is_hex, text::specs::Grammar::is_digit))]
fn is_hex(c: u8) -> bool
    ensures { result ≡ is_hex c }
{
    matches!(c, b'0'..=b'9' | b'A'..=b'F' | b'a'..=b'f')
}

// Says whether a byte does not stand for itself.
#[tactic(auto, unfolding(text::specs::Grammar::amid))]
fn is_special(c: u8) -> bool
    ensures { result ≡ amid c special }
{
    matches!(
        c,
        b'\\' | b'.' | b'[' | b']' | b'(' | b')' | b'|' | b'*' | b'+' | b'?' | b'{' | b'}' | b'^'
    )
}

// Says whether a byte does not stand for itself in a class.
#[tactic(auto, unfolding(text::specs::Grammar::amid))]
fn class_special(c: u8) -> bool
    ensures { result ≡ amid c class_special }
{
    matches!(c, b'\\' | b'[' | b']' | b'^' | b'-')
}

// The value, with at most so many more digits, can become a number from low to 300.
fn can_end(low: usize, r: usize, v: usize) -> bool
    ensures { result ≡ can low r v }
{
    if v > 300 {
        return false;
    }
    if low <= v {
        return true;
    }
    if r == 0 {
        return false;
    }
    // No closure: a recursion through one gets no proof.
    for d in 0..10 {
        if can_end(low, r - 1, 10 * v + d) {
            return true;
        }
    }
    false
}

// ---- one byte inside an escape or a class: none where no continuation fits

// After a backslash.
#[tactic(auto, unfolding(text::specs::Acceptor::mode))]
fn esc_step(c: u8) -> Option<Step>
    ensures { (d : ℕ) → state_of d result ≡ mode d esc c }
{
    match c {
        b'n' | b's' => Some(Step::Over),
        b'x' => Some(Step::On(Inner::Hex1)),
        _ => None,
    }
}

// At a hex digit of an escape.
fn hex_step(c: u8, next: Step) -> Option<Step>
    ensures { result ≡ then_some (is_hex c) next }
{
    is_hex(c).then_some(next)
}

// Where a member of a class may begin.
#[tactic(auto, unfolding(text::specs::Acceptor::members))]
fn member_step(c: u8) -> Option<Step>
    ensures { (d : ℕ) → state_of d result ≡ members d c }
{
    if c == b'\\' {
        return Some(Step::On(Inner::ClassEsc));
    }
    (!class_special(c)).then_some(Step::On(Inner::Lone(usize::from(c))))
}

// After a backslash in a class.
#[tactic(auto, unfolding(text::specs::Acceptor::mode))]
fn class_esc_step(c: u8) -> Option<Step>
    ensures { (d : ℕ) → state_of d result ≡ mode d cesc c }
{
    match c {
        b'n' => Some(Step::On(Inner::Lone(10))),
        b's' => Some(Step::On(Inner::Member)),
        b'x' => Some(Step::On(Inner::ClassHex1)),
        _ => None,
    }
}

// At the second hex digit of an escape in a class; a is the first.
#[tactic(auto, unfolding(text::specs::Acceptor::mode))]
fn class_hex_step(a: u8, c: u8) -> Option<Step>
    ensures { (d : ℕ) → state_of d result ≡ mode d (chex2 a) c }
{
    hex_step(
        c,
        Step::On(Inner::Lone(16 * text::hex_value(a) + text::hex_value(c))),
    )
}

// After the minus of a range from v.
#[tactic(auto, unfolding(text::specs::Acceptor::mode))]
fn to_step(v: usize, c: u8) -> Option<Step>
    ensures { (d : ℕ) → state_of d result ≡ mode d (to v) c }
{
    if c == b'\\' {
        return Some(Step::On(Inner::ToEsc(v)));
    }
    (!class_special(c) && v <= usize::from(c)).then_some(Step::On(Inner::Member))
}

// After a backslash at the high end of a range from v.
#[tactic(auto, unfolding(text::specs::Acceptor::mode))]
fn to_esc_step(v: usize, c: u8) -> Option<Step>
    ensures { (d : ℕ) → state_of d result ≡ mode d (tesc v) c }
{
    match c {
        b'n' if v <= 10 => Some(Step::On(Inner::Member)),
        b'x' => Some(Step::On(Inner::ToHex1(v))),
        _ => None,
    }
}

// At the first hex digit of the high end of a range from v.
#[tactic(auto, unfolding(text::specs::Acceptor::mode))]
fn to_hex_step(v: usize, c: u8) -> Option<Step>
    ensures { (d : ℕ) → state_of d result ≡ mode d (thex1 v) c }
{
    (is_hex(c) && v <= 16 * text::hex_value(c) + 15).then_some(Step::On(Inner::ToHex2(v, c)))
}

// At the second hex digit of the high end of a range from v; a is the first.
#[tactic(auto, unfolding(text::specs::Acceptor::mode))]
fn to_last_step(v: usize, a: u8, c: u8) -> Option<Step>
    ensures { (d : ℕ) → state_of d result ≡ mode d (thex2 v a) c }
{
    let high = 16 * text::hex_value(a) + text::hex_value(c);
    (is_hex(c) && v <= high).then_some(Step::On(Inner::Member))
}

// A byte where a member may come, or n, after which comes what is given.
fn open_step(c: u8, n: u8, then: Step) -> Option<Step>
    ensures { (d : ℕ) → state_of d result ≡ cond (eqb c n) (state_of d (Some then)) (members d c) }
{
    if c == n {
        return Some(then);
    }
    member_step(c)
}

// After a single byte v of a class, which a minus may make a range.
#[tactic(auto, unfolding(text::specs::Acceptor::mode))]
fn lone_step(v: usize, c: u8) -> Option<Step>
    ensures { (d : ℕ) → state_of d result ≡ mode d (lone1 v) c }
{
    if c == b']' {
        return Some(Step::Over);
    }
    open_step(c, b'-', Step::On(Inner::To(v)))
}

// One byte inside an escape or a class.
#[tactic(auto, unfolding(text::specs::Acceptor::mode))]
fn inner_step(m: Inner, c: u8) -> Option<Step>
    ensures { (d : ℕ) → state_of d result ≡ mode d (mode_of m) c }
{
    match m {
        Inner::Esc => esc_step(c),
        Inner::Hex1 => hex_step(c, Step::On(Inner::Hex2)),
        Inner::Hex2 => hex_step(c, Step::Over),
        Inner::Opened => open_step(c, b'^', Step::On(Inner::Caret)),
        Inner::Caret => member_step(c),
        Inner::Member => open_step(c, b']', Step::Over),
        Inner::Lone(v) => lone_step(v, c),
        Inner::ClassEsc => class_esc_step(c),
        Inner::ClassHex1 => hex_step(c, Step::On(Inner::ClassHex2(c))),
        Inner::ClassHex2(a) => class_hex_step(a, c),
        Inner::To(v) => to_step(v, c),
        Inner::ToEsc(v) => to_esc_step(v, c),
        Inner::ToHex1(v) => to_hex_step(v, c),
        Inner::ToHex2(v, a) => to_last_step(v, a, c),
    }
}

// ---- numbers and marks

// The digits of a number from a place on, and the byte that ends it: the first number of a repeat, or the second, which is at least the first.
fn number(text: &[u8], at: usize, second: bool, low: usize) -> Result<Read<usize>, Fault>
    requires { at ≤ length text.now }
    ensures { ((d : ℕ) → d ≤ 16 → verdict (live d (num second low 3 0)) at (drop at text.now) ≡ counted text.now d second result) × Within at (length text.now) result }
{
    let end = if second { b'}' } else { b',' };
    let mut left: usize = 3;
    let mut value: usize = 0;
    // By index: the place is what is answered.
    for next in at..text.len() {
        let c = text[next];
        if c == end {
            if left < 3 && low <= value {
                return Ok(Read {
                    value,
                    next: next + 1,
                });
            }
            return Err(Fault::Bad(next));
        }
        if left == 0 || !text::is_digit(c) {
            return Err(Fault::Bad(next));
        }
        left -= 1;
        value = 10 * value + usize::from(c - b'0');
        if !can_end(low, left, value) {
            return Err(Fault::Bad(next));
        }
    }
    Err(Fault::Bad(text.len()))
}

// The two numbers of a repeat, after its opening brace.
fn repeat(text: &[u8], at: usize) -> Result<usize, Fault>
    requires { at ≤ length text.now }
    ensures { ((d : ℕ) → d ≤ 16 → verdict (live d (num false 0 3 0)) at (drop at text.now) ≡ went text.now d result) × Ahead at (length text.now) result }
{
    let least = number(text, at, false, 0)?;
    let most = number(text, least.next, true, least.value)?;
    Ok(most.next)
}

// The mark after an item, if there is one.
fn mark(text: &[u8], at: usize) -> Result<usize, Fault>
    requires { at ≤ length text.now }
    ensures { ((d : ℕ) → d ≤ 16 → verdict (live d after) at (drop at text.now) ≡ went text.now d result) × Ahead at (length text.now) result }
{
    if at == text.len() {
        return Ok(at);
    }
    match text[at] {
        b'{' => repeat(text, at + 1),
        b'*' | b'+' | b'?' => Ok(at + 1),
        _ => Ok(at),
    }
}

// The rest of an escape or a class, and the mark after it.
fn inside(text: &[u8], at: usize, from: Inner) -> Result<usize, Fault>
    requires { at ≤ length text.now }
    ensures { ((d : ℕ) → d ≤ 16 → verdict (live d (mode_of from)) at (drop at text.now) ≡ went text.now d result) × Ahead at (length text.now) result }
{
    let mut m = from;
    // By index: the place is what is answered.
    for next in at..text.len() {
        match inner_step(m, text[next]) {
            None => return Err(Fault::Bad(next)),
            Some(Step::Over) => return mark(text, next + 1),
            Some(Step::On(n)) => m = n,
        }
    }
    Err(Fault::Bad(text.len()))
}

// ---- alternatives, sequences and items

// Whether a letter stands for itself at a place, with no mark behind it.
fn is_lone(text: &[u8], at: usize) -> bool
    requires { at < length text.now }
    ensures { result ≡ true → (d : ℕ) → d ≤ 16 → verdict (live d fresh) at (drop at text.now) ≡ verdict (live d fresh) (at + 1) (drop (at + 1) text.now) }
{
    if is_special(text[at]) {
        return false;
    }
    if at + 1 == text.len() {
        return true;
    }
    match text[at + 1] {
        b'{' => false,
        b'*' | b'+' | b'?' => false,
        _ => true,
    }
}

// The place behind the letters from a place on that stand for themselves: most of a long text is such, and none needs more than a look.
fn letters(text: &[u8], at: usize) -> usize
    requires { at ≤ length text.now }
    ensures { (at ≤ result) × (result ≤ length text.now)
        × ((d : ℕ) → d ≤ 16 → verdict (live d fresh) at (drop at text.now) ≡ verdict (live d fresh) result (drop result text.now)) }
{
    // By index: the place is what is answered.
    for next in at..text.len() {
        if !is_lone(text, next) {
            return next;
        }
    }
    text.len()
}

// Sequences with bars between them, up to a closing bracket or the end.
#[cycle(alternatives_item_sequence)]
fn alternatives(text: &[u8], at: usize, depth: usize) -> Result<usize, Fault>
    requires { (at ≤ length text.now) × (depth ≤ 16) }
    ensures { (verdict (live depth fresh) at (drop at text.now) ≡ went text.now depth result) × Ahead at (length text.now) result × Halts text.now result }
{
    let mut next = sequence(text, at, depth)?;
    // A step is a whole sequence.
    while next < text.len() && text[next] == b'|' {
        next = sequence(text, next + 1, depth)?;
    }
    Ok(next)
}

// Items one after the other, up to a bar, a closing bracket or the end.
#[cycle(alternatives_item_sequence)]
fn sequence(text: &[u8], at: usize, depth: usize) -> Result<usize, Fault>
    requires { (at ≤ length text.now) × (depth ≤ 16) }
    ensures { (verdict (live depth fresh) at (drop at text.now) ≡ went text.now depth result) × Ahead at (length text.now) result × Pauses text.now result }
{
    let mut next = letters(text, at);
    // A step is a whole item.
    while next < text.len() && text[next] != b'|' && text[next] != b')' {
        next = letters(text, item(text, next, depth)?);
    }
    Ok(next)
}

// One item with its mark; an opening bracket is one deeper.
#[cycle(alternatives_item_sequence)]
fn item(text: &[u8], at: usize, depth: usize) -> Result<usize, Fault>
    requires { (at < length text.now) × (depth ≤ 16) × (get_or text.now at 0 ≡ 124 → ⊥) × (get_or text.now at 0 ≡ 41 → ⊥) }
    ensures { (verdict (live depth fresh) at (drop at text.now) ≡ went text.now depth result) × Ahead (at + 1) (length text.now) result }
{
    match text[at] {
        b'(' => {
            if depth == MOST_OPEN {
                return Err(Fault::Deep);
            }
            let end = alternatives(text, at + 1, depth + 1)?;
            if end == text.len() {
                return Err(Fault::Bad(end));
            }
            mark(text, end + 1)
        }
        b'[' => inside(text, at + 1, Inner::Opened),
        b'\\' => inside(text, at + 1, Inner::Esc),
        b'.' => mark(text, at + 1),
        c if is_special(c) => Err(Fault::Bad(at)),
        _ => mark(text, at + 1),
    }
}

// The whole text: whether it fits, or why not.
pub fn check_text(text: &[u8]) -> Result<(), Fault>
    ensures { answer result ≡ verdict (live 0 begin) 0 text.now }
{
    let start = usize::from(text::is_bound(text));
    let end = alternatives(text, start, 0)?;
    if end < text.len() {
        return Err(Fault::Bad(end));
    }
    Ok(())
}
