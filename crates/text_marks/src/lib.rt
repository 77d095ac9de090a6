// Leaves and marks of a good text: where a leaf ends, which mark stands behind an item, and its numbers; and groups that are repeated no times,
// which are passed over.
// A place in the text is a number, since the promises say what is left of the text behind it.
#![tactic(auto)]

ghost use Rattle.std.specs.Prelude.{◌≡◌, true, false, List, ◌∷◌, ◌++◌, ℕ, ◌≤◌, ◌<◌, ◌+◌, ◌*◌, ◌-◌, length, drop, IfSome};
ghost use Rattle.text.specs.Grammar.{Leaf, Mark, Body, ok_leaf, ok_mark, ok_body, spell_leaf, spell_mark, reads, is_digit, all_digits, number_from};
ghost use Rattle.text.specs.inner.Heads.{Calm, Stop};
ghost use Rattle.text_marks.specs.inner.Marks.{Atom, ok_atom, atom_then, times_of, UpTo, Never, without};

use text::Read;

// How often an item comes, as its mark says: no mark, `*`, `+`, `?`, or a repeat with its numbers.
#[derive(Clone, Copy, PartialEq, Eq, Debug)]
pub enum Times {
    Once,
    Star,
    Plus,
    Maybe,
    Between(usize, usize),
}

// The place after the first closing bracket of a class.
fn class_end(text: &[u8], at: usize) -> usize
    requires { at ≤ length text.now }
    ensures { (at ≤ result) × (result ≤ length text.now) × ((u y : List ℕ) → without 93 u ≡ true → drop at text.now ≡ u ++ (93 ∷ y) → drop result text.now ≡ y) }
{
    // By index: the place is what is answered.
    for next in at..text.len() {
        if text[next] == b']' {
            return next + 1;
        }
    }
    text.len()
}

// The place after a leaf.
pub fn leaf_end(text: &[u8], at: usize) -> usize
    requires { at < length text.now }
    ensures { (at < result) × (result ≤ length text.now) × ((l : Leaf) (y : List ℕ) → ok_leaf l ≡ true → drop at text.now ≡ spell_leaf l ++ y → drop result text.now ≡ y) }
{
    let n = text.len();
    match text[at] {
        b'[' => class_end(text, at + 1),
        b'\\' => {
            if at + 1 < n && text[at + 1] == b'x' {
                return n.min(at + 4);
            }
            n.min(at + 2)
        }
        _ => at + 1,
    }
}

// One byte further, if there is one.
pub fn past(i: usize, n: usize) -> usize
    ensures { (i ≤ result) × (i ≤ n → result ≤ n) × (i < n → result ≡ i + 1) }
{
    if i < n { i + 1 } else { i }
}

// One more digit; what is past 300 stays past it.
fn more(v: usize, c: u8) -> usize
    ensures { (result ≤ 4000) × (v ≤ 300 → 48 ≤ c → result ≡ 10 * v + (c - 48)) }
{
    if v <= 300 && b'0' <= c {
        return 10 * v + usize::from(c - b'0');
    }
    4000
}

// The number at a place, and the place after its digits.
fn digits(text: &[u8], at: usize) -> Read<usize>
    requires { at ≤ length text.now }
    ensures { (at ≤ result.next) × (result.next ≤ length text.now) × (result.value ≤ 4000) × ((ds : List ℕ) (e : ℕ) (y : List ℕ) → all_digits ds ≡ true → number_from 0 ds ≤ 300 → is_digit e ≡ false → drop at text.now ≡ ds ++ (e ∷ y) → (result.value ≡ number_from 0 ds) × (drop result.next text.now ≡ e ∷ y)) }
{
    let mut value: usize = 0;
    // By index: the place is what is answered.
    for next in at..text.len() {
        let c = text[next];
        if !text::is_digit(c) {
            return Read { value, next };
        }
        value = more(value, c);
    }
    Read {
        value,
        next: text.len(),
    }
}

// The mark at a place, if there is one.
pub fn mark_of(text: &[u8], at: usize) -> Read<Times>
    requires { at ≤ length text.now }
    ensures { (at ≤ result.next) × (result.next ≤ length text.now) × UpTo 4000 result.value × ((m : Mark) (y : List ℕ) → ok_mark m ≡ true → Calm y → drop at text.now ≡ spell_mark m ++ y → (times_of m ≡ result.value) × (drop result.next text.now ≡ y)) }
{
    let n = text.len();
    if at == n {
        return Read {
            value: Times::Once,
            next: at,
        };
    }
    let value = match text[at] {
        b'*' => Times::Star,
        b'+' => Times::Plus,
        b'?' => Times::Maybe,
        b'{' => {
            let least = digits(text, at + 1);
            let most = digits(text, past(least.next, n));
            return Read {
                value: Times::Between(least.value, most.value),
                next: past(most.next, n),
            };
        }
        _ => {
            return Read {
                value: Times::Once,
                next: at,
            };
        }
    };
    Read {
        value,
        next: at + 1,
    }
}

// ---- what is passed over

// The place of the bracket that closes alternatives, from a place in them on; or the end.
fn pass_over(text: &[u8], at: usize) -> usize
    requires { at ≤ length text.now }
    ensures { (at ≤ result) × (result ≤ length text.now) × ((b : Body) (x : List ℕ) → ok_body b ≡ true → Stop x → drop at text.now ≡ reads b ++ x → drop result text.now ≡ x) }
{
    let mut next = at;
    // A step is a whole item.
    while next < text.len() {
        match text[next] {
            b')' => return next,
            b'|' => next += 1,
            b'(' => {
                let inner = pass_over(text, next + 1);
                next = mark_of(text, past(inner, text.len())).next;
            }
            _ => next = mark_of(text, leaf_end(text, next)).next,
        }
    }
    next
}

// The place after a group that is repeated no times, where one stands at the place.
pub fn none_end(text: &[u8], at: usize) -> Option<usize>
    requires { at < length text.now }
    ensures { IfSome result (λ p. (at < p) × (p ≤ length text.now) × ((a : Atom) (m : Mark) (y : List ℕ) → ok_atom a ≡ true → ok_mark m ≡ true → Calm y → drop at text.now ≡ atom_then a (spell_mark m ++ y) → Never (times_of m) × (drop p text.now ≡ y))) }
{
    if text[at] != b'(' {
        return None;
    }
    let inner = pass_over(text, at + 1);
    let mark = mark_of(text, past(inner, text.len()));
    match mark.value {
        Times::Between(_, 0) => Some(mark.next),
        _ => None,
    }
}
