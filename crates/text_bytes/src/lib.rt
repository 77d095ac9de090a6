// The byte set of a leaf of a good text, and how many longest runs of bytes a set has.
// A place in the text is a number, since the promises say what is left of the text behind it.
#![tactic(auto)]

ghost use Rattle.std.specs.Prelude.{◌≡◌, true, false, ◌&&◌, ◌||◌, List, ◌∷◌, ◌++◌, ℕ, ◌≤◌, ◌<◌, ◌+◌, ◌-◌, eqb, length, drop, get_or};
ghost use Rattle.text.specs.Records.{runs};
ghost use Rattle.text.specs.inner.Heads.{head_of};
ghost use Rattle.sets.specs.Set.{byte_set_of, holds};
ghost use Rattle.text.specs.Grammar.{Single, Member, Leaf, amid, value, ok_single, ok_members, ok_leaf, spell, spell_members, spell_leaf, members_have, member_has, ok_member, spell_member, leaf_has};

use sets::ByteSet;
use sets_words::{next_byte, others, span};
use text::Read;

// The single byte at a place.
fn single_of(text: &[u8], at: usize) -> Read<usize>
    requires { at ≤ length text.now }
    ensures { (at < result.next) × (result.next ≤ at + 4) × ((out : List ℕ) (s : Single) (y : List ℕ) → amid 92 out ≡ true → ok_single out s ≡ true → drop at text.now ≡ spell s ++ y → (result.value ≡ value s) × (drop result.next text.now ≡ y)) }
{
    let c = list::byte_at(text, at);
    if c != b'\\' {
        return Read {
            value: usize::from(c),
            next: at + 1,
        };
    }
    if list::byte_at(text, at + 1) != b'x' {
        return Read {
            value: 10,
            next: at + 2,
        };
    }
    let a = text::hex_value(list::byte_at(text, at + 2));
    let b = text::hex_value(list::byte_at(text, at + 3));
    Read {
        value: 16 * a + b,
        next: at + 4,
    }
}

// Says whether `\s` stands at a place.
fn white(text: &[u8], at: usize) -> bool
    requires { at ≤ length text.now }
    ensures { result ≡ (eqb (get_or text.now at 0) 92 && eqb (get_or text.now (at + 1) 0) 115) }
{
    let a = list::byte_at(text, at);
    let b = list::byte_at(text, at + 1);
    (a == b'\\') & (b == b's')
}

// A set, with the bytes of the member at a place.
fn member_of(text: &[u8], at: usize, set: ByteSet) -> Read<ByteSet>
    requires { at ≤ length text.now }
    ensures { (at < result.next) × (result.next ≤ length text.now + 8) × ((m : Member) (y : List ℕ) → ok_member m ≡ true → eqb (head_of 0 y) 45 ≡ false → drop at text.now ≡ spell_member m ++ y → ((c : ℕ) → c < 256 → holds (byte_set_of result.value) c ≡ (holds (byte_set_of set) c || member_has m c)) × (drop result.next text.now ≡ y)) }
{
    if white(text, at) {
        let more = span(set, 32, 32);
        return Read {
            value: span(more, 9, 13),
            next: at + 2,
        };
    }
    let low = single_of(text, at);
    let p = low.next;
    if p < text.len() && text[p] == b'-' {
        let high = single_of(text, p + 1);
        return Read {
            value: span(set, low.value, high.value),
            next: high.next,
        };
    }
    Read {
        value: span(set, low.value, low.value),
        next: p,
    }
}

// The bytes of a class's members, from a place on.
fn class_set(text: &[u8], at: usize) -> ByteSet
    requires { at ≤ length text.now }
    ensures { (ms : List Member) (y : List ℕ) → ok_members ms ≡ true → drop at text.now ≡ spell_members ms ++ (93 ∷ y) → (c : ℕ) → c < 256 → holds (byte_set_of result) c ≡ members_have ms c }
{
    let mut next = at;
    let mut set = ByteSet::empty();
    // A step is a whole member.
    while next < text.len() && text[next] != b']' {
        let more = member_of(text, next, set);
        set = more.value;
        next = more.next;
    }
    set
}

// The byte set of the leaf at a place.
pub fn leaf_set(text: &[u8], at: usize) -> ByteSet
    requires { at < length text.now }
    ensures { (l : Leaf) (y : List ℕ) → ok_leaf l ≡ true → drop at text.now ≡ spell_leaf l ++ y → (c : ℕ) → c < 256 → holds (byte_set_of result) c ≡ leaf_has l c }
{
    let none = ByteSet::empty();
    match text[at] {
        b'.' => span(none, 0, 255),
        b'[' => {
            if at + 1 < text.len() && text[at + 1] == b'^' {
                return others(class_set(text, at + 2));
            }
            class_set(text, at + 1)
        }
        _ if white(text, at) => {
            let blank = span(none, 32, 32);
            span(blank, 9, 13)
        }
        _ => {
            let one = single_of(text, at);
            span(none, one.value, one.value)
        }
    }
}

// ---- longest runs of bytes

// How many longest runs of bytes a set has: each goes on to the next byte that is not in it.
pub fn run_count(set: ByteSet) -> usize
    ensures { (result ≡ length (runs (holds (byte_set_of set)) 256 0 0)) × (result ≤ 256) }
{
    let gaps = others(set);
    let mut n: usize = 0;
    let mut c = next_byte(set, 0);
    // A step is a whole run.
    while c < 256 {
        let end = next_byte(gaps, c);
        c = next_byte(set, end);
        n += 1;
    }
    n
}
