// Sets by whole words: the next member from a place on, the bytes from one to another, those that are not in a set, and a set with every member
// further on. A word without members costs one test. Where a member is sought and there is none, the answer is the end: there each caller's loop
// ends. Loops go by index where a word's place is an argument.
#![tactic(auto)]

ghost use Rattle.std.specs.Prelude.{◌≡◌, true, false, ◌&&◌, ◌||◌, not, ℕ, ◌+◌, ◌-◌, ◌*◌, ◌^◌, ◌<◌, ◌≤◌, leb, length};
ghost use Rattle.numbers.specs.Number.{num};
ghost use Rattle.sets.specs.Set.{states, byte_count, set_words, set_of, byte_set_of, holds};
ghost use Rattle.sets_words.specs.inner.Next.{Next};
ghost use Rattle.sets_words.specs.inner.Further.{further, Straddles, Strides};

use sets::{ByteSet, StateSet};

// ---- the next member

// The place of the lowest 1 of a word that is not 0.
pub fn lowest(x: u64) -> usize
    requires { x ≡ 0 → ⊥ }
    ensures { (result < 64) × (holds x result ≡ true) × ((q : ℕ) → q < result → holds x q ≡ false) }
{
    u64::trailing_zeros(x) as usize
}

// The first bit that is 1 from word i on; where there is none, as many as the words have.
fn bit_ahead(w: &[u64], from: usize) -> usize
    requires { (from ≤ length w.now) × (length w.now < 2 ^ 32) }
    ensures { Next (num 64 w.now) (64 * from) (64 * length w.now) result }
{
    for i in from..w.len() {
        if w[i] != 0 {
            return 64 * i + lowest(w[i]);
        }
    }
    64 * w.len()
}

// The first bit that is 1 from bit s on.
fn next_bit(w: &[u64], s: usize) -> usize
    requires { length w.now < 2 ^ 32 }
    ensures { Next (num 64 w.now) s (64 * length w.now) result }
{
    let i = s / 64;
    if w.len() <= i {
        return 64 * w.len();
    }
    let x = w[i] >> (s % 64);
    if x != 0 {
        return s + lowest(x);
    }
    bit_ahead(w, i + 1)
}

// The first state of a set from s on; where there is none below the end, the end.
pub fn next_state(set: StateSet, s: usize, end: usize) -> usize
    requires { end ≤ states }
    ensures { Next (set_of set) s end result }
{
    let w = set.words;
    let r = next_bit(&w, s);
    if r < end { r } else { end }
}

// The first byte of a set from c on; where there is none, 256.
pub fn next_byte(set: ByteSet, c: usize) -> usize
    ensures { Next (byte_set_of set) c byte_count result }
{
    let w = set.words;
    next_bit(&w, c)
}

// ---- bytes from one to another, and those that are not in a set

// A word of ones.
const ALL: u64 = 18446744073709551615;

// The ones from bit a to bit b.
fn ones_between(a: usize, b: usize) -> u64
    requires { (a ≤ b) × (b < 64) }
    ensures { (s : ℕ) → s < 64 → holds result s ≡ (leb a s && leb s b) }
{
    (ALL >> (63 - (b - a))) << a
}

// The bits of word i that stand from low to high.
fn ones_in(low: usize, high: usize, i: usize) -> u64
    requires { i < 2 ^ 32 }
    ensures { (s : ℕ) → s < 64 → holds result s ≡ (leb low (64 * i + s) && leb (64 * i + s) high) }
{
    if high < low {
        return 0;
    }
    if high < 64 * i {
        return 0;
    }
    if 64 * i + 63 < low {
        return 0;
    }
    let a = low.saturating_sub(64 * i);
    if high < 64 * i + 63 {
        return ones_between(a, high - 64 * i);
    }
    ones_between(a, 63)
}

// The bytes from one to another, too.
pub fn span(set: ByteSet, low: usize, high: usize) -> ByteSet
    ensures { (c : ℕ) → c < 256 → holds (byte_set_of result) c ≡ (holds (byte_set_of set) c || (leb low c && leb c high)) }
{
    let a = set.words;
    let mut w = a;
    for i in 0..sets::BYTE_WORDS {
        w[i] = a[i] | ones_in(low, high, i);
    }
    ByteSet::of_words(w)
}

// The bytes that are not in the set.
pub fn others(set: ByteSet) -> ByteSet
    ensures { (c : ℕ) → c < 256 → holds (byte_set_of result) c ≡ not (holds (byte_set_of set) c) }
{
    let mut w = set.words;
    for x in &mut w {
        *x ^= ALL;
    }
    ByteSet::of_words(w)
}

// ---- every member further on

// The high bits of one word and the low bits of the next, as one word.
fn straddle(high: u64, low: u64, b: usize) -> u64
    requires { b < 64 }
    ensures { Straddles high low b result }
{
    if b == 0 {
        return high;
    }
    (high << b) | (low >> (64 - b))
}

// Word i of words whose bits all go d further on.
fn word_further(w: &[u64], d: usize, i: usize) -> u64
    requires { i < set_words }
    ensures { Strides w.now d i result }
{
    let j = d / 64;
    if i < j {
        return 0;
    }
    let high = sets::word_of(w, i - j);
    if i == j {
        return straddle(high, 0, d % 64);
    }
    straddle(high, sets::word_of(w, i - j - 1), d % 64)
}

// Each state of a set, d further on.
pub fn shifted(s: StateSet, d: usize) -> StateSet
    ensures { set_of result ≡ further d (set_of s) }
{
    let a = s.words;
    let mut w = [0u64; sets::WORDS];
    for i in 0..sets::WORDS {
        w[i] = word_further(&a, d, i);
    }
    StateSet::of_words(w)
}
