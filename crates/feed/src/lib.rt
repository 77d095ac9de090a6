// What every opening and every feed has: its answer, and the words of the pairs that it tells.
#![tactic(auto)]

ghost use Rattle.std.specs.Prelude.{◌≡◌, ◌+◌, ◌*◌, ◌-◌, ◌/◌, ◌^◌, ◌≤◌, ◌<◌, length, leb};
ghost use Rattle.sets.specs.Set.{signatures, size, sigs_of};
ghost use Rattle.rules.specs.Rules.{verdict};
ghost use Rattle.feed.specs.Engine.{most_offset};
ghost use Rattle.feed.specs.Piece.{other_start, too_long, piece_rules};
ghost use Rattle.feed.specs.inner.Tells.{Unfed, Ends, Tells};
ghost use Rattle.feed.specs.inner.Told.{TellsAll};

use sets::SigSet;

// The largest offset.
pub const MOST_OFFSET: u64 = 4294967295;

// What a feed answers: a refusal's number or 0, the bytes consumed, the pairs told, and whether all bytes were consumed.
// C's struct has `all`, too; bytes and pairs hold either way.
#[derive(Clone, Copy)]
pub struct Fed {
    pub refusal: u32,
    pub bytes: usize,
    pub pairs: usize,
    pub all: bool,
}

// What opening a flow answers: a refusal's number or 0, and the pairs told.
#[derive(Clone, Copy)]
pub struct Opened {
    pub refusal: u32,
    pub pairs: usize,
}

// The answer of a feed that a rule refuses.
pub fn refused(refusal: u32) -> Fed
    ensures { Unfed refusal result }
{
    Fed {
        refusal,
        bytes: 0,
        pairs: 0,
        all: false,
    }
}

// The answer of a feed of a piece of `len` bytes whose loop has ended: with a refusal or 0, so many bytes consumed and so many words written.
pub fn ended(refusal: u32, bytes: usize, words: usize, len: usize) -> Fed
    ensures { Ends refusal bytes words len result }
{
    Fed {
        refusal,
        bytes,
        pairs: words / 2,
        all: bytes == len,
    }
}

// Says whether the stated start of a piece is another than the offset of its flow.
pub fn other_start(offset: u64, start: u64) -> bool
    ensures { result ≡ other_start offset start }
{
    start != offset
}

// Says whether a piece at the offset of its flow ends past the largest offset.
pub fn too_long(offset: u64, piece: &[u8]) -> bool
    requires { offset ≤ most_offset }
    ensures { result ≡ too_long offset piece.now }
{
    piece.len() as u64 > MOST_OFFSET - offset
}

// The check of a piece at the offset of its flow: the number of the first of the rules 5 and 6 that refuses it, 0 where neither does.
pub fn piece_refusal(offset: u64, start: u64, piece: &[u8]) -> u32
    requires { offset ≤ most_offset }
    ensures { result ≡ verdict (piece_rules offset start piece.now) }
{
    if other_start(offset, start) {
        return rules::OTHER_START;
    }
    if too_long(offset, piece) {
        return rules::TOO_LONG;
    }
    rules::PASSED
}

// Writes signature s and the offset at word w, where the bit is 1; answers the word after.
fn tell_one(pairs: &mut [u32], w: usize, bit: u64, s: usize, offset: u32) -> usize
    requires { (bit < 2) × (bit * 2 ^ s < 2 ^ signatures) × (w + 2 * size signatures (bit * 2 ^ s) ≤ length pairs.old) }
    ensures { Tells (bit * 2 ^ s) pairs.old w offset result pairs.new }
{
    if bit == 1 {
        let signature = s as u32;
        pairs[w] = signature;
        pairs[w + 1] = offset;
        return w + 2;
    }
    w
}

// Writes signature and offset for each bit of a word that is 1, from word `at` on; its lowest bit is signature `base`. Each is found by the zeros below it: so the loop goes by the bits that are left. Answers the word after.
fn tell_word(pairs: &mut [u32], at: usize, word: u64, base: usize, offset: u32) -> usize
    requires { (word * 2 ^ base < 2 ^ signatures) × (at + 2 * size signatures (word * 2 ^ base) ≤ length pairs.old) }
    ensures { Tells (word * 2 ^ base) pairs.old at offset result pairs.new }
{
    let mut w = at;
    let mut rest = word;
    let mut s = base;
    while rest != 0 {
        let zeros = sets_words::lowest(rest);
        w = tell_one(pairs, w, 1, s + zeros, offset);
        rest = (rest >> zeros) / 2;
        s = s + zeros + 1;
    }
    w
}

// Writes signature and offset for each member of the set, from word `at` on, where there is room for all of them. Answers the word after.
pub fn tell(pairs: &mut [u32], at: usize, g: SigSet, offset: u32) -> usize
    requires { at + 2 * size signatures (sigs_of g) ≤ length pairs.old }
    ensures { Tells (sigs_of g) pairs.old at offset result pairs.new }
{
    let words = g.words;
    let mut w = at;
    for i in 0..sets::SIG_WORDS {
        w = tell_word(pairs, w, words[i], 64 * i, offset);
    }
    w
}

// Says whether there is room for the pairs of a set behind the words that are written. They are counted only where there is none for those of all signatures.
fn has_room(pairs: &[u32], words: usize, g: SigSet) -> bool
    requires { words ≤ length pairs.now }
    ensures { result ≡ leb (size signatures (sigs_of g)) ((length pairs.now - words) / 2) }
{
    let room = (pairs.len() - words) / 2;
    if sets::SIGNATURES <= room {
        return true;
    }
    g.count() as usize <= room
}

// Tells a set of signatures behind the words that are written: all of it, and answers the word after; or nothing, where it does not fit.
pub fn tell_all(pairs: &mut [u32], words: usize, g: SigSet, offset: u32) -> Option<usize>
    requires { words ≤ length pairs.old }
    ensures { TellsAll (sigs_of g) pairs.old words offset result pairs.new }
{
    if has_room(pairs, words, g) {
        let end = tell(pairs, words, g, offset);
        return Some(end);
    }
    None
}
