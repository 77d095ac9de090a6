// Blocks of bytes at which a feed stays: which bytes leave a place of an index, as two ranges, and where the first of a block lies in them.
#![tactic(auto)]

ghost use Rattle.std.specs.Prelude.{◌≡◌, ℕ, ◌+◌, ◌<◌, ◌≤◌, false, ◌⊎◌, length, if◌then◌else◌, slice_index};
ghost use Rattle.index_blocks.specs.inner.Ranges.{block_size, above, inside, hot, first_met};
ghost use Rattle.index_blocks.specs.Block.{word4, word_at};

// Bytes in a block.
pub const BLOCK: usize = 32;

// Past the places of a block: where no byte of it lies in the ranges.
const NONE: u8 = 255;

// Two ranges of bytes: where each begins, and how many more bytes it has.
#[derive(Clone, Copy)]
pub struct Ranges {
    pub low: u8,
    pub lows: u8,
    pub high: u8,
    pub highs: u8,
}

// The lowest and the highest byte that leaves a place.
#[derive(Clone, Copy)]
struct Hull {
    low: u8,
    high: u8,
}

// How far byte x is from byte low, upwards and around.
fn past(low: u8, x: u8) -> u8
    ensures { result ≡ above low x }
{
    x.wrapping_sub(low)
}

// Says whether x is one of the bytes from low on, so many more.
fn in_range(low: u8, more: u8, x: u8) -> bool
    ensures { result ≡ inside low more x }
{
    past(low, x) <= more
}

// Written out: in the loops below it is one instruction.
fn choose(hit: bool, x: u8, y: u8) -> u8
    ensures { result ≡ (if hit then x else y) }
{
    if hit { x } else { y }
}

// Where the first byte of a block lies that is in the ranges. It goes on behind one that is, so that the compiler tests all of them at once.
pub fn first_in(piece: &[u8], at: usize, r: Ranges) -> Option<u8>
    requires { at + block_size ≤ length piece.now }
    ensures { result ≡ first_met block_size (λ j. hot r.low r.lows r.high r.highs (slice_index piece.now (at + j))) }
{
    let a = r.low;
    let m = r.lows;
    let b = r.high;
    let n = r.highs;
    let mut f = NONE;
    for i in 0..BLOCK {
        let x = piece[at + i];
        let hit = in_range(a, m, x) | in_range(b, n, x);
        f = f.min(choose(hit, i as u8, NONE));
    }
    if f == NONE { None } else { Some(f) }
}

// The number in four bytes.
fn word_of(index: &[u8], at: usize) -> u32
    requires { at + 4 ≤ length index.now }
    ensures { result ≡ word4 index.now at }
{
    u32::from_le_bytes([index[at], index[at + 1], index[at + 2], index[at + 3]])
}

// The lowest and the highest of the bytes from `from` to `to` whose word at a place is not w; 255 and 0 where there is none.
fn hull_of(index: &[u8], place: usize, w: u32, from: usize, to: usize) -> Hull
    requires { (place + 1024 ≤ length index.now) × (from ≤ to) × (to ≤ 256) }
    ensures { (result.low < 256) × ((c : ℕ) → from ≤ c → c < to → (word_at index.now place c ≡ w) ⊎ ((result.low ≤ c) × (c ≤ result.high))) }
{
    let mut low = NONE;
    let mut high = 0u8;
    for i in from..to {
        let leaves = word_of(index, place + 4 * i) != w;
        low = low.min(choose(leaves, i as u8, NONE));
        high = high.max(choose(leaves, i as u8, 0));
    }
    Hull { low, high }
}

// How many bytes more a hull has than its lowest.
fn more_of(h: Hull) -> u8
    ensures { (c : ℕ) → h.low ≤ c → c ≤ h.high → c ≤ h.low + result }
{
    h.high.saturating_sub(h.low)
}

// Two ranges in which each byte lies whose word at a place is not w: one for the bytes below 64, one for the others.
pub fn leaving(index: &[u8], place: usize, w: u32) -> Ranges
    requires { place + 1024 ≤ length index.now }
    ensures { (c : ℕ) → c < 256 → hot result.low result.lows result.high result.highs c ≡ false → word_at index.now place c ≡ w }
{
    let a = hull_of(index, place, w, 0, 64);
    let b = hull_of(index, place, w, 64, 256);
    Ranges {
        low: a.low,
        lows: more_of(a),
        high: b.low,
        highs: more_of(b),
    }
}
