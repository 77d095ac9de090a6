// Quiet bytes: the loops of a feed by places over bytes that tell nothing. Turns of four bytes, bytes one by one, and blocks of bytes skipped where the feed stays at a place. No definition mentions turns or blocks.
// A `while` stands where a step takes four bytes, a block, or as many bytes as stay.
// What `few` and `turns` ask of the lengths, `turn` asks again: they take slices, of which no type says it.
#![tactic(auto)]

ghost use Rattle.std.specs.Prelude.{◌≡◌, false, ℕ, ◌+◌, ◌*◌, ◌≤◌, ◌<◌, length};
ghost use Rattle.index_blocks.specs.inner.Ranges.{hot};
ghost use Rattle.index_blocks.specs.Block.{word_at};
ghost use Rattle.index.specs.Entry.{entry_size, limit, telling, cost_at};
ghost use Rattle.index_quiet.specs.inner.Moves.{Moves};

use index_blocks::Ranges;

// A block, a byte that leaves, and one that comes back.
const ROUND: usize = index_blocks::BLOCK + 2;

// A skip of fewer bytes than these gives little, and so many of them in a row are enough.
const LITTLE: usize = 8;

const TRIES: usize = 4;

// How far quiet bytes led: so many bytes of the piece, a place, the rows read on the way.
#[derive(Clone, Copy)]
pub struct Led {
    pub bytes: usize,
    pub place: usize,
    pub rows: u64,
}

// The word of byte c at a place.
pub fn word_at(index: &[u8], place: usize, c: u8) -> usize
    requires { place + entry_size ≤ length index.now }
    ensures { result ≡ word_at index.now place c }
{
    let at = place + 4 * usize::from(c);
    let bytes = [index[at], index[at + 1], index[at + 2], index[at + 3]];
    u32::from_le_bytes(bytes) as usize
}

// What a byte at a place costs.
pub fn cost_at(index: &[u8], place: usize) -> u64
    requires { place + entry_size ≤ length index.now }
    ensures { (result ≡ cost_at index.now place) × (result < 256) }
{
    u64::from(index[place + index::COST_PLACE])
}

// A turn: goes on by four bytes, where there are so many before `stop`, while words name places and tell nothing.
fn turn(index: &[u8], piece: &[u8], i: usize, at: usize, stop: usize) -> Led
    requires { (i ≤ stop) × (stop ≤ length piece.now) × (at < limit index.now) × (length index.now < telling) × (length piece.now < 4294967296) }
    ensures { (i ≤ result.bytes) × (result.bytes ≤ stop) × (result.place < limit index.now) × (result.rows + 255 * i ≤ 255 * result.bytes)
        × Moves index.now piece.now i at result.bytes result.place result.rows }
{
    let end = index.len() - index::REST;
    if stop - i < 4 {
        return Led {
            bytes: i,
            place: at,
            rows: 0,
        };
    }
    let x = word_at(index, at, piece[i]);
    if end <= x {
        return Led {
            bytes: i,
            place: at,
            rows: 0,
        };
    }
    let first = cost_at(index, at);
    let y = word_at(index, x, piece[i + 1]);
    if end <= y {
        return Led {
            bytes: i + 1,
            place: x,
            rows: first,
        };
    }
    let second = first + cost_at(index, x);
    let z = word_at(index, y, piece[i + 2]);
    if end <= z {
        return Led {
            bytes: i + 2,
            place: y,
            rows: second,
        };
    }
    let third = second + cost_at(index, y);
    let v = word_at(index, z, piece[i + 3]);
    if end <= v {
        return Led {
            bytes: i + 3,
            place: z,
            rows: third,
        };
    }
    Led {
        bytes: i + 4,
        place: v,
        rows: third + cost_at(index, z),
    }
}

// Goes on by turns, up to fewer than four bytes before `stop`, while words name places and tell nothing.
pub fn turns(index: &[u8], piece: &[u8], from: usize, place: usize, stop: usize) -> Led
    requires { (from ≤ stop) × (stop ≤ length piece.now) × (place < limit index.now) × (length index.now < telling) × (length piece.now < 4294967296) }
    ensures { (from ≤ result.bytes) × (result.bytes ≤ stop) × (result.place < limit index.now) × (result.rows + 255 * from ≤ 255 * result.bytes)
        × Moves index.now piece.now from place result.bytes result.place result.rows }
{
    let mut i = from;
    let mut at = place;
    let mut rows = 0u64;
    while 4 <= stop - i {
        let led = turn(index, piece, i, at, stop);
        rows = rows + led.rows;
        at = led.place;
        if led.bytes != i + 4 {
            return Led {
                bytes: led.bytes,
                place: at,
                rows,
            };
        }
        i = led.bytes;
    }
    Led {
        bytes: i,
        place: at,
        rows,
    }
}

// Goes on byte by byte, while words name places and tell nothing.
pub fn few(index: &[u8], piece: &[u8], place: usize) -> Led
    requires { (place < limit index.now) × (length index.now < telling) × (length piece.now < 4294967296) }
    ensures { (result.bytes ≤ length piece.now) × (result.place < limit index.now) × (result.rows ≤ 255 * result.bytes)
        × Moves index.now piece.now 0 place result.bytes result.place result.rows }
{
    let end = index.len() - index::REST;
    let mut at = place;
    let mut rows = 0u64;
    for (i, c) in piece.iter().enumerate() {
        let w = word_at(index, at, *c);
        if end <= w {
            return Led {
                bytes: i,
                place: at,
                rows,
            };
        }
        rows += cost_at(index, at);
        at = w;
    }
    Led {
        bytes: piece.len(),
        place: at,
        rows,
    }
}

// How many bytes from `from` on stay at a place, as far as blocks show: up to the first that lies in the ranges, or to where no block is left.
fn skip(index: &[u8], piece: &[u8], from: usize, place: usize, r: Ranges) -> usize
    requires { (from ≤ length piece.now) × (place < limit index.now) × (length index.now < telling)
        × ((c : ℕ) → c < 256 → hot r.low r.lows r.high r.highs c ≡ false → word_at index.now place c ≡ place) }
    ensures { (from + result ≤ length piece.now) × Moves index.now piece.now from place (from + result) place (result * cost_at index.now place) }
{
    let mut n = 0;
    while index_blocks::BLOCK <= piece.len() - from - n {
        match index_blocks::first_in(piece, from + n, r) {
            Some(f) => return n + usize::from(f),
            None => n += index_blocks::BLOCK,
        }
    }
    n
}

// What so many bytes at one place cost.
fn times(n: usize, c: u64) -> u64
    requires { (n < 4294967296) × (c < 256) }
    ensures { (result ≡ n * c) × (result ≤ 255 * n) }
{
    (n as u64) * c
}

// Tries less one where a skip gave little, else as many as there may be.
fn tries(left: usize, got: usize) -> usize
    ensures { result ≤ left + 4 }
{
    if LITTLE <= got {
        TRIES
    } else {
        left.saturating_sub(1)
    }
}

// From a place with its ranges: skips blocks, and where a byte leaves and the next one comes back, goes on.
pub fn calm(index: &[u8], piece: &[u8], from: usize, place: usize, r: Ranges) -> Led
    requires { (from ≤ length piece.now) × (place < limit index.now) × (length index.now < telling)
        × ((c : ℕ) → c < 256 → hot r.low r.lows r.high r.highs c ≡ false → word_at index.now place c ≡ place) × (length piece.now < 4294967296) }
    ensures { (from ≤ result.bytes) × (result.bytes ≤ length piece.now) × (result.place ≡ place) × (result.rows + 255 * from ≤ 255 * result.bytes)
        × Moves index.now piece.now from place result.bytes place result.rows }
{
    let end = index.len() - index::REST;
    let cost = cost_at(index, place);
    let mut i = from;
    let mut rows = 0u64;
    let mut left = 1;
    while ROUND <= piece.len() - i {
        let n = skip(index, piece, i, place, r);
        rows = rows + times(n, cost);
        i = i + n;
        left = tries(left, n);
        if left == 0 {
            return Led {
                bytes: i,
                place,
                rows,
            };
        }
        if piece.len() - i < 2 {
            return Led {
                bytes: i,
                place,
                rows,
            };
        }
        let x = word_at(index, place, piece[i]);
        if end <= x {
            return Led {
                bytes: i,
                place,
                rows,
            };
        }
        if word_at(index, x, piece[i + 1]) != place {
            return Led {
                bytes: i,
                place,
                rows,
            };
        }
        rows = rows + cost + cost_at(index, x);
        i = i + 2;
    }
    Led {
        bytes: i,
        place,
        rows,
    }
}

// The ranges of a place: those that are known, where it is theirs, else found anew.
pub fn ranges_of(index: &[u8], place: usize, known: usize, r: Ranges) -> Ranges
    requires { (place < limit index.now) × (length index.now < telling)
        × ((c : ℕ) → c < 256 → hot r.low r.lows r.high r.highs c ≡ false → word_at index.now known c ≡ known) }
    ensures { (c : ℕ) → c < 256 → hot result.low result.lows result.high result.highs c ≡ false → word_at index.now place c ≡ place }
{
    if place == known {
        return r;
    }
    index_blocks::leaving(index, place, place as u32)
}
