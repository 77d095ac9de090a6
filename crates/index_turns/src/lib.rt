// The loops of a feed by places that tell: stretches of turns with the bytes that tell between them, and blocks of bytes skipped where a stretch stays at a place.
// A `while` stands where a step takes as many bytes as tell nothing.
#![tactic(auto)]

ghost use Rattle.std.specs.Prelude.{◌≡◌, ◌+◌, ◌≤◌, ◌<◌, length, IfSome};
ghost use Rattle.std.specs.Option.{option_map};
ghost use Rattle.feed.specs.Engine.{most_offset};
ghost use Rattle.feed.specs.inner.Told.{TellsAll};
ghost use Rattle.index.specs.Entry.{entry_size, limit, telling, place_of, told_of};
ghost use Rattle.index_turns.specs.inner.Goes.{stands_of, Strides};

use index_blocks::Ranges;
use sets::SigSet;
use std::ops::ControlFlow;

// The bytes of a stretch: where it ends at the place where it began, blocks are tried.
const STRETCH: usize = 64;

// Fewer bytes than these are left: no blocks are tried.
const WORTH: usize = 256;

// Where a word whose pairs fit leads: the place, and the words then written.
#[derive(Clone, Copy)]
struct Followed {
    place: usize,
    words: usize,
}

// What a loop leaves: the place, the bytes consumed, the words written and the rows read.
#[derive(Clone, Copy)]
pub struct Stands {
    pub place: usize,
    pub bytes: usize,
    pub words: usize,
    pub rows: u64,
}

// Where a loop stands; it breaks off where the feed ends there.
pub type Strode = ControlFlow<Stands, Stands>;

// Where it stands, whether it goes on or not.
pub fn stands_of(strode: Strode) -> Stands
    ensures { result ≡ stands_of strode }
{
    match strode {
        ControlFlow::Continue(stands) | ControlFlow::Break(stands) => stands,
    }
}

// Follows a word: tells what it says at an offset, behind the words that are written; None where there is no room for its pairs.
fn follow(
    index: &[u8],
    word: usize,
    pairs: &mut [u32],
    words: usize,
    offset: u32,
) -> Option<Followed>
    requires { (words ≤ length pairs.old) × (entry_size ≤ length index.now) }
    ensures place { IfSome result (λ f. f.place ≡ place_of word) }
    ensures told { TellsAll (told_of index.now word) pairs.old words offset (option_map (λ f. f.words) result) pairs.new }
{
    if word < index::TELLING {
        return Some(Followed { place: word, words });
    }
    let place = word - index::TELLING;
    if index.len() - index::REST <= place {
        return Some(Followed { place, words });
    }
    let signatures = SigSet::from_bytes(index, place + index::SIGS_PLACE);
    let words = feed::tell_all(pairs, words, signatures, offset)?;
    Some(Followed { place, words })
}

// Runs from byte `from` at a place to byte `stop`: by turns, and byte by byte where a word tells or names no entry. Ends where pairs do not fit or no entry stands.
fn stretch(
    index: &[u8],
    piece: &[u8],
    offset: u64,
    from: usize,
    place: usize,
    told: usize,
    stop: usize,
    pairs: &mut [u32],
) -> Strode
    requires { (from ≤ stop) × (stop ≤ length piece.now) × (place < limit index.now) × (length index.now < telling) × (offset + length piece.now ≤ most_offset) × (told ≤ length pairs.old) }
    ensures { Strides index.now piece.now offset from place pairs.old told stop result pairs.new }
{
    let end = index.len() - index::REST;
    let mut i = from;
    let mut at = place;
    let mut words = told;
    let mut rows = 0u64;
    while i < stop {
        let turned = index_quiet::turns(index, piece, i, at, stop);
        rows += turned.rows;
        at = turned.place;
        i = turned.bytes;
        if stop <= i {
            continue;
        }
        let w = index_quiet::word_at(index, at, piece[i]);
        let Some(led) = follow(index, w, pairs, words, (offset + i as u64 + 1) as u32) else {
            return ControlFlow::Break(Stands {
                place: at,
                bytes: i,
                words,
                rows,
            });
        };
        rows += index_quiet::cost_at(index, at);
        at = led.place;
        words = led.words;
        i += 1;
        if end <= at {
            return ControlFlow::Break(Stands {
                place: at,
                bytes: i,
                words,
                rows,
            });
        }
    }
    ControlFlow::Continue(Stands {
        place: at,
        bytes: i,
        words,
        rows,
    })
}

// Where a stretch from byte i on ends, in a piece of `len` bytes.
fn stretch_end(i: usize, len: usize) -> usize
    requires { i < len }
    ensures { (i < result) × (result ≤ len) }
{
    if len - i < STRETCH { len } else { i + STRETCH }
}

// Runs from a place with a whole entry, at an offset, over the bytes whose pairs all fit the words: by stretches, and where one ends at the place where it began, by blocks.
pub fn run(index: &[u8], piece: &[u8], offset: u64, place: usize, pairs: &mut [u32]) -> Strode
    requires { (place < limit index.now) × (length index.now < telling) × (offset + length piece.now ≤ most_offset) }
    ensures { Strides index.now piece.now offset 0 place pairs.old 0 (length piece.now) result pairs.new }
{
    let mut i = 0;
    let mut at = place;
    let mut words = 0;
    let mut rows = 0u64;
    let mut known = index.len();
    let mut r = Ranges {
        low: 0,
        lows: 255,
        high: 0,
        highs: 255,
    };
    while i < piece.len() {
        let strode = stretch(
            index,
            piece,
            offset,
            i,
            at,
            words,
            stretch_end(i, piece.len()),
            pairs,
        );
        let s = match strode {
            ControlFlow::Continue(s) => s,
            ControlFlow::Break(s) => {
                return ControlFlow::Break(Stands {
                    rows: rows + s.rows,
                    ..s
                });
            }
        };
        rows += s.rows;
        i = s.bytes;
        words = s.words;
        if s.place != at {
            at = s.place;
            continue;
        }
        if piece.len() - i < WORTH {
            continue;
        }
        r = index_quiet::ranges_of(index, at, known, r);
        known = at;
        let c = index_quiet::calm(index, piece, i, at, r);
        rows += c.rows;
        i = c.bytes;
    }
    ControlFlow::Continue(Stands {
        place: at,
        bytes: i,
        words,
        rows,
    })
}
