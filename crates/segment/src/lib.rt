// Resends: segments by 32-bit sequence number. Which bytes are due next, and the one place where a segment that comes too early is held.
// The numbers are those of the definitions, one by one; `take` and `due` have them as C gives them.
#![tactic(auto)]

ghost use Rattle.std.specs.Prelude.{◌≡◌, ◌&&◌, ◌||◌, ◌≤◌, ◌++◌, length, drop};
ghost use Rattle.segment.specs.Resend.{distance, ahead, has_next, all_before, bad_sizes, early, full, up_to, taking, part_due, due};
ghost use Rattle.segment.specs.Post.{Takes, number_of, Finds};

// The most bytes of a segment, and the bytes of the held buffer.
pub const MOST_SEGMENT: usize = 65535;

pub const HELD_SIZE: usize = 4096;

// One number comes after another when it lies less than this ahead.
const HALF: u32 = 2147483648;

// The refusal of a segment.
pub const NOT_TAKEN: u32 = rules::SEGMENT;

// How many bytes are held where the held place is free.
const FREE: u32 = 0;

// What taking a segment answers: a refusal's number or 0, and the held place at exit: its first number, and how many bytes are held.
#[derive(Clone, Copy)]
pub struct Held {
    pub refusal: u32,
    pub start: u32,
    pub length: u32,
}

// Where bytes that are due come from.
#[derive(Clone, Copy, PartialEq, Eq, Debug)]
pub enum Source {
    Buffer,
    Segment,
}

// The number of a source, as C and the replay's tape have it: 1 the held buffer, 2 the segment; 0 says that nothing is due.
pub fn source_number(source: Source) -> u32
    ensures { result ≡ number_of source }
{
    match source {
        Source::Buffer => 1,
        Source::Segment => 2,
    }
}

// A part that is due: of the held buffer or of the segment, from a place on.
#[derive(Clone, Copy, PartialEq, Eq, Debug)]
pub struct Part {
    pub source: Source,
    pub at: usize,
    pub length: usize,
}

// How far `to` lies past `from`, round the circle.
#[tactic(auto, unfolding(crate::specs::Resend::distance))]
fn distance(from: u32, to: u32) -> u32
    ensures { result ≡ distance from to }
{
    to.wrapping_sub(from)
}

// Says whether number p comes after the next one.
#[tactic(auto, unfolding(crate::specs::Resend::ahead))]
fn ahead(next: u32, p: u32) -> bool
    ensures { result ≡ ahead next p }
{
    let d = distance(next, p);
    0 < d && d < HALF
}

// Says whether the next byte is one of n from number p on.
#[tactic(auto, unfolding(crate::specs::Resend::has_next))]
fn has_next(next: u32, p: u32, n: usize) -> bool
    ensures { result ≡ has_next next p n }
{
    (distance(p, next) as usize) < n
}

// Says whether n bytes from number p on all came before, or are none.
#[tactic(auto, unfolding(crate::specs::Resend::all_before))]
fn all_before(next: u32, p: u32, n: usize) -> bool
    ensures { result ≡ all_before next p n }
{
    n == 0 || !(ahead(next, p) || has_next(next, p, n))
}

// Says whether the lengths of the held buffer, of what is held, or of the segment are refused.
#[tactic(auto, unfolding(crate::specs::Resend::bad_sizes))]
pub fn bad_sizes(h: usize, n: usize, s: usize) -> bool
    ensures { result ≡ bad_sizes h n s }
{
    MOST_SEGMENT < s || h != HELD_SIZE || HELD_SIZE < n
}

// Says whether a segment of s bytes begins ahead.
#[tactic(auto, unfolding(crate::specs::Resend::early))]
fn early(next: u32, q: u32, s: usize) -> bool
    ensures { result ≡ early next q s }
{
    0 < s && ahead(next, q)
}

// Says whether a segment of s bytes can't be held.
#[tactic(auto, unfolding(crate::specs::Resend::full))]
fn full(next: u32, p: u32, n: usize, s: usize) -> bool
    ensures { result ≡ full next p n s }
{
    !all_before(next, p, n) || HELD_SIZE < s
}

// Says whether a segment of s bytes from number q on is refused.
fn refuses(next: u32, h: usize, p: u32, n: usize, q: u32, s: usize) -> bool
    ensures { result ≡ (bad_sizes h n s || early next q s && full next p n s) }
{
    bad_sizes(h, n, s) || early(next, q, s) && full(next, p, n, s)
}

// Copies the segment to the front of the held buffer. Byte by byte: of a copy of all at once the compiler makes a call of C's memmove.
fn copy(held: &mut [u8], segment: &[u8])
    requires { length segment.now ≤ length held.old }
    ensures { held.new ≡ segment.now ++ drop (length segment.now) held.old }
{
    for i in 0..segment.len() {
        held[i] = segment[i];
    }
}

// Takes a segment whose first byte has number `start`, where the next byte due has number `next`: drops it, holds it, or refuses it with 18.
// Where nothing is refused, a held place whose bytes all came before is answered with length 0.
pub fn take(
    next: u32,
    held: &mut [u8],
    held_start: u32,
    held_length: u32,
    start: u32,
    segment: &[u8],
) -> Held
    ensures { Takes (taking next held.old held_start held_length start segment.now) result held.new }
{
    let n = held_length as usize;
    if refuses(next, held.len(), held_start, n, start, segment.len()) {
        return Held {
            refusal: NOT_TAKEN,
            start: held_start,
            length: held_length,
        };
    }
    if early(next, start, segment.len()) {
        copy(held, segment);
        return Held {
            refusal: rules::PASSED,
            start,
            length: segment.len() as u32,
        };
    }
    if all_before(next, held_start, n) {
        return Held {
            refusal: rules::PASSED,
            start: held_start,
            length: FREE,
        };
    }
    Held {
        refusal: rules::PASSED,
        start: held_start,
        length: held_length,
    }
}

// Of m bytes from the next on, those before a held part.
#[tactic(auto, unfolding(crate::specs::Resend::up_to))]
fn up_to(next: u32, p: u32, n: usize, m: usize) -> usize
    ensures { result ≡ up_to next p n m }
{
    let d = distance(next, p) as usize;
    if 0 < n && ahead(next, p) && d < m {
        return d;
    }
    m
}

// The part that is due next, by the lengths of the held buffer and of the segment alone.
pub fn part_due(
    next: u32,
    held_size: usize,
    held_start: u32,
    held_length: u32,
    start: u32,
    segment_size: usize,
) -> Option<Part>
    ensures { Finds (part_due next held_size held_start held_length start segment_size) result }
{
    let n = held_length as usize;
    if bad_sizes(held_size, n, segment_size) {
        return None;
    }
    if has_next(next, held_start, n) {
        let at = distance(held_start, next) as usize;
        return Some(Part {
            source: Source::Buffer,
            at,
            length: n - at,
        });
    }
    if has_next(next, start, segment_size) {
        let at = distance(start, next) as usize;
        return Some(Part {
            source: Source::Segment,
            at,
            length: up_to(next, held_start, n, segment_size - at),
        });
    }
    None
}

// The bytes that are due next: a part of the held buffer or of the arriving segment, whichever has them. Nothing is copied.
pub fn due<'a>(
    next: u32,
    held: &'a [u8],
    held_start: u32,
    held_length: u32,
    start: u32,
    segment: &'a [u8],
) -> &'a [u8]
    ensures { result.now ≡ due next held.now held_start held_length start segment.now }
{
    let part = part_due(
        next,
        held.len(),
        held_start,
        held_length,
        start,
        segment.len(),
    );
    match part {
        None => &segment[..0],
        Some(p) => match p.source {
            Source::Buffer => &held[p.at..p.at + p.length],
            Source::Segment => &segment[p.at..p.at + p.length],
        },
    }
}
