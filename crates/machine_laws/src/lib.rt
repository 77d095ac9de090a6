// The driver: code for no user. It calls the entry points as a caller would, and promises the demands of what they answered and left.
#![tactic(auto)]

ghost use Rattle.std.specs.Prelude.{◌≡◌, ◌++◌, ◌≤◌, ◌-◌, ◌+◌, ◌*◌, ◌/◌, length, get_or, take, drop};
ghost use Rattle.machine_laws.specs.Drivers.{numbers_of, Turned, Driven};

use feed::{Fed, Opened};

// Where the driver stands: the bytes consumed and the words told.
#[derive(Clone, Copy)]
struct Standing {
    bytes: usize,
    words: usize,
}

// What the calls of `drive` answered: the check, the opening, and where it stands in the end.
#[derive(Clone, Copy)]
struct Drove {
    checked: u32,
    opened: Opened,
    stands: Standing,
}

// The number at a place; past the end that is 0.
fn number_at(numbers: &[usize], i: usize) -> usize
    ensures { result ≡ get_or numbers.now i 0 }
{
    numbers.get(i).copied().unwrap_or(0)
}

// Notes what feed i answered, behind the numbers of those before it.
fn note(numbers: &mut [usize], i: usize, fed: Fed)
    requires { 4 * i + 4 ≤ length numbers.old }
    ensures { take (4 * i + 4) numbers.new ≡ take (4 * i) numbers.old ++ numbers_of fed }
{
    let at = 4 * i;
    numbers[at] = fed.refusal as usize;
    numbers[at + 1] = fed.bytes;
    numbers[at + 2] = fed.pairs;
    numbers[at + 3] = usize::from(fed.all);
}

// Feeds the stream from the bytes consumed up to byte e, with the words behind those told, up to word v, and notes it as feed i.
fn turn(
    moves: &[u8],
    programs: &[u8],
    flow: &mut [u8],
    start: u64,
    stream: &[u8],
    so: Standing,
    e: usize,
    pairs: &mut [u32],
    v: usize,
    numbers: &mut [usize],
    i: usize,
) -> Standing
    requires { (so.bytes ≤ e) × (e ≤ length stream.now) × (so.words ≤ v) × (v ≤ length pairs.old) × (4 * i + 4 ≤ length numbers.old) }
    ensures { Turned (record {
      by = record {
        moves = moves.now;
        programs = programs.now;
      };
      at = start;
      piece = take (e - so.bytes) (drop so.bytes stream.now);
      out = take (v - so.words) (drop so.words pairs.old);
    })
        flow.old stream.now so pairs.old i numbers.old result pairs.new numbers.new flow.new }
{
    let n = so.bytes;
    let w = so.words;
    let fed = machine::feed(
        moves,
        programs,
        flow,
        start,
        &stream[n..e],
        &mut pairs[w..v],
    );
    note(numbers, i, fed);
    Standing {
        bytes: n + fed.bytes,
        words: w + 2 * fed.pairs,
    }
}

// Demands 1 and 2 over any number of feeds: checks a machine, opens a flow with all of the words, and feeds it a stream, as many times as there are four numbers to note. Each
// states the start that a list of starts says, ends at the byte that a list of cuts says, and has words up to where a list of rooms says. One that is refused consumes nothing.
fn drive(
    moves: &[u8],
    programs: &[u8],
    flow: &mut [u8],
    starts: &[usize],
    cuts: &[usize],
    rooms: &[usize],
    stream: &[u8],
    pairs: &mut [u32],
    numbers: &mut [usize],
) -> Drove
    ensures { Driven moves.now programs.now starts.now flow.old pairs.old
        (length numbers.old / 4) result.checked result.opened (take (4 * (length numbers.old / 4)) numbers.new)
        (take result.stands.bytes stream.now) (take result.stands.words pairs.new) flow.new }
{
    let checked = machine::check(moves, programs);
    let opened = machine::open_flow(moves, programs, flow, pairs);
    let mut so = Standing {
        bytes: 0,
        words: 2 * opened.pairs,
    };
    let n = numbers.len() / 4;
    // By index: each list says what it says of feed i at place i.
    for i in 0..n {
        let start = number_at(starts, i) as u64;
        let e = number_at(cuts, i).clamp(so.bytes, stream.len());
        let v = number_at(rooms, i).clamp(so.words, pairs.len());
        so = turn(
            moves, programs, flow, start, stream, so, e, pairs, v, numbers, i,
        );
    }
    Drove {
        checked,
        opened,
        stands: so,
    }
}
