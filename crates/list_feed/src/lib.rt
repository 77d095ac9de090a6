// The plain feed: the automaton runs over a piece, byte by byte.
#![tactic(auto)]

ghost use Rattle.std.specs.Prelude.{◌+◌, ◌≤◌, length};
ghost use Rattle.sets.specs.Set.{set_of};
ghost use Rattle.feed.specs.Engine.{most_offset};
ghost use Rattle.feed.specs.Fed.{Answers};
ghost use Rattle.list_flow.specs.inner.Leaves.{Leaves};
ghost use Rattle.list_feed.specs.Plain.{plain, plain_feed};

use feed::Fed;
use list_flow::Ran;
use sets::StateSet;

// Runs the automaton from a frontier at an offset over the bytes whose pairs all fit the words.
fn feed_bytes(list: &[u8], first: StateSet, offset: u64, piece: &[u8], pairs: &mut [u32]) -> Ran
    requires { offset + length piece.now ≤ most_offset }
    ensures { Leaves (plain list.now) (set_of first) offset piece.now pairs.old result pairs.new }
{
    let accepting = list::accepting(list);
    let mut f = first;
    let mut words = 0usize;
    let mut rows = 0u64;
    for i in 0..piece.len() {
        let next = list::step(list, f, piece[i]);
        let at = (offset + i as u64 + 1) as u32;
        let told = if next.meets(accepting) {
            list_flow::tell_accepted(list, next, pairs, words, at)
        } else {
            Some(words)
        };
        let Some(end) = told else {
            return Ran {
                refusal: rules::PASSED,
                frontier: f,
                bytes: i,
                words,
                rows,
            };
        };
        words = end;
        rows += f.count() as u64;
        f = next;
    }
    Ran {
        refusal: rules::PASSED,
        frontier: f,
        bytes: piece.len(),
        words,
        rows,
    }
}

// Feeds a piece to a flow by its list alone. A refusal changes nothing.
pub fn feed(list: &[u8], flow: &mut [u8], start: u64, piece: &[u8], pairs: &mut [u32]) -> Fed
    ensures { Answers (plain_feed list.now flow.old start piece.now pairs.old) result pairs.new flow.new }
{
    let refusal = list_flow::feed_refusal(list, flow, start, piece);
    if refusal != rules::PASSED {
        return feed::refused(refusal);
    }
    let ran = feed_bytes(list, StateSet::from_bytes(flow, 0), start, piece, pairs);
    list_flow::finish(flow, ran, piece.len())
}
