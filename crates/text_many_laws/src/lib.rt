// What a list joined of many texts' lists is.
// The one driver here is code for no user: it compiles two texts, joins, folds, checks, opens and feeds as a caller would, and promises the pairs of both texts of what that answered and left.
#![tactic(auto)]

ghost use Rattle.text_many_laws.specs.Drivers.{Gathers, BothServed};

use list_fold::Folded;
use list_join::Joined;
use text_compile::Compiled;
use text_laws::Served;

// What compiling each text, joining and folding answered.
#[derive(Clone, Copy)]
struct Gathered {
    first: Compiled,
    second: Compiled,
    joined: Joined,
    folded: Folded,
}

// The same, and then what the calls on the folded list answered.
#[derive(Clone, Copy)]
struct Drove {
    gathered: Gathered,
    served: Served,
}

// Compiles two texts each into a list of its own, joins the second onto the first, and folds that into a third.
fn gather(
    first: &[u8],
    g: u8,
    list: &mut [u8],
    second: &[u8],
    h: u8,
    other: &mut [u8],
    out: &mut [u8],
) -> Gathered
    ensures { Gathers first.now g list.old second.now h other.old out.old result out.new }
{
    let one = text_compile::compile(first, g, list);
    let two = text_compile::compile(second, h, other);
    let n = two.length;
    let joined = list_join::join(list, one.length, &other[..n]);
    let m = joined.length;
    let folded = list_fold::fold(&list[..m], out);
    Gathered {
        first: one,
        second: two,
        joined,
        folded,
    }
}

// The pairs of two texts: makes a list of them, and does the rest on the front of the lent list that folding wrote.
fn drive_both(
    first: &[u8],
    g: u8,
    list: &mut [u8],
    second: &[u8],
    h: u8,
    other: &mut [u8],
    out: &mut [u8],
    flow: &mut [u8],
    words: &mut [u32],
    piece: &[u8],
    pairs: &mut [u32],
) -> Drove
    ensures { BothServed first.now g list.old second.now h other.old out.old piece.now result out.new words.new pairs.new }
{
    let gathered = gather(first, g, list, second, h, other, out);
    let n = gathered.folded.length;
    let served = text_laws::serve(&out[..n], flow, words, piece, pairs);
    Drove { gathered, served }
}
