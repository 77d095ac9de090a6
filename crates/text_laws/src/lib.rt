// What a compiled list is: its records rise, it passes the list check, and its pairs are those of the text's language.
// The one driver here is code for no user: it compiles, checks, opens and feeds as a caller would, and promises the text's pairs of what that answered and left.
#![tactic(auto)]

ghost use Rattle.text_laws.specs.Drivers.{Tries, TextServed};

use feed::{Fed, Opened};
use text_compile::Compiled;

// What the calls on a list answered: its check, the opening, and the feed.
#[derive(Clone, Copy)]
pub struct Served {
    pub checked: u32,
    pub opened: Opened,
    pub fed: Fed,
}

// What compiling answered, and then the calls on what it wrote.
#[derive(Clone, Copy)]
struct Drove {
    compiled: Compiled,
    served: Served,
}

// Checks a list, opens a flow on it, and feeds a piece from offset 0.
pub fn serve(
    list: &[u8],
    flow: &mut [u8],
    words: &mut [u32],
    piece: &[u8],
    pairs: &mut [u32],
) -> Served
    ensures { Tries list.now flow.old words.old piece.now pairs.old result words.new pairs.new }
{
    let checked = list::check_list(list);
    let opened = list_flow::open_flow(list, flow, words);
    let fed = list_feed::feed(list, flow, 0, piece, pairs);
    Served {
        checked,
        opened,
        fed,
    }
}

// The pairs of a text: compiles it under a signature, and does the rest on the front of the lent list that it wrote.
fn drive_text(
    text: &[u8],
    signature: u8,
    list: &mut [u8],
    flow: &mut [u8],
    words: &mut [u32],
    piece: &[u8],
    pairs: &mut [u32],
) -> Drove
    ensures { TextServed text.now signature piece.now result words.new pairs.new }
{
    let compiled = text_compile::compile(text, signature, list);
    let n = compiled.length;
    let served = serve(&list[..n], flow, words, piece, pairs);
    Drove { compiled, served }
}
