// The theorem on renewals, and a driver: code for no user, that calls the entry points as a caller would and promises the theorem.
#![tactic(auto)]

ghost use Rattle.std.specs.Prelude.{◌≡◌};
ghost use Rattle.list_renew_laws.specs.Drivers.{RenewedKept};

use feed::{Fed, Opened};

// What the calls of the driver answered: the opening, a feed, the offset then, the renewal, and a feed after it.
#[derive(Clone, Copy)]
struct DroveRenewed {
    opened: Opened,
    first: Fed,
    before: u64,
    renewed: u32,
    second: Fed,
}

// Opens a flow, feeds it, reads its offset, renews it, and feeds it again from offset 0 on.
fn drive_renewed(
    list: &[u8],
    flow: &mut [u8],
    out: &mut [u32],
    piece: &[u8],
    pairs: &mut [u32],
    rest: &[u8],
    later: &mut [u32],
) -> DroveRenewed
    ensures { result.opened.refusal ≡ 0 → RenewedKept list.now piece.now rest.now result.opened.pairs result.first result.before result.renewed result.second
        out.new pairs.new later.new flow.new }
{
    let opened = list_flow::open_flow(list, flow, out);
    let first = list_feed::feed(list, flow, 0, piece, pairs);
    let before = list_renew::offset(flow);
    let renewed = list_renew::renew(flow);
    let second = list_feed::feed(list, flow, 0, rest, later);
    DroveRenewed {
        opened,
        first,
        before,
        renewed,
        second,
    }
}
