// The driver over a certificate: code for no user. It calls the entry points as a caller would, and promises that both feeds told the same.
#![tactic(auto)]

ghost use Rattle.machine_certificate_laws.specs.Drivers.{begun, by_list, by_machine, BothDriven};

use feed::{Fed, Opened};

// What the calls of `drive_both` answered: the check, and the opening and the feed of the list and of the machine.
#[derive(Clone, Copy)]
struct DroveBoth {
    checked: u32,
    opened: Opened,
    fed: Fed,
    machine_opened: Opened,
    machine_fed: Fed,
}

// Checks a certificate, opens a flow of the list and one of the machine, and feeds both the whole of a piece, from the start that it states.
fn drive_both(
    list: &[u8],
    moves: &[u8],
    programs: &[u8],
    certificate: &[u8],
    start: u64,
    piece: &[u8],
    flow: &mut [u8],
    pairs0: &mut [u32],
    pairs: &mut [u32],
    machine_flow: &mut [u8],
    machine_pairs0: &mut [u32],
    machine_pairs: &mut [u32],
) -> DroveBoth
    ensures { BothDriven list.now moves.now programs.now certificate.now result.checked
        (begun flow.old pairs0.old result.opened pairs0.new)
        (by_list list.now start piece.now pairs.old result.fed pairs.new flow.new)
        (begun machine_flow.old machine_pairs0.old result.machine_opened machine_pairs0.new)
        (by_machine moves.now programs.now start piece.now machine_pairs.old result.machine_fed machine_pairs.new machine_flow.new) }
{
    let checked = machine_certificate::check_certificate(list, moves, programs, certificate);
    let opened = list_flow::open_flow(list, flow, pairs0);
    let fed = list_feed::feed(list, flow, start, piece, pairs);
    let machine_opened = machine::open_flow(moves, programs, machine_flow, machine_pairs0);
    let machine_fed = machine::feed(moves, programs, machine_flow, start, piece, machine_pairs);
    DroveBoth {
        checked,
        opened,
        fed,
        machine_opened,
        machine_fed,
    }
}
