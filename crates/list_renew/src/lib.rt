// Renewing a flow's record, so that it goes on past the largest offset: the frontier stays, offset and rows become 0. And the offset of a record of either kind.
#![tactic(auto)]

ghost use Rattle.std.specs.Prelude.{◌≡◌};
ghost use Rattle.rules.specs.Rules.{verdict};
ghost use Rattle.list_renew.specs.Renewal.{renew_rules, Renews, offset_said};

use sets::StateSet;

// What is answered of bytes that have the size of no record.
// A number: it is what C's function answers.
const NO_OFFSET: u64 = 18446744073709551615;

// The check of a renewal: 4 where a feed of no bytes, of whatever list, would give it; else 0.
fn renew_refusal(flow: &[u8]) -> u32
    ensures { result ≡ verdict (renew_rules flow.now) }
{
    list_flow::flow_refusal(true, flow, list_flow::offset_of(flow), &flow[0..0])
}

// Renews a list's record: its frontier stays, offset and rows become 0. A refusal changes nothing.
pub fn renew(flow: &mut [u8]) -> u32
    ensures { Renews flow.old result flow.new }
{
    let refusal = renew_refusal(flow);
    if refusal == rules::PASSED {
        list_flow::save(flow, StateSet::from_bytes(flow, 0), 0, 0);
    }
    refusal
}

// The offset of a record of either size; of another length the largest number.
pub fn offset(flow: &[u8]) -> u64
    ensures { result ≡ offset_said flow.now }
{
    if flow.len() == list_flow::FLOW_SIZE {
        return list_flow::offset_of(flow);
    }
    if flow.len() == machine::X_FLOW_SIZE {
        return machine::offset_of(flow);
    }
    NO_OFFSET
}
