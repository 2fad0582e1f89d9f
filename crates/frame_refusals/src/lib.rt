// Whether a frame is stored, dropped or refused, by the numbers of a state.
#![tactic(auto)]

ghost use Rattle.std.specs.Prelude.{◌≡◌};
ghost use Rattle.base.specs.Limits.{limits_of};
ghost use Rattle.tree.specs.Lookups.{place_lookup};
ghost use Rattle.node.specs.Answers.{outcome_of};
ghost use Rattle.node.specs.Calls.{is_awaited};
ghost use Rattle.frame_refusals.specs.Judged.{awaited_by, judged};

use base::{Bounds, Refusal};
use frame::Timing;
use node::Accepted;
use tree::Placed;

// Whether a node awaits the sender in a dimension.
pub fn is_awaited(b: Bounds, nodes: u32, number: u32, dim: u32, sender: u32) -> bool
    ensures { result ≡ is_awaited (awaited_by (place_lookup (limits_of b) nodes dim number)) sender }
{
    match lookups::place_for(b, nodes, dim, number) {
        Ok(Placed::Alone) => false,
        Ok(Placed::Hermit(next)) => next == sender,
        Ok(Placed::Neighbour(other)) => other == sender,
        Ok(Placed::Messenger(other, hermit)) => other == sender,
        Err(_) => false,
    }
}

// Whether a frame is stored, dropped or refused, by the board, the node's number and its phase. Refuses 1, 9, 10, 2, 3, 11,
// 7 or 8.
pub fn judge(
    b: Bounds,
    nodes: u32,
    number: u32,
    here: u8,
    bytes: &[u8],
) -> Result<Accepted, Refusal>
    ensures { outcome_of result ≡ judged (limits_of b) nodes number here bytes.now }
{
    wire_read::checked(b, nodes, bytes)?;
    let sender = bytes[3] as u32;
    if sender == number {
        return Err(Refusal::Itself);
    }
    if !is_awaited(b, nodes, number, bytes[2] as u32, sender) {
        return Err(Refusal::Partner);
    }
    match frame::timing_of(bytes[1], here) {
        Timing::Now => Ok(Accepted::Done),
        Timing::Early => Err(Refusal::Early),
        Timing::Late => Ok(Accepted::Dropped),
        Timing::Foreign => Err(Refusal::Foreign),
    }
}
