// The turn of a node that looks, by the first clause of its position's step that fails.
#![tactic(auto)]

ghost use Rattle.std.specs.Prelude.{◌≡◌};
ghost use Rattle.node_look.specs.Looks.{has_step, look_turn};

use frame::Taken;
use node_turn::Turn;

// Whether the words have a position in a dimension of a board of p dimensions.
fn has_step(s: &[u32], p: u8) -> bool
    ensures { result ≡ has_step s.now p }
{
    if s.len() < layout::HEAD as usize {
        return false;
    }
    s[layout::DIM] < p as u32
}

// The turn by that clause, `NO_CLAUSE` where none fails, and by total taken with the frame's. Where the node has no position, as on
// a board of one node, it leaves.
pub fn look(s: &[u32], p: u8, clause: u32, received: Taken) -> Turn
    ensures { result ≡ look_turn s.now p clause received.0 }
{
    if !has_step(s, p) {
        return Turn::Leaves;
    }
    if clause != node::NO_CLAUSE {
        return Turn::Waits((clause % 256) as u8);
    }
    node_turn::onward(s, received, p, s[layout::DIM] as u8)
}
