// Who talks to whom on a board: the dimension of a board, runs of nodes, and what the lookups of places and distances answer.
// Any number may be handed; what is not allowed is refused (rule R3).
#![tactic(auto)]

ghost use Rattle.std.specs.Prelude.{◌≡◌};
ghost use Rattle.base.specs.Limits.{base, limits_of};
ghost use Rattle.base.specs.Refusal.{answered};
ghost use Rattle.tree.specs.Lookups.{dimension_lookup};

mod parts;

use base::{Bounds, Refusal};
pub use parts::Run;

// The place of a node in a dimension.
#[derive(Clone, Copy)]
pub enum Placed {
    // Nobody to send to, nobody to await.
    Alone,
    // Sends to nobody and awaits this node.
    Hermit(u32),
    // Sends to this node and awaits it.
    Neighbour(u32),
    // Sends to the first node and awaits it; sends to the second too, a hermit.
    Messenger(u32, u32),
}

// The smallest p with nodes <= 2^p. Refuses 1.
pub fn dimension_for(b: Bounds, nodes: u32) -> Result<u32, Refusal>
    ensures { answered result ≡ dimension_lookup (limits_of b) nodes }
{
    let most = b.last() + 1;
    if nodes == 0 {
        return Err(Refusal::Board);
    }
    if most < nodes {
        return Err(Refusal::Board);
    }
    if nodes == 1 {
        return Ok(0);
    }
    Ok(32 - u32::leading_zeros(nodes - 1))
}

// The same with the limits of this build.
pub fn dimension_of(nodes: u32) -> Result<u32, Refusal>
    ensures { answered result ≡ dimension_lookup base nodes }
{
    dimension_for(Bounds::of_build(), nodes)
}
