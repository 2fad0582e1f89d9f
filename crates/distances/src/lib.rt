// The distance of two nodes, on any board.
// Any number may be handed; what is not allowed is refused (rule R3).
#![tactic(auto)]

ghost use Rattle.std.specs.Prelude.{◌≡◌, ◌≤◌, ◌<◌};
ghost use Rattle.base.specs.Limits.{base, limits_of};
ghost use Rattle.tree.specs.Tree.{dimension, distance_below};
ghost use Rattle.base.specs.Refusal.{answered};
ghost use Rattle.tree.specs.Lookups.{distance_lookup};

use base::{Bounds, Refusal};
use tree::Run;

// The largest dimension below p in which a and b are in different runs.
fn parted_below(nodes: u32, p: u32, a: u32, b: u32) -> u32
    requires { (0 < nodes) × (nodes ≤ base.nodes) × (p ≡ dimension nodes) }
    ensures { result ≡ distance_below nodes a b p }
{
    let mut run = Run {
        low: 0,
        high: nodes - 1,
    };
    for k in (0..p).rev() {
        run = run.part(a);
        if !run.has(b) {
            return k;
        }
    }
    0
}

// The distance of two nodes. Refuses 1, 2, 3.
pub fn distance_for(limits: Bounds, nodes: u32, a: u32, b: u32) -> Result<u32, Refusal>
    ensures { answered result ≡ distance_lookup (limits_of limits) nodes a b }
{
    let p = tree::dimension_for(limits, nodes)?;
    if nodes <= a {
        return Err(Refusal::Stranger);
    }
    if nodes <= b {
        return Err(Refusal::Stranger);
    }
    if a == b {
        return Err(Refusal::Itself);
    }
    Ok(parted_below(nodes, p, a, b))
}

// The same with the limits of this build.
pub fn distance_of(nodes: u32, a: u32, b: u32) -> Result<u32, Refusal>
    ensures { answered result ≡ distance_lookup base nodes a b }
{
    distance_for(Bounds::of_build(), nodes, a, b)
}
