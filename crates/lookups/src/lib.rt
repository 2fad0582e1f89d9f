// The place of a node in a dimension, on any board; with it the distance of two nodes.
// Any number may be handed to either; what is not allowed is refused (rule R3).
#![tactic(auto)]

ghost use Rattle.std.specs.Prelude.{◌≡◌, ◌+◌, ◌≤◌, ◌<◌};
ghost use Rattle.base.specs.Limits.{base, limits_of};
ghost use Rattle.tree.specs.Tree.{run_below, across, place_in};
ghost use Rattle.tree.specs.Lookups.{place_lookup, nodes_of, place_of as place_of_node, placed_answer};

use base::{Bounds, Refusal};
pub use distances::{distance_for, distance_of};
use tree::{Placed, Run};

// The run of a node, so many splits below the root.
fn run_below(nodes: u32, splits: u32, node: u32) -> Run
    requires { (0 < nodes) × (nodes ≤ base.nodes) }
    ensures { nodes_of result ≡ run_below nodes splits node }
{
    let mut run = Run {
        low: 0,
        high: nodes - 1,
    };
    for _ in 0..splits {
        run = run.part(node);
    }
    run
}

// The node across from a node of a run, in the other part of it.
fn across_from(r: Run, node: u32) -> u32
    requires { (r.low ≤ node) × (node ≤ r.high) }
    ensures { result ≡ across (nodes_of r) node }
{
    let next = r.middle() + 1;
    if node < next {
        next + (node - r.low)
    } else {
        r.low + (node - next)
    }
}

// The place of a node of a run whose two parts are siblings.
fn place_in(r: Run, node: u32) -> Placed
    requires { (r.low ≤ node) × (node ≤ r.high) }
    ensures { place_of_node result ≡ place_in (nodes_of r) node }
{
    let last = r.middle();
    let next = last + 1;
    let left = next - r.low;
    let right = r.high - last;
    if right == 0 {
        return Placed::Alone;
    }
    let other = across_from(r, node);
    if left <= right {
        return Placed::Neighbour(other);
    }
    if node == last {
        return Placed::Hermit(next);
    }
    if node == next {
        return Placed::Messenger(other, last);
    }
    Placed::Neighbour(other)
}

// The place of a node in a dimension. Refuses 1, 2, 10.
pub fn place_for(b: Bounds, nodes: u32, dimension: u32, node: u32) -> Result<Placed, Refusal>
    ensures { placed_answer result ≡ place_lookup (limits_of b) nodes dimension node }
{
    let p = tree::dimension_for(b, nodes)?;
    if nodes <= node {
        return Err(Refusal::Stranger);
    }
    if p <= dimension {
        return Err(Refusal::Field);
    }
    Ok(place_in(run_below(nodes, p - (dimension + 1), node), node))
}

// The same with the limits of this build.
pub fn place_of(nodes: u32, dimension: u32, node: u32) -> Result<Placed, Refusal>
    ensures { placed_answer result ≡ place_lookup base nodes dimension node }
{
    place_for(Bounds::of_build(), nodes, dimension, node)
}
