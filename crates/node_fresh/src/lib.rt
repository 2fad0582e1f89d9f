// The call fresh: a fresh state in lent words, or a refusal of what is not allowed.
#![tactic(auto)]

ghost use Rattle.std.specs.Prelude.{◌≡◌};
ghost use Rattle.base.specs.Limits.{limits_of};
ghost use Rattle.node.specs.Answers.{outcome_of};
ghost use Rattle.node_fresh.specs.Fresh.{fresh_on, fresh_words};

use base::{Bounds, Refusal};
use fresh_words::put_fresh;
use node::Accepted;

// A node that has just started. Refuses 1, 2, and 13 where the words are too few for the board.
pub fn fresh(b: Bounds, state: &mut [u32], nodes: u32, number: u32) -> Result<Accepted, Refusal>
    ensures answer { outcome_of result ≡ fresh_on (limits_of b) nodes number state.old }
    ensures memory { state.new ≡ fresh_words (limits_of b) nodes number state.old }
{
    let p = tree::dimension_for(b, nodes)?;
    if nodes <= number {
        return Err(Refusal::Stranger);
    }
    if state.len() < layout::state_words(p as u8) as usize {
        return Err(Refusal::State);
    }
    put_fresh(state, p as u8, nodes, number, 0);
    Ok(Accepted::Done)
}
