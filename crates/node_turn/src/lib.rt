// What a node does in a barrier call that is not refused, and which of it where its step agrees.
#![tactic(auto)]

ghost use Rattle.std.specs.Prelude.{◌≡◌};
ghost use Rattle.layout.specs.Places.{at_pass, at_agreed};
ghost use Rattle.layout.specs.Held.{word};
ghost use Rattle.node_turn.specs.Turn.{onward_turn};

use frame::Taken;
use node::Receivers;

// What a node does in a step.
#[derive(Clone, Copy)]
pub enum Turn {
    // to these receivers, a frame of this length
    Sends(Receivers, u32),
    // for this clause
    Waits(u8),
    // to this pass and dimension, with this T
    Moves(u32, u32, u32),
    Leaves,
}

// A word, 0 past the last.
fn word_at(s: &[u32], at: usize) -> u32
    ensures { result ≡ word s.now at }
{
    s.get(at).copied().unwrap_or(0)
}

// The turn of a node whose step in dimension k of p agrees: on, or out after the last step. Total taken, with the frame of that
// step, becomes T.
pub fn onward(s: &[u32], received: Taken, p: u8, k: u8) -> Turn
    ensures { result ≡ onward_turn p (word s.now at_pass) k (word s.now at_agreed) received.0 }
{
    if p <= k {
        return Turn::Leaves;
    }
    let pass = word_at(s, layout::PASS);
    if k + 1 < p {
        return Turn::Moves(pass, k as u32 + 1, word_at(s, layout::AGREED));
    }
    if pass == 1 {
        return Turn::Moves(2, 0, received.0);
    }
    Turn::Leaves
}
