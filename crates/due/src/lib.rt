// To whom the frame goes that a node is due to send, by lent words.
#![tactic(auto)]

ghost use Rattle.std.specs.Prelude.{◌≡◌, ℕ, ◌≤◌, ◌<◌, length};
ghost use mathlib.Core.List.{Memᴰ};
ghost use Rattle.base.specs.Limits.{base, limits_of};
ghost use Rattle.tree.specs.Tree.{sends_to};
ghost use Rattle.tree.specs.Lookups.{place_of as place_of_node, placed_answer};
ghost use Rattle.layout.specs.Places.{head_words};
ghost use Rattle.due.specs.Due.{looked_up, due_to, whom_list};

use base::{Bounds, Refusal};
use node::Receivers;
use tree::Placed;

// The place of the position.
fn place_of(b: Bounds, s: &[u32]) -> Result<Placed, Refusal>
    requires { head_words ≤ length s.now }
    ensures { placed_answer result ≡ looked_up (limits_of b) s.now }
{
    lookups::place_for(b, s[layout::NODES], s[layout::DIM], s[layout::NUMBER])
}

// The receivers of a node at a place, if any.
fn whom_of(placed: Placed) -> Option<Receivers>
    requires { (b : ℕ) → Memᴰ b (sends_to (place_of_node placed)) → b < base.nodes }
    ensures { whom_list result ≡ sends_to (place_of_node placed) }
{
    match placed {
        Placed::Neighbour(b) => Some(Receivers {
            first: b as u8,
            extra: None,
        }),
        Placed::Messenger(b, h) => Some(Receivers {
            first: b as u8,
            extra: Some(h as u8),
        }),
        Placed::Alone | Placed::Hermit(_) => None,
    }
}

// Those to whom a frame is due: nobody with flag 0, or where the words have no head or no place.
pub fn to_whom(b: Bounds, s: &[u32]) -> Option<Receivers>
    ensures { whom_list result ≡ due_to (limits_of b) s.now }
{
    if s.len() < layout::HEAD as usize {
        return None;
    }
    if s[layout::FLAG] != 1 {
        return None;
    }
    whom_of(place_of(b, s).ok()?)
}
