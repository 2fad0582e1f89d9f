// The calls send, take and idle in place on the words that the caller lends, each with words of its own for the sums. Words
// that hold no state are refused.
#![tactic(auto)]

ghost use Rattle.std.specs.Prelude.{◌≡◌};
ghost use Rattle.base.specs.Limits.{limits_of};
ghost use Rattle.node.specs.Answers.{outcome_of};
ghost use Rattle.node.specs.Calls.{send, take, idle};
ghost use Rattle.on_words.specs.OnWords.{answer_on, words_on};

use base::{Bounds, Kind, Refusal};
use node::Accepted;

// The words in which a call gathers the sums of the largest board.
pub const SUMS: usize = 2 * base::SHELLS + layout::TOTALS as usize;

// One message more is sent to a node. Refuses 13, 2, 3, 4, 5.
pub fn send_to(b: Bounds, state: &mut [u32], to: u32) -> Result<Accepted, Refusal>
    ensures answer { outcome_of result ≡ answer_on (limits_of b) (λ n. send (limits_of b) n to) state.old }
    ensures memory { state.new ≡ words_on (limits_of b) (λ n. send (limits_of b) n to) state.old }
{
    let mut sums = [0u32; SUMS];
    node_calls::send_to(b, state, &mut sums, to)
}

// A job or a note from a node, with its phase byte, is taken. Refuses 13, 2, 3, 7 or 8, 6.
pub fn take_from(
    b: Bounds,
    state: &mut [u32],
    kind: Kind,
    from: u32,
    phase: u8,
) -> Result<Accepted, Refusal>
    ensures answer { outcome_of result ≡ answer_on (limits_of b) (λ n. take (limits_of b) n kind from phase) state.old }
    ensures memory { state.new ≡ words_on (limits_of b) (λ n. take (limits_of b) n kind from phase) state.old }
{
    let mut sums = [0u32; SUMS];
    node_calls::take_from(b, state, &mut sums, kind, from, phase)
}

// The node has run out of work. Refuses 13.
pub fn go_idle(b: Bounds, state: &mut [u32]) -> Result<Accepted, Refusal>
    ensures answer { outcome_of result ≡ answer_on (limits_of b) (idle (limits_of b)) state.old }
    ensures memory { state.new ≡ words_on (limits_of b) (idle (limits_of b)) state.old }
{
    let mut sums = [0u32; SUMS];
    node_calls::go_idle(b, state, &mut sums)
}
