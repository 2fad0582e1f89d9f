// The calls fresh, send, take and idle, in place on the words that the caller lends. What is not allowed is refused, and a
// refused call leaves the words as they were. `sums` is lent for the own sums; what it holds is of no account.
#![tactic(auto)]

ghost use Rattle.std.specs.Prelude.{◌≡◌, length};
ghost use Rattle.base.specs.Limits.{limits_of};
ghost use Rattle.node.specs.Sums.{all_sent, tally};
ghost use Rattle.node.specs.Answers.{outcome_of};
ghost use Rattle.node.specs.Calls.{send, idle};
ghost use Rattle.layout.specs.Held.{unpacked, answer_on, words_on};
ghost use Rattle.layout.specs.Pieces.{Passed, Answers};

use base::{Bounds, Refusal};
use frame::Sent;
use node::Accepted;
pub use node_fresh::fresh;
pub use node_take::take_from;

// One message more is sent to a node, by a state that passes the test.
fn send_on(b: Bounds, state: &mut [u32], sends: Sent, to: u32) -> Result<Accepted, Refusal>
    requires { Passed (limits_of b) state.old × (sends.0 ≡ tally (unpacked state.old) all_sent) }
    ensures { Answers (limits_of b) (λ n. send (limits_of b) n to) state.old state.new result }
{
    let nodes = state[layout::NODES];
    let number = state[layout::NUMBER];
    refusals::may_send(b, nodes, number, state[layout::BUSY], sends, to)?;
    let at = layout::HEAD + node_take::shell_of(b, nodes, number, to);
    let sent = Sent(state[at as usize]);
    state[at as usize] = sent.0 + 1;
    Ok(Accepted::Done)
}

// One message more is sent to a node. Refuses 13, 2, 3, 4, 5.
pub fn send_to(b: Bounds, state: &mut [u32], sums: &mut [u32], to: u32) -> Result<Accepted, Refusal>
    ensures answer { outcome_of result
        ≡ answer_on (limits_of b) (length sums.old) (λ n. send (limits_of b) n to) state.old }
    ensures memory { state.new
        ≡ words_on (limits_of b) (length sums.old) (λ n. send (limits_of b) n to) state.old }
{
    let known = scan::scan_of(b, &*state, sums, false);
    if !known.ok {
        return Err(Refusal::State);
    }
    send_on(b, state, known.sends, to)
}

// The node has run out of work. Refuses 13.
pub fn go_idle(b: Bounds, state: &mut [u32], sums: &mut [u32]) -> Result<Accepted, Refusal>
    ensures answer { outcome_of result
        ≡ answer_on (limits_of b) (length sums.old) (λ n. idle (limits_of b) n) state.old }
    ensures memory { state.new
        ≡ words_on (limits_of b) (length sums.old) (λ n. idle (limits_of b) n) state.old }
{
    let known = scan::scan_of(b, &*state, sums, false);
    if !known.ok {
        return Err(Refusal::State);
    }
    state[layout::BUSY] = 0;
    Ok(Accepted::Done)
}
