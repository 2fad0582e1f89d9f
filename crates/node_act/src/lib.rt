// What a node's turn in a barrier call makes of the words that the caller lends, and its answer.
#![tactic(auto)]

ghost use Rattle.std.specs.Prelude.{◌≡◌, ◌+◌, ◌%◌, ◌≤◌, length, nat_lt, Err};
ghost use Rattle.base.specs.Choice.{choose};
ghost use Rattle.base.specs.declared.Refusal.{Refusal};
ghost use Rattle.layout.specs.Places.{head_words};
ghost use Rattle.node_turn.specs.Turn.{answer_of, positioned, freshened, words_after};
ghost use Rattle.node_act.specs.Acted.{answer_to, words_left};

use base::Refusal;
use node::Step;
use node_turn::Turn;
use reasons::Reason;

fn move_to(state: &mut [u32], pass: u32, dim: u32, agreed: u32)
    requires { head_words ≤ length state.old }
    ensures { state.new ≡ positioned state.old pass dim agreed }
{
    state[layout::PASS] = pass;
    state[layout::DIM] = dim;
    state[layout::FLAG] = 1;
    state[layout::AGREED] = agreed;
}

// The phase after one, 255 going to 0.
fn next_phase(phase: u32) -> u8
    ensures { result ≡ (phase + 1) % 256 }
{
    std::num::wrapping_add_u8((phase % 256) as u8, 1)
}

// Leaves the phase: a fresh state in the next one.
fn leave(state: &mut [u32], p: u8)
    requires { head_words ≤ length state.old }
    ensures { state.new ≡ freshened state.old p }
{
    let nodes = state[layout::NODES];
    let number = state[layout::NUMBER];
    let phase = next_phase(state[layout::PHASE]);
    fresh_words::put_fresh(&mut *state, p, nodes, number, phase);
}

// The words after a turn, and the answer.
fn write(state: &mut [u32], p: u8, t: Turn) -> Step
    requires { head_words ≤ length state.old }
    ensures answer { result ≡ answer_of t }
    ensures memory { state.new ≡ words_after state.old p t }
{
    match t {
        Turn::Sends(to, length) => {
            state[layout::FLAG] = 0;
            Step::Sends(to, length)
        }
        Turn::Waits(clause) => {
            state[layout::FLAG] = 0;
            Step::Waits(clause)
        }
        Turn::Moves(pass, dim, agreed) => {
            move_to(&mut *state, pass, dim, agreed);
            Step::Moved
        }
        Turn::Leaves => {
            leave(&mut *state, p);
            Step::Left
        }
    }
}

// Makes the words of a state of p dimensions what they are after a turn, and answers. A refusal in place of a turn leaves them, and is
// the answer. Refuses 13.
pub fn act<E: Reason>(state: &mut [u32], p: u8, turn: Result<Turn, E>) -> Result<Step, E>
    ensures answer { result
        ≡ choose (nat_lt (length state.old) head_words) (Err (E.named Refusal.State)) (answer_to turn) }
    ensures memory { state.new
        ≡ choose (nat_lt (length state.old) head_words) state.old (words_left state.old p turn) }
{
    if state.len() < layout::HEAD as usize {
        return Err(E::of(Refusal::State));
    }
    Ok(write(&mut *state, p, turn?))
}
