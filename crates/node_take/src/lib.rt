// The call take, in place on the words that the caller lends, and the shell in which a message is counted. What is not
// allowed is refused, and a refused call leaves the words as they were. `sums` is lent for the own sums; what it holds is of
// no account.
#![tactic(auto)]

ghost use Rattle.std.specs.Prelude.{◌≡◌, ◌≤◌, ◌<◌, length, get_or};
ghost use Rattle.base.specs.Limits.{limits_of};
ghost use Rattle.tree.specs.Lookups.{distance_lookup};
ghost use Rattle.node.specs.Sums.{dims, all_taken, tally};
ghost use Rattle.node.specs.Answers.{outcome_of};
ghost use Rattle.node.specs.Calls.{take};
ghost use Rattle.layout.specs.Held.{unpacked, answer_on, words_on};
ghost use Rattle.layout.specs.Pieces.{Passed, Answers};
ghost use Rattle.layout.specs.Places.{head_words};
ghost use Rattle.node_take.specs.Shell.{shell_of};
ghost use Rattle.node_take.specs.Pieces.{counted_words, woken_words};

use base::{Bounds, Kind, Refusal};
use frame::Taken;
use node::Accepted;

// The shell of another node of the board; 0 where there is none.
pub fn shell_of(b: Bounds, nodes: u32, number: u32, other: u32) -> u32
    ensures { result ≡ shell_of (distance_lookup (limits_of b) nodes number other) }
{
    lookups::distance_for(b, nodes, number, other).unwrap_or(0)
}

// Counts a message in the taken tally at a place, and puts the node to (1, 0, 1), with T 0.
fn count(state: &mut [u32], at: u32)
    requires { (head_words ≤ at) × (at < length state.old) × (get_or state.old at 0 < 4294967295) }
    ensures { state.new ≡ counted_words state.old at }
{
    let taken = Taken(state[at as usize]);
    state[at as usize] = taken.0 + 1;
    state[layout::PASS] = 1;
    state[layout::DIM] = 0;
    state[layout::FLAG] = 1;
    state[layout::AGREED] = 0;
}

// A job makes the node busy.
fn wake(state: &mut [u32], kind: Kind)
    requires { head_words ≤ length state.old }
    ensures { state.new ≡ woken_words kind state.old }
{
    match kind {
        Kind::Job => state[layout::BUSY] = 1,
        Kind::Note => {}
    }
}

// A message from a node is taken, by a state of p dimensions that passes the test.
fn take_on(
    b: Bounds,
    state: &mut [u32],
    kind: Kind,
    p: u32,
    takes: Taken,
    from: u32,
    phase: u8,
) -> Result<Accepted, Refusal>
    requires { Passed (limits_of b) state.old
        × (p ≡ dims (unpacked state.old))
        × (takes.0 ≡ tally (unpacked state.old) all_taken) }
    ensures { Answers (limits_of b) (λ n. take (limits_of b) n kind from phase) state.old state.new result }
{
    let nodes = state[layout::NODES];
    let number = state[layout::NUMBER];
    let here = state[layout::PHASE] as u8;
    refusals::may_take(b, nodes, number, here, takes, from, phase)?;
    count(state, layout::HEAD + p + shell_of(b, nodes, number, from));
    wake(state, kind);
    Ok(Accepted::Done)
}

// A job or a note from a node, with its phase byte, is taken. Refuses 13, 2, 3, 7 or 8, 6.
pub fn take_from(
    b: Bounds,
    state: &mut [u32],
    sums: &mut [u32],
    kind: Kind,
    from: u32,
    phase: u8,
) -> Result<Accepted, Refusal>
    ensures answer { outcome_of result
        ≡ answer_on (limits_of b) (length sums.old) (λ n. take (limits_of b) n kind from phase) state.old }
    ensures memory { state.new
        ≡ words_on (limits_of b) (length sums.old) (λ n. take (limits_of b) n kind from phase) state.old }
{
    let known = scan::scan_of(b, &*state, sums, false);
    if !known.ok {
        return Err(Refusal::State);
    }
    take_on(b, state, kind, known.dims, known.takes, from, phase)
}
