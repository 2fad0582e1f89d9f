// The barrier call, one step, in place on the words that the caller lends.
#![tactic(auto)]

ghost use Rattle.std.specs.Prelude.{◌≡◌, length};
ghost use Rattle.base.specs.Limits.{limits_of};
ghost use Rattle.node.specs.Answers.{barrier_of};
ghost use Rattle.node_barrier.specs.On.{barrier_on, barrier_words, barrier_lent};

use base::{Bounds, Refusal};
use node::Step;

// One step of an idle node: sends its frame, moves on, leaves or waits. Refuses 13, 12, 14.
pub fn step(b: Bounds, state: &mut [u32], sums: &mut [u32], buf: &mut [u8]) -> Result<Step, Refusal>
    ensures answer { barrier_of result
        ≡ barrier_on (limits_of b) (length sums.old) state.old (length buf.old) }
    ensures memory { state.new
        ≡ barrier_words (limits_of b) (length sums.old) state.old (length buf.old) }
    ensures buffer { buf.new ≡ barrier_lent (limits_of b) (length sums.old) state.old buf.old }
{
    let whom = due::to_whom(b, &*state);
    let known = scan::scan_of(b, &*state, &mut *sums, whom.is_none());
    if !known.ok {
        return Err(Refusal::State);
    }
    let is_busy = state[layout::BUSY] == 1;
    if is_busy {
        return Err(Refusal::Working);
    }
    let p = known.dims as u8;
    let turn = node_decide::decide(
        &*state,
        &*sums,
        p,
        whom,
        known.issued,
        known.clause,
        known.received,
        &mut *buf,
    )?;
    node_act::act(&mut *state, p, Ok(turn))
}
