// The calls on a node's state by value: what they answer, and take. Each works in place on a copy of the words.
#![tactic(auto)]

ghost use Rattle.std.specs.Prelude.{◌≡◌};
ghost use Rattle.base.specs.Limits.{base};
ghost use Rattle.node.specs.Calls.{take};
ghost use Rattle.state_calls.specs.On.{replied, on_state};

use base::{Bounds, Kind, Refusal};
use node::{Accepted, Step};
use states::State;

#[derive(Clone, Copy)]
pub struct Reply {
    pub state: State,
    pub answer: Result<Accepted, Refusal>,
}

#[derive(Clone, Copy)]
pub struct StepReply {
    pub state: State,
    pub answer: Result<Step, Refusal>,
}

pub fn take_from(s: State, kind: Kind, from: u32, phase: u8) -> Reply
    ensures { replied result ≡ on_state (λ n. take base n kind from phase) s }
{
    let mut words = s.words;
    let answer = calls::take_from(Bounds::of_build(), &mut words, kind, from, phase);
    Reply {
        state: State { words },
        answer,
    }
}
