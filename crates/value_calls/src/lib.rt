// The calls send, idle, frame in and barrier call on a node's state by value: each works in place on a copy of the words.
#![tactic(auto)]

ghost use Rattle.std.specs.Prelude.{◌≡◌, length};
ghost use Rattle.base.specs.Limits.{base};
ghost use Rattle.node.specs.Calls.{send, idle, frame_in};
ghost use Rattle.state_calls.specs.On.{replied, on_state, step_replied, step_on, step_bytes};

use base::Bounds;
use state_calls::{Reply, StepReply};
use states::State;

pub fn send_to(s: State, to: u32) -> Reply
    ensures { replied result ≡ on_state (λ n. send base n to) s }
{
    let mut words = s.words;
    let answer = calls::send_to(Bounds::of_build(), &mut words, to);
    Reply {
        state: State { words },
        answer,
    }
}

pub fn go_idle(s: State) -> Reply
    ensures { replied result ≡ on_state (λ n. idle base n) s }
{
    let mut words = s.words;
    let answer = calls::go_idle(Bounds::of_build(), &mut words);
    Reply {
        state: State { words },
        answer,
    }
}

pub fn frame_in(s: State, bytes: &[u8]) -> Reply
    ensures { replied result ≡ on_state (λ n. frame_in base n bytes.now) s }
{
    let mut words = s.words;
    let answer = calls::frame_in(Bounds::of_build(), &mut words, bytes);
    Reply {
        state: State { words },
        answer,
    }
}

pub fn step(s: State, buf: &mut [u8]) -> StepReply
    ensures answer { step_replied result ≡ step_on s (length buf.old) }
    ensures memory { buf.new ≡ step_bytes s buf.old }
{
    let mut words = s.words;
    let answer = calls::step(Bounds::of_build(), &mut words, buf);
    StepReply {
        state: State { words },
        answer,
    }
}
