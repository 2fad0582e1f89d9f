// What a line of a barrier call does to a board of up to 16 nodes, and to the bytes that are lent.
// Any board, numbers and bytes may be handed.
#![tactic(auto)]

ghost use Rattle.std.specs.Prelude.{◌≡◌, true, false, List, ℕ};
ghost use Rattle.node.specs.Answers.{barrier_of, barrier_number};
ghost use Rattle.state_calls.specs.On.{step_replied, step_on};
ghost use Rattle.under_way.specs.Frames.{place_size};
ghost use Rattle.board_states.specs.States.{state_at, node_at, changed};
ghost use Rattle.stage.specs.Board.{frame_item, quiet};
ghost use Rattle.turn_call.specs.Calling.{frame_acted, call_acted, call_act, call_act_bytes};
ghost use Rattle.turn_call.specs.Pieces.{is_sent, call_sends, frames_in, to_list};

use board_states::Stage;
use items::Item;
use node::{Receivers, Step};
use stage::Acted;
use state_calls::StepReply;
use states::State;

// What a barrier call answers with the bytes of a place, before any place is written.
fn tried(s: State) -> StepReply
    ensures { step_replied result ≡ step_on s place_size }
{
    let mut scratch = [0u8; under_way::PLACE];
    value_calls::step(s, &mut scratch)
}

// The header of a frame that node a sends.
fn frame_item(st: Stage, a: u32, b: u8) -> Item
    requires { call_sends (state_at st a) ≡ true }
    ensures { result ≡ frame_item a b (node_at st a) }
{
    let n = board_states::state_at(st, a);
    Item {
        from: a as u8,
        to: b,
        kind: 1,
        phase: states::phase_of(n),
    }
}

// What the call does where it sends a frame.
fn frame_act(
    st: Stage,
    a: u32,
    to: Receivers,
    after: State,
    headers: usize,
    bytes: &mut [u8],
) -> Acted
    requires { call_sends (state_at st a) ≡ true }
    ensures answer { result ≡ frame_acted st headers bytes.old a after (to_list to) }
    ensures memory { bytes.new ≡ frames_in st headers bytes.old a (to_list to) }
{
    let it = frame_item(st, a, to.first);
    match to.extra {
        None => turn_frames::one_frame(st, a, after, it, headers, bytes),
        Some(hermit) => {
            let other = frame_item(st, a, hermit);
            turn_frames::two_frames(st, a, after, it, other, headers, bytes)
        }
    }
}

// The number of what the call did.
fn number_of(step: Step) -> u32
    ensures { result ≡ barrier_number (barrier_of (Ok step)) }
{
    match step {
        Step::Sends(_, _) => 20,
        Step::Waits(_) => 21,
        Step::Moved => 22,
        Step::Left => 23,
    }
}

// What the call does where it sends no frame. It is a function of its own, since every value of this size that is made in a
// function is cleared whenever that is called.
fn quiet_act(st: Stage, a: u32, after: State, step: Step, headers: usize) -> Acted
    ensures { result
        ≡ quiet st headers (changed st a after st.under) a (barrier_number (barrier_of (Ok step))) }
{
    let board = board_states::with_state(st, a, after, st.under);
    stage::quiet(st.under, headers, board, a, number_of(step))
}

// What the call does. A frame's bytes are written only where there is a place for each receiver, and a refusal leaves the
// board as it was.
pub fn call_act(st: Stage, a: u32, headers: usize, bytes: &mut [u8]) -> Acted
    ensures answer { result ≡ call_act st headers bytes.old a }
    ensures memory { bytes.new ≡ call_act_bytes st headers bytes.old a }
{
    let r = tried(board_states::state_at(st, a));
    let step = match r.answer {
        Ok(step) => step,
        Err(why) => return stage::refused(st, headers, a, why),
    };
    if let Step::Sends(to, _) = step {
        return frame_act(st, a, to, r.state, headers, bytes);
    }
    quiet_act(st, a, r.state, step, headers)
}
