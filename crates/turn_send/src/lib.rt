// What a line of a message sent and a line of a node gone idle do to a board of up to 16 nodes.
// Any board and numbers may be handed.
#![tactic(auto)]

ghost use Rattle.std.specs.Prelude.{◌≡◌, List, ℕ};
ghost use Rattle.under_way.specs.Frames.{room_for};
ghost use Rattle.turn_send.specs.Sending.{send_act};
ghost use Rattle.turn_send.specs.Idling.{idle_act};

use base::{Kind, Refusal};
use board_states::Stage;
use items::Item;
use node::Accepted;
use stage::Acted;

// A job or a note goes from a to b, where there is room for so many items.
pub fn send_act(st: Stage, kind: Kind, a: u32, b: u32, headers: usize, room: usize) -> Acted
    ensures { (bs : List ℕ) → room ≡ room_for headers bs → result ≡ send_act st headers bs kind a b }
{
    let under = st.under;
    let n = board_states::state_at(st, a);
    let r = value_calls::send_to(n, b);
    let Ok(Accepted::Done) = r.answer else {
        return stage::quiet(under, headers, st, a, answers::number_of(r.answer));
    };
    if room <= under {
        return stage::refused(st, headers, a, Refusal::Crowded);
    }
    let after = board_states::with_state(st, a, r.state, under + 1);
    let it = Item {
        from: a as u8,
        to: b as u8,
        kind: items::mark_of(kind),
        phase: states::phase_of(n),
    };
    let mut acted = stage::quiet(under, headers, after, a, 0);
    acted.at = under;
    acted.first = it;
    acted
}

// Node a goes idle.
pub fn idle_act(st: Stage, a: u32, headers: usize) -> Acted
    ensures { result ≡ idle_act st headers a }
{
    let under = st.under;
    let n = board_states::state_at(st, a);
    let r = value_calls::go_idle(n);
    let after = board_states::with_state(st, a, r.state, under);
    stage::quiet(under, headers, after, a, answers::number_of(r.answer))
}
