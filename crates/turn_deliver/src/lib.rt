// What a line of a delivery does to a board of up to 16 nodes, and to the bytes that are lent.
// Any board, numbers, item and bytes may be handed.
#![tactic(auto)]

ghost use Rattle.std.specs.Prelude.{◌≡◌, eqb, false, ◌+◌, ◌*◌, ◌≤◌, length};
ghost use Rattle.base.specs.Limits.{base};
ghost use Rattle.base.specs.Refusal.{number};
ghost use Rattle.base.specs.declared.Refusal.{Refusal};
ghost use Rattle.tree.specs.Lookups.{bad_board};
ghost use Rattle.node.specs.Answers.{outcome_of, outcome_number};
ghost use Rattle.node.specs.Calls.{frame_in};
ghost use Rattle.state_calls.specs.On.{replied, on_state};
ghost use Rattle.under_way.specs.Frames.{place_size, frame_held};
ghost use Rattle.turn_deliver.specs.Delivering.{item_call, deliver_act, deliver_act_bytes};

use base::{Kind, Refusal};
use board_states::Stage;
use items::Item;
use node::Accepted;
use stage::Acted;
use state_calls::Reply;
use states::State;

// The frame at a place goes in at a node.
fn frame_call(s: State, size: u32, at: usize, bytes: &[u8]) -> Reply
    requires { (bad_board base size ≡ false) × (place_size * at + place_size ≤ length bytes.now) }
    ensures { replied result ≡ on_state (λ n. frame_in base n (frame_held size bytes.now at)) s }
{
    let a = under_way::PLACE * at;
    let e = a + under_way::stated_on(size, bytes[a], bytes[a + 2]);
    value_calls::frame_in(s, &bytes[a..e])
}

// The call at b for an item at a place.
fn item_call(st: Stage, a: u32, b: u32, at: usize, it: Item, bytes: &[u8]) -> Reply
    requires { (bad_board base st.size ≡ false) × (place_size * at + place_size ≤ length bytes.now) }
    ensures { replied result ≡ item_call st 0 bytes.now a b at it }
{
    let n = board_states::state_at(st, b);
    match it.kind {
        0 => state_calls::take_from(n, Kind::Job, a, it.phase),
        2 => state_calls::take_from(n, Kind::Note, a, it.phase),
        _ => frame_call(n, st.size, at, bytes),
    }
}

// The item came before its phase.
fn is_early(answer: Result<Accepted, Refusal>) -> bool
    ensures { result ≡ eqb (outcome_number (outcome_of answer)) (number Refusal.Early) }
{
    matches!(answer, Err(Refusal::Early))
}

// What the delivery does. `at` and `it` are the place of the oldest item of the link, and that item.
pub fn deliver_act(
    st: Stage,
    a: u32,
    b: u32,
    at: usize,
    it: Item,
    headers: usize,
    bytes: &mut [u8],
) -> Acted
    ensures answer { result ≡ deliver_act st headers bytes.old a b at it }
    ensures memory { bytes.new ≡ deliver_act_bytes st headers bytes.old a b at it }
{
    let under = st.under;
    if !stage::is_there(st, headers, bytes.len(), at) {
        return stage::refused(st, headers, b, Refusal::Nothing);
    }
    let r = item_call(st, a, b, at, it, &bytes[..]);
    if is_early(r.answer) {
        return stage::refused(st, headers, b, Refusal::Early);
    }
    under_way::close_gap(&mut *bytes, under, at);
    let after = board_states::with_state(st, b, r.state, under - 1);
    let mut acted = stage::quiet(under, headers, after, b, answers::number_of(r.answer));
    acted.gone = at;
    acted
}
