// The frame of a barrier call written for one receiver or for two, and the headers of its items.
// Any board, numbers, items and bytes may be handed.
#![tactic(auto)]

ghost use Rattle.std.specs.Prelude.{◌≡◌, ◌+◌, ◌*◌, ◌≤◌, length};
ghost use Rattle.under_way.specs.Frames.{place_size};
ghost use Rattle.turn_frames.specs.Framing.{called_at, one_frame, one_frame_bytes, two_frames, two_frames_bytes};

use base::Refusal;
use board_states::Stage;
use items::Item;
use stage::Acted;
use states::State;

// Makes the barrier call of a state with the bytes of a place, which are lent on.
fn write_at(s: State, place: usize, bytes: &mut [u8])
    requires { place_size * place + place_size ≤ length bytes.old }
    ensures { bytes.new ≡ called_at bytes.old place s }
{
    let a = under_way::PLACE * place;
    let e = a + under_way::PLACE;
    value_calls::step(s, &mut bytes[a..e]);
}

// The frame goes to one receiver, where there is a place for it.
pub fn one_frame(
    st: Stage,
    a: u32,
    after: State,
    it: Item,
    headers: usize,
    bytes: &mut [u8],
) -> Acted
    ensures answer { result ≡ one_frame st headers bytes.old a after it }
    ensures memory { bytes.new ≡ one_frame_bytes st headers bytes.old a }
{
    let under = st.under;
    if under_way::room_for(headers, bytes.len()) <= under {
        return stage::refused(st, headers, a, Refusal::Crowded);
    }
    let n = board_states::state_at(st, a);
    write_at(n, under, &mut *bytes);
    let board = board_states::with_state(st, a, after, under + 1);
    let mut acted = stage::quiet(under, headers, board, a, 20);
    acted.at = under;
    acted.first = it;
    acted
}

// The frame goes to two receivers, where there is a place for each, or to none.
pub fn two_frames(
    st: Stage,
    a: u32,
    after: State,
    it: Item,
    other: Item,
    headers: usize,
    bytes: &mut [u8],
) -> Acted
    ensures answer { result ≡ two_frames st headers bytes.old a after it other }
    ensures memory { bytes.new ≡ two_frames_bytes st headers bytes.old a }
{
    let under = st.under;
    let room = under_way::room_for(headers, bytes.len());
    if room.saturating_sub(under) < 2 {
        return stage::refused(st, headers, a, Refusal::Crowded);
    }
    let n = board_states::state_at(st, a);
    write_at(n, under, &mut *bytes);
    write_at(n, under + 1, &mut *bytes);
    let board = board_states::with_state(st, a, after, under + 2);
    Acted {
        stage: board,
        actor: a,
        answer: 20,
        gone: under,
        at: under,
        first: it,
        next: under + 1,
        second: other,
    }
}
