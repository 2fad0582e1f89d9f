// What a line of a script does to a board of up to 16 nodes, and to the bytes and headers that are lent.
// Any board, line, numbers and bytes may be handed.
#![tactic(auto)]

ghost use Rattle.std.specs.Prelude.{◌≡◌};
ghost use Rattle.turns.specs.Acts.{acted, acted_bytes};

use base::Refusal;
use board_states::Stage;
use items::Item;
use line_forms::Line;
use stage::Acted;

// What a line does. `at` and `it` are the place of the oldest item of a delivery's link, and that item.
#[tactic(auto, unfolding(crate::specs::Acts::acted, crate::specs::Acts::acted_bytes))]
pub fn act(st: Stage, line: Line, at: usize, it: Item, headers: usize, bytes: &mut [u8]) -> Acted
    ensures answer { result ≡ acted st headers bytes.old line at it }
    ensures memory { bytes.new ≡ acted_bytes st headers bytes.old line at it }
{
    match line {
        Line::Sends(kind, a, b) => turn_send::send_act(
            st,
            kind,
            a,
            b,
            headers,
            under_way::room_for(headers, bytes.len()),
        ),
        Line::Delivers(a, b) => turn_deliver::deliver_act(st, a, b, at, it, headers, bytes),
        Line::Idles(a) => turn_send::idle_act(st, a, headers),
        Line::Calls(a) => turn_call::call_act(st, a, headers, bytes),
        Line::Nodes(_) | Line::Bad => stage::refused(st, headers, 0, Refusal::Script),
    }
}
