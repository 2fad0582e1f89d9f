// A line of a script played on a board, with the headers and the bytes of the items under way, which are lent.
#![tactic(auto)]

ghost use Rattle.std.specs.Prelude.{◌≡◌};
ghost use Rattle.line_step.specs.Steps.{stepped, stepped_items, stepped_bytes};

use board_states::Stage;
use items::Item;
use line_forms::Line;
use stage::Acted;

// Acts on a line, and changes the headers as that says.
pub fn step(items: &mut [Item], bytes: &mut [u8], st: Stage, line: Line) -> Acted
    ensures answer { result ≡ stepped st items.old bytes.old line }
    ensures headers { items.new ≡ stepped_items st.under result items.old }
    ensures frames { bytes.new ≡ stepped_bytes st items.old bytes.old line }
{
    let link = line_links::link_of(line);
    let at = items::oldest_at(items, st.under, link.from, link.to);
    let it = items::item_at(items, at);
    let r = turns::act(st, line, at, it, items.len(), bytes);
    item_changes::remove_item(items, st.under, r.gone);
    item_changes::append_item(items, r.at, r.first);
    item_changes::append_item(items, r.next, r.second);
    r
}
