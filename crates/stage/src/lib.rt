// What becomes of a board at a line, and whether an item stands at a place. Any board and numbers may be handed.
#![tactic(auto)]

ghost use Rattle.std.specs.Prelude.{◌≡◌, List, ℕ, length};
ghost use Rattle.base.specs.Refusal.{number};
ghost use Rattle.items.specs.Places.{no_item};
ghost use Rattle.stage.specs.Board.{is_there, still, quiet};

use base::Refusal;
use board_states::Stage;
use items::Item;

// What became of a line. The headers are changed as it says: the one at `gone` goes (none where that is the number of
// items under way), then `first` is put at `at` and `second` at `next` (nowhere where that is the number of headers
// lent).
#[derive(Clone, Copy)]
pub struct Acted {
    pub stage: Stage,
    pub actor: u32,
    pub answer: u32,
    pub gone: usize,
    pub at: usize,
    pub first: Item,
    pub next: usize,
    pub second: Item,
}

fn no_item() -> Item
    ensures { result ≡ no_item }
{
    Item {
        from: 0,
        to: 0,
        kind: 0,
        phase: 0,
    }
}

// No header goes and none is put.
pub fn quiet(under: usize, headers: usize, after: Stage, actor: u32, answer: u32) -> Acted
    ensures { result ≡ still under headers after actor answer }
{
    let none = no_item();
    Acted {
        stage: after,
        actor: actor,
        answer: answer,
        gone: under,
        at: headers,
        first: none,
        next: headers,
        second: none,
    }
}

// The line is refused: the board stays as it was.
pub fn refused(st: Stage, headers: usize, actor: u32, why: Refusal) -> Acted
    ensures { result ≡ quiet st headers st actor (number why) }
{
    quiet(st.under, headers, st, actor, why.number() as u32)
}

// An item stands at a place.
pub fn is_there(st: Stage, headers: usize, len: usize, at: usize) -> bool
    ensures { (bs : List ℕ) → len ≡ length bs → result ≡ is_there st headers bs at }
{
    if st.under <= at {
        return false;
    }
    if under_way::room_for(headers, len) < st.under {
        return false;
    }
    0 < st.size && st.size <= base::NODES
}
