// The board of a rehearsal, of up to 16 nodes, and its nodes' states, read and changed. Any board and numbers may be
// handed.
#![tactic(auto)]

ghost use Rattle.std.specs.Prelude.{◌≡◌, true, ◌<◌};
ghost use Rattle.base.specs.Limits.{base};
ghost use Rattle.layout.specs.Held.{is_whole};
ghost use Rattle.board_states.specs.States.{state_at, changed};

use states::State;

#[derive(Clone, Copy)]
pub struct Stage {
    pub states: [State; 16],
    // P
    pub size: u32,
    // how many items are under way
    pub under: usize,
}

// The state of a node; words that hold none where the board has no such place.
pub fn state_at(st: Stage, a: u32) -> State
    ensures { (result ≡ state_at st a) × (is_whole base result.words ≡ true → a < 16) }
{
    if a < 16 {
        let i = a as usize;
        return st.states[i];
    }
    states::none()
}

// The board with another state of a node and another number of items under way.
pub fn with_state(st: Stage, a: u32, s: State, under: usize) -> Stage
    ensures { result ≡ changed st a s under }
{
    let mut after = st;
    after.under = under;
    if 16 <= a {
        return after;
    }
    let i = a as usize;
    after.states[i] = s;
    after
}
