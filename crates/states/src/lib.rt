// A node's state by value, on boards of up to 16 nodes.
#![tactic(auto)]

ghost use Rattle.std.specs.Prelude.{◌≡◌, true};
ghost use Rattle.base.specs.Limits.{base};
ghost use Rattle.layout.specs.Held.{is_whole, unpacked};
ghost use Rattle.states.specs.Words.{no_state, fresh_state};

use base::Bounds;

// The words of a state of a board of 16 nodes.
pub const WORDS: usize = 60;

#[derive(Clone, Copy)]
pub struct State {
    pub words: [u32; WORDS],
}

// Words that hold no state.
pub fn none() -> State
    ensures { result ≡ no_state }
{
    State { words: [0; WORDS] }
}

// A node that has just started; none where there is no such node, or no room for its board.
pub fn fresh(nodes: u32, number: u32) -> State
    ensures { result ≡ fresh_state nodes number }
{
    let mut words = [0u32; WORDS];
    // what it answers is not told: the words of a refusal hold no state
    let _ = node_fresh::fresh(Bounds::of_build(), &mut words, nodes, number);
    State { words }
}

// The phase byte of a state.
pub fn phase_of(s: State) -> u8
    ensures { is_whole base s.words ≡ true → result ≡ (unpacked s.words).phase }
{
    (s.words[layout::PHASE] % 256) as u8
}
