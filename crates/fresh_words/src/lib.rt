// A fresh state put into lent words.
#![tactic(auto)]

ghost use Rattle.std.specs.Prelude.{◌≡◌, [], ◌∷◌, ◌++◌, ◌-◌, ◌≤◌, leb, length, take, drop};
ghost use Rattle.base.specs.Choice.{choose, list};
ghost use Rattle.layout.specs.Places.{head_words, state_words};

// The head: busy, at (1, 0, 1), T 0.
fn put_head(state: &mut [u32], nodes: u32, number: u32, phase: u8)
    requires { head_words ≤ length state.old }
    ensures { state.new
        ≡ (nodes ∷ number ∷ phase ∷ 1 ∷ 1 ∷ 0 ∷ 1 ∷ 0 ∷ []) ++ drop head_words state.old }
{
    state[layout::NODES] = nodes;
    state[layout::NUMBER] = number;
    state[layout::PHASE] = phase as u32;
    state[layout::BUSY] = 1;
    state[layout::PASS] = 1;
    state[layout::DIM] = 0;
    state[layout::FLAG] = 1;
    state[layout::AGREED] = 0;
}

// Zeros from one place to another.
fn put_zeros(state: &mut [u32], from: u32, end: u32)
    requires { (from ≤ end) × (end ≤ length state.old) }
    ensures { state.new
        ≡ take from state.old ++ (list 0 (end - from) (λ i. 0) ++ drop end state.old) }
{
    state[from as usize..end as usize].fill(0);
}

// Puts the state of a fresh node of a board of p dimensions. Puts none where there is no room.
pub fn put_fresh(state: &mut [u32], p: u8, nodes: u32, number: u32, phase: u8)
    ensures { state.new
        ≡ choose (leb (state_words p) (length state.old))
        ((nodes ∷ number ∷ phase ∷ 1 ∷ 1 ∷ 0 ∷ 1 ∷ 0 ∷ [])
        ++ (list 0 (state_words p - head_words) (λ i. 0) ++ drop (state_words p) state.old))
        state.old }
{
    let words = layout::state_words(p);
    if state.len() < words as usize {
        return;
    }
    put_head(state, nodes, number, phase);
    put_zeros(state, layout::HEAD, words);
}
