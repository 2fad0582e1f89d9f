// What the state test says of a state, piece by piece: the laws for any limits, and what the tests over words share. The code
// stands in the crates above.

// What the test of a step needs to know of the node.
#![tactic(auto)]

#[derive(Clone, Copy)]
pub struct Spot {
    pub dims: u32,
    // the node awaits nobody in dimension 0
    pub alone: bool,
    pub pass: u8,
    pub dim: u32,
    pub agreed: u32,
}
