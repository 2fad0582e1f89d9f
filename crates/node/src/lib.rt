// The state of a node, and what its calls answer. The definitions of the calls stand in specs/, their code in the crates above.
#![tactic(auto)]

use frame::{Sent, Taken};

// The latest frame of pass 1 in a dimension. Where none is stored, all numbers are 0.
#[derive(Clone, Copy)]
pub struct Stored {
    pub present: bool,
    // the tallies of each shell, by the shell's own number
    pub sent: [Sent; base::SHELLS],
    pub taken: [Taken; base::SHELLS],
    // total sent and total taken
    pub issued: Sent,
    pub received: Taken,
}

// The latest frame of pass 2 in a dimension.
#[derive(Clone, Copy)]
pub struct Confirm {
    pub present: bool,
    // the agreed total T and total sent
    pub agreed: u32,
    pub issued: Sent,
}

#[derive(Clone, Copy)]
pub struct Node {
    // P and the node's number
    pub nodes: u16,
    pub number: u8,
    pub phase: u8,
    pub busy: bool,
    // a sent tally and a taken tally per shell
    pub sent: [Sent; base::SHELLS],
    pub taken: [Taken; base::SHELLS],
    // the position: pass, dimension, send flag
    pub pass: u8,
    pub dim: u8,
    pub flag: bool,
    // the latest stored frame per pass and dimension
    pub first: [Stored; base::SHELLS],
    pub second: [Confirm; base::SHELLS],
    // the agreed total T
    pub agreed: u32,
}

// The number that says that no clause of a step fails: the clauses are 0 to 6.
pub const NO_CLAUSE: u32 = 7;

// What fresh, send, take, idle and frame in have done where they are not refused.
#[derive(Clone, Copy)]
pub enum Accepted {
    Done,
    // a late frame
    Dropped,
}

// The receivers of a frame: the neighbour, and a hermit where there is one.
#[derive(Clone, Copy)]
pub struct Receivers {
    pub first: u8,
    pub extra: Option<u8>,
}

// What a barrier call has done where it is not refused.
#[derive(Clone, Copy)]
pub enum Step {
    // to these receivers, a frame of this length
    Sends(Receivers, u32),
    // for this clause
    Waits(u8),
    Moved,
    Left,
}
