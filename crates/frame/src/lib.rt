// Frames on a maker's links: the fields of a frame, the timing of a phase byte, and the test of a step. Their bytes are read
// and written in place, by the crates above.
#![tactic(auto)]

ghost use Rattle.std.specs.Prelude.{◌≡◌, ℕ};
ghost use Rattle.frame.specs.Frame.{bad_step};
ghost use Rattle.frame.specs.Timing.{timing};

// A tally of messages: what is done alike with those sent and those taken is one function over this trait, at one kind a call.
pub trait Tally: Copy {
    ghost count: { Self → ℕ };

    fn of(number: u32) -> Self
        ensures { count result ≡ number };

    fn number(self) -> u32
        ensures { result ≡ count self };
}

// A tally of messages sent.
#[derive(Clone, Copy)]
pub struct Sent(pub u32);

impl Tally for Sent {
    ghost count = { λ sent. sent.0 };

    fn of(number: u32) -> Sent {
        Sent(number)
    }

    fn number(self) -> u32 {
        self.0
    }
}

// A tally of messages taken.
#[derive(Clone, Copy)]
pub struct Taken(pub u32);

impl Tally for Taken {
    ghost count = { λ taken. taken.0 };

    fn of(number: u32) -> Taken {
        Taken(number)
    }

    fn number(self) -> u32 {
        self.0
    }
}

// The fields of a frame of pass 1 or 2. What its pass, dimension or board does not have is 0.
#[derive(Clone, Copy)]
pub struct Frame {
    pub pass: u8,
    pub phase: u8,
    pub dim: u8,
    pub sender: u8,
    // pass 1: the tallies of each shell, by the shell's own number
    pub sent: [Sent; base::SHELLS],
    pub taken: [Taken; base::SHELLS],
    // total sent
    pub issued: Sent,
    // pass 1: total taken
    pub received: Taken,
    // pass 2: the agreed total T
    pub agreed: u32,
}

// A phase byte beside a node's.
#[derive(Clone, Copy)]
pub enum Timing {
    Now,
    Early,
    Late,
    Foreign,
}

// The timing of a frame's or message's phase byte at a node.
pub fn timing_of(other: u8, node: u8) -> Timing
    ensures { result ≡ timing other node }
{
    let d = std::num::wrapping_sub_u8(other, node);
    match d {
        0 => Timing::Now,
        1 => Timing::Early,
        255 => Timing::Late,
        2..=254 => Timing::Foreign,
    }
}

// The pass is not 1 or 2, or the dimension is not below p.
pub fn step_bad(p: u32, pass: u32, k: u32) -> bool
    ensures { result ≡ bad_step p pass k }
{
    match pass {
        1 | 2 => p <= k,
        _ => true,
    }
}
