// What every crate shares: the limits of a build as its calls are handed them, the kinds of work messages, and why a call is refused.
#![tactic(auto)]

ghost use Rattle.std.specs.Prelude.{◌≡◌, ◌<◌};
ghost use Rattle.base.specs.Limits.{base, limits_of, last_of, field_limit, taken_limit};
ghost use Rattle.base.specs.Refusal.{number};

// The node limit of the largest build, and the shells of its largest board.
pub const NODES: u32 = 96;

pub const SHELLS: usize = 7;

// A node limit and a send limit. Every value of this type stands for a pair that the largest build has room for.
#[derive(Clone, Copy)]
pub struct Bounds {
    // the highest number of a node: the node limit less 1; what is higher than in the largest build stands for that
    pub last: u8,
    // how many messages a node may send in a phase
    pub sends: u16,
}

impl Bounds {
    // The limits of this build.
    pub fn of_build() -> Bounds
        ensures { limits_of result ≡ base }
    {
        Bounds {
            last: (NODES - 1) as u8,
            sends: 65535,
        }
    }

    // The highest number of a node.
    pub fn last(self) -> u32
        ensures { (result ≡ last_of self) × (result < base.nodes) }
    {
        let handed = self.last as u32;
        if handed < NODES { handed } else { NODES - 1 }
    }

    // The largest number that a frame may hold.
    pub fn field_limit(self) -> u32
        ensures { result ≡ field_limit (limits_of self) }
    {
        (self.last() + 1) * self.sends as u32
    }

    // How many messages a node may take in a phase.
    pub fn taken_limit(self) -> u32
        ensures { result ≡ taken_limit (limits_of self) }
    {
        self.last() * self.sends as u32
    }
}

// A work message is a job, which wakes an idle node that takes it, or a note, which does not.
#[derive(Clone, Copy)]
pub enum Kind {
    Job,
    Note,
}

// Why a call is refused (rule R1). In C each has the number that stands here.
#[derive(Clone, Copy, PartialEq, Eq)]
pub enum Refusal {
    Board = 1,
    Stranger = 2,
    Itself = 3,
    Resting = 4,
    SentOut = 5,
    TakenFull = 6,
    Early = 7,
    Foreign = 8,
    Length = 9,
    Field = 10,
    Partner = 11,
    Working = 12,
    State = 13,
    Buffer = 14,
    Crowded = 15,
    Nothing = 16,
    Script = 17,
    Recording = 18,
    Differs = 19,
}

impl Refusal {
    // Its number in C.
    pub fn number(self) -> u8
        ensures { result ≡ number self }
    {
        self as u8
    }
}
