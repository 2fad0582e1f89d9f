// How many words a state has, and where the stored frames of a dimension begin.
#![tactic(auto)]

ghost use Rattle.std.specs.Prelude.{◌≡◌, leb};
ghost use Rattle.base.specs.Choice.{choose};
ghost use Rattle.layout.specs.Places.{at_first, state_words};

// ---- The places of the head, as specs/Places.antt names them

pub const NODES: usize = 0;

pub const NUMBER: usize = 1;

pub const PHASE: usize = 2;

pub const BUSY: usize = 3;

pub const PASS: usize = 4;

pub const DIM: usize = 5;

pub const FLAG: usize = 6;

pub const AGREED: usize = 7;
// words of the head
pub const HEAD: u32 = 8;

// ---- The widths of what follows it

// the mark before the numbers of a stored frame
pub const MARK: u32 = 1;
// total sent and total taken, which stand after the numbers by shell, in a frame of pass 1 and among the sums
pub const TOTALS: u32 = 2;
// total taken among these, total sent being first
pub const RECEIVED: u32 = 1;
// a stored frame of pass 1 besides its numbers by shell, which follow the mark: how many these are, the board decides
pub const FIRST: u32 = 3;
// where T and total sent stand in a stored frame of pass 2
pub const SECOND_AGREED: u32 = 1;

pub const SECOND_ISSUED: u32 = 2;
// all of that frame: it has no numbers by shell
pub const SECOND: u32 = 3;
// the shells of the largest board
pub const SHELLS: u32 = base::SHELLS as u32;

// ---- What follows it

// The words of a state on a board of p dimensions.
pub fn state_words(p: u8) -> u32
    ensures { result ≡ state_words p }
{
    let d = p as u32;
    HEAD + d * (d + 9)
}

// Where the words of dimension k begin; 0 where the board has no such dimension.
pub fn first_at(p: u8, k: u8) -> u32
    ensures { result ≡ choose (leb k p) (at_first p k) 0 }
{
    if p < k {
        return 0;
    }
    let d = p as u32;
    let i = k as u32;
    HEAD + 2 * d + i * (2 * d + 7 - i)
}
