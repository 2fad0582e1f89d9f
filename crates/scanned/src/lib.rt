// What a scan of a state says and a walk over its stored frames has: the types, the definitions and their laws; the scan of a state
// that does not pass the test, and which steps a walk tries.
#![tactic(auto)]

ghost use Rattle.std.specs.Prelude.{◌≡◌};
ghost use Rattle.scanned.specs.Scan.{no_scan};
ghost use Rattle.scanned.specs.Pieces.{past_of};

use frame::{Sent, Taken};
use survey::Spot;

// What is known of a state. Where it does not pass the test, all else is 0.
#[derive(Clone, Copy)]
pub struct Scan {
    pub ok: bool,
    // p
    pub dims: u32,
    // the node's own total sent and total taken
    pub sends: Sent,
    pub takes: Taken,
    // in pass 2 the own sum of total sent for the node's dimension
    pub issued: Sent,
    // of the step of the position, if it was looked at: the first clause that fails, `NO_CLAUSE` where none does
    pub clause: u32,
    // where none does in pass 1, total taken with the frame's
    pub received: Taken,
}

// What a walk has so far.
#[derive(Clone, Copy)]
pub struct Walked {
    // the frames pass the test
    pub ok: bool,
    // the own sum of total sent in pass 2
    pub issued: Sent,
    // as a scan has them
    pub clause: u32,
    pub received: Taken,
}

// Which steps a walk tries.
#[derive(Clone, Copy)]
pub struct Past {
    // how many of each pass are before the position
    pub firsts: u32,
    pub seconds: u32,
    // the dimension whose frame of pass 1 is looked at, and of pass 2; p for none
    pub look: u32,
    pub confirm: u32,
}

// The scan of a state that does not pass the test.
pub fn no_scan() -> Scan
    ensures { result ≡ no_scan }
{
    Scan {
        ok: false,
        dims: 0,
        sends: Sent(0),
        takes: Taken(0),
        issued: Sent(0),
        clause: 0,
        received: Taken(0),
    }
}

// The steps that are before the position, and the one that is looked at, if any is.
pub fn past_of(spot: Spot, looks: bool) -> Past
    ensures { result ≡ past_of spot looks }
{
    let p = spot.dims;
    let here = if looks { spot.dim } else { p };
    Past {
        firsts: scan_tests::before_position(spot.pass, spot.dim, p),
        seconds: scan_tests::before_position(spot.pass, 0, spot.dim),
        look: scan_tests::before_position(spot.pass, here, p),
        confirm: scan_tests::before_position(spot.pass, p, here),
    }
}
