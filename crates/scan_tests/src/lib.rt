// Small tests of the scan over the stored frames of a state.
#![tactic(auto)]

ghost use Rattle.std.specs.Prelude.{◌≡◌, not, ℕ, leb, eqb};
ghost use Rattle.base.specs.Choice.{choose, both};
ghost use Rattle.scan_tests.specs.Tests.{may_mark, bound_for, may_confirm, total_tested};

use frame::{Sent, Taken};

// ---- What is stored for a step

// The larger of two numbers: it is within a limit where both are.
pub fn larger(a: u32, b: u32) -> u32
    ensures { (limit : ℕ) → leb result limit ≡ both (leb a limit) (leb b limit) }
{
    if a < b {
        return b;
    }
    a
}

// A mark may stand: 0, or 1 where a frame is awaited.
pub fn may_mark(mark: u32, awaited: bool) -> bool
    ensures { result ≡ may_mark mark awaited }
{
    if mark == 0 {
        return true;
    }
    if mark != 1 {
        return false;
    }
    awaited
}

// What a number after a mark may come to: 0 where no frame is stored.
pub fn bound_for(mark: u32, limit: u32) -> u32
    ensures { result ≡ bound_for mark limit }
{
    if mark == 0 {
        return 0;
    }
    limit
}

// The words of a frame of pass 2 may be stored: its mark, T and total sent.
pub fn may_confirm(mark: u32, agreed: u32, issued: Sent, awaited: bool, limit: u32) -> bool
    ensures { result ≡ may_confirm mark agreed issued.0 awaited limit }
{
    if mark == 0 {
        return agreed == 0 && issued.0 == 0;
    }
    if mark != 1 {
        return false;
    }
    if !awaited {
        return false;
    }
    agreed <= limit && issued.0 <= limit
}

// ---- Which steps are tried

// The node awaits a frame in dimension k of its board.
pub fn awaits_at(alone: bool, k: u32) -> bool
    ensures { result ≡ not (both (eqb k 0) alone) }
{
    if 0 < k {
        return true;
    }
    !alone
}

// How many steps are before the position, by what pass 1 and what pass 2 gives.
pub fn before_position(pass: u8, first: u32, second: u32) -> u32
    ensures { result ≡ choose (eqb pass 1) first second }
{
    if pass == 1 {
        return first;
    }
    second
}

// ---- T

// All steps pass, and T is what the pass gives.
pub fn total_ok(passed: bool, pass: u8, agreed: u32, received: Taken) -> bool
    ensures { result ≡ both passed (total_tested pass agreed received.0) }
{
    if !passed {
        return false;
    }
    if pass == 1 {
        return agreed == 0;
    }
    agreed == received.0
}
