// Small tests of the look at a stored frame of pass 1: a number beside its sum, and the clauses in their order.
#![tactic(auto)]

ghost use Rattle.std.specs.Prelude.{◌≡◌};
ghost use Rattle.look_tests.specs.Tests.{excess, clause_by};

use frame::{Sent, Taken, Tally};

// ---- The excess of a number beside its sum: 0 where the sum with it is within the limit, 1 where it alone is, else 2

pub fn excess<T: Tally>(own: T, sum: T, limit: u32) -> u32
    ensures { result ≡ excess limit (T.count own) (T.count sum) }
{
    let own = own.number();
    let sum = sum.number();
    if limit < sum {
        return 2;
    }
    if limit - sum < own {
        return 1;
    }
    0
}

// ---- The clauses

// The first clause that fails where a frame is stored, `NO_CLAUSE` where none does, by the sums and numbers of shell k, the excess
// of the other sums and the totals.
pub fn clause_by(
    sent: Sent,
    got: Taken,
    taken: Taken,
    gave: Sent,
    excess: u32,
    last: bool,
    issued: Sent,
    received: Taken,
) -> u32
    ensures { result
        ≡ clause_by sent.0 got.0 taken.0 gave.0 excess last issued.0 received.0 }
{
    // what this side sent the other has taken
    if sent.0 != got.0 {
        return 1;
    }
    // and the other way
    if taken.0 != gave.0 {
        return 2;
    }
    // the sums with the frame's numbers are within the limit
    if excess != 0 {
        return 3;
    }
    // in the last dimension total sent is total taken
    if last && issued.0 != received.0 {
        return 4;
    }
    node::NO_CLAUSE
}
