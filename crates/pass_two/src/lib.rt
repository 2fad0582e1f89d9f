// The clauses of a step of pass 2, by the words of its frame.
#![tactic(auto)]

ghost use Rattle.std.specs.Prelude.{◌≡◌};
ghost use Rattle.base.specs.Limits.{limits_of};
ghost use Rattle.node.specs.Agree.{first_failing};
ghost use Rattle.pass_two.specs.Tried.{second_tests};

use base::Bounds;
use frame::Sent;

// The words of a stored pass 2 frame.
#[derive(Clone, Copy)]
pub struct Confirmed {
    pub mark: u32,
    // T of the other side
    pub agreed: u32,
    pub issued: Sent,
}

// The first clause that fails, `NO_CLAUSE` where none does, with the own sum of total sent and T.
pub fn clause(b: Bounds, frame: Confirmed, last: bool, issued: Sent, agreed: u32) -> u32
    ensures { result ≡ first_failing (second_tests (limits_of b) last issued.0 agreed frame) }
{
    // a frame is stored
    if frame.mark != 1 {
        return 0;
    }
    // with the frame's added, total sent is within the limit
    if !walk_tests::fits(issued, frame.issued, b.field_limit()) {
        return 3;
    }
    // the other side has agreed on the same total
    if frame.agreed != agreed {
        return 5;
    }
    // in the last dimension T is what the whole board has sent
    if last && issued.0 + frame.issued.0 != agreed {
        return 6;
    }
    node::NO_CLAUSE
}
