// A step of the walk in pass 2, by the words of its frame.
#![tactic(auto)]

ghost use Rattle.std.specs.Prelude.{◌≡◌, suc, ◌+◌, ◌<◌, eqb};
ghost use Rattle.base.specs.Limits.{limits_of};
ghost use Rattle.node.specs.Agree.{no_clause};
ghost use Rattle.confirming.specs.Step.{tested as withTest, added, confirm_step};

use base::Bounds;
use frame::Sent;
use pass_two::Confirmed;
use scanned::{Past, Walked};

// What the walk has, with a test.
pub fn tested(walked: Walked, ok: bool) -> Walked
    ensures { result ≡ withTest walked ok }
{
    let issued = walked.issued;
    let received = walked.received;
    Walked {
        ok: ok,
        issued: issued,
        clause: walked.clause,
        received: received,
    }
}

// k is the last of p dimensions. This is asked only where a clause is tried. A walk has k below p, so that the compiler leaves the
// first test out.
fn is_last(p: u32, k: u32) -> bool
    ensures { result ≡ eqb (suc k) p }
{
    k < p && k + 1 == p
}

// A step before the position, by the first of its clauses that fails: the frame's total sent is added.
fn confirmed(walked: Walked, more: Sent, clause: u32) -> Walked
    requires { clause ≡ no_clause → walked.issued.0 + more.0 < 4294967296 }
    ensures { result ≡ added walked more.0 clause }
{
    if clause != node::NO_CLAUSE {
        return tested(walked, false);
    }
    let received = walked.received;
    Walked {
        ok: true,
        issued: Sent(walked.issued.0 + more.0),
        clause: walked.clause,
        received: received,
    }
}

// The frame of dimension k of p.
pub fn second_step(
    b: Bounds,
    frame: Confirmed,
    p: u32,
    k: u32,
    awaits: bool,
    past: Past,
    walked: Walked,
    agreed: u32,
) -> Walked
    ensures { result ≡ confirm_step (limits_of b) frame p k awaits past walked agreed }
{
    let more = frame.issued;
    let issued = walked.issued;
    let mut clause = walked.clause;
    if awaits {
        if k < past.seconds {
            return confirmed(
                walked,
                more,
                pass_two::clause(b, frame, is_last(p, k), issued, agreed),
            );
        }
        if k == past.confirm {
            clause = pass_two::clause(b, frame, is_last(p, k), issued, agreed);
        }
    }
    let limit = b.field_limit();
    let received = walked.received;
    Walked {
        ok: scan_tests::may_confirm(frame.mark, frame.agreed, more, awaits, limit),
        issued: issued,
        clause: clause,
        received: received,
    }
}
