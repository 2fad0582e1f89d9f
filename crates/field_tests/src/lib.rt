// What the frame writer asks of a frame's fields before it writes, in the order of rule R3.
// Any words and number of nodes may be handed; what is not allowed is refused.
#![tactic(auto)]

ghost use Rattle.std.specs.Prelude.{◌≡◌};
ghost use Rattle.base.specs.Limits.{limits_of};
ghost use Rattle.base.specs.Refusal.{answered};
ghost use Rattle.field_tests.specs.Tests.{tested_on};

use base::{Bounds, Refusal};
use field_words::{DIM, PASS, PHASE, SENDER};

// The dimension of a board on which a frame of these fields may be written. Refuses 1, 10, 2.
pub fn tested(b: Bounds, nodes: u32, fields: &[u32; field_words::END]) -> Result<u32, Refusal>
    ensures { answered result ≡ tested_on (limits_of b) nodes fields.now }
{
    let p = tree::dimension_for(b, nodes)?;
    if 256 <= fields[PHASE] {
        return Err(Refusal::Field);
    }
    if frame::step_bad(p, fields[PASS], fields[DIM]) {
        return Err(Refusal::Field);
    }
    if !field_words::numbers_ok(b, p, fields) {
        return Err(Refusal::Field);
    }
    if nodes <= fields[SENDER] {
        return Err(Refusal::Stranger);
    }
    Ok(p)
}
