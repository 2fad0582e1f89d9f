// Whether a message may be sent or taken, by the numbers of a state.
#![tactic(auto)]

ghost use Rattle.std.specs.Prelude.{◌≡◌};
ghost use Rattle.base.specs.Limits.{limits_of};
ghost use Rattle.base.specs.Refusal.{answered};
ghost use Rattle.refusals.specs.Tests.{first_met, send_tests, take_tests};

use base::{Bounds, Refusal};
use frame::{Sent, Taken, Timing};

// A message to a node, by so many sent. Refuses 2, 3, 4, 5.
pub fn may_send(
    b: Bounds,
    nodes: u32,
    number: u32,
    busy: u32,
    sends: Sent,
    to: u32,
) -> Result<(), Refusal>
    ensures { answered result ≡ first_met (send_tests (limits_of b) nodes number busy sends.0 to) }
{
    if nodes <= to {
        return Err(Refusal::Stranger);
    }
    if to == number {
        return Err(Refusal::Itself);
    }
    if busy != 1 {
        return Err(Refusal::Resting);
    }
    if b.sends as u32 <= sends.0 {
        return Err(Refusal::SentOut);
    }
    Ok(())
}

// A message from a node, with its phase byte, by so many taken. Refuses 2, 3, 7 or 8, 6.
pub fn may_take(
    b: Bounds,
    nodes: u32,
    number: u32,
    here: u8,
    takes: Taken,
    from: u32,
    phase: u8,
) -> Result<(), Refusal>
    ensures { answered result
        ≡ first_met (take_tests (limits_of b) nodes number here takes.0 from phase) }
{
    if nodes <= from {
        return Err(Refusal::Stranger);
    }
    if from == number {
        return Err(Refusal::Itself);
    }
    match frame::timing_of(phase, here) {
        Timing::Now => {}
        Timing::Early => return Err(Refusal::Early),
        Timing::Late => return Err(Refusal::Foreign),
        Timing::Foreign => return Err(Refusal::Foreign),
    }
    if b.taken_limit() <= takes.0 {
        return Err(Refusal::TakenFull);
    }
    Ok(())
}
