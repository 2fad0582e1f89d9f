// A step of pass 1 before the position, over the words that a caller lends: those of its frame, and the own sums. The numbers
// of the frame are added to the sums as they are tested, so that each is read once.
#![tactic(auto)]

ghost use Rattle.std.specs.Prelude.{◌≡◌, true, eqb};
ghost use Rattle.base.specs.Choice.{choose};
ghost use Rattle.base.specs.Limits.{limits_of};
ghost use Rattle.layout.specs.Held.{first_from, sum_of};
ghost use Rattle.pass_one.specs.Tried.{PassedBy};
ghost use Rattle.adding.specs.Adding.{Framed};
ghost use Rattle.pass_one.specs.Pieces.{Opened, Agreed};

use base::Bounds;
use frame::{Sent, Taken};

// Clause 4: in the last dimension total sent is total taken, the frame's being added to both.
fn last_holds(last: bool, issued: Sent, received: Taken) -> bool
    ensures { result ≡ choose last (eqb issued.0 received.0) true }
{
    if !last {
        return true;
    }
    issued.0 == received.0
}

// Clauses 3 and 4, where those before them hold.
fn last_agree(b: Bounds, s: &[u32], sums: &mut [u32], p: u32, k: u32) -> bool
    requires { Framed s.now sums.old p k × Opened k (sum_of p sums.old) (first_from s.now p k 0) }
    ensures { Agreed (limits_of b) p k (first_from s.now p k 0) sums.old sums.new result }
{
    // the numbers above shell k and the totals, with the frame's added, are within the limit
    if !adding::add_frame(b.field_limit(), s, &mut *sums, p, k) {
        return false;
    }
    let issued = Sent(sums[(2 * p) as usize]);
    let received = Taken(sums[(2 * p + layout::RECEIVED) as usize]);
    last_holds(k + 1 == p, issued, received)
}

// The clauses of dimension k, tried by their numbers.
fn agree(b: Bounds, s: &[u32], sums: &mut [u32], p: u32, k: u32) -> bool
    requires { Framed s.now sums.old p k }
    ensures { Agreed (limits_of b) p k (first_from s.now p k 0) sums.old sums.new result }
{
    // a frame is stored
    if s[0] != 1 {
        return false;
    }
    // what this side sent the other has taken
    let own_sent = Sent(sums[k as usize]);
    let taken = Taken(s[(layout::MARK + (p - k)) as usize]);
    if own_sent.0 != taken.0 {
        return false;
    }
    // and the other way
    let own_taken = Taken(sums[(p + k) as usize]);
    let sent = Sent(s[layout::MARK as usize]);
    if own_taken.0 != sent.0 {
        return false;
    }
    last_agree(b, s, &mut *sums, p, k)
}

// Passes dimension k on a board of p dimensions, the words of its frame being lent, where it agrees: the numbers of the frame
// are then in the sums.
pub fn pass_step(b: Bounds, s: &[u32], sums: &mut [u32], p: u32, k: u32) -> bool
    ensures { PassedBy (limits_of b) s.now p k sums.old sums.new result }
{
    if !walk_tests::first_fits(p, k, s.len(), sums.len()) {
        return false;
    }
    agree(b, s, &mut *sums, p, k)
}
