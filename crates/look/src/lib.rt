// The look at the step of a node's position in pass 1: its frame, lent by itself, is read once, for the state test and for the
// clauses.
#![tactic(auto)]

ghost use Rattle.std.specs.Prelude.{◌≡◌, ◌≤◌, ◌<◌};
ghost use Rattle.base.specs.Limits.{limits_of};
ghost use Rattle.layout.specs.Held.{word, first_from, sum_of};
ghost use Rattle.adding.specs.Adding.{Framed};
ghost use Rattle.look.specs.Look.{Looked};
ghost use Rattle.look.specs.Pieces.{ShellWeighed, Weighed, TotalsAdded, no_look, Judged};

use base::Bounds;
use frame::{Sent, Taken};

#[derive(Clone, Copy)]
pub struct Look {
    // the numbers of the frame may be stored
    pub ok: bool,
    // the first clause that fails, `NO_CLAUSE` where none does
    pub clause: u32,
    // where none does, total taken with the frame's
    pub received: Taken,
}

fn no_look() -> Look
    ensures { result ≡ no_look }
{
    Look {
        ok: false,
        clause: 0,
        received: Taken(0),
    }
}

// ---- The excess of the numbers beside their sums

// Both numbers of shell m: the larger excess.
fn shell_excess(limit: u32, s: &[u32], sums: &[u32], p: u32, k: u32, m: u32) -> u32
    requires { Framed s.now sums.now p k × (k ≤ m) × (m < p) }
    ensures { ShellWeighed limit m (sum_of p sums.now) (first_from s.now p k 0) result }
{
    let sent = Sent(s[(layout::MARK + (m - k)) as usize]);
    let taken = Taken(s[(layout::MARK + (p - k) + (m - k)) as usize]);
    let one = look_tests::excess(Sent(sums[m as usize]), sent, limit);
    let other = look_tests::excess(Taken(sums[(p + m) as usize]), taken, limit);
    scan_tests::larger(one, other)
}

// The largest excess of the shells above k, 0 for none. It goes by shells, since the numbers of one stand at four places.
fn weigh(limit: u32, s: &[u32], sums: &[u32], p: u32, k: u32) -> u32
    requires { Framed s.now sums.now p k }
    ensures { Weighed limit p k (sum_of p sums.now) (first_from s.now p k 0) result }
{
    let mut most: u32 = 0;
    for m in k + 1..p {
        most = scan_tests::larger(most, shell_excess(limit, s, sums, p, k, m));
    }
    most
}

// The larger excess of the totals and, where both are within the limit, their sums.
#[derive(Clone, Copy)]
struct Totals {
    excess: u32,
    issued: Sent,
    received: Taken,
}

fn add_totals(limit: u32, s: &[u32], sums: &[u32], p: u32, k: u32) -> Totals
    requires { Framed s.now sums.now p k }
    ensures { TotalsAdded limit (sum_of p sums.now) (first_from s.now p k 0) result }
{
    let at = layout::MARK + 2 * (p - k);
    let issued = Sent(s[at as usize]);
    let received = Taken(s[(at + layout::RECEIVED) as usize]);
    let own_issued = Sent(sums[(2 * p) as usize]);
    let own_received = Taken(sums[(2 * p + layout::RECEIVED) as usize]);
    let one = look_tests::excess(own_issued, issued, limit);
    let other = look_tests::excess(own_received, received, limit);
    let excess = scan_tests::larger(one, other);
    if excess != 0 {
        return Totals {
            excess: excess,
            issued: Sent(0),
            received: Taken(0),
        };
    }
    let all_issued = Sent(own_issued.0 + issued.0);
    let all_received = Taken(own_received.0 + received.0);
    Totals {
        excess: 0,
        issued: all_issued,
        received: all_received,
    }
}

// A frame that is stored.
fn judge(b: Bounds, s: &[u32], sums: &[u32], p: u32, k: u32) -> Look
    requires { Framed s.now sums.now p k × (word s.now 0 ≡ 1) }
    ensures { Judged (limits_of b) s.now sums.now p k result }
{
    let limit = b.field_limit();
    let sent = Sent(s[layout::MARK as usize]);
    let taken = Taken(s[(layout::MARK + (p - k)) as usize]);
    let totals = add_totals(limit, s, sums, p, k);
    let most = scan_tests::larger(totals.excess, weigh(limit, s, sums, p, k));
    let own_sent = Sent(sums[k as usize]);
    let own_taken = Taken(sums[(p + k) as usize]);
    let last = k + 1 == p;
    let ok = most < 2 && sent.0 <= limit && taken.0 <= limit;
    let issued = totals.issued;
    let received = totals.received;
    Look {
        ok: ok,
        clause: look_tests::clause_by(
            own_sent, taken, own_taken, sent, most, last, issued, received,
        ),
        received: received,
    }
}

// The look at a frame that is stored for dimension k on a board of p dimensions, its words being lent. Where they are no such
// frame's, none is stored.
pub fn look_at(b: Bounds, s: &[u32], sums: &[u32], p: u32, k: u32) -> Look
    ensures { Looked (limits_of b) s.now sums.now p k result }
{
    if !walk_tests::first_fits(p, k, s.len(), sums.len()) {
        return no_look();
    }
    if s[0] != 1 {
        return no_look();
    }
    judge(b, s, sums, p, k)
}
