// The state test, the sums of a state that passes it and the look at its position, in one walk over the words that the caller
// lends.
#![tactic(auto)]

ghost use Rattle.std.specs.Prelude.{◌≡◌, true, ℕ, ◌≤◌, ◌<◌, leb, length};
ghost use Rattle.base.specs.Limits.{limits_of};
ghost use Rattle.layout.specs.Places.{second_words, most_words};
ghost use Rattle.layout.specs.Held.{unpacked};
ghost use Rattle.stored.specs.Held.{low_after, held_test};
ghost use Rattle.adding.specs.Adding.{Framed};
ghost use Rattle.walked.specs.Walk.{reach};
ghost use Rattle.scanned.specs.Scan.{Scanned, passes, Gathered};
ghost use Rattle.scanned.specs.Pieces.{FirstStep, Steps, Stepped, Walking};
ghost use Rattle.scanned.specs.Pieces.{WalkedAll, Ready, ScannedOn};
ghost use Rattle.confirming.specs.Pieces.{confirmed_in};

use base::Bounds;
use frame::{Sent, Taken};
use pass_two::Confirmed;
use scanned::{Past, Scan, Walked};
use survey::Spot;

// ---- What is stored for a step

// The largest of the numbers after the mark, 0 for none. Places count in 32 bits: a `for` over the slice counts in 64, which takes
// twice the instructions on a small controller. A loop that stops at the first above a bound has fewer instructions and takes more
// cycles.
fn largest(s: &[u32]) -> u32
    requires { length s.now ≤ most_words }
    ensures { (limit : ℕ) → leb result limit ≡ low_after limit s.now 0 (length s.now) }
{
    let mut most: u32 = 0;
    for i in layout::MARK..s.len() as u32 {
        most = scan_tests::larger(most, s[i as usize]);
    }
    most
}

// The words of a frame of pass 1, the mark first, may be stored.
fn first_ok(s: &[u32], limit: u32, awaits: bool) -> bool
    requires { (0 < length s.now) × (length s.now ≤ most_words) }
    ensures { result ≡ held_test limit s.now awaits 0 (length s.now) }
{
    if !scan_tests::may_mark(s[0], awaits) {
        return false;
    }
    largest(s) <= scan_tests::bound_for(s[0], limit)
}

// ---- A step

// The frame of pass 1 in dimension k, its words being lent. Before the position its clauses decide, since a frame that agrees
// with sums within the limit is within it.
fn first_step(
    b: Bounds,
    s: &[u32],
    sums: &mut [u32],
    p: u32,
    k: u32,
    awaits: bool,
    past: Past,
    walked: Walked,
) -> Walked
    requires { Framed s.now sums.old p k }
    ensures { FirstStep (limits_of b) s.now p k awaits past walked sums.old sums.new result }
{
    let mut clause = walked.clause;
    let issued = walked.issued;
    if awaits {
        if k < past.firsts {
            return confirming::tested(walked, pass_one::pass_step(b, s, sums, p, k));
        }
        if k == past.look {
            if s[0] == 1 {
                let look = look::look_at(b, s, &*sums, p, k);
                let total = look.received;
                return Walked {
                    ok: look.ok,
                    issued: issued,
                    clause: look.clause,
                    received: total,
                };
            }
            // no frame is stored
            clause = 0;
        }
    }
    let received = walked.received;
    Walked {
        ok: first_ok(s, b.field_limit(), awaits),
        issued: issued,
        clause: clause,
        received: received,
    }
}

// The words of a frame of pass 2.
fn confirmed_in(s: &[u32]) -> Confirmed
    requires { length s.now ≡ second_words }
    ensures { result ≡ confirmed_in s.now }
{
    let issued = Sent(s[layout::SECOND_ISSUED as usize]);
    Confirmed {
        mark: s[0],
        agreed: s[layout::SECOND_AGREED as usize],
        issued: issued,
    }
}

// Dimension k in both passes, the words of each frame being lent by themselves: a step reads these and no others.
fn step(
    b: Bounds,
    first: &[u32],
    second: &[u32],
    sums: &mut [u32],
    spot: Spot,
    past: Past,
    k: u32,
    walked: Walked,
) -> Walked
    requires { Steps (limits_of b) first.now second.now sums.old spot past k }
    ensures { Stepped (limits_of b) first.now second.now spot past k walked sums.old
        sums.new result }
{
    let p = spot.dims;
    let awaits = scan_tests::awaits_at(spot.alone, k);
    let one = first_step(b, first, &mut *sums, p, k, awaits, past, walked);
    if !one.ok {
        return one;
    }
    let frame = confirmed_in(second);
    confirming::second_step(b, frame, p, k, awaits, past, one, spot.agreed)
}

// ---- The walk over the stored frames

// Tests all dimensions and gathers the sums, which are those before any frame is added. Each step is lent the words of its
// frames, and the place from which they are lent only rises, so that no word is read in two steps.
fn walk(b: Bounds, s: &[u32], sums: &mut [u32], spot: Spot, looks: bool, sends: Sent) -> Walked
    requires { Walking (limits_of b) s.now sums.old spot sends.0 }
    ensures { WalkedAll (limits_of b) s.now looks sums.old sums.new result }
{
    let p = spot.dims;
    let past = scanned::past_of(spot, looks);
    let mut walked = Walked {
        ok: true,
        issued: sends,
        clause: node::NO_CLAUSE,
        received: Taken(0),
    };
    let mut at = layout::HEAD + 2 * p;
    for k in 0..p {
        let middle = at + (2 * (p - k) + layout::FIRST);
        let end = middle + layout::SECOND;
        let first = &s[at as usize..middle as usize];
        walked = step(
            b,
            first,
            &s[middle as usize..end as usize],
            &mut *sums,
            spot,
            past,
            k,
            walked,
        );
        if !walked.ok {
            return walked;
        }
        at = end;
    }
    walked
}

// ---- The scan

// The scan of words whose head passes, with sums that hold the tallies and the totals of these.
fn scan_steps(
    b: Bounds,
    s: &[u32],
    sums: &mut [u32],
    spot: Spot,
    looks: bool,
    sends: Sent,
    takes: Taken,
) -> Scan
    requires { Ready (limits_of b) s.now sums.old spot sends.0 takes.0 }
    ensures { ScannedOn (limits_of b) looks s.now sums.old sums.new result }
{
    let walked = walk(b, s, &mut *sums, spot, looks, sends);
    let taken = Taken(sums[(2 * spot.dims + layout::RECEIVED) as usize]);
    if !scan_tests::total_ok(walked.ok, spot.pass, spot.agreed, taken) {
        return scanned::no_scan();
    }
    let issued = walked.issued;
    let received = walked.received;
    Scan {
        ok: true,
        dims: spot.dims,
        sends: sends,
        takes: takes,
        issued: issued,
        clause: walked.clause,
        received: received,
    }
}

// Tests the state and gathers its sums for pass 1: for the node's dimension, in pass 2 for all dimensions. Looks at the step of
// the position where that is asked for.
pub fn scan_of(b: Bounds, s: &[u32], sums: &mut [u32], looks: bool) -> Scan
    ensures answer { Scanned (limits_of b) (length sums.old) looks s.now result }
    ensures sums { (passes (limits_of b) (length sums.old) s.now ≡ true
        → Gathered (unpacked s.now) (reach (unpacked s.now)) sums.new)
        × (length sums.new ≡ length sums.old) }
{
    let head = head::head_of(b, s);
    if !head.ok {
        return scanned::no_scan();
    }
    let own = gather::start(b, s, sums, head.spot.dims);
    if !own.ok {
        return scanned::no_scan();
    }
    scan_steps(b, s, sums, head.spot, looks, own.sends, own.takes)
}
