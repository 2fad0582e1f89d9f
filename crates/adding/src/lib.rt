// The numbers of a stored pass 1 frame added to the own sums, both in words that a caller lends.
#![tactic(auto)]

ghost use Rattle.std.specs.Prelude.{◌+◌, ◌≤◌, ◌<◌, length};
ghost use Rattle.layout.specs.Places.{most_words};
ghost use Rattle.layout.specs.Held.{first_from};
ghost use Rattle.adding.specs.Adding.{Framed, AddedBy};
ghost use Rattle.adding.specs.Pieces.{AddedAt, AddedRun, AddedTotals};

use frame::{Sent, Taken, Tally};

// Adds a tally of a frame to an own sum of its kind, where that does not come above the limit.
fn add_number<T: Tally>(sums: &mut [u32], to: u32, s: &[u32], from: u32, limit: u32) -> bool
    requires { (to < length sums.old) × (from < length s.now) }
    ensures { AddedAt sums.old to s.now from limit sums.new result }
{
    let own = T::of(sums[to as usize]);
    let more = T::of(s[from as usize]);
    if !walk_tests::fits(own, more, limit) {
        return false;
    }
    sums[to as usize] = own.number() + more.number();
    true
}

// Adds a run of tallies of one kind. Whether no sum comes above the limit.
fn add_all<T: Tally>(
    sums: &mut [u32],
    to: u32,
    s: &[u32],
    from: u32,
    count: u32,
    limit: u32,
) -> bool
    requires { (to + count ≤ length sums.old)
        × (from + count ≤ length s.now)
        × (to + count ≤ most_words)
        × (from + count ≤ most_words) }
    ensures { AddedRun sums.old to s.now from count limit sums.new result }
{
    for i in 0..count {
        if !add_number::<T>(&mut *sums, to + i, s, from + i, limit) {
            return false;
        }
    }
    true
}

// Adds the totals. Whether neither comes above the limit.
fn add_totals(sums: &mut [u32], s: &[u32], p: u32, k: u32, limit: u32) -> bool
    requires { Framed s.now sums.old p k }
    ensures { AddedTotals p (first_from s.now p k 0) limit sums.old sums.new result }
{
    let totals = layout::MARK + 2 * (p - k);
    if !add_number::<Sent>(&mut *sums, 2 * p, s, totals, limit) {
        return false;
    }
    add_number::<Taken>(
        &mut *sums,
        2 * p + layout::RECEIVED,
        s,
        totals + layout::RECEIVED,
        limit,
    )
}

// Adds the numbers of a frame of dimension k above its own shell, where no sum comes above the limit. Whether that is so: not
// where the words are no such frame's. Sums may be changed where it is not.
pub fn add_frame(limit: u32, s: &[u32], sums: &mut [u32], p: u32, k: u32) -> bool
    ensures { AddedBy limit s.now p k sums.old sums.new result }
{
    if !walk_tests::first_fits(p, k, s.len(), sums.len()) {
        return false;
    }
    if !add_totals(&mut *sums, s, p, k, limit) {
        return false;
    }
    let above = p - (k + 1);
    let sent = layout::MARK + 1;
    if !add_all::<Sent>(&mut *sums, k + 1, s, sent, above, limit) {
        return false;
    }
    add_all::<Taken>(&mut *sums, p + k + 1, s, sent + (p - k), above, limit)
}
