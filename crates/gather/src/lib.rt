// The own sums of a state before any frame is added, in the words that the caller lends.
#![tactic(auto)]

ghost use Rattle.std.specs.Prelude.{◌≡◌, true, length};
ghost use Rattle.base.specs.Limits.{limits_of};
ghost use Rattle.gather.specs.Gather.{has_room, tallied, no_tallies, tallies_of, Started};
ghost use Rattle.gather.specs.Pieces.{Copied};

use base::Bounds;
use frame::{Sent, Taken};

// The totals of the tallies, where these are within the limits. Where they are not, all else is 0.
#[derive(Clone, Copy)]
pub struct Tallies {
    pub ok: bool,
    pub sends: Sent,
    pub takes: Taken,
}

fn no_tallies() -> Tallies
    ensures { result ≡ no_tallies }
{
    Tallies {
        ok: false,
        sends: Sent(0),
        takes: Taken(0),
    }
}

// Makes the tallies of p shells the first sums and answers their totals, up to the first that comes above the most.
// Shells count in 32 bits: an iterator over the slices counts in 64, and has more at hand.
fn copy_tallies(s: &[u32], sums: &mut [u32], p: u32, sends: Sent, takes: Taken) -> Tallies
    requires { has_room p (length s.now) (length sums.old) ≡ true }
    ensures { Copied p s.now sends.0 takes.0 sums.old sums.new result }
{
    let mut sends_left = sends;
    let mut takes_left = takes;
    for m in 0..p {
        let sent = Sent(s[(layout::HEAD + m) as usize]);
        if sends_left.0 < sent.0 {
            return no_tallies();
        }
        let taken = Taken(s[(layout::HEAD + p + m) as usize]);
        if takes_left.0 < taken.0 {
            return no_tallies();
        }
        sums[m as usize] = sent.0;
        sums[(p + m) as usize] = taken.0;
        sends_left = Sent(sends_left.0 - sent.0);
        takes_left = Taken(takes_left.0 - taken.0);
    }
    Tallies {
        ok: true,
        sends: Sent(sends.0 - sends_left.0),
        takes: Taken(takes.0 - takes_left.0),
    }
}

fn has_room(p: u32, words: usize, room: usize) -> bool
    ensures { result ≡ has_room p words room }
{
    if layout::SHELLS < p {
        return false;
    }
    if words < (layout::HEAD + 2 * p) as usize {
        return false;
    }
    (2 * p + layout::TOTALS) as usize <= room
}

// Makes the tallies of p shells and their totals the sums.
pub fn start(b: Bounds, s: &[u32], sums: &mut [u32], p: u32) -> Tallies
    ensures answer { result ≡ tallies_of (limits_of b) p s.now (length sums.old) }
    ensures sums { (tallied (limits_of b) p s.now (length sums.old) ≡ true
        → Started p s.now sums.new)
        × (length sums.new ≡ length sums.old) }
{
    if !has_room(p, s.len(), sums.len()) {
        return no_tallies();
    }
    let own = copy_tallies(
        s,
        &mut *sums,
        p,
        Sent(b.sends as u32),
        Taken(b.taken_limit()),
    );
    if !own.ok {
        return own;
    }
    sums[(2 * p) as usize] = own.sends.0;
    sums[(2 * p + layout::RECEIVED) as usize] = own.takes.0;
    own
}
