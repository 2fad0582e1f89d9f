// Small tests of a step that the walk over the stored frames of a state tries.
#![tactic(auto)]

ghost use Rattle.std.specs.Prelude.{◌≡◌, ◌+◌, leb};
ghost use Rattle.walk_tests.specs.Tests.{first_fits};

use frame::Tally;

// The sum of two tallies of one kind is within a limit.
pub fn fits<T: Tally>(own: T, more: T, limit: u32) -> bool
    ensures { result ≡ leb (T.count own + T.count more) limit }
{
    let own = own.number();
    let more = more.number();
    if limit < own {
        return false;
    }
    more <= limit - own
}

// So many words are those of a pass 1 frame of dimension k on a board of p dimensions, and so many have its sums.
pub fn first_fits(p: u32, k: u32, words: usize, room: usize) -> bool
    ensures { result ≡ first_fits p k words room }
{
    if p <= k {
        return false;
    }
    if layout::SHELLS < p {
        return false;
    }
    if words != (2 * (p - k) + layout::FIRST) as usize {
        return false;
    }
    (2 * p + layout::TOTALS) as usize <= room
}
