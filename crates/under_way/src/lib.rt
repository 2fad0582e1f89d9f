// The lent bytes of the items under way, a place for each.
// Any numbers and bytes may be handed.
#![tactic(auto)]

ghost use Rattle.std.specs.Prelude.{◌≡◌, false, ◌*◌, ◌/◌, min, ◌≤◌, ◌<◌, ltb, leb, length};
ghost use Rattle.base.specs.Choice.{choose, both};
ghost use Rattle.base.specs.Limits.{base, width};
ghost use Rattle.tree.specs.Tree.{dimension};
ghost use Rattle.tree.specs.Lookups.{bad_board};
ghost use Rattle.frame.specs.Frame.{frame_length};
ghost use Rattle.under_way.specs.Frames.{place_size, closed};

// The bytes of a place: the longest frame.
pub const PLACE: usize = 68;

// How many items there is room for.
pub fn room_for(headers: usize, len: usize) -> usize
    ensures { result ≡ min 512 (min headers (len / place_size)) }
{
    (len / PLACE).min(headers).min(512)
}

// Of n places the one at `at` goes, and those after it move down whole. Where they are not all lent, or there is no such
// place, nothing moves.
pub fn close_gap(bytes: &mut [u8], n: usize, at: usize)
    ensures { bytes.new
        ≡ choose (both (ltb at n) (leb n (length bytes.old / place_size))) (closed bytes.old n at)
        bytes.old }
{
    if at < n && n <= bytes.len() / PLACE {
        let start = PLACE * at;
        let end = PLACE * n;
        bytes.copy_within(start + PLACE..end, start);
    }
}

// The length that a frame's head states.
#[tactic(auto, using(frame::proofs::Writing::first_length_lem, frame::proofs::Writing::second_length))]
fn stated(p: usize, pass: u8, k: u8) -> usize
    requires { p ≤ width }
    ensures { (result ≡ frame_length p pass k) × (result ≤ place_size) }
{
    let k = k as usize;
    if pass != 1 || p <= k {
        return 12;
    }
    4 + 8 * (p - k) + 8
}

// The length that a frame's head states, on a board of so many nodes.
pub fn stated_on(size: u32, pass: u8, k: u8) -> usize
    ensures { (bad_board base size ≡ false → result ≡ frame_length (dimension size) pass k) × (result ≤ place_size) }
{
    let Ok(d) = tree::dimension_of(size) else {
        return 12;
    };
    stated(d as usize, pass, k)
}
