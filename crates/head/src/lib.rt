// The head of a state, in the words that the caller lends.
#![tactic(auto)]

ghost use Rattle.std.specs.Prelude.{◌≡◌, true, ◌≤◌, ◌<◌, eqb, length};
ghost use Rattle.base.specs.Choice.{either};
ghost use Rattle.base.specs.Limits.{limits_of};
ghost use Rattle.survey.specs.Pieces.{position_test, busy_test};
ghost use Rattle.survey.specs.Spots.{lone, spot_at};
ghost use Rattle.layout.specs.Held.{word};
ghost use Rattle.head.specs.Head.{no_head, headed};
ghost use Rattle.head.specs.Pieces.{head_tested, Boarded};
ghost use Rattle.layout.specs.Places.{head_words, at_nodes, at_number, at_pass, at_dim, at_agreed};

use base::Bounds;
use survey::Spot;
use tree::Placed;

// Where the node is, if its head passes. Where that does not, all else is 0.
#[derive(Clone, Copy)]
pub struct Head {
    pub ok: bool,
    pub spot: Spot,
}

fn no_head() -> Head
    ensures { result ≡ no_head }
{
    let spot = Spot {
        dims: 0,
        alone: false,
        pass: 0,
        dim: 0,
        agreed: 0,
    };
    Head {
        ok: false,
        spot: spot,
    }
}

fn is_pass(pass: u32) -> bool
    ensures { result ≡ either (eqb pass 1) (eqb pass 2) }
{
    pass == 1 || pass == 2
}

fn position_ok(p: u32, pass: u32, dim: u32) -> bool
    ensures { result ≡ position_test p pass dim }
{
    if p == 0 {
        return pass == 1 && dim == 0;
    }
    if !is_pass(pass) {
        return false;
    }
    dim < p
}

// A busy node is at (1, 0, 1).
fn busy_ok(busy: u32, pass: u32, dim: u32, flag: u32) -> bool
    ensures { result ≡ busy_test (eqb busy 1) pass dim (eqb flag 1) }
{
    if busy != 1 {
        return true;
    }
    if pass != 1 {
        return false;
    }
    if dim != 0 {
        return false;
    }
    flag == 1
}

// The words of the head: their range, T, the node's number, position and work.
fn head_ok(s: &[u32], limit: u32, p: u32) -> bool
    requires { head_words ≤ length s.now }
    ensures { result ≡ head_tested limit p s.now }
{
    // a phase is a byte, busy and flag are 0 or 1
    if 256 <= s[layout::PHASE] {
        return false;
    }
    if 2 <= s[layout::BUSY] {
        return false;
    }
    if 2 <= s[layout::FLAG] {
        return false;
    }
    if limit < s[layout::AGREED] {
        return false;
    }
    if s[layout::NODES] <= s[layout::NUMBER] {
        return false;
    }
    if !position_ok(p, s[layout::PASS], s[layout::DIM]) {
        return false;
    }
    busy_ok(
        s[layout::BUSY],
        s[layout::PASS],
        s[layout::DIM],
        s[layout::FLAG],
    )
}

// The node awaits nobody in dimension 0.
fn is_alone(b: Bounds, nodes: u32, number: u32) -> bool
    ensures { result ≡ lone (limits_of b) nodes number }
{
    let Ok(place) = lookups::place_for(b, nodes, 0, number) else {
        return false;
    };
    matches!(place, Placed::Alone)
}

fn spot_at(b: Bounds, s: &[u32], p: u32) -> Spot
    requires { (head_words ≤ length s.now) × (word s.now at_pass < 3) }
    ensures { result
        ≡ spot_at (limits_of b) p (word s.now at_nodes) (word s.now at_number) (word s.now at_pass)
        (word s.now at_dim) (word s.now at_agreed) }
{
    Spot {
        dims: p,
        alone: is_alone(b, s[layout::NODES], s[layout::NUMBER]),
        pass: s[layout::PASS] as u8,
        dim: s[layout::DIM],
        agreed: s[layout::AGREED],
    }
}

// The head of words that are enough for their board, of p dimensions.
fn head_on(b: Bounds, s: &[u32], p: u32) -> Head
    requires { Boarded (limits_of b) s.now p }
    ensures { result ≡ headed (limits_of b) s.now }
{
    if !head_ok(s, b.field_limit(), p) {
        return no_head();
    }
    let spot = spot_at(b, s, p);
    Head {
        ok: true,
        spot: spot,
    }
}

// Tests the head, and that the words are enough for its board.
pub fn head_of(b: Bounds, s: &[u32]) -> Head
    ensures { result ≡ headed (limits_of b) s.now }
{
    if s.len() < layout::HEAD as usize {
        return no_head();
    }
    let Ok(p) = tree::dimension_for(b, s[layout::NODES]) else {
        return no_head();
    };
    if s.len() < layout::state_words(p as u8) as usize {
        return no_head();
    }
    head_on(b, s, p)
}
