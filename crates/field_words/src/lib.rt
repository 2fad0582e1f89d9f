// The words of a frame's fields: their places, and the test of the numbers in them.
// Any words and limits may be handed.
#![tactic(auto)]

ghost use Rattle.std.specs.Prelude.{◌≡◌, ◌<◌};
ghost use Rattle.base.specs.Choice.{every};
ghost use Rattle.base.specs.Limits.{limits_of, width};
ghost use Rattle.frame.specs.Frame.{numbers_ok};
ghost use Rattle.frame.specs.Parts.{has_tallies};
ghost use Rattle.field_words.specs.Words.{frame_from};
ghost use Rattle.field_words.specs.Pieces.{most, shell_low, totals_low};

use base::Bounds;

// ---- The places of the words, as specs/Words.antt names them

pub const PASS: usize = 0;

pub const PHASE: usize = 1;

pub const DIM: usize = 2;

pub const SENDER: usize = 3;

pub const ISSUED: usize = 4;

pub const RECEIVED: usize = 5;

pub const AGREED: usize = 6;
// the tallies of shell 0
pub const SENT: usize = 7;

pub const TAKEN: usize = SENT + base::SHELLS;
// one after the last
pub const END: usize = TAKEN + base::SHELLS;

// ---- The numbers that a frame may hold

// The most that a number may be: 0 where the frame does not have it.
fn most_of(has: bool, limit: u32) -> u32
    ensures { result ≡ most has limit }
{
    if has { limit } else { 0 }
}

// A frame of this pass and dimension has tallies of shell m.
fn has_tallies(p: u32, pass: u32, k: u32, m: u32) -> bool
    ensures { result ≡ has_tallies p pass k m }
{
    if pass != 1 {
        return false;
    }
    k <= m && m < p
}

// The tallies of a shell are within the limit, and 0 where the frame does not have them.
fn shell_low(limit: u32, p: u32, fields: &[u32; END], m: usize) -> bool
    requires { m < width }
    ensures { result ≡ shell_low limit p fields.now m }
{
    let has = has_tallies(p, fields[PASS], fields[DIM], m as u32);
    let top = most_of(has, limit);
    fields[SENT + m] <= top && fields[TAKEN + m] <= top
}

// So are those of all shells.
fn shells_low(limit: u32, p: u32, fields: &[u32; END]) -> bool
    ensures { result ≡ every 0 width (shell_low limit p fields.now) }
{
    (0..base::SHELLS).all(|m| shell_low(limit, p, fields, m))
}

// So are the totals and T.
fn totals_low(limit: u32, fields: &[u32; END]) -> bool
    ensures { result ≡ totals_low limit fields.now }
{
    if limit < fields[ISSUED] {
        return false;
    }
    if most_of(fields[PASS] == 1, limit) < fields[RECEIVED] {
        return false;
    }
    fields[AGREED] <= most_of(fields[PASS] == 2, limit)
}

// All numbers that a frame may hold are within the limit, and 0 where the frame does not have them.
pub fn numbers_ok(b: Bounds, p: u32, fields: &[u32; END]) -> bool
    ensures { result ≡ numbers_ok (limits_of b) p (frame_from fields.now) }
{
    let limit = b.field_limit();
    shells_low(limit, p, fields) && totals_low(limit, fields)
}
