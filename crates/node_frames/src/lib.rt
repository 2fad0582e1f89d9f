// The call frame in, in place on the words that the caller lends.
#![tactic(auto)]

ghost use Rattle.std.specs.Prelude.{◌≡◌, ◌+◌, ◌≤◌, ◌<◌, length};
ghost use Rattle.base.specs.Limits.{limits_of, width};
ghost use Rattle.frame.specs.Parts.{pasted};
ghost use Rattle.node.specs.Answers.{outcome_of};
ghost use Rattle.node.specs.Calls.{frame_in, step_number};
ghost use Rattle.layout.specs.Held.{dims_of, answer_on, words_on};
ghost use Rattle.layout.specs.Pieces.{Passed, Answers};
ghost use Rattle.node_frames.specs.Pieces.{frame_place, frame_words, back_words, stored_words, Storable};
ghost use Rattle.layout.specs.Places.{head_words};

use base::{Bounds, Refusal};
use node::Accepted;

// The mark before the numbers of a stored frame.
const MARK: usize = layout::MARK as usize;

// A step, counted through both passes.
fn step_of(p: u32, pass: u32, dim: u32) -> u32
    requires { (p ≤ width) × (dim < width) }
    ensures { result ≡ step_number p pass dim }
{
    if pass == 1 { dim } else { p + dim }
}

// Where the words of a frame begin.
fn place_of(p: u32, pass: u32, k: u32) -> u32
    requires { (k < p) × (p ≤ width) }
    ensures { result ≡ frame_place p pass k }
{
    let at = layout::first_at(p as u8, k as u8);
    if pass == 1 {
        at
    } else {
        at + 2 * (p - k) + layout::FIRST
    }
}

// Puts the words of a frame: the mark, and its numbers.
fn put_frame(state: &mut [u32], at: u32, bytes: &[u8])
    requires room { (4 ≤ length bytes.now) × (at + length (frame_words bytes.now) ≤ length state.old) }
    ensures { state.new ≡ pasted state.old at (frame_words bytes.now) }
{
    let mark = at as usize;
    let from = mark + MARK;
    let end = from + (bytes.len() - 4) / 4;
    state[mark] = 1;
    wire_read::copy_numbers(bytes, &mut state[from..end]);
}

// The position becomes a step with flag 0, and T becomes 0 in pass 1.
fn go_back(state: &mut [u32], pass: u32, k: u32)
    requires { head_words ≤ length state.old }
    ensures { state.new ≡ back_words state.old pass k }
{
    state[layout::PASS] = pass;
    state[layout::DIM] = k;
    state[layout::FLAG] = 0;
    if pass == 1 {
        state[layout::AGREED] = 0;
    }
}

// The frame is stored. If its step is earlier than the position, the position becomes that step.
fn store(state: &mut [u32], p: u32, bytes: &[u8])
    requires { Storable p state.old bytes.now }
    ensures { state.new ≡ stored_words p state.old bytes.now }
{
    let pass = bytes[0] as u32;
    let k = bytes[2] as u32;
    let step = step_of(p, pass, k);
    let here = step_of(p, state[layout::PASS], state[layout::DIM]);
    put_frame(&mut *state, place_of(p, pass, k), bytes);
    if here <= step {
        return;
    }
    go_back(&mut *state, pass, k);
}

// A frame has come for a state of p dimensions that passes the test.
fn frame_on(b: Bounds, state: &mut [u32], p: u32, bytes: &[u8]) -> Result<Accepted, Refusal>
    requires { Passed (limits_of b) state.old × (p ≡ dims_of state.old) }
    ensures { Answers (limits_of b) (λ n. frame_in (limits_of b) n bytes.now) state.old
        state.new result }
{
    let accepted = frame_refusals::judge(
        b,
        state[layout::NODES],
        state[layout::NUMBER],
        state[layout::PHASE] as u8,
        bytes,
    )?;
    match accepted {
        Accepted::Done => {
            store(state, p, bytes);
            Ok(Accepted::Done)
        }
        Accepted::Dropped => Ok(Accepted::Dropped),
    }
}

// A frame has come. Refuses 13, 9, 10, 2, 3, 11, 7, 8.
pub fn frame_in(
    b: Bounds,
    state: &mut [u32],
    sums: &mut [u32],
    bytes: &[u8],
) -> Result<Accepted, Refusal>
    ensures answer { outcome_of result
        ≡ answer_on (limits_of b) (length sums.old) (λ n. frame_in (limits_of b) n bytes.now)
        state.old }
    ensures memory { state.new
        ≡ words_on (limits_of b) (length sums.old) (λ n. frame_in (limits_of b) n bytes.now)
        state.old }
{
    let known = scan::scan_of(b, &*state, sums, false);
    if !known.ok {
        return Err(Refusal::State);
    }
    frame_on(b, state, known.dims, bytes)
}
