// Frames in the bytes that a caller lends: tested there, and their numbers copied into lent words.
#![tactic(auto)]

ghost use Rattle.std.specs.Prelude.{◌≡◌, ◌+◌, ◌*◌, ◌≤◌, ◌<◌, leb, length};
ghost use Rattle.base.specs.Choice.{every};
ghost use Rattle.base.specs.Limits.{limits_of, width};
ghost use Rattle.base.specs.Refusal.{answered};
ghost use Rattle.frame.specs.Numbers.{word_at};
ghost use Rattle.frame.specs.Frame.{frame_length, number_at, read_frame, answer_of};
ghost use Rattle.wire_read.specs.Read.{most_numbers, numbers_from};

use base::{Bounds, Refusal};

// ---- Bytes

// A byte as a wider number.
fn wide(x: u8) -> u32
    ensures { (result ≡ x) × (result < 256) }
{
    x as u32
}

// The number whose low byte is at a place.
fn word_at(s: &[u8], at: usize) -> u32
    requires { at + 4 ≤ length s.now }
    ensures { result ≡ word_at s.now at }
{
    let a = wide(s[at]);
    let b = wide(s[at + 1]);
    let c = wide(s[at + 2]);
    let d = wide(s[at + 3]);
    a + 256 * b + 65536 * c + 16777216 * d
}

// ---- Whether bytes are a frame

// How many numbers a frame has.
fn count_of(p: u32, pass: u32, k: u32) -> u32
    requires { (k ≤ p) × (p ≤ width) }
    ensures { (4 + 4 * result ≡ frame_length p pass k) × (result ≤ most_numbers) }
{
    if pass == 1 { 2 * (p - k) + 2 } else { 2 }
}

// The first numbers, so many, are within a limit.
fn numbers_within(limit: u32, bytes: &[u8], count: u32) -> bool
    requires { (4 + 4 * count ≤ length bytes.now) × (count ≤ most_numbers) }
    ensures { result ≡ every 0 count (λ i. leb (number_at bytes.now i) limit) }
{
    (0..count).all(|i| word_at(bytes, 4 + 4 * i as usize) <= limit)
}

// Whether the bytes are a frame of the board. Refuses 1, 9, 10, 2.
pub fn checked(b: Bounds, nodes: u32, bytes: &[u8]) -> Result<(), Refusal>
    ensures { answered result ≡ answer_of (read_frame (limits_of b) nodes bytes.now) }
{
    let p = tree::dimension_for(b, nodes)?;
    if bytes.len() < 4 {
        return Err(Refusal::Length);
    }
    let pass = wide(bytes[0]);
    let k = wide(bytes[2]);
    if frame::step_bad(p, pass, k) {
        return Err(Refusal::Field);
    }
    let count = count_of(p, pass, k);
    if bytes.len() != (4 + 4 * count) as usize {
        return Err(Refusal::Length);
    }
    if !numbers_within(b.field_limit(), bytes, count) {
        return Err(Refusal::Field);
    }
    if nodes <= wide(bytes[3]) {
        return Err(Refusal::Stranger);
    }
    Ok(())
}

// ---- Copies

// Copies the numbers of a frame into words, as many as there are words. Copies none where the bytes have fewer.
pub fn copy_numbers(bytes: &[u8], words: &mut [u32])
    ensures { words.new ≡ numbers_from bytes.now words.old }
{
    if bytes.len() < 4 {
        return;
    }
    if (bytes.len() - 4) / 4 < words.len() {
        return;
    }
    for (i, word) in words.iter_mut().enumerate() {
        *word = word_at(bytes, 4 + 4 * i);
    }
}
