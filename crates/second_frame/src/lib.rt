// The frame of pass 2 put into a buffer, and whether lent words have the sums for one of pass 1.
#![tactic(auto)]

ghost use Rattle.std.specs.Prelude.{◌≡◌, [], ◌∷◌, length};
ghost use Rattle.frame.specs.Numbers.{bytes_of};
ghost use Rattle.second_frame.specs.Putting.{has_sums, put_length, put_bytes};

use frame::Sent;

// Total sent and total taken, after the sums by shell.
const TOTALS: usize = layout::TOTALS as usize;

// The bytes of a frame of pass 2: its head, T and total sent.
const LENGTH: u32 = 12;

// Whether so many words have the sums of a board of p dimensions, which has dimension k.
pub fn has_sums(p: u8, k: u32, words: usize) -> bool
    ensures { result ≡ has_sums p k words }
{
    if (p as u32) < k {
        return false;
    }
    2 * p as usize + TOTALS <= words
}

// Puts the frame of pass 2, dimension k, where there is room. Its length.
pub fn put_second(
    phase: u8,
    k: u8,
    sender: u8,
    issued: Sent,
    agreed: u32,
    buf: &mut [u8],
) -> Option<u32>
    ensures answer { result ≡ put_length (2 ∷ phase ∷ k ∷ sender ∷ bytes_of (agreed ∷ issued.0 ∷ [])) (length buf.old) }
    ensures memory { buf.new
        ≡ put_bytes (2 ∷ phase ∷ k ∷ sender ∷ bytes_of (agreed ∷ issued.0 ∷ [])) buf.old }
{
    if buf.len() < LENGTH as usize {
        return None;
    }
    let numbers = [agreed, issued.0];
    wire::put_head(&mut *buf, 2, phase, k, sender);
    wire::put_numbers(&mut *buf, 4, &numbers);
    Some(LENGTH)
}
