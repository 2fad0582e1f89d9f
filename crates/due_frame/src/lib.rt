// The frame of pass 1, put together from lent words and put into a buffer.
#![tactic(auto)]

ghost use Rattle.std.specs.Prelude.{◌≡◌, ◌∷◌, ◌+◌, ◌-◌, ◌*◌, ◌%◌, ◌≤◌, length, None};
ghost use Rattle.base.specs.Choice.{choose};
ghost use Rattle.frame.specs.Numbers.{bytes_of};
ghost use Rattle.layout.specs.Places.{sum_words};
ghost use Rattle.wire.specs.Wire.{put_numbers};
ghost use Rattle.second_frame.specs.Putting.{has_sums, put_length, put_bytes};
ghost use Rattle.due_frame.specs.Frames.{sent_part, taken_part, first_numbers};

// Total sent and total taken, after the sums by shell.
const TOTALS: usize = layout::TOTALS as usize;

// Puts the numbers of the frame of pass 1, dimension k, after its head.
fn put_sums(buf: &mut [u8], p: u8, k: u8, sums: &[u32])
    requires { (k ≤ p) × (sum_words p ≤ length sums.now) }
    ensures { buf.new
        ≡ put_numbers (put_numbers buf.old 4 (sent_part sums.now p k)) (4 + 4 * (p - k))
        (taken_part sums.now p k) }
{
    let from = k as usize;
    let end = p as usize;
    wire::put_numbers(&mut *buf, 4, &sums[from..end]);
    wire::put_numbers(
        &mut *buf,
        4 + 4 * (p - k) as u32,
        &sums[from + end..2 * end + TOTALS],
    );
}

// Puts the frame of pass 1, dimension k, where there is room. Its length.
fn put_pass_1(phase: u8, k: u8, sender: u8, p: u8, sums: &[u32], buf: &mut [u8]) -> Option<u32>
    requires { (k ≤ p) × (sum_words p ≤ length sums.now) }
    ensures answer { result
        ≡ put_length (1 ∷ phase ∷ k ∷ sender ∷ bytes_of (first_numbers sums.now p k))
        (length buf.old) }
    ensures memory { buf.new
        ≡ put_bytes (1 ∷ phase ∷ k ∷ sender ∷ bytes_of (first_numbers sums.now p k)) buf.old }
{
    let length = 12 + 8 * (p - k) as u32;
    if buf.len() < length as usize {
        return None;
    }
    wire::put_head(&mut *buf, 1, phase, k, sender);
    put_sums(&mut *buf, p, k, sums);
    Some(length)
}

// Puts the frame of pass 1, where there is room and the sums of its board are there. Its length.
pub fn put_first(
    phase: u8,
    dim: u32,
    sender: u8,
    p: u8,
    sums: &[u32],
    buf: &mut [u8],
) -> Option<u32>
    ensures answer { result
        ≡ choose (has_sums p dim (length sums.now))
        (put_length (1 ∷ phase ∷ dim % 256 ∷ sender ∷ bytes_of (first_numbers sums.now p dim))
        (length buf.old)) None }
    ensures memory { buf.new
        ≡ choose (has_sums p dim (length sums.now))
        (put_bytes (1 ∷ phase ∷ dim % 256 ∷ sender ∷ bytes_of (first_numbers sums.now p dim))
        buf.old) buf.old }
{
    if !second_frame::has_sums(p, dim, sums.len()) {
        return None;
    }
    put_pass_1(phase, (dim % 256) as u8, sender, p, sums, &mut *buf)
}
