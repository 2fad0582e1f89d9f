// The frame that a node is due to send, put together from lent words.
#![tactic(auto)]

ghost use Rattle.std.specs.Prelude.{◌≡◌, length, None};
ghost use Rattle.base.specs.Choice.{choose};
ghost use Rattle.second_frame.specs.Putting.{put_length, put_bytes};
ghost use Rattle.due_bytes.specs.Bytes.{due_bytes, can_send};

use frame::Sent;

// Puts the frame of the position on a board of p dimensions, by the words of a state, its sums of pass 1 and its own sum of
// total sent, where there is room and its numbers are there. Its length.
pub fn put(s: &[u32], sums: &[u32], p: u8, issued: Sent, buf: &mut [u8]) -> Option<u32>
    ensures answer { result
        ≡ choose (can_send s.now p (length sums.now))
        (put_length (due_bytes s.now sums.now p issued.0) (length buf.old)) None }
    ensures memory { buf.new
        ≡ choose (can_send s.now p (length sums.now))
        (put_bytes (due_bytes s.now sums.now p issued.0) buf.old)
        buf.old }
{
    if s.len() < layout::HEAD as usize {
        return None;
    }
    let sender = (s[layout::NUMBER] % 256) as u8;
    let phase = (s[layout::PHASE] % 256) as u8;
    let dim = s[layout::DIM];
    if s[layout::PASS] != 1 {
        let k = (dim % 256) as u8;
        return second_frame::put_second(phase, k, sender, issued, s[layout::AGREED], &mut *buf);
    }
    due_frame::put_first(phase, dim, sender, p, sums, &mut *buf)
}
