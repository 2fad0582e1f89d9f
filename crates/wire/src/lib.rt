// Frames put into the bytes that a caller lends, from lent words.
#![tactic(auto)]

ghost use Rattle.std.specs.Prelude.{◌≡◌, [], ◌∷◌, ◌+◌, ◌≤◌, length};
ghost use Rattle.frame.specs.Numbers.{four_bytes};
ghost use Rattle.frame.specs.Parts.{pasted};
ghost use Rattle.wire.specs.Wire.{put_at, put_numbers};

// Puts a number's four bytes, low byte first, from a place on.
fn put_word(s: &mut [u8], at: usize, x: u32)
    requires { at + 4 ≤ length s.old }
    ensures { s.new ≡ pasted s.old at (four_bytes x) }
{
    s[at] = (x % 256) as u8;
    s[at + 1] = (x / 256 % 256) as u8;
    s[at + 2] = (x / 65536 % 256) as u8;
    s[at + 3] = (x / 16777216 % 256) as u8;
}

// Puts the four head bytes. Puts none where there is no room.
pub fn put_head(buf: &mut [u8], pass: u8, phase: u8, dim: u8, sender: u8)
    ensures { buf.new ≡ put_at buf.old 0 (pass ∷ phase ∷ dim ∷ sender ∷ []) }
{
    if buf.len() < 4 {
        return;
    }
    buf[0] = pass;
    buf[1] = phase;
    buf[2] = dim;
    buf[3] = sender;
}

// Puts numbers from a place on, four bytes each. Puts none where there is no room.
pub fn put_numbers(buf: &mut [u8], at: u32, words: &[u32])
    ensures { buf.new ≡ put_numbers buf.old at words.now }
{
    let mut to = at as usize;
    if buf.len() < to {
        return;
    }
    if (buf.len() - to) / 4 < words.len() {
        return;
    }
    for i in 0..words.len() {
        put_word(&mut *buf, to, words[i]);
        to += 4;
    }
}
