// Bytes put into a lent buffer. Any place may be handed; what has no room is left out, and each function
// answers where its text ends.
#![tactic(auto)]

ghost use Rattle.std.specs.Prelude.{◌≡◌, [], ◌∷◌};
ghost use Rattle.printing.specs.Put.{put, ends};

pub fn put_bytes(out: &mut [u8], at: usize, s: &[u8]) -> usize
    ensures memory { out.new ≡ put out.old at s.now }
    ensures place { result ≡ ends out.old at s.now }
{
    let start = at.min(out.len());
    let end = start + s.len().min(out.len() - start);
    // a copy of a computed size would be a call of `memmove`, which no C library would need else
    for (i, place) in out[start..end].iter_mut().enumerate() {
        *place = s[i];
    }
    end
}

pub fn put_byte(out: &mut [u8], at: usize, x: u8) -> usize
    ensures memory { out.new ≡ put out.old at (x ∷ []) }
    ensures place { result ≡ ends out.old at (x ∷ []) }
{
    put_bytes(out, at, &[x])
}

pub fn put_two(out: &mut [u8], at: usize, a: u8, b: u8) -> usize
    ensures memory { out.new ≡ put out.old at (a ∷ b ∷ []) }
    ensures place { result ≡ ends out.old at (a ∷ b ∷ []) }
{
    put_bytes(out, at, &[a, b])
}
