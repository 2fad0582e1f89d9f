// What a rehearsal prints, but for the lines of events, put into a lent buffer. Any place may be handed; what has no room is left
// out, and each function answers where its text ends.
#![tactic(auto)]

ghost use Rattle.std.specs.Prelude.{◌≡◌};
ghost use Rattle.printing.specs.Put.{put, ends};
ghost use Rattle.text.specs.Text.{header, stop_text};

// The header line.
pub fn put_header(out: &mut [u8], at: usize) -> usize
    ensures memory { out.new ≡ put out.old at header }
    ensures place { result ≡ ends out.old at header }
{
    printing::put_bytes(out, at, b"node answer phase pass dim flag busy\n")
}

// The line that a 1 or 17 prints.
pub fn put_stop(out: &mut [u8], at: usize, why: u32, line: u32) -> usize
    ensures memory { out.new ≡ put out.old at (stop_text why line) }
    ensures place { result ≡ ends out.old at (stop_text why line) }
{
    let a = printing::put_bytes(out, at, b"stop ");
    let b = digits::put_digits(out, a, why);
    let c = printing::put_bytes(out, b, b" at line ");
    let d = digits::put_digits(out, c, line);
    printing::put_byte(out, d, b'\n')
}
