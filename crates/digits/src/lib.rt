// Decimal numbers put into a lent buffer. Any number and place may be handed; what has no room is left out, and the answer
// is where the text ends.
#![tactic(auto)]

ghost use Rattle.std.specs.Prelude.{◌≡◌, ◌+◌, ◌%◌};
ghost use Rattle.printing.specs.Put.{digits, put, ends};

// The last digit of a number.
fn digit(x: u32) -> u8
    ensures { result ≡ 48 + x % 10 }
{
    48 + (x % 10) as u8
}

pub fn put_digits(out: &mut [u8], at: usize, x: u32) -> usize
    ensures memory { out.new ≡ put out.old at (digits x) }
    ensures place { result ≡ ends out.old at (digits x) }
{
    let four = [digit(x / 1000), digit(x / 100), digit(x / 10), digit(x)];
    let zeros = match x {
        0..=9 => 3,
        10..=99 => 2,
        100..=999 => 1,
        _ => 0,
    };
    printing::put_bytes(out, at, &four[zeros..])
}
