// The line that a rehearsal prints of an event, put into a lent buffer. Any place may be handed; what has no room is left out, and
// each function answers where its text ends.
#![tactic(auto)]

ghost use Rattle.std.specs.Prelude.{◌≡◌, [], ◌∷◌, ◌++◌};
ghost use Rattle.printing.specs.Put.{digits, put, ends};
ghost use Rattle.text.specs.Text.{bit};
ghost use Rattle.turn_text.specs.Shown.{shown_text};

// What is printed of a node's state.
#[derive(Clone, Copy)]
pub struct Shown {
    pub phase: u32,
    pub pass: u32,
    pub dim: u32,
    pub flag: bool,
    pub busy: bool,
}

// A number and a blank.
fn put_field(out: &mut [u8], at: usize, x: u32) -> usize
    ensures memory { out.new ≡ put out.old at (digits x ++ (32 ∷ [])) }
    ensures place { result ≡ ends out.old at (digits x ++ (32 ∷ [])) }
{
    let next = digits::put_digits(out, at, x);
    printing::put_byte(out, next, b' ')
}

fn bit_of(b: bool) -> u8
    ensures { result ≡ bit b }
{
    if b { b'1' } else { b'0' }
}

// The last two fields of a line, and its newline.
fn put_bits(out: &mut [u8], at: usize, a: bool, b: bool) -> usize
    ensures memory { out.new ≡ put out.old at (bit a ∷ 32 ∷ bit b ∷ 10 ∷ []) }
    ensures place { result ≡ ends out.old at (bit a ∷ 32 ∷ bit b ∷ 10 ∷ []) }
{
    printing::put_bytes(out, at, &[bit_of(a), b' ', bit_of(b), b'\n'])
}

// The line of an event: the acting node's number, the answer, and the node's state after it.
pub fn put_turn(out: &mut [u8], at: usize, actor: u32, answer: u32, n: Shown) -> usize
    ensures memory { out.new ≡ put out.old at (shown_text actor answer n) }
    ensures place { result ≡ ends out.old at (shown_text actor answer n) }
{
    let a = put_field(out, at, actor);
    let b = put_field(out, a, answer);
    let c = put_field(out, b, n.phase);
    let d = put_field(out, c, n.pass);
    let e = put_field(out, d, n.dim);
    put_bits(out, e, n.flag, n.busy)
}
