// The bytes of an event: of a line of a script, and the answer that was printed for it. Any line, answer and place may be
// handed.
#![tactic(auto)]

ghost use Rattle.std.specs.Prelude.{◌≡◌, ◌%◌};
ghost use Rattle.printing.specs.Put.{put, ends};
ghost use Rattle.event_bytes.specs.Bytes.{letter_of, four_of, event_bytes};

use base::Kind;
use line_forms::Line;

fn low(x: u32) -> u8
    ensures { result ≡ x % 256 }
{
    (x % 256) as u8
}

fn letter_of(kind: Kind) -> u8
    ensures { result ≡ letter_of kind }
{
    match kind {
        Kind::Job => b's',
        Kind::Note => b't',
    }
}

// Puts an event's four bytes.
fn put_four(events: &mut [u8], at: usize, letter: u8, first: u32, second: u32, answer: u32) -> usize
    ensures memory { events.new ≡ put events.old at (four_of letter first second answer) }
    ensures place { result ≡ ends events.old at (four_of letter first second answer) }
{
    printing::put_bytes(events, at, &[letter, low(first), low(second), low(answer)])
}

// Puts the event of a line; nothing where the line is none.
pub fn put_event(events: &mut [u8], at: usize, line: Line, answer: u32) -> usize
    ensures memory { events.new ≡ put events.old at (event_bytes line answer) }
    ensures place { result ≡ ends events.old at (event_bytes line answer) }
{
    match line {
        Line::Sends(kind, a, b) => put_four(events, at, letter_of(kind), a, b, answer),
        Line::Delivers(a, b) => put_four(events, at, b'd', a, b, answer),
        Line::Idles(a) => put_four(events, at, b'i', a, 0, answer),
        Line::Calls(a) => put_four(events, at, b'b', a, 0, answer),
        _ => printing::put_bytes(events, at, b""),
    }
}
