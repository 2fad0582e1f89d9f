// The lines of a rehearsal's script. Any bytes may be handed, and any place in them.
#![tactic(auto)]

ghost use Rattle.std.specs.Prelude.{◌≡◌};
ghost use Rattle.script.specs.Script.{line_of, line_at};

use line_forms::{Line, find};

// A line, and where the next one begins.
#[derive(Clone, Copy)]
pub struct Parsed {
    pub line: Line,
    pub next: usize,
}

// What the bytes of a line say, its newline left out.
fn line_of(line: &[u8]) -> Line
    ensures { result ≡ line_of line.now }
{
    let a = find(line, b' ');
    if line.len() <= a {
        return Line::Bad;
    }
    let rest = &line[a + 1..];
    let b = find(rest, b' ');
    if rest.len() <= b {
        return line_forms::one_number(&line[..a], rest);
    }
    let last = &rest[b + 1..];
    if find(last, b' ') < last.len() {
        return Line::Bad;
    }
    line_forms::two_numbers(&line[..a], &rest[..b], last)
}

// The line that begins at a place of the text.
pub fn line_at(text: &[u8], at: usize) -> Parsed
    ensures { result ≡ line_at text.now at }
{
    if at < text.len() {
        let rest = &text[at..];
        let n = find(rest, b'\n');
        if n < rest.len() {
            return Parsed {
                line: line_of(&rest[..n]),
                next: at + n + 1,
            };
        }
    }
    Parsed {
        line: Line::Bad,
        next: text.len(),
    }
}
