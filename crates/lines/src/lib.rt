// A line of a script after the first: as the player of a rehearsal takes it, and what is printed for it. Any script,
// place and line may be handed.
#![tactic(auto)]

ghost use Rattle.std.specs.Prelude.{◌≡◌, ltb};
ghost use Rattle.base.specs.Choice.{both};
ghost use Rattle.board_states.specs.States.{node_at};
ghost use Rattle.printing.specs.Put.{put, ends};
ghost use Rattle.lines.specs.Told.{taken, stops, told_at};
ghost use Rattle.lines.specs.Printed.{shown, line_text};

use line_forms::Line;
use script::Parsed;
use stage::Acted;
use turn_text::Shown;

// ---- What is read

fn both_below(a: u32, b: u32, size: u32) -> bool
    ensures { result ≡ both (ltb a size) (ltb b size) }
{
    (a < size) & (b < size)
}

// The line as a board of so many nodes takes it: node numbers not below P stop the play.
fn taken_by(line: Line, size: u32) -> Line
    ensures { result ≡ taken size line }
{
    match line {
        Line::Sends(kind, a, b) => {
            if both_below(a, b, size) {
                return Line::Sends(kind, a, b);
            }
            Line::Bad
        }
        Line::Delivers(a, b) => {
            if both_below(a, b, size) {
                return Line::Delivers(a, b);
            }
            Line::Bad
        }
        Line::Idles(a) => {
            if a < size {
                return Line::Idles(a);
            }
            Line::Bad
        }
        Line::Calls(a) => {
            if a < size {
                return Line::Calls(a);
            }
            Line::Bad
        }
        _ => Line::Bad,
    }
}

// A line stops the play.
fn is_stop(line: Line) -> bool
    ensures { result ≡ stops line }
{
    match line {
        Line::Nodes(_) | Line::Bad => true,
        _ => false,
    }
}

// The line at a place, and where the next begins: nowhere after one that stops the play.
pub fn next_line(script: &[u8], at: usize, size: u32) -> Parsed
    ensures { result ≡ told_at script.now at size }
{
    let p = script::line_at(script, at);
    let said = p.line;
    let line = taken_by(said, size);
    if is_stop(line) {
        return Parsed {
            line: line,
            next: script.len(),
        };
    }
    Parsed {
        line: line,
        next: p.next,
    }
}

// ---- What is printed

// What is printed of the acting node after a line.
fn acting(r: Acted) -> Shown
    ensures { result ≡ shown (node_at r.stage r.actor) }
{
    let s = board_states::state_at(r.stage, r.actor);
    Shown {
        phase: s.words[layout::PHASE],
        pass: s.words[layout::PASS],
        dim: s.words[layout::DIM],
        flag: s.words[layout::FLAG] == 1,
        busy: s.words[layout::BUSY] == 1,
    }
}

// The line that is printed for a line of the script, the one of this number.
pub fn put_line(out: &mut [u8], at: usize, line: Line, r: Acted, count: u32) -> usize
    ensures memory { out.new ≡ put out.old at (line_text line r count) }
    ensures place { result ≡ ends out.old at (line_text line r count) }
{
    if is_stop(line) {
        return text::put_stop(out, at, 17, count);
    }
    let n = acting(r);
    turn_text::put_turn(out, at, r.actor, r.answer, n)
}
