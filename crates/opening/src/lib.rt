// How a rehearsal opens, by the first line of a script. Any script may be handed.
#![tactic(auto)]

ghost use Rattle.std.specs.Prelude.{◌≡◌, ltb, eqb};
ghost use Rattle.base.specs.Choice.{either};
ghost use Rattle.opening.specs.Opens.{shut, opened};

use board_states::Stage;
use line_forms::Line;

// How a script opens: the board, where the second line begins, and what stops the play (0 where nothing does) at which
// line.
#[derive(Clone, Copy)]
pub struct Opened {
    pub stage: Stage,
    pub at: usize,
    pub why: u32,
    pub line: u32,
}

fn shut_at(at: usize, why: u32, line: u32) -> Opened
    ensures { result ≡ shut at why line }
{
    Opened {
        stage: opening_parts::open_stage(0),
        at: at,
        why: why,
        line: line,
    }
}

fn bad_size(size: u32) -> bool
    ensures { result ≡ either (eqb size 0) (ltb 16 size) }
{
    (size == 0) | (16 < size)
}

// Reads the first line.
pub fn open_script(script: &[u8]) -> Opened
    ensures { result ≡ opened script.now }
{
    let n = script.len();
    if 4096 < n {
        return shut_at(n, 17, 0);
    }
    let p = script::line_at(script, 0);
    let line = p.line;
    let Line::Nodes(size) = line else {
        return shut_at(n, 17, 1);
    };
    if bad_size(size) {
        return shut_at(n, 1, 1);
    }
    Opened {
        stage: opening_parts::open_stage(size),
        at: p.next,
        why: 0,
        line: 0,
    }
}
