// How many nodes a script's first line tells, and how many sections its events have. Any line and number may be handed.
#![tactic(auto)]

ghost use Rattle.std.specs.Prelude.{◌≡◌};
ghost use Rattle.script_counts.specs.Counts.{sections_for, nodes_by};

use line_forms::Line;

// How many sections so many events have.
pub fn sections_for(events: usize) -> usize
    ensures { result ≡ sections_for events }
{
    events.saturating_sub(1) / 500 + 1
}

// The node count that a first line tells.
pub fn nodes_by(line: Line) -> u32
    ensures { result ≡ nodes_by line }
{
    match line {
        Line::Nodes(size) => size,
        _ => 0,
    }
}
