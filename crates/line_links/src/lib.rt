// The link that a line of a script delivers on. Any line may be handed.
#![tactic(auto)]

ghost use Rattle.std.specs.Prelude.{◌≡◌};
ghost use Rattle.line_links.specs.Links.{ends_of};

use line_forms::Line;

// The ends of a link.
#[derive(Clone, Copy)]
pub struct Ends {
    pub from: u8,
    pub to: u8,
}

// The link that a line delivers on.
pub fn link_of(line: Line) -> Ends
    ensures { result ≡ ends_of line }
{
    match line {
        Line::Delivers(a, b) => Ends {
            from: (a % 256) as u8,
            to: (b % 256) as u8,
        },
        _ => Ends { from: 0, to: 0 },
    }
}
