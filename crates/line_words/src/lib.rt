// The words of a script's line. Any bytes may be handed.
#![tactic(auto)]

ghost use Rattle.std.specs.Prelude.{◌≡◌};
ghost use Rattle.line_parts.specs.Parts.{is_nodes, is_letter};

pub fn is_nodes(w: &[u8]) -> bool
    ensures { result ≡ is_nodes w.now }
{
    w == b"nodes".as_slice()
}

pub fn is_letter(letter: u8, w: &[u8]) -> bool
    ensures { result ≡ is_letter letter w.now }
{
    w == [letter].as_slice()
}
