// The numbers of a script's line. Any bytes may be handed.
#![tactic(auto)]

ghost use Rattle.std.specs.Prelude.{◌≡◌, true, ◌≤◌, ◌<◌, length};
ghost use Rattle.base.specs.Choice.{choose};
ghost use Rattle.line_parts.specs.Parts.{all_digits, value_after, is_number};

fn all_digits(s: &[u8]) -> bool
    ensures { result ≡ all_digits s.now }
{
    s.iter().all(u8::is_ascii_digit)
}

// The value of up to three digits.
fn value_of(s: &[u8]) -> u32
    requires { (length s.now ≤ 3) × (all_digits s.now ≡ true) }
    ensures { result ≡ value_after 0 s.now }
{
    let mut v = 0;
    for &x in s {
        v = 10 * v + (x - b'0') as u32;
    }
    v
}

// The number that a part of a line says: one to three digits, and 0 first only alone.
pub fn number_of(s: &[u8]) -> Option<u32>
    ensures { result ≡ choose (is_number s.now) (Some (value_after 0 s.now)) None }
{
    if s.is_empty() || 3 < s.len() {
        return None;
    }
    if !all_digits(s) {
        return None;
    }
    if s[0] == b'0' && s.len() != 1 {
        return None;
    }
    Some(value_of(s))
}
