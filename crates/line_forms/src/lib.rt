// The forms of a script's line: what a word and its numbers say; and the search for a byte. Any bytes may be handed.
#![tactic(auto)]

ghost use Rattle.std.specs.Prelude.{◌≡◌, ◌≤◌, length};
ghost use Rattle.line_forms.specs.Forms.{before, one_number, two_numbers};

use base::Kind;

// What a line says.
#[derive(Clone, Copy)]
pub enum Line {
    // nodes P
    Nodes(u32),
    // s a b: a sends a job to b; t a b: a sends a note to b
    Sends(Kind, u32, u32),
    // d a b: the oldest item from a reaches b
    Delivers(u32, u32),
    // i a: idle
    Idles(u32),
    // b a: barrier call
    Calls(u32),
    // not of the stated form
    Bad,
}

// How many bytes stand before the first of a kind; all where there is none.
pub fn find(s: &[u8], byte: u8) -> usize
    ensures { (result ≡ before byte s.now) × (result ≤ length s.now) }
{
    s.iter().position(|x| *x == byte).unwrap_or(s.len())
}

// A word and a number.
pub fn one_number(word: &[u8], first: &[u8]) -> Line
    ensures { result ≡ one_number word.now first.now }
{
    let Some(x) = line_parts::number_of(first) else {
        return Line::Bad;
    };
    if line_words::is_nodes(word) {
        return Line::Nodes(x);
    }
    if line_words::is_letter(b'i', word) {
        return Line::Idles(x);
    }
    if line_words::is_letter(b'b', word) {
        return Line::Calls(x);
    }
    Line::Bad
}

// A word and two numbers.
pub fn two_numbers(word: &[u8], first: &[u8], second: &[u8]) -> Line
    ensures { result ≡ two_numbers word.now first.now second.now }
{
    let Some(x) = line_parts::number_of(first) else {
        return Line::Bad;
    };
    let Some(y) = line_parts::number_of(second) else {
        return Line::Bad;
    };
    if line_words::is_letter(b's', word) {
        return Line::Sends(Kind::Job, x, y);
    }
    if line_words::is_letter(b't', word) {
        return Line::Sends(Kind::Note, x, y);
    }
    if line_words::is_letter(b'd', word) {
        return Line::Delivers(x, y);
    }
    Line::Bad
}
