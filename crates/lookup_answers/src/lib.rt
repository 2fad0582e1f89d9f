// The answers of lookups, of the frame writer and of the frame reader as numbers, as a caller in C is told them, and
// what is found put into lent words.
#![tactic(auto)]

ghost use Rattle.std.specs.Prelude.{◌≡◌};
ghost use Rattle.reasons.specs.Told.{answered_by};
ghost use Rattle.lookup_answers.specs.Words.{lookup_number, number_words, placed_by, place_words};

use reasons::Reason;
use tree::Placed;

// Answers a number that was looked up, and leaves it in lent memory.
pub fn answer_found<E: Reason>(answer: Result<u32, E>, found: &mut [u32; 1]) -> u32
    ensures answer { result ≡ lookup_number (answered_by E.code answer) }
    ensures memory { found.new ≡ number_words (answered_by E.code answer) found.old }
{
    match answer {
        Ok(x) => {
            *found = [x];
            0
        }
        Err(refusal) => refusal.number() as u32,
    }
}

// Answers the place of a node, and leaves it in lent memory.
pub fn answer_placed<E: Reason>(answer: Result<Placed, E>, found: &mut [u32; 3]) -> u32
    ensures answer { result ≡ lookup_number (placed_by E.code answer) }
    ensures memory { found.new ≡ place_words (placed_by E.code answer) found.old }
{
    *found = match answer {
        Ok(Placed::Alone) => [0, 0, 0],
        Ok(Placed::Hermit(next)) => [1, next, 0],
        Ok(Placed::Neighbour(b)) => [2, b, 0],
        Ok(Placed::Messenger(b, h)) => [3, b, h],
        Err(refusal) => return refusal.number() as u32,
    };
    0
}

// The number of the frame reader's answer.
pub fn answer_read<E: Reason>(answer: Result<(), E>) -> u32
    ensures { result ≡ lookup_number (answered_by E.code answer) }
{
    answer.err().map_or(0, |refusal| refusal.number() as u32)
}
