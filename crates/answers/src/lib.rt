// The answers of calls as numbers, as a caller in C is told them, and what they say besides put into lent words.
#![tactic(auto)]

ghost use Rattle.std.specs.Prelude.{◌≡◌};
ghost use Rattle.node.specs.Answers.{outcome_number, barrier_number};
ghost use Rattle.answers.specs.Words.{outcome_by, barrier_by, detail_words};

use node::{Accepted, Step};
use reasons::Reason;

// The number of an answer.
pub fn number_of<E: Reason>(answer: Result<Accepted, E>) -> u32
    ensures { result ≡ outcome_number (outcome_by E.code answer) }
{
    match answer {
        Ok(Accepted::Done) => 0,
        Ok(Accepted::Dropped) => 24,
        Err(refusal) => refusal.number() as u32,
    }
}

// Puts what an answer says beside its number, and answers the number. A refusal puts nothing.
pub fn answer_barrier<E: Reason>(answer: Result<Step, E>, details: &mut [u32; 5]) -> u32
    ensures answer { result ≡ barrier_number (barrier_by E.code answer) }
    ensures memory { details.new ≡ detail_words details.old (barrier_by E.code answer) }
{
    let step = match answer {
        Ok(step) => step,
        Err(refusal) => return refusal.number() as u32,
    };
    match step {
        Step::Sends(to, length) => {
            let first = to.first as u32;
            *details = match to.extra {
                None => [1, first, 0, length, 0],
                Some(b) => [2, first, b as u32, length, 0],
            };
            20
        }
        Step::Waits(clause) => {
            *details = [0, 0, 0, 0, clause as u32];
            21
        }
        Step::Moved => {
            *details = [0; 5];
            22
        }
        Step::Left => {
            *details = [0; 5];
            23
        }
    }
}
