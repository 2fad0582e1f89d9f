// The answers of the reader of recordings and of a replay as numbers, as a caller in C is told them, and what is told
// besides put into lent words.
#![tactic(auto)]

ghost use Rattle.std.specs.Prelude.{◌≡◌};
ghost use Rattle.reasons.specs.Told.{answered_by};
ghost use Rattle.lookup_answers.specs.Words.{lookup_number};
ghost use Rattle.recording_answers.specs.Words.{head_words, position_words};

use reasons::Reason;
use recording_read::Head;
use replay_ends::Replayed;

// The number of the reader's answer, and what a recording has.
pub fn answer_held<E: Reason>(answer: Result<Head, E>, found: &mut [u32; 3]) -> u32
    ensures answer { result ≡ lookup_number (answered_by E.code answer) }
    ensures memory { found.new ≡ head_words (answered_by E.code answer) found.old }
{
    match answer {
        Ok(h) => {
            *found = [h.nodes, h.sections, h.events];
            0
        }
        Err(refusal) => refusal.number() as u32,
    }
}

// The number of a replay's answer, and how far it came.
pub fn answer_end(end: Replayed, position: &mut [u32; 1]) -> u32
    ensures answer { result ≡ end.why }
    ensures memory { position.new ≡ position_words end position.old }
{
    if end.why != 18 {
        *position = [end.at];
    }
    end.why
}
