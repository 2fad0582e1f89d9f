// What a refusal is handed on as: a word, or its number alone.
#![tactic(auto)]

ghost use Rattle.std.specs.Prelude.{◌≡◌, refl, ℕ};
ghost use Rattle.base.specs.Refusal.{number};
ghost use Rattle.base.specs.declared.Refusal.{Refusal};

use base::Refusal;

// A word, or a number, which may be any byte. What is done alike with both is one function over this trait.
pub trait Reason: Copy {
    // the number that it stands for
    ghost code: { Self → ℕ };

    // what stands for a word
    ghost named: { Refusal → Self };

    fn of(refusal: Refusal) -> Self
        ensures { result ≡ named refusal };

    fn number(self) -> u8
        ensures { result ≡ code self };

    // a word keeps its number
    ghost kept: { (refusal : Refusal) → code (named refusal) ≡ number refusal };
}

// The word.
impl Reason for Refusal {
    ghost code = { number };

    ghost named = { λ refusal. refusal };

    ghost kept = { λ refusal. refl };

    fn of(refusal: Refusal) -> Refusal {
        refusal
    }

    fn number(self) -> u8 {
        Refusal::number(self)
    }
}

// The number alone.
impl Reason for u8 {
    ghost code = { λ byte. byte };

    ghost named = { number };

    ghost kept = { λ refusal. refl };

    fn of(refusal: Refusal) -> u8 {
        refusal.number()
    }

    fn number(self) -> u8 {
        self
    }
}
