// What a caller's check of a call's other arguments may tell: a refusal of this library, or a number of the caller's own.
ghost use Rattle.std.specs.Prelude.{◌≡◌};
ghost use Rattle.settings.specs.Refusal.{number_of};

use settings::refusal::Refusal;
use std::num::NonZeroU32;

// A refusal by its number, which is not 0.
pub trait Numbered: From<Refusal> + Copy {
    ghost use Rattle.std.specs.Prelude.{ℕ, ◌≡◌};
    ghost use Rattle.settings.specs.declared.refusal.Refusal.{Refusal};
    ghost use Rattle.settings.specs.Refusal.{number_of};

    ghost number: { Self → ℕ };

    fn number(self) -> u32
        ensures value { result ≡ number self }
        ensures some { number self ≡ 0 → ⊥ };

    // A refusal of this library keeps its number.
    ghost keeps: { (refusal : Refusal) (told : Self) → Self.from_gives refusal told → number told ≡ number_of refusal };
}

impl Numbered for Refusal {
    ghost use Rattle.settings.specs.Refusal.{number_of};
    ghost use mathlib.Core.Path.{ap};

    ghost number = { number_of };

    ghost keeps = { λ refusal told is. ap number_of is };

    fn number(self) -> u32 {
        self.into()
    }
}

impl Numbered for NonZeroU32 {
    ghost use Rattle.std.specs.Int.NonZero.{non_zero_u32_get};

    ghost number = { non_zero_u32_get };

    ghost keeps = { λ refusal told is. is };

    fn number(self) -> u32 {
        self.get()
    }
}
