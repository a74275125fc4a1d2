// Two sources as one.
ghost use Rattle.std.specs.Prelude.{◌≡◌, min};
ghost use Rattle.profile.specs.Sources.{fallback};
ghost use Rattle.profile.specs.Laws.{fallback_lawful};

use crate::quarters::Quarters;
use crate::source::ProfileSource;
use allocation::Fraction;
use fault::{Fault, Question};

// The first source, and the second where the first has no fraction.
#[derive(Drop)]
pub struct Fallback<F, S> {
    first: F,
    second: S,
}

impl<F, S> Fallback<F, S> {
    pub fn new(first: F, second: S) -> Fallback<F, S>
        ensures first { result.first ≡ first }
        ensures second { result.second ≡ second }
    {
        Fallback { first, second }
    }
}

impl<F: ProfileSource, S: ProfileSource> ProfileSource for Fallback<F, S> {
    ghost until = { λ pair. min (F.ProfileSource.until pair.first) (S.ProfileSource.until pair.second) };

    ghost means = { λ pair. fallback (F.ProfileSource.until pair.first) (F.ProfileSource.means pair.first) (S.ProfileSource.until pair.second) (S.ProfileSource.means pair.second) };

    ghost lawful = { λ pair. fallback_lawful _ _ _ _ (F.ProfileSource.lawful pair.first) (S.ProfileSource.lawful pair.second) };

    fn quarters(&self) -> Quarters {
        self.first.quarters().least(self.second.quarters())
    }

    fn fraction(&self, question: Question) -> Result<Fraction, Fault> {
        if question.quarter.0 >= self.quarters().count() {
            return Err(Fault::FractionAbsent(question));
        }
        match self.first.fraction(question) {
            Ok(fraction) => Ok(fraction),
            Err(_) => self.second.fraction(question),
        }
    }
}
