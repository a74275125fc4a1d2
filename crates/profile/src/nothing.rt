// A source that has no fraction at all.
ghost use Rattle.std.specs.Prelude.{◌≡◌};
ghost use Rattle.profile.specs.Sources.{nothing};
ghost use Rattle.profile.specs.Laws.{nothing_lawful};

use crate::quarters::Quarters;
use crate::source::ProfileSource;
use allocation::Fraction;
use fault::{Fault, Question};

// Nothing, for a month of these quarters: it has a number of quarters, since in a fallback the smaller one counts.
#[derive(Clone, Copy)]
pub struct NoProfile {
    quarters: Quarters,
}

impl NoProfile {
    pub fn new(quarters: Quarters) -> NoProfile
        ensures { result.quarters ≡ quarters }
    {
        NoProfile { quarters }
    }
}

impl ProfileSource for NoProfile {
    ghost until = { λ source. source.quarters.count };

    ghost means = { λ _. nothing };

    ghost lawful = { λ source. nothing_lawful source.quarters.count source.quarters.within };

    fn quarters(&self) -> Quarters {
        self.quarters
    }

    fn fraction(&self, question: Question) -> Result<Fraction, Fault> {
        Err(Fault::FractionAbsent(question))
    }
}
