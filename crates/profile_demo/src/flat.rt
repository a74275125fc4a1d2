// A source of the demonstration's own: any crate can make one.
ghost use Rattle.std.specs.Prelude.{◌≡◌};
ghost use Rattle.profile_demo.specs.Flat.{flat, flat_lawful};

use allocation::Fraction;
use fault::{Fault, Question};
use profile::{ProfileSource, Quarters};

// The same fraction for every class, direction and quarter of its month.
#[derive(Clone, Copy)]
pub struct Flat {
    pub quarters: Quarters,
    pub fraction: Fraction,
}

impl ProfileSource for Flat {
    ghost until = { λ source. source.quarters.count };

    ghost means = { λ source. flat source.quarters.count source.fraction.parts };

    ghost lawful = { λ source. flat_lawful source.quarters.count source.fraction.parts source.quarters.within source.fraction.within };

    fn quarters(&self) -> Quarters {
        self.quarters
    }

    fn fraction(&self, question: Question) -> Result<Fraction, Fault> {
        if self.quarters.covers(question) {
            Ok(self.fraction)
        } else {
            Err(Fault::FractionAbsent(question))
        }
    }
}
