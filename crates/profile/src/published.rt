// A table of fractions as a platform publishes it.
ghost use Rattle.std.specs.Prelude.{◌≡◌};
ghost use Rattle.profile.specs.Meanings.{meant, Finds};
ghost use Rattle.profile.specs.Sources.{published};
ghost use Rattle.profile.specs.Laws.{published_lawful};

use crate::place::spot_of;
use crate::quarters::Quarters;
use crate::source::ProfileSource;
use allocation::Fraction;
use fault::{Fault, Question};

// A lent run of numbers: for each class and direction a fraction for every quarter.
#[derive(Clone, Copy)]
pub struct PublishedTable<'a> {
    quarters: Quarters,
    numbers: &'a [u32],
}

impl<'a> PublishedTable<'a> {
    // Any numbers make a table: what is too large or missing is absent.
    pub fn new(quarters: Quarters, numbers: &'a [u32]) -> PublishedTable<'a>
        ensures quarters { result.quarters ≡ quarters }
        ensures numbers { result.numbers.now ≡ numbers.now }
    {
        PublishedTable { quarters, numbers }
    }

    fn find(&self, question: Question) -> Option<Fraction>
        ensures { Finds (meant (published self.now.quarters.count self.now.numbers.now) question) result }
    {
        let spot = spot_of(self.quarters, question)?;
        // a slice may have any length: past its end there is no number
        Fraction::new(*self.numbers.get(spot.place)?)
    }
}

impl<'a> ProfileSource for PublishedTable<'a> {
    ghost until = { λ table. table.quarters.count };

    ghost means = { λ table. published table.quarters.count table.numbers.now };

    ghost lawful = { λ table. published_lawful table.quarters.count table.numbers.now table.quarters.within };

    fn quarters(&self) -> Quarters {
        self.quarters
    }

    fn fraction(&self, question: Question) -> Result<Fraction, Fault> {
        // in reference.rt too: to say it once, the trait would ask every source for a second method
        self.find(question).ok_or(Fault::FractionAbsent(question))
    }
}
