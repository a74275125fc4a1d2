// Fractions worked out from a group of customers whose quarters are metered.
ghost use Rattle.std.specs.Prelude.{◌≡◌, Some};
ghost use Rattle.profile.specs.Meanings.{meant, Finds};
ghost use Rattle.profile.specs.Sources.{metered_fraction, reference};
ghost use Rattle.profile.specs.Laws.{reference_lawful};

use crate::place::{LINES, spot_of};
use crate::quarters::Quarters;
use crate::source::ProfileSource;
use allocation::fraction::UNIT;
use allocation::{Fraction, StandingSum};
use fault::{Fault, Question};

// The Wh that stand for a quarter that was not metered: a number and no `Option`, since the memory is the caller's and holds plain numbers.
pub const NOT_METERED: u32 = u32::MAX;

// The sums of standard year volumes in kWh, offtake and feed-in of class 1 first, and a lent run of metered Wh.
#[derive(Clone, Copy)]
pub struct ReferenceGroup<'a> {
    quarters: Quarters,
    sums: &'a [u64; LINES],
    metered: &'a [u32],
}

impl<'a> ReferenceGroup<'a> {
    // Any sums and any Wh make a group: what gives no fraction is absent.
    pub fn new(quarters: Quarters, sums: &'a [u64; LINES], metered: &'a [u32]) -> ReferenceGroup<'a>
        ensures quarters { result.quarters ≡ quarters }
        ensures sums { result.sums.now ≡ sums.now }
        ensures metered { result.metered.now ≡ metered.now }
    {
        ReferenceGroup {
            quarters,
            sums,
            metered,
        }
    }

    fn find(&self, question: Question) -> Option<Fraction>
        ensures { Finds (meant (reference self.now.quarters.count self.now.sums.now self.now.metered.now) question) result }
    {
        let spot = spot_of(self.quarters, question)?;
        fraction_of(self.sums[spot.line], *self.metered.get(spot.place)?)
    }
}

// The part of the sum that the Wh are. A sum that no standing sum may have, and 0, give none.
fn fraction_of(sum: u64, metered: u32) -> Option<Fraction>
    ensures { Finds (metered_fraction sum (Some metered)) result }
{
    let sum = StandingSum::new(sum).ok()?.kwh();
    if sum == 0 || metered == NOT_METERED {
        return None;
    }
    let parts = u64::from(metered) * UNIT / sum;
    Fraction::new(u32::try_from(parts).ok()?)
}

impl<'a> ProfileSource for ReferenceGroup<'a> {
    ghost until = { λ group. group.quarters.count };

    ghost means = { λ group. reference group.quarters.count group.sums.now group.metered.now };

    ghost lawful = { λ group. reference_lawful group.quarters.count group.sums.now group.metered.now group.quarters.within };

    fn quarters(&self) -> Quarters {
        self.quarters
    }

    fn fraction(&self, question: Question) -> Result<Fraction, Fault> {
        self.find(question).ok_or(Fault::FractionAbsent(question))
    }
}
