// A lent source is a source, so that a layer can stand over sources that its maker keeps.
ghost use Rattle.std.specs.Prelude.{◌≡◌};

use crate::quarters::Quarters;
use crate::source::ProfileSource;
use allocation::Fraction;
use fault::{Fault, Question};

impl<'a, S: ProfileSource> ProfileSource for &'a S {
    ghost until = { λ lent. S.ProfileSource.until lent.now };

    ghost means = { λ lent. S.ProfileSource.means lent.now };

    ghost lawful = { λ lent. S.ProfileSource.lawful lent.now };

    fn quarters(&self) -> Quarters {
        S::quarters(*self)
    }

    fn fraction(&self, question: Question) -> Result<Fraction, Fault> {
        S::fraction(*self, question)
    }
}
