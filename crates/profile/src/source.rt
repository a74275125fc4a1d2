// What every profile source is.
ghost use Rattle.std.specs.Prelude.{◌≡◌, ℕ};
ghost use Rattle.profile.specs.Meanings.{Meaning, Lawful, Answered};

use crate::quarters::Quarters;
use allocation::Fraction;
use fault::{Fault, Question};

// Whoever can say which fraction of a standard year volume falls into a quarter.
// Code above is written for any source, and rests on what the source means alone.
pub trait ProfileSource {
    // the number of quarters; from there on the source is absent
    ghost until: { Self → ℕ };

    // the fraction for each class, direction and quarter, or none
    ghost means: { Self → Meaning };

    // Tells the number of quarters. A layer over two sources needs it: past the end and a hole are answered alike.
    fn quarters(&self) -> Quarters
        ensures count { result.count ≡ until self.now }
        ensures unchanged { self.exit.now ≡ self.entry.now };

    // The one question: what the source means for a class, a direction and a quarter.
    fn fraction(&self, question: Question) -> Result<Fraction, Fault>
        ensures answer { Answered (means self.now) question result }
        ensures unchanged { self.exit.now ≡ self.entry.now };

    // the law of every source
    ghost lawful: { (source : Self) → Lawful (until source) (means source) };
}
