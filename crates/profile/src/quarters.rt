// The number of quarters of a month.
ghost use Rattle.std.specs.Prelude.{◌≡◌, ◌<◌, ◌≤◌, min, Some, None};
ghost use Rattle.allocation.specs.Scale.{most_quarters};
ghost use Rattle.profile.specs.Places.{covers};

use crate::place::{DIRECTIONS, LAST_CLASS};
use allocation::range::MOST_QUARTERS;
use fault::Question;

// How many quarters a month or a source has. 0 is a number too: such a source has nothing.
#[derive(Clone, Copy, PartialEq, Eq, PartialOrd, Ord, Debug)]
pub struct Quarters {
    count: u32,
    ghost within: { count ≤ most_quarters },
}

impl Quarters {
    // The longest month.
    pub const MOST: u32 = MOST_QUARTERS;

    pub fn new(count: u32) -> Option<Quarters>
        ensures { elim result [ Some quarters ↦ quarters.count ≡ count | None ↦ most_quarters < count ] }
    {
        if count <= Quarters::MOST {
            Some(Quarters { count })
        } else {
            None
        }
    }

    pub fn count(self) -> u32
        ensures { result ≡ self.count }
    {
        self.count
    }

    // Whether a month of so many quarters has the one that is asked for, of a class that has a profile and one of the directions.
    pub fn covers(self, question: Question) -> bool
        ensures { result ≡ covers self.count question }
    {
        question.class >= 1
            && question.class <= LAST_CLASS
            && question.direction < DIRECTIONS
            && question.quarter.0 < self.count
    }

    // The smaller of two: `min` by the name that it has here.
    pub fn least(self, other: Quarters) -> Quarters
        ensures { result.count ≡ min self.count other.count }
    {
        self.min(other)
    }
}
