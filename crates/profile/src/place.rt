// Where a table keeps the number for a class, a direction and a quarter.
ghost use Rattle.std.specs.Prelude.{◌≡◌, ◌*◌, ◌<◌, true, false, Some, None};
ghost use Rattle.profile.specs.Places.{last_class, directions, covers, line_of, place_of};

use crate::quarters::Quarters;
use fault::Question;

// Classes 1 to this have a profile; class 0 is measured.
pub(crate) const LAST_CLASS: u8 = 16;

// Offtake and feed-in.
pub(crate) const DIRECTIONS: u8 = 2;

// A line for each class and direction: offtake of class 1, feed-in of class 1, offtake of class 2, and so on.
pub const LINES: usize = LAST_CLASS as usize * DIRECTIONS as usize;

// A line, and the place of a number in a table that keeps line after line.
#[derive(Clone, Copy)]
pub(crate) struct Spot {
    pub(crate) line: usize,
    pub(crate) place: usize,
    ghost within: { line < last_class * directions },
}

// The spot, for what a month of these quarters covers. The bounds of all three numbers keep the place small: it cannot wrap.
pub(crate) fn spot_of(quarters: Quarters, question: Question) -> Option<Spot>
    ensures { elim result [ Some spot ↦ (covers quarters.count question ≡ true) × (spot.line ≡ line_of question.class question.direction) × (spot.place ≡ place_of quarters.count question.class question.direction question.quarter.0) | None ↦ covers quarters.count question ≡ false ] }
{
    if !quarters.covers(question) {
        return None;
    }
    let Question {
        class,
        direction,
        quarter,
    } = question;
    let line = usize::from(class - 1) * usize::from(DIRECTIONS) + usize::from(direction);
    let place = line * quarters.count() as usize + quarter.0 as usize;
    Some(Spot { line, place })
}
