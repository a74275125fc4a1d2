// The weights of the rows of a quarter, by any profile source.
ghost use Rattle.std.specs.Prelude.{◌≡◌, ◌+◌, ◌≤◌, map, None, Ok, Err};
ghost use Rattle.fault.specs.declared.cause.Fault.TheVariants.{FractionAbsent};
ghost use Rattle.fault.specs.Values.{direction_number, period_number};
ghost use Rattle.allocation.specs.Refusals.{Decided};
ghost use Rattle.allocation.specs.Scale.{most_weights};
ghost use Rattle.profile.specs.Meanings.{Answers};
ghost use Rattle.rows.specs.Weighing.{row_weight, row_absent, first_absent, weight_in, weighed};
ghost use Rattle.rows.specs.Counting.{under, weigh_refusal, Counted, RowWeighed, Splits, Tallied};

use crate::direction::ByDirection;
use crate::group::GroupRow;
use allocation::{Posted, Split, Weights};
use fault::{Direction, Fault, Period, Quarter, Question, Register};
use profile::{ProfileSource, wide_weight_by};

// By what the rows of a quarter are weighed: a source, and the quarter with its period.
#[derive_where(Clone, Copy)]
pub struct Weighing<'a, S: ProfileSource> {
    pub source: &'a S,
    pub quarter: Quarter,
    pub period: Period,
}

// A weighed quarter: V, and T with R.
#[derive(Clone, Copy)]
pub struct Weighed {
    pub net: i64,
    pub split: Split,
}

impl<'a, S: ProfileSource> Weighing<'a, S> {
    // What a row weighs in one direction, in Wh. A sum of 0 asks no fraction.
    fn weight(&self, row: &GroupRow, direction: Direction) -> Result<u128, Fault>
        ensures { Answers (λ wh. wh) (under S.ProfileSource.means self.now row_weight row.now (direction_number direction)) (FractionAbsent (record { class = row.now.group.class; direction = direction_number direction; quarter = self.now.quarter })) result }
    {
        let period = self.period;
        let register = Register { direction, period };
        let question = Question {
            class: row.group.class,
            direction: direction.number(),
            quarter: self.quarter,
        };
        wide_weight_by(
            self.source,
            question,
            row.standing[usize::from(register.number())],
        )
    }

    // What a row weighs in each direction. Class 0 weighs nothing.
    fn weights(&self, row: &GroupRow) -> Result<ByDirection<u128>, Fault>
        ensures { Decided (under S.ProfileSource.means self.now row_absent row.now) result (under S.ProfileSource.means self.now RowWeighed row.now) }
    {
        if !row.has_profile() {
            return Ok(ByDirection::default());
        }
        let offtake = self.weight(row, Direction::Offtake)?;
        let feed_in = self.weight(row, Direction::FeedIn)?;
        Ok(ByDirection { offtake, feed_in })
    }

    // What the rows weigh in each direction, if the source has every fraction that they need. No line of rows is too long: past all limits a sum stays where it is.
    fn tally(&self, rows: &[GroupRow]) -> Result<ByDirection<u128>, Fault>
        ensures { Decided (under S.ProfileSource.means self.now first_absent rows.now) result (λ sums. under S.ProfileSource.means self.now Tallied rows.now sums.offtake sums.feed_in) }
    {
        let mut offtake: u128 = 0;
        let mut feed_in: u128 = 0;
        for row in rows {
            let weights = self.weights(row)?;
            offtake = offtake.saturating_add(weights.offtake);
            feed_in = feed_in.saturating_add(weights.feed_in);
        }
        Ok(ByDirection { offtake, feed_in })
    }

    // T and V of the rows. Refused with the first absent fraction, or else where T is beyond its limit.
    pub fn count(&self, rows: &[GroupRow]) -> Result<Weights, Fault>
        ensures { under S.ProfileSource.means self.now Counted rows.now result }
    {
        let sums = self.tally(rows)?;
        Weights::new(sums.offtake, sums.feed_in)
    }

    // Writes a row's weights. Class 0 keeps what was posted.
    fn write_row(&self, row: &mut GroupRow)
        requires present { under S.ProfileSource.means self.now row_absent row.old ≡ None }
        requires few { under S.ProfileSource.means self.now weight_in row.old 0 + under S.ProfileSource.means self.now weight_in row.old 1 ≤ most_weights }
        ensures { row.new ≡ under S.ProfileSource.means self.now weighed row.old }
    {
        if !row.has_profile() {
            return;
        }
        let weights = self.weights(row).unwrap();
        row.quarter = [weights.offtake as i64, weights.feed_in as i64];
    }

    // Writes the weights of all rows, where they were counted and are within their limit.
    fn write_rows(&self, rows: &mut [GroupRow])
        requires { under S.ProfileSource.means self.now weigh_refusal rows.old ≡ None }
        ensures { rows.new ≡ map (under S.ProfileSource.means self.now weighed) rows.old }
    {
        for row in rows.iter_mut() {
            self.write_row(row);
        }
    }

    // Writes the weights of all rows, and answers T and V. Refused as `count` is, and the rows stay as they were.
    pub fn write(&self, rows: &mut [GroupRow]) -> Result<Weights, Fault>
        ensures answer { under S.ProfileSource.means self.now Counted rows.old result }
        ensures rows { elim result [ Ok _ ↦ rows.new ≡ map (under S.ProfileSource.means self.now weighed) rows.old | Err _ ↦ rows.new ≡ rows.old ] }
    {
        let weights = self.count(rows)?;
        self.write_rows(rows);
        Ok(weights)
    }

    // Weighs the rows, and answers V, T and R for the nets that were posted in the quarter.
    // Refused with the first absent fraction, or else where T or R is beyond its limit or no weight carries R; the rows stay as they were then.
    pub fn weigh(&self, rows: &mut [GroupRow], posted: Posted) -> Result<Weighed, Fault>
        ensures answer { under S.ProfileSource.means self.now Splits posted rows.old result }
        ensures rows { elim result [ Ok _ ↦ rows.new ≡ map (under S.ProfileSource.means self.now weighed) rows.old | Err _ ↦ rows.new ≡ rows.old ] }
    {
        let weights = self.count(rows)?;
        let split = weights.split(posted, self.quarter)?;
        self.write_rows(rows);
        Ok(Weighed {
            net: weights.net(),
            split,
        })
    }
}
