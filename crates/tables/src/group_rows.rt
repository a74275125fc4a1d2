// What the quarters of a month do to all group rows of a table. Keys, order and memory stay.
ghost use Rattle.std.specs.Prelude.{◌≡◌, ◌≤◌, ◌++◌, map, length, take, drop, Ok, Err};
ghost use Rattle.fault.specs.Values.{period_number};
ghost use Rattle.allocation.specs.Refusals.{Decided};
ghost use Rattle.rows.specs.Groups.{cleared};
ghost use Rattle.rows.specs.Dividing.{divided_rows, priced};
ghost use Rattle.rows.specs.Counting.{under, Counted, Splits};
ghost use Rattle.rows.specs.Steps.{divide_refusal};
ghost use Rattle.rows.specs.Weighing.{weighed};
ghost use Rattle.tables.specs.BookRows.{group_rules};
ghost use Rattle.tables.specs.Tables.{Stays, live};

use crate::keyed::Table;
use allocation::{Posted, PricedVolume, Split, Weights};
use fault::{Fault, Period};
use profile::ProfileSource;
use rows::{GroupRow, Weighed, Weighing, clear_quarters, divide_rows};

// The rows at the front of the memory, one function for each thing that is done to them: a bug that reaches past them is refused here, by what they promise.

// Clears the first rows of the memory.
fn clear_front(rows: &mut [GroupRow], len: usize)
    requires { len ≤ length rows.old }
    ensures { rows.new ≡ map cleared (take len rows.old) ++ drop len rows.old }
{
    clear_quarters(&mut rows[..len]);
}

// Writes the weights of the first rows of the memory.
fn write_front<S: ProfileSource>(
    rows: &mut [GroupRow],
    len: usize,
    weighing: &Weighing<'_, S>,
) -> Result<Weights, Fault>
    requires { len ≤ length rows.old }
    ensures answer { under S.ProfileSource.means weighing.now Counted (take len rows.old) result }
    ensures rows { elim result [ Ok _ ↦ rows.new ≡ map (under S.ProfileSource.means weighing.now weighed) (take len rows.old) ++ drop len rows.old | Err _ ↦ rows.new ≡ take len rows.old ++ drop len rows.old ] }
{
    weighing.write(&mut rows[..len])
}

// Weighs the first rows of the memory, and finds the residual.
fn weigh_front<S: ProfileSource>(
    rows: &mut [GroupRow],
    len: usize,
    weighing: &Weighing<'_, S>,
    posted: Posted,
) -> Result<Weighed, Fault>
    requires { len ≤ length rows.old }
    ensures answer { under S.ProfileSource.means weighing.now Splits posted (take len rows.old) result }
    ensures rows { elim result [ Ok _ ↦ rows.new ≡ map (under S.ProfileSource.means weighing.now weighed) (take len rows.old) ++ drop len rows.old | Err _ ↦ rows.new ≡ take len rows.old ++ drop len rows.old ] }
{
    weighing.weigh(&mut rows[..len], posted)
}

// Divides the first rows of the memory.
fn divide_front(
    rows: &mut [GroupRow],
    len: usize,
    split: Split,
    period: Period,
) -> Result<PricedVolume, Fault>
    requires { len ≤ length rows.old }
    ensures answer { Decided (divide_refusal split.total split.residual (period_number period) (take len rows.old)) result (λ d. d.wh ≡ priced split.total split.residual (take len rows.old)) }
    ensures rows { elim result [ Ok _ ↦ rows.new ≡ divided_rows split.total split.residual (period_number period) 0 (take len rows.old) ++ drop len rows.old | Err _ ↦ rows.new ≡ take len rows.old ++ drop len rows.old ] }
{
    divide_rows(&mut rows[..len], split, period)
}

impl<'a> Table<'a, GroupRow> {
    // Takes the quarter volumes of every group out.
    pub fn clear_quarters(&mut self)
        ensures rows { live self.new ≡ map cleared (live self.old) }
        ensures stays { Stays group_rules self.old self.new }
    {
        let len = self.len();
        clear_front(self.rows, len);
    }

    // Writes the weights of every group, and answers T and V. A refusal changes nothing.
    pub fn write_weights<S: ProfileSource>(
        &mut self,
        weighing: &Weighing<'_, S>,
    ) -> Result<Weights, Fault>
        ensures answer { under S.ProfileSource.means weighing.now Counted (live self.old) result }
        ensures rows { elim result [ Ok _ ↦ live self.new ≡ map (under S.ProfileSource.means weighing.now weighed) (live self.old) | Err _ ↦ self.new ≡ self.old ] }
        ensures stays { Stays group_rules self.old self.new }
    {
        let len = self.len();
        write_front(self.rows, len, weighing)
    }

    // Writes the weights of every group, and answers V, T and R for the nets that were posted. A refusal changes nothing.
    pub fn weigh_rows<S: ProfileSource>(
        &mut self,
        weighing: &Weighing<'_, S>,
        posted: Posted,
    ) -> Result<Weighed, Fault>
        ensures answer { under S.ProfileSource.means weighing.now Splits posted (live self.old) result }
        ensures rows { elim result [ Ok _ ↦ live self.new ≡ map (under S.ProfileSource.means weighing.now weighed) (live self.old) | Err _ ↦ self.new ≡ self.old ] }
        ensures stays { Stays group_rules self.old self.new }
    {
        let len = self.len();
        weigh_front(self.rows, len, weighing, posted)
    }

    // Shares the residual of a quarter out along the groups, and answers D. A refusal changes nothing.
    pub fn divide_rows(&mut self, split: Split, period: Period) -> Result<PricedVolume, Fault>
        ensures answer { Decided (divide_refusal split.total split.residual (period_number period) (live self.old)) result (λ d. d.wh ≡ priced split.total split.residual (live self.old)) }
        ensures rows { elim result [ Ok _ ↦ live self.new ≡ divided_rows split.total split.residual (period_number period) 0 (live self.old) | Err _ ↦ self.new ≡ self.old ] }
        ensures stays { Stays group_rules self.old self.new }
    {
        let len = self.len();
        divide_front(self.rows, len, split, period)
    }
}
