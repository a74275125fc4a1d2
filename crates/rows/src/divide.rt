// The residual of a quarter, shared out along its rows and added to their month volumes.
ghost use Rattle.std.specs.Prelude.{◌≡◌, ◌+◌, ◌≤◌, true, false, ◌+ℤ◌, Some, None, Ok, Err};
ghost use Rattle.fault.specs.Values.{period_number};
ghost use Rattle.allocation.specs.Correction.{corrected};
ghost use Rattle.allocation.specs.Refusals.{Decided};
ghost use Rattle.allocation.specs.Steps.{part};
ghost use Rattle.fault.specs.declared.cause.Direction.TheVariants.{Offtake, FeedIn};
ghost use Rattle.rows.specs.Registers.{four};
ghost use Rattle.rows.specs.Dividing.{adds_to, volume_of, divided_rows, too_large, month_passed, priced};
ghost use Rattle.rows.specs.Steps.{grown_month, grown_passed, passes_month, divided_from, RowStepped, Takes, month_refusal, divide_refusal};

use crate::direction::ByDirection;
use crate::group::GroupRow;
use crate::held::{weights_hold, weights_of};
use crate::settle::too_large;
use allocation::{PricedVolume, Running, Split};
use fault::{Direction, Fault, Limit, Period};

// What one weight of the line gets, which has it.
fn correct_one(running: &mut Running, direction: Direction, weight: u64) -> i64
    requires { running.old.passed + weight ≤ running.old.split.total }
    ensures volume { result ≡ corrected running.old.split.total running.old.split.residual running.old.passed direction weight }
    ensures split { running.new.split ≡ running.old.split }
    ensures passed { running.new.passed ≡ running.old.passed + weight }
    ensures offtake { running.new.offtake ≡ running.old.offtake +ℤ part Offtake direction result }
    ensures feed_in { running.new.feed_in ≡ running.old.feed_in +ℤ part FeedIn direction result }
{
    running.correct(direction, weight).unwrap().volume
}

// What the two weights of a row get, offtake first.
fn correct_both(running: &mut Running, held: ByDirection<u64>) -> ByDirection<i64>
    requires { running.old.passed + (held.offtake + held.feed_in) ≤ running.old.split.total }
    ensures offtake { result.offtake ≡ corrected running.old.split.total running.old.split.residual running.old.passed Offtake held.offtake }
    ensures feed_in { result.feed_in ≡ corrected running.old.split.total running.old.split.residual (running.old.passed + held.offtake) FeedIn held.feed_in }
    ensures split { running.new.split ≡ running.old.split }
    ensures passed { running.new.passed ≡ running.old.passed + (held.offtake + held.feed_in) }
    ensures offtakes { running.new.offtake ≡ running.old.offtake +ℤ result.offtake }
    ensures feed_ins { running.new.feed_in ≡ running.old.feed_in +ℤ result.feed_in }
{
    let offtake = correct_one(running, Direction::Offtake, held.offtake);
    let feed_in = correct_one(running, Direction::FeedIn, held.feed_in);
    ByDirection { offtake, feed_in }
}

// What a row gets, in the place that the split has come to; of class 0 what was posted.
fn row_volumes(row: &GroupRow, running: &mut Running) -> ByDirection<i64>
    requires { Takes running.old row.now }
    ensures offtake { result.offtake ≡ volume_of running.old.split.total running.old.split.residual running.old.passed row.now 0 }
    ensures feed_in { result.feed_in ≡ volume_of running.old.split.total running.old.split.residual running.old.passed row.now 1 }
    ensures stepped { RowStepped running.old row.now running.new }
{
    if !row.has_profile() {
        let [offtake, feed_in] = row.quarter;
        return ByDirection { offtake, feed_in };
    }
    correct_both(running, weights_of(row).unwrap())
}

// A month volume with one volume more; none beyond its limit.
fn grown(month: i64, volume: i64) -> Option<i64>
    ensures { elim result [ Some sum ↦ (too_large (month +ℤ volume) ≡ false) × (sum ≡ month +ℤ volume) | None ↦ too_large (month +ℤ volume) ≡ true ] }
{
    month.checked_add(volume).filter(|sum| !too_large(*sum))
}

// The month volumes with what the running period's registers get; none if one of these passes its limit.
fn grown_months(month: [i64; 4], volumes: ByDirection<i64>, period: Period) -> Option<[i64; 4]>
    ensures { elim result [ Some months ↦ (grown_passed month (period_number period) volumes.offtake volumes.feed_in ≡ false) × (months ≡ four (grown_month month (period_number period) volumes.offtake volumes.feed_in)) | None ↦ grown_passed month (period_number period) volumes.offtake volumes.feed_in ≡ true ] }
{
    let [offtake_normal, offtake_low, feed_in_normal, feed_in_low] = month;
    match period {
        Period::Normal => Some([
            grown(offtake_normal, volumes.offtake)?,
            offtake_low,
            grown(feed_in_normal, volumes.feed_in)?,
            feed_in_low,
        ]),
        Period::Low => Some([
            offtake_normal,
            grown(offtake_low, volumes.offtake)?,
            feed_in_normal,
            grown(feed_in_low, volumes.feed_in)?,
        ]),
    }
}

// A row as the division leaves it; none if one of its month volumes passes its limit.
fn divide_row(row: &GroupRow, running: &mut Running, period: Period) -> Option<GroupRow>
    requires { Takes running.old row.now }
    ensures after { elim result [ Some next ↦ (passes_month running.old (period_number period) row.now ≡ false) × (next ≡ divided_from running.old (period_number period) row.now) | None ↦ passes_month running.old (period_number period) row.now ≡ true ] }
    ensures stepped { RowStepped running.old row.now running.new }
{
    let volumes = row_volumes(row, running);
    let month = grown_months(row.month, volumes, period)?;
    Some(GroupRow {
        quarter: [volumes.offtake, volumes.feed_in],
        month,
        ..*row
    })
}

// Divides one row.
fn write_divided(row: &mut GroupRow, running: &mut Running, period: Period)
    requires takes { Takes running.old row.old }
    requires within { passes_month running.old (period_number period) row.old ≡ false }
    ensures after { row.new ≡ divided_from running.old (period_number period) row.old }
    ensures stepped { RowStepped running.old row.old running.new }
{
    *row = divide_row(row, running, period).unwrap();
}

// D, where no month volume would pass its limit.
fn check_rows(rows: &[GroupRow], split: Split, period: Period) -> Result<PricedVolume, Fault>
    requires { adds_to split.total rows.now ≡ true }
    ensures { Decided (month_refusal split.total split.residual (period_number period) rows.now) result (λ d. d.wh ≡ priced split.total split.residual rows.now) }
{
    let mut running = split.start();
    for row in rows {
        divide_row(row, &mut running, period).ok_or(Fault::LimitPassed(Limit::Volume))?;
    }
    running.finish()
}

// Divides every row, where no month volume passes its limit.
fn divide_each(rows: &mut [GroupRow], split: Split, period: Period)
    requires held { adds_to split.total rows.old ≡ true }
    requires within { month_passed split.total split.residual (period_number period) 0 rows.old ≡ false }
    ensures { rows.new ≡ divided_rows split.total split.residual (period_number period) 0 rows.old }
{
    let mut running = split.start();
    for row in rows.iter_mut() {
        write_divided(row, &mut running, period);
    }
}

// Shares R out along the rows that T was taken from, adds what each gets to its month volumes, and answers D. Split and period are two parameters:
// the one comes of the weighing, the other of the opening, and they meet only here.
// Refused for rows of another quarter, or else if a month volume would pass its limit; the rows stay as they were then.
pub fn divide_rows(
    rows: &mut [GroupRow],
    split: Split,
    period: Period,
) -> Result<PricedVolume, Fault>
    ensures answer { Decided (divide_refusal split.total split.residual (period_number period) rows.old) result (λ d. d.wh ≡ priced split.total split.residual rows.old) }
    ensures rows { elim result [ Ok _ ↦ rows.new ≡ divided_rows split.total split.residual (period_number period) 0 rows.old | Err _ ↦ rows.new ≡ rows.old ] }
{
    if !weights_hold(rows, split.total()) {
        return Err(Fault::ForeignTables);
    }
    let priced = check_rows(rows, split, period)?;
    divide_each(rows, split, period);
    Ok(priced)
}
