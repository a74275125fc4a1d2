// The amounts of a month that is settled, row by row.
ghost use Rattle.std.specs.Prelude.{◌≡◌, Ok, Err};
ghost use Rattle.fault.specs.Values.{direction_number, period_number};
ghost use Rattle.allocation.specs.Refusals.{Decided};
ghost use Rattle.rows.specs.Registers.{four, register};
ghost use Rattle.rows.specs.Settling.{reconciliation};
ghost use Rattle.rows.specs.Weighing.{or_else};
ghost use Rattle.rows.specs.Amounts.{Amounts, PeriodAmounts};
ghost use Rattle.rows.specs.RowAmounts.{after_row, amount_in, loss_amount, row_amount, row_refusal, settle_refusal};

use crate::direction::ByDirection;
use crate::group::GroupRow;
use allocation::{Price, Settling};
use fault::{Direction, Fault, Limit, Period, Register};

// The amount of one volume more, however large: a running total beyond its limit is refused.
fn wide_amount(settling: &mut Settling, volume: i128) -> Result<i64, Fault>
    ensures { Amounts settling.old settling.new volume result }
{
    let volume = i64::try_from(volume).map_err(|_| Fault::LimitPassed(Limit::Volume))?;
    settling.amount(volume)
}

// The amount of a row in a register.
fn register_amount(
    row: &GroupRow,
    settling: &mut Settling,
    direction: Direction,
    period: Period,
) -> Result<i64, Fault>
    ensures { Amounts settling.old settling.new (reconciliation row.now (register (direction_number direction) (period_number period))) result }
{
    wide_amount(settling, row.reconciliation(Register { direction, period }))
}

// The amounts of a row in one period, offtake first.
fn period_amounts(
    row: &GroupRow,
    settling: &mut Settling,
    period: Period,
) -> Result<ByDirection<i64>, Fault>
    ensures { PeriodAmounts settling.old settling.new (period_number period) row.now result }
{
    let offtake = register_amount(row, settling, Direction::Offtake, period)?;
    let feed_in = register_amount(row, settling, Direction::FeedIn, period)?;
    Ok(ByDirection { offtake, feed_in })
}

// The amounts of a row by register, in cents, where the lines of both periods have come to it.
// A running total beyond its limit is refused, that of the normal period first, and both lines stay as they were.
pub fn row_amounts(
    row: &GroupRow,
    normal: &mut Settling,
    low: &mut Settling,
) -> Result<[i64; 4], Fault>
    ensures answer { Decided (or_else (row_refusal normal.old.total 0 row.now) (row_refusal low.old.total 1 row.now)) result (λ a. a ≡ four (amount_in normal.old.price.cents normal.old.total low.old.price.cents low.old.total row.now)) }
    ensures normal { elim result [ Ok _ ↦ (normal.new.total ≡ after_row normal.old.total 0 row.now) × (normal.new.price ≡ normal.old.price) | Err _ ↦ normal.new ≡ normal.old ] }
    ensures low { elim result [ Ok _ ↦ (low.new.total ≡ after_row low.old.total 1 row.now) × (low.new.price ≡ low.old.price) | Err _ ↦ low.new ≡ low.old ] }
{
    let mut normal_after = *normal;
    let mut low_after = *low;
    let normal_amounts = period_amounts(row, &mut normal_after, Period::Normal)?;
    let low_amounts = period_amounts(row, &mut low_after, Period::Low)?;
    *normal = normal_after;
    *low = low_after;
    Ok([
        normal_amounts.offtake,
        low_amounts.offtake,
        normal_amounts.feed_in,
        low_amounts.feed_in,
    ])
}

// Brings the line past the volumes of a row.
fn pass_row(row: &GroupRow, settling: &mut Settling, period: Period) -> Result<(), Fault>
    ensures { Decided (row_refusal settling.old.total (period_number period) row.now) result (λ _. (settling.new.total ≡ after_row settling.old.total (period_number period) row.now) × (settling.new.price ≡ settling.old.price)) }
{
    period_amounts(row, settling, period)?;
    Ok(())
}

// The amount of the loss party in a period, in cents: its volume stands behind those of all rows in their line.
// A running total beyond its limit is refused.
pub fn settle_rows(
    rows: &[GroupRow],
    price: Price,
    period: Period,
    loss: i128,
) -> Result<i64, Fault>
    ensures { Decided (settle_refusal (period_number period) rows.now loss) result (λ a. a ≡ loss_amount price.cents (period_number period) rows.now loss) }
{
    let mut settling = Settling::new(price);
    for row in rows {
        pass_row(row, &mut settling, period)?;
    }
    wide_amount(&mut settling, loss)
}
