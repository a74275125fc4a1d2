// The volumes of a month that is settled.
ghost use Rattle.std.specs.Prelude.{◌≡◌, ◌≤◌, not, Ok, Err, unsigned_abs};
ghost use Rattle.std.specs.List.{list_any};
ghost use Rattle.fault.specs.Values.{period_number, register_number};
ghost use Rattle.allocation.specs.Refusals.{Decided};
ghost use Rattle.rows.specs.Dividing.{too_large};
ghost use Rattle.rows.specs.Settling.{profiled_real, real_in, reconciliation, volume_passed};
ghost use Rattle.rows.specs.RowAmounts.{row_real, row_volume_passed, volume_refusal};

use crate::group::GroupRow;
use allocation::range::MOST_VOLUME;
use fault::{Direction, Fault, Limit, Period, Register};

// Whether a volume is beyond its limit.
pub(crate) fn too_large(volume: i64) -> bool
    ensures { result ≡ too_large volume }
{
    volume.unsigned_abs() > MOST_VOLUME
}

impl GroupRow {
    // What the meters of the group counted in a register, in Wh; of class 0 all is measured, so it is the month volume.
    pub fn real_volume(&self, register: Register) -> i64
        ensures { result ≡ real_in self.now (register_number register) }
    {
        let register = usize::from(register.number());
        if self.has_profile() {
            self.real[register]
        } else {
            self.month[register]
        }
    }

    // What a register counted beyond what was allocated to it, in Wh.
    pub fn reconciliation(&self, register: Register) -> i128
        ensures value { result ≡ reconciliation self.now (register_number register) }
        ensures bound { unsigned_abs result ≤ 18446744073709551616 }
    {
        let allocated = self.month[usize::from(register.number())];
        i128::from(self.real_volume(register)) - i128::from(allocated)
    }
}

// Whether some of four volumes is beyond its limit.
fn some_too_large(volumes: &[i64; 4]) -> bool
    ensures { result ≡ list_any too_large volumes.now }
{
    volumes.iter().any(|volume| too_large(*volume))
}

// Whether some month or real volume of a row is beyond its limit.
fn row_passed(row: &GroupRow) -> bool
    ensures { result ≡ row_volume_passed row.now }
{
    some_too_large(&row.month) || row.has_profile() && some_too_large(&row.real)
}

// Whether some volume of the rows is beyond its limit. Tried inside `volumes_within`: the check did not find there what `any` answers.
fn some_passed(rows: &[GroupRow]) -> bool
    ensures { result ≡ list_any row_volume_passed rows.now }
{
    rows.iter().any(row_passed)
}

// Whether every month and real volume of the rows is within its limit.
pub fn volumes_within(rows: &[GroupRow]) -> bool
    ensures { result ≡ not (volume_passed rows.now) }
{
    !some_passed(rows)
}

// The real volumes of a row in a period, both directions, where it has a profile.
fn real_net(row: &GroupRow, period: Period) -> i128
    ensures { result ≡ row_real (period_number period) row.now }
{
    if !row.has_profile() {
        return 0;
    }
    let offtake = row.real_volume(Register {
        direction: Direction::Offtake,
        period,
    });
    let feed_in = row.real_volume(Register {
        direction: Direction::FeedIn,
        period,
    });
    i128::from(offtake) + i128::from(feed_in)
}

// The real volumes of the profiled rows in a period, both directions, in Wh. Refused if some volume is beyond its limit:
// within it no line of rows is too long for the sum.
pub fn profiled_real(rows: &[GroupRow], period: Period) -> Result<i128, Fault>
    ensures { Decided (volume_refusal rows.now) result (λ sum. sum ≡ profiled_real (period_number period) rows.now) }
{
    let mut sum = 0;
    for row in rows {
        if row_passed(row) {
            return Err(Fault::LimitPassed(Limit::Volume));
        }
        sum += real_net(row, period);
    }
    Ok(sum)
}
