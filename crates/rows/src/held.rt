// The weights that stand in rows.
ghost use Rattle.std.specs.Prelude.{◌≡◌, ◌^◌, ◌<◌, true, false, Some, None};
ghost use Rattle.rows.specs.Dividing.{held, unsigned, held_total, all_unsigned, adds_to};

use crate::direction::ByDirection;
use crate::group::GroupRow;

// The weights of a row in each direction, in Wh; none if one of them is negative.
pub(crate) fn weights_of(row: &GroupRow) -> Option<ByDirection<u64>>
    ensures answer { elim result [ Some h ↦ (unsigned row.now ≡ true) × (h.offtake ≡ held row.now 0) × (h.feed_in ≡ held row.now 1) | None ↦ unsigned row.now ≡ false ] }
    ensures bound { elim result [ Some h ↦ (h.offtake < 2 ^ 63) × (h.feed_in < 2 ^ 63) | None ↦ Unit {0} ] }
{
    if !row.has_profile() {
        return Some(ByDirection::default());
    }
    let [offtake, feed_in] = row.quarter;
    Some(ByDirection {
        offtake: u64::try_from(offtake).ok()?,
        feed_in: u64::try_from(feed_in).ok()?,
    })
}

// All weights of the rows; none if one of them is negative. No line of rows is too long for the sum.
fn all_weights(rows: &[GroupRow]) -> Option<u128>
    ensures { elim result [ Some sum ↦ (all_unsigned rows.now ≡ true) × (sum ≡ held_total rows.now) | None ↦ all_unsigned rows.now ≡ false ] }
{
    let mut sum: u128 = 0;
    for row in rows {
        let held = weights_of(row)?;
        sum += u128::from(held.offtake) + u128::from(held.feed_in);
    }
    Some(sum)
}

// Whether the weights in the rows are those that T was taken from: none is negative, and they come to T.
pub fn weights_hold(rows: &[GroupRow], total: u64) -> bool
    ensures { result ≡ adds_to total rows.now }
{
    all_weights(rows) == Some(u128::from(total))
}
