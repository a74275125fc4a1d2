// What settling adds up, as types.
ghost use Rattle.std.specs.Prelude.{◌*◌, ◌≤◌, unsigned_abs};
ghost use Rattle.allocation.specs.Scale.{most_quarters, most_priced, most_price, most_volume};

use crate::range::Price;

// The price sums of a period: the sum of D and the sum of D × price, over its quarters so far.
#[derive(Clone, Copy)]
pub struct PriceSums {
    pub(crate) quarters: u32,
    pub(crate) volume: u64,
    pub(crate) value: i64,
    ghost month: { quarters ≤ most_quarters },
    ghost few: { volume ≤ quarters * most_priced },
    ghost small: { unsigned_abs value ≤ volume * most_price },
}

// A line of volumes on its way: their price P, and their total S so far.
#[derive(Clone, Copy)]
pub struct Settling {
    pub(crate) price: Price,
    pub(crate) total: i64,
    ghost within: { unsigned_abs total ≤ most_volume },
}

// A reconciliation volume in Wh, and its amount in cents.
#[derive(Clone, Copy)]
pub struct Reconciled {
    pub volume: i64,
    pub amount: i64,
}
