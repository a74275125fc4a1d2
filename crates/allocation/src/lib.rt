// The arithmetic of one quarter and of settling: exact, over whole numbers.
#![tactic(auto)]

pub mod amount;
pub mod fraction;
pub mod line;
pub mod quarter;
pub mod range;
pub mod running;
pub mod split;
pub mod sums;
pub mod worked;

pub use amount::amounts;
pub use fraction::{Fraction, StandingSum, weight, wide_weight};
pub use line::{Allocated, Posted, Share, Weights};
pub use quarter::allocate;
pub use range::{Price, PricedVolume};
pub use split::{Corrected, Running, Split};
pub use sums::{PriceSums, Reconciled, Settling};
