// A quarter's weights in their line, and what a quarter's division comes to.
ghost use Rattle.std.specs.Prelude.{◌≡◌, ◌≤◌, unsigned_abs};
ghost use Rattle.allocation.specs.Scale.{most_weights};

use crate::range::PricedVolume;
use crate::split::Split;
use fault::Direction;

// One weight of the line, and what it gets of the residual. All in Wh; a weight has no sign, a volume of offtake is negative.
#[derive(Clone, Copy)]
pub struct Share {
    pub direction: Direction,
    // what the profile gives
    pub weight: u64,
    // its part of the residual
    pub correction: i64,
    // what it has once the residual is shared out
    pub volume: i64,
}

// The total T of a line's weights, and its net V: feed-in minus offtake.
#[derive(Clone, Copy)]
pub struct Weights {
    pub(crate) total: u64,
    pub(crate) net: i64,
    ghost few: { total ≤ most_weights },
    ghost within: { unsigned_abs net ≤ total },
}

impl Weights {
    // T
    pub fn total(self) -> u64
        ensures { result ≡ self.total }
    {
        self.total
    }

    // V
    pub fn net(self) -> i64
        ensures { result ≡ self.net }
    {
        self.net
    }
}

// The nets X, M and L of what was exchanged with other grids, measured and lost in a quarter, in Wh; into the area is positive.
#[derive(Clone, Copy)]
pub struct Posted {
    pub exchange: i64,
    pub measured: i64,
    pub losses: i64,
}

// A divided quarter: V, T with R, and D.
#[derive(Clone, Copy)]
pub struct Allocated {
    pub net: i64,
    pub split: Split,
    pub priced: PricedVolume,
}
