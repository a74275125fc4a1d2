// T and R of a quarter, and the running split of R along its line of weights.
ghost use Rattle.std.specs.Prelude.{◌≡◌, ◌+◌, ◌≤◌, pos, unsigned_abs};
ghost use Rattle.allocation.specs.Scale.{most_weights, most_residual};
ghost use Rattle.allocation.specs.Correction.{share};

// The total T of a quarter's weights and its residual R, which some weight carries.
#[derive(Clone, Copy)]
pub struct Split {
    pub(crate) total: u64,
    pub(crate) residual: i64,
    ghost few: { total ≤ most_weights },
    ghost small: { unsigned_abs residual ≤ most_residual },
    ghost carried: { total ≡ 0 → residual ≡ pos 0 },
}

impl Split {
    // T
    pub fn total(self) -> u64
        ensures { result ≡ self.total }
    {
        self.total
    }

    // R
    pub fn residual(self) -> i64
        ensures { result ≡ self.residual }
    {
        self.residual
    }
}

// A split on its way along the line: the weight W that it has passed, and what offtake and feed-in have got.
#[derive(Clone, Copy)]
pub struct Running {
    pub(crate) split: Split,
    pub(crate) passed: u64,
    pub(crate) offtake: i64,
    pub(crate) feed_in: i64,
    ghost within: { passed ≤ split.total },
    ghost bounded: { unsigned_abs offtake + unsigned_abs feed_in ≤ passed + unsigned_abs (share split.total split.residual passed) },
}

// What a weight gains of the residual, and what it comes to with that.
#[derive(Clone, Copy)]
pub struct Corrected {
    pub correction: i64,
    pub volume: i64,
}
