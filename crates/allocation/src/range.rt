// Prices and priced volumes as types that hold no number out of range, and the bounds that keep every sum exact.
ghost use Rattle.std.specs.Prelude.{◌≡◌, ◌<◌, ◌≤◌, Some, None, unsigned_abs};
ghost use Rattle.allocation.specs.Scale.{most_price, most_priced};

const MOST_PRICE: u64 = 500_000;

pub const MOST_WEIGHTS: u64 = 2_000_000_000;

pub(crate) const MOST_RESIDUAL: u64 = 2_000_000_000;

const MOST_PRICED: u64 = MOST_WEIGHTS + MOST_RESIDUAL;

// The longest month: 31 days and the hour that autumn adds.
pub const MOST_QUARTERS: u32 = 2_980;

pub const MOST_VOLUME: u64 = 13_000_000_000_000;

// A price, in cents per MWh.
#[derive(Clone, Copy)]
pub struct Price {
    pub(crate) cents: i64,
    ghost within: { unsigned_abs cents ≤ most_price },
}

impl Price {
    pub fn new(cents: i64) -> Option<Price>
        ensures { elim result [ Some p ↦ p.cents ≡ cents | None ↦ most_price < unsigned_abs cents ] }
    {
        if cents.unsigned_abs() <= MOST_PRICE {
            Some(Price { cents })
        } else {
            None
        }
    }

    pub fn cents(self) -> i64
        ensures { result ≡ self.cents }
    {
        self.cents
    }
}

// What a quarter brings into the price of its period: the size of its corrected offtake and feed-in, in Wh.
#[derive(Clone, Copy)]
pub struct PricedVolume {
    pub(crate) wh: u64,
    ghost within: { wh ≤ most_priced },
}

impl PricedVolume {
    pub fn new(wh: u64) -> Option<PricedVolume>
        ensures { elim result [ Some d ↦ d.wh ≡ wh | None ↦ most_priced < wh ] }
    {
        if wh <= MOST_PRICED {
            Some(PricedVolume { wh })
        } else {
            None
        }
    }

    pub fn wh(self) -> u64
        ensures { result ≡ self.wh }
    {
        self.wh
    }
}
