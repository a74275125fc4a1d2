// Fractions, standing sums, and the weights that they give.
ghost use Rattle.std.specs.Prelude.{◌≡◌, ◌+◌, ◌*◌, ◌/◌, ◌<◌, ◌≤◌, Some, None, Ok, Err};
ghost use Rattle.fault.specs.declared.cause.Fault.TheVariants.{LimitPassed};
ghost use Rattle.fault.specs.declared.cause.Limit.TheVariants.{StandingSum as SumLimit};
ghost use Rattle.allocation.specs.Scale.{unit, whole, most_standing, weight_of, Nearest};

use fault::{Fault, Limit};

// The fraction at which a standing sum of 1 kWh weighs 1 Wh.
pub const UNIT: u64 = 100_000;
// The largest fraction.
pub const WHOLE: u32 = 1_000_000;

const MOST_STANDING: u64 = 10_000_000_000;

// The part of a standard year volume that falls into one quarter, as a profile has it.
// This, StandingSum, Price, PricedVolume and profile's Quarters are each a number with a bound. One generic type is no plainer:
// it needs a tag beside each bound to keep kWh and Wh, cents and quarters apart, and Price has a sign, StandingSum a fault of its own.
#[derive(Clone, Copy)]
pub struct Fraction {
    parts: u32,
    ghost within: { parts ≤ whole },
}

impl Fraction {
    pub fn new(parts: u32) -> Option<Fraction>
        ensures { elim result [ Some f ↦ f.parts ≡ parts | None ↦ whole < parts ] }
    {
        if parts <= WHOLE {
            Some(Fraction { parts })
        } else {
            None
        }
    }

    pub fn parts(self) -> u32
        ensures { result ≡ self.parts }
    {
        self.parts
    }
}

// The standard year volumes of a group's connections in one register, added up, in kWh.
#[derive(Clone, Copy)]
pub struct StandingSum {
    kwh: u64,
    ghost within: { kwh ≤ most_standing },
}

impl StandingSum {
    pub fn new(kwh: u64) -> Result<StandingSum, Fault>
        ensures { elim result [ Ok s ↦ s.kwh ≡ kwh | Err e ↦ (e ≡ LimitPassed SumLimit) × (most_standing < kwh) ] }
    {
        if kwh <= MOST_STANDING {
            Ok(StandingSum { kwh })
        } else {
            Err(Fault::LimitPassed(Limit::StandingSum))
        }
    }

    pub fn kwh(self) -> u64
        ensures { result ≡ self.kwh }
    {
        self.kwh
    }
}

// Parts of watt-hours, to the nearest watt-hour; a half is rounded up.
fn rounded(parts: u128) -> u128
    requires { parts ≤ 18446744073709551616000000 }
    ensures value { result ≡ (parts + unit / 2) / unit }
    ensures nearest { Nearest parts result }
{
    let unit = u128::from(UNIT);
    (parts + unit / 2) / unit
}

// What the profile gives, in Wh, for a sum in kWh that no bound keeps small: a row of someone else's may hold any.
pub fn wide_weight(fraction: Fraction, kwh: u64) -> u128
    ensures value { result ≡ weight_of fraction.parts kwh }
    ensures nearest { Nearest (fraction.parts * kwh) result }
    ensures bound { result ≤ 200000000000000000000 }
    ensures few { kwh ≤ most_standing → result ≤ 100000000000 }
{
    rounded(u128::from(fraction.parts()) * u128::from(kwh))
}

// `rounded` in the narrower type that a sum within its limit allows.
fn rounded_wh(parts: u64) -> u64
    requires { parts ≤ 10000000000000000 }
    ensures value { result ≡ (parts + unit / 2) / unit }
    ensures nearest { Nearest parts result }
    ensures bound { result ≤ 100000000000 }
{
    (parts + UNIT / 2) / UNIT
}

// What the profile gives a group in one direction of a quarter, in Wh: the number that `wide_weight` gives, so that whoever has a sum
// within its limit need not bound the answer again. It is worked out here in 64 bits, and not taken from `wide_weight`,
// since a division of 128 bits takes several times as long.
pub fn weight(fraction: Fraction, sum: StandingSum) -> u64
    ensures value { result ≡ weight_of fraction.parts sum.kwh }
    ensures nearest { Nearest (fraction.parts * sum.kwh) result }
    ensures bound { result ≤ 100000000000 }
{
    rounded_wh(u64::from(fraction.parts()) * sum.kwh())
}
