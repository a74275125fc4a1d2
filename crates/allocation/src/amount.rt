// Prices and amounts of a settled month.
ghost use Rattle.std.specs.Prelude.{◌≡◌, ◌+◌, ◌*◌, ◌<◌, ◌≤◌, pos, ◌+ℤ◌, ◌*ℤ◌, ◌<ℤ◌, Some, None, Ok, Err, unsigned_abs};
ghost use Rattle.std.specs.Int.{int_div_euclid};
ghost use Rattle.allocation.specs.Refusals.{Decided};
ghost use Rattle.allocation.specs.Scale.{most_quarters};
ghost use Rattle.allocation.specs.Settling.{Floor, price_of, value_at, amount_of, total_refusal, Cent};
ghost use Rattle.allocation.specs.Amounts.{priced_at, totals_refusal, Settles};

use crate::range::{MOST_QUARTERS, MOST_VOLUME, Price, PricedVolume};
use crate::sums::{PriceSums, Reconciled, Settling};
use fault::{Fault, Limit};

const WH_PER_MWH: i64 = 1_000_000;

// D × price of one quarter.
fn worth(priced: PricedVolume, price: Price) -> i64
    ensures value { result ≡ pos priced.wh *ℤ price.cents }
    ensures bound { unsigned_abs result ≤ priced.wh * 500000 }
{
    priced.wh as i64 * price.cents
}

// A quotient rounded down, towards minus infinity.
fn floored(dividend: i64, divisor: i64) -> i64
    requires { pos 0 <ℤ divisor }
    ensures { result ≡ int_div_euclid dividend divisor }
{
    dividend.div_euclid(divisor)
}

impl PriceSums {
    // A period without quarters.
    pub fn none() -> PriceSums
        ensures quarters { result.quarters ≡ 0 }
        ensures volume { result.volume ≡ 0 }
        ensures value { result.value ≡ pos 0 }
    {
        PriceSums {
            quarters: 0,
            volume: 0,
            value: 0,
        }
    }

    // One divided quarter more; none where the sums have as many as any month.
    pub fn gain(self, priced: PricedVolume, price: Price) -> Option<PriceSums>
        ensures { elim result [ Some n ↦ (n.quarters ≡ self.quarters + 1) × (n.volume ≡ self.volume + priced.wh) × (n.value ≡ self.value +ℤ (pos priced.wh *ℤ price.cents)) | None ↦ self.quarters ≡ most_quarters ] }
    {
        if self.quarters >= MOST_QUARTERS {
            return None;
        }
        Some(PriceSums {
            quarters: self.quarters + 1,
            volume: self.volume + priced.wh,
            value: self.value + worth(priced, price),
        })
    }

    // The price P of the period: rounded down, 0 where it has no volume.
    pub fn price(self) -> Price
        ensures value { result.cents ≡ price_of self.value self.volume }
        ensures floor { 0 < self.volume → Floor self.value self.volume result.cents }
        ensures none { self.volume ≡ 0 → result.cents ≡ pos 0 }
    {
        if self.volume == 0 {
            return Price { cents: 0 };
        }
        Price {
            cents: floored(self.value, self.volume as i64),
        }
    }
}

// G: a total at a price, in cents.
fn value_of(price: Price, total: i64) -> i64
    requires { unsigned_abs total ≤ 13000000000000 }
    ensures value { result ≡ value_at price.cents total }
    ensures bound { unsigned_abs result ≤ 6500000000000 }
{
    floored(total * price.cents, WH_PER_MWH)
}

impl Settling {
    // The head of a line at a price.
    pub fn new(price: Price) -> Settling
        ensures price { result.price ≡ price }
        ensures total { result.total ≡ pos 0 }
    {
        Settling { price, total: 0 }
    }

    // The running total with one volume more.
    fn next(self, volume: i64) -> Result<i64, Fault>
        ensures { Decided (total_refusal (self.total +ℤ volume)) result (λ s. s ≡ self.total +ℤ volume) }
    {
        match self.total.checked_add(volume) {
            Some(next) if next.unsigned_abs() <= MOST_VOLUME => Ok(next),
            _ => Err(Fault::LimitPassed(Limit::Volume)),
        }
    }

    // The amount of one volume more, in cents; a running total beyond its limit is refused.
    pub fn amount(&mut self, volume: i64) -> Result<i64, Fault>
        ensures answer { Decided (total_refusal (self.old.total +ℤ volume)) result (λ a. (a ≡ amount_of self.old.price.cents self.old.total volume) × (self.new.total ≡ self.old.total +ℤ volume) × (self.new.price ≡ self.old.price)) }
        ensures near { elim result [ Ok a ↦ Cent self.old.price.cents volume a | Err e ↦ self.new ≡ self.old ] }
    {
        let next = self.next(volume)?;
        let after = value_of(self.price, next);
        let before = value_of(self.price, self.total);
        self.total = next;
        Ok(after - before)
    }
}

// Gives one volume its amount.
fn price_one(one: &mut Reconciled, settling: &mut Settling)
    requires { total_refusal (settling.old.total +ℤ one.old.volume) ≡ None }
    ensures after { one.new ≡ priced_at settling.old.price.cents settling.old.total one.old }
    ensures price { settling.new.price ≡ settling.old.price }
    ensures total { settling.new.total ≡ settling.old.total +ℤ one.old.volume }
{
    one.amount = settling.amount(one.volume).unwrap();
}

// Whether every running total of the line is within its limit.
fn totals_within(line: &[Reconciled], price: Price) -> Result<(), Fault>
    ensures { Decided (totals_refusal (pos 0) line.now) result (λ _. Unit {0}) }
{
    let mut settling = Settling::new(price);
    for one in line {
        settling.amount(one.volume)?;
    }
    Ok(())
}

// Gives every volume of a line its amount. A running total beyond its limit is refused, and the line stays as it was.
pub fn amounts(line: &mut [Reconciled], price: Price) -> Result<(), Fault>
    ensures answer { Decided (totals_refusal (pos 0) line.old) result (λ _. Settles price.cents line.old line.new) }
    ensures same { elim result [ Ok _ ↦ Unit {0} | Err e ↦ line.new ≡ line.old ] }
{
    totals_within(line, price)?;
    price_line(line, price);
    Ok(())
}

// Gives every volume its amount, where every running total is within its limit.
fn price_line(line: &mut [Reconciled], price: Price)
    requires { totals_refusal (pos 0) line.old ≡ None }
    ensures { Settles price.cents line.old line.new }
{
    let mut settling = Settling::new(price);
    for one in line.iter_mut() {
        price_one(one, &mut settling);
    }
}
