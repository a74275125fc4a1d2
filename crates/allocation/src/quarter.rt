// One quarter, whole: its weights added up, its residual found and shared out.
ghost use Rattle.std.specs.Prelude.{◌≡◌, ◌+◌, ◌≤◌, pos, ◌+ℤ◌, ◌-ℤ◌, neg_ℤ, Ok, Err};
ghost use Rattle.allocation.specs.Correction.{profiled};
ghost use Rattle.allocation.specs.Lines.{total, net, posted_residual, residual, shared, divided, priced, weights_refusal, residual_refusal, quarter_refusal, Divides};
ghost use Rattle.allocation.specs.Refusals.{Decided, split_refusal};
ghost use Rattle.allocation.specs.Steps.{Stepped};

use crate::line::{Allocated, Posted, Share, Weights};
use crate::range::{MOST_RESIDUAL, MOST_WEIGHTS, PricedVolume};
use crate::running::profiled;
use crate::split::{Running, Split};
use fault::{Direction, Fault, Limit, Quarter};

impl Share {
    // A weight that has got nothing yet.
    pub fn new(direction: Direction, weight: u64) -> Share
        ensures { result ≡ record { direction = direction; weight = weight; correction = pos 0; volume = pos 0 } }
    {
        Share {
            direction,
            weight,
            correction: 0,
            volume: 0,
        }
    }
}

impl Weights {
    // All offtake weights and all feed-in weights, whatever two numbers these are.
    pub fn new(offtake: u128, feed_in: u128) -> Result<Weights, Fault>
        ensures { Decided (weights_refusal (offtake + feed_in)) result (λ w. (w.total ≡ offtake + feed_in) × (w.net ≡ pos feed_in -ℤ pos offtake)) }
    {
        let most = u128::from(MOST_WEIGHTS);
        if offtake > most || feed_in > most - offtake {
            return Err(Fault::LimitPassed(Limit::Weights));
        }
        Ok(Weights {
            total: (offtake + feed_in) as u64,
            net: feed_in as i64 - offtake as i64,
        })
    }

    // One weight more, which keeps the total within its limit.
    fn counted(self, direction: Direction, weight: u64) -> Result<Weights, Fault>
        ensures { Decided (weights_refusal (self.total + weight)) result (λ n. (n.total ≡ self.total + weight) × (n.net ≡ self.net +ℤ profiled direction weight)) }
    {
        if weight > MOST_WEIGHTS - self.total {
            return Err(Fault::LimitPassed(Limit::Weights));
        }
        Ok(Weights {
            total: self.total + weight,
            net: self.net + profiled(direction, weight),
        })
    }

    // T and V of a line.
    pub fn of(line: &[Share]) -> Result<Weights, Fault>
        ensures { Decided (weights_refusal (total line.now)) result (λ w. (w.total ≡ total line.now) × (w.net ≡ net line.now)) }
    {
        let mut weights = Weights { total: 0, net: 0 };
        for share in line {
            weights = weights.counted(share.direction, share.weight)?;
        }
        Ok(weights)
    }

    // T and R of a quarter, within their limits, with R carried by some weight.
    pub fn split(self, posted: Posted, quarter: Quarter) -> Result<Split, Fault>
        ensures { Decided (split_refusal self.total (posted_residual posted self.net) quarter) result (λ s. (s.total ≡ self.total) × (s.residual ≡ posted_residual posted self.net)) }
    {
        let residual = posted.residual(self.net)?;
        Split::new(self.total, residual, quarter)
    }
}

// What is left, with the other sign, within the limit of a residual.
fn opposite(left: i128) -> Result<i64, Fault>
    ensures { Decided (residual_refusal (neg_ℤ left)) result (λ x. x ≡ neg_ℤ left) }
{
    if left.unsigned_abs() > u128::from(MOST_RESIDUAL) {
        return Err(Fault::LimitPassed(Limit::Residual));
    }
    Ok((-left) as i64)
}

impl Posted {
    // R, for the net V of the weights: what is left of the quarter, with the other sign.
    pub fn residual(self, net: i64) -> Result<i64, Fault>
        ensures { Decided (residual_refusal (posted_residual self net)) result (λ x. x ≡ posted_residual self net) }
    {
        opposite(
            i128::from(self.exchange)
                + i128::from(self.measured)
                + i128::from(net)
                + i128::from(self.losses),
        )
    }
}

// Gives one share its correction.
fn correct_share(share: &mut Share, running: &mut Running)
    requires { running.old.passed + share.old.weight ≤ running.old.split.total }
    ensures after { share.new ≡ shared running.old.split.total running.old.split.residual running.old.passed share.old }
    ensures stepped { Stepped running.old share.old.direction share.old.weight (record { correction = share.new.correction; volume = share.new.volume }) running.new }
{
    let corrected = running.step(share.direction, share.weight);
    share.correction = corrected.correction;
    share.volume = corrected.volume;
}

// Gives every share of the line its correction, and answers D.
fn correct_line(line: &mut [Share], split: Split) -> PricedVolume
    requires { total line.old ≡ split.total }
    ensures after { line.new ≡ divided split.total split.residual 0 line.old }
    ensures value { result.wh ≡ priced line.new }
{
    let mut running = split.start();
    for share in line.iter_mut() {
        correct_share(share, &mut running);
    }
    running.priced()
}

// Gives the line its corrections, and tells what they come to: a divided quarter, for all postings of which the split has the residual.
fn correct_quarter(line: &mut [Share], weights: Weights, split: Split) -> Allocated
    requires { total line.old ≡ split.total }
    ensures { (p : Posted) → weights.net ≡ net line.old → split.residual ≡ residual p line.old → Divides p line.old line.new result }
{
    let priced = correct_line(line, split);
    Allocated {
        net: weights.net,
        split,
        priced,
    }
}

// Divides one quarter. The shares of the line get their corrections and volumes; a refusal leaves the line as it was.
pub fn allocate(line: &mut [Share], posted: Posted, quarter: Quarter) -> Result<Allocated, Fault>
    ensures answer { Decided (quarter_refusal posted line.old quarter) result (λ a. Divides posted line.old line.new a) }
    ensures same { elim result [ Ok a ↦ Unit {0} | Err e ↦ line.new ≡ line.old ] }
{
    let weights = Weights::of(line)?;
    let split = weights.split(posted, quarter)?;
    Ok(correct_quarter(line, weights, split))
}
