// The running split: each weight's correction is what the split has given out after it, less what it had before it.
ghost use Rattle.std.specs.Prelude.{◌≡◌, ◌+◌, ◌≤◌, pos, ◌+ℤ◌, Ok, Err, unsigned_abs};
ghost use Rattle.allocation.specs.Correction.{share, correction_of, profiled, exact, Near};
ghost use Rattle.allocation.specs.Refusals.{Decided, split_refusal, step_refusal, end_refusal};
ghost use Rattle.allocation.specs.Steps.{Stepped, part};

use crate::range::{MOST_RESIDUAL, MOST_WEIGHTS, PricedVolume};
use crate::split::{Corrected, Running, Split};
use fault::{Direction, Fault, Limit, Quarter};

// A weight as a volume that has got nothing: offtake is negative.
pub(crate) fn profiled(direction: Direction, weight: u64) -> i64
    requires { weight ≤ 2000000000 }
    ensures value { result ≡ profiled direction weight }
    ensures bound { unsigned_abs result ≤ weight }
{
    match direction {
        Direction::Offtake => -(weight as i64),
        Direction::FeedIn => weight as i64,
    }
}

// What a weight comes to with its correction.
fn volume_of(direction: Direction, weight: u64, correction: i64) -> i64
    requires few { weight ≤ 2000000000 }
    requires small { unsigned_abs correction ≤ 2000000000 }
    ensures value { result ≡ profiled direction weight +ℤ correction }
    ensures bound { unsigned_abs result ≤ weight + unsigned_abs correction }
{
    profiled(direction, weight) + correction
}

// The total of one direction, with one volume more. Tried as a match that adds to one of two totals: what `step` keeps and promises did not close where the branches meet.
fn gathered(wanted: Direction, total: i64, direction: Direction, volume: i64) -> i64
    requires { unsigned_abs total + unsigned_abs volume ≤ 8000000000 }
    ensures { result ≡ total +ℤ part wanted direction volume }
{
    if direction == wanted {
        total + volume
    } else {
        total
    }
}

impl Split {
    pub fn new(total: u64, residual: i64, quarter: Quarter) -> Result<Split, Fault>
        ensures { Decided (split_refusal total residual quarter) result (λ s. (s.total ≡ total) × (s.residual ≡ residual)) }
    {
        if total > MOST_WEIGHTS {
            return Err(Fault::LimitPassed(Limit::Weights));
        }
        if residual.unsigned_abs() > MOST_RESIDUAL {
            return Err(Fault::LimitPassed(Limit::Residual));
        }
        if total == 0 && residual != 0 {
            return Err(Fault::NothingToShare(quarter));
        }
        Ok(Split { total, residual })
    }

    // F: what the weights up to W carry of the residual.
    fn share(self, passed: u64) -> i64
        requires { passed ≤ self.total }
        ensures value { result ≡ share self.total self.residual passed }
        ensures bound { unsigned_abs result ≤ 2000000000 }
    {
        if self.total == 0 {
            return 0;
        }
        self.residual * passed as i64 / self.total as i64
    }

    // What one weight gains.
    fn gain(self, passed: u64, weight: u64) -> i64
        requires { passed + weight ≤ self.total }
        ensures value { result ≡ correction_of self.total self.residual passed weight }
        ensures bound { unsigned_abs result ≤ 2000000000 }
    {
        self.share(passed + weight) - self.share(passed)
    }

    // The split at the head of the line.
    pub fn start(self) -> Running
        ensures split { result.split ≡ self }
        ensures passed { result.passed ≡ 0 }
        ensures offtake { result.offtake ≡ pos 0 }
        ensures feed_in { result.feed_in ≡ pos 0 }
    {
        Running {
            split: self,
            passed: 0,
            offtake: 0,
            feed_in: 0,
        }
    }
}

impl Running {
    // One weight more of the line, which has it.
    pub(crate) fn step(&mut self, direction: Direction, weight: u64) -> Corrected
        requires { self.old.passed + weight ≤ self.old.split.total }
        ensures stepped { Stepped self.old direction weight result self.new }
        ensures near { Near self.old.split.total result.volume (exact self.old.split.total self.old.split.residual direction weight) }
    {
        let correction = self.split.gain(self.passed, weight);
        let volume = volume_of(direction, weight, correction);
        self.offtake = gathered(Direction::Offtake, self.offtake, direction, volume);
        self.feed_in = gathered(Direction::FeedIn, self.feed_in, direction, volume);
        self.passed += weight;
        Corrected { correction, volume }
    }

    // What one weight more of the line gets; a weight past T is not of this line. Direction and weight are two parameters,
    // since a row has its weights by direction and a pair would only be made for the call.
    pub fn correct(&mut self, direction: Direction, weight: u64) -> Result<Corrected, Fault>
        ensures answer { Decided (step_refusal self.old.split.total self.old.passed weight) result (λ c. Stepped self.old direction weight c self.new) }
        ensures near { elim result [ Ok c ↦ Near self.old.split.total c.volume (exact self.old.split.total self.old.split.residual direction weight) | Err e ↦ self.new ≡ self.old ] }
    {
        if weight > self.split.total - self.passed {
            return Err(Fault::ForeignTables);
        }
        Ok(self.step(direction, weight))
    }

    // The size of all offtake and of all feed-in that the line has got so far.
    pub(crate) fn priced(self) -> PricedVolume
        ensures { result.wh ≡ unsigned_abs self.offtake + unsigned_abs self.feed_in }
    {
        PricedVolume {
            wh: self.offtake.unsigned_abs() + self.feed_in.unsigned_abs(),
        }
    }

    // D, at the end of the line. A line that ends before T is not the one that T was taken from.
    pub fn finish(self) -> Result<PricedVolume, Fault>
        ensures { Decided (end_refusal self.split.total self.passed) result (λ d. d.wh ≡ unsigned_abs self.offtake + unsigned_abs self.feed_in) }
    {
        if self.passed != self.split.total {
            return Err(Fault::ForeignTables);
        }
        Ok(self.priced())
    }
}
