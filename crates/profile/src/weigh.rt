// Weights by any source.
ghost use Rattle.std.specs.Prelude.{◌≡◌, ◌<◌, ◌≤◌, false, IfOk, Err};
ghost use Rattle.fault.specs.declared.cause.Fault.TheVariants.{FractionAbsent};
ghost use Rattle.allocation.specs.Scale.{most_standing};
ghost use Rattle.profile.specs.Places.{covers};
ghost use Rattle.profile.specs.Meanings.{meant, Answers};
ghost use Rattle.profile.specs.Weights.{weight_meant};

use crate::source::ProfileSource;
use allocation::{StandingSum, weight, wide_weight};
use fault::{Fault, Question};

// The weight of a standing sum that no bound keeps small, in Wh. A sum of 0 weighs 0, and the source is not asked.
pub fn wide_weight_by<S: ProfileSource>(
    source: &S,
    question: Question,
    kwh: u64,
) -> Result<u128, Fault>
    ensures value { Answers (λ wh. wh) (weight_meant (meant (S.ProfileSource.means source.now) question) kwh) (FractionAbsent question) result }
    ensures outside { covers (S.ProfileSource.until source.now) question ≡ false → 0 < kwh → result ≡ Err (FractionAbsent question) }
    ensures bound { IfOk result (λ wh. wh ≤ 200000000000000000000) }
    ensures few { IfOk result (λ wh. kwh ≤ most_standing → wh ≤ 100000000000) }
{
    if kwh == 0 {
        return Ok(0);
    }
    Ok(wide_weight(source.fraction(question)?, kwh))
}

// The weight of a group in one direction of a quarter, in Wh: that of its standing sum, in the narrower type that a sum within its limit allows.
// A group whose sum is 0 weighs 0, and the source is not asked. It goes by `weight`, which needs no division of 128 bits.
pub fn weight_by<S: ProfileSource>(
    source: &S,
    question: Question,
    sum: StandingSum,
) -> Result<u64, Fault>
    ensures value { Answers (λ wh. wh) (weight_meant (meant (S.ProfileSource.means source.now) question) sum.kwh) (FractionAbsent question) result }
    ensures outside { covers (S.ProfileSource.until source.now) question ≡ false → 0 < sum.kwh → result ≡ Err (FractionAbsent question) }
    ensures bound { IfOk result (λ wh. wh ≤ 100000000000) }
{
    if sum.kwh() == 0 {
        return Ok(0);
    }
    Ok(weight(source.fraction(question)?, sum))
}
