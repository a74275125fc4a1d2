// Numbers in bytes, highest byte first. Each field is read at the place that its layout says, whatever was read before.
ghost use Rattle.std.specs.Prelude.{◌≡◌, ◌+◌, ◌*◌, ◌^◌, ◌<◌, ◌≤◌, length, take, drop};
ghost use Rattle.record.specs.Number.{big};
ghost use Rattle.record.specs.Format.{width, bits, Fit, Reads};
ghost use Rattle.record.specs.Kinds.{each, four_of};

use crate::field::Held;

// The number that `width` bytes of the body write, from the place `at` on. A loop, since `from_be_bytes` takes eight bytes, into which a narrower field would be copied first.
fn number(body: &[u8], at: usize, width: usize) -> u64
    requires { (at + width ≤ length body.now) × (width ≤ 8) }
    ensures bytes { take width (drop at body.now) ≡ big width result }
    ensures fits { result < 256 ^ width }
{
    let mut n = 0;
    for b in &body[at..at + width] {
        n = n * 256 + u64::from(*b);
    }
    n
}

// The value that stands in the body from the place `at` on.
pub(crate) fn read<T: Held>(body: &[u8], at: usize) -> T
    requires { at + width T.form ≤ length body.now }
    ensures bytes { take (width T.form) (drop at body.now) ≡ big (width T.form) (bits T.form (T.value result)) }
    ensures fits { Fit T.form (T.value result) }
{
    T::of_number(number(body, at, T::width()))
}

// Four values that stand there one after the other, one for each register.
pub(crate) fn read_four<T: Held>(body: &[u8], at: usize) -> [T; 4]
    requires { at + 4 * width T.form ≤ length body.now }
    ensures values { (d : T) → Reads body.now at (each T.form) (four_of T.value d result) }
    ensures registers { length result ≡ 4 }
{
    let width = T::width();
    [
        read(body, at),
        read(body, at + width),
        read(body, at + 2 * width),
        read(body, at + 3 * width),
    ]
}
