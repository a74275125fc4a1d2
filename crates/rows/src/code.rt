// The check digit of a connection's code.
ghost use Rattle.std.specs.Prelude.{◌≡◌, true};
ghost use Rattle.rows.specs.Connections.{bad_code, digit_weights, weighted_digits};
ghost use Rattle.rows.specs.Metering.{small_weights};

// A code has at most eighteen digits.
const CODES_END: u64 = 1_000_000_000_000_000_000;

// What the first of eighteen digits counts.
const FIRST_DIGIT: u64 = 100_000_000_000_000_000;

// The weights of the first seventeen digits, from the left.
const WEIGHTS: [u64; 17] = [3, 1, 3, 1, 3, 1, 3, 1, 3, 1, 3, 1, 3, 1, 3, 1, 3];

// The digits of a code times their weights, and the last digit as it is.
fn weighted_by(weights: &[u64; 17], code: u64) -> u64
    requires { small_weights weights.now ≡ true }
    ensures { result ≡ weighted_digits weights.now code }
{
    let mut sum = 0;
    let mut unit = FIRST_DIGIT;
    for weight in weights {
        sum += *weight * (code / unit % 10);
        unit /= 10;
    }
    sum + code % 10
}

// The digits of a code times the weights of a code. Tried as one function with the loop: with the seventeen numbers in its goal the check does not find the step.
fn weighted_digits(code: u64) -> u64
    ensures { result ≡ weighted_digits digit_weights code }
{
    weighted_by(&WEIGHTS, code)
}

// Whether a number is no connection code: 0, too long, or its check digit wrong.
pub fn bad_code(code: u64) -> bool
    ensures { result ≡ bad_code code }
{
    code == 0 || code >= CODES_END || weighted_digits(code) % 10 != 0
}
