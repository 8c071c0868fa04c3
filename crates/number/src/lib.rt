// Numbers that the scores stand on: the square root of a double, correctly rounded, and the leaves that others need.
#![tactic(auto)]

ghost use Rattle.std.specs.Prelude.{◌≡◌, ◌+◌, ◌*◌, ◌/◌, ◌%◌, ◌^◌, ◌<◌, ◌≤◌, false};
ghost use Rattle.std.specs.Float.{binary64};
ghost use Rattle.std.specs.Float.Ieee.{units};
ghost use Rattle.std.specs.Float.Ieee.Scale as Scale;
ghost use Rattle.number.specs.Limits.{exact_limit};
ghost use Rattle.number.specs.Steps as Steps;
ghost use Rattle.number.specs.Root.{nearest_root, root_of};

mod near;
pub mod wide;

use refusal::Refusal;

// 2^52: a double's digits below its leading one stand below this, and it is what the leading one counts.
const LEADING: u64 = 0x10_0000_0000_0000;

// 2^53: up to here every whole number is a double. The second is that double.
pub const EXACT_LIMIT: u64 = 0x20_0000_0000_0000;

pub const EXACT_LIMIT_DOUBLE: f64 = 9007199254740992.0;

// The square root of +0 or of a positive finite number, as IEEE 754 rounds it; anything else is refused.
#[tactic(auto, using(crate::proofs::Doubles::lift_room))]
pub fn root(x: f64) -> Result<f64, Refusal>
    ensures { result ≡ root_of x }
{
    if !finite(x) {
        return Err(Refusal::Value);
    }
    let bits = x.to_bits();
    if bits == 0 {
        return Ok(0.0);
    }
    let field = bits / LEADING;
    let digits = bits % LEADING;
    if field == 0 {
        // no leading digit is meant: the digits are moved up until there is one
        let up = digits.leading_zeros() as u64 - 11;
        return Ok(scaled_root(digits << up, 1022 - up));
    }
    if field < 2047 {
        return Ok(scaled_root(LEADING + digits, field + 1021));
    }
    // the sign is set
    Err(Refusal::Value)
}

// The root of the number whose digits are m, the leading one first, and whose exponent's field is w - 1021. Half of the field's
// distance goes into the root's field, and an odd one leaves a factor of two with m.
#[tactic(auto, using(crate::proofs::Doubles::no_nan))]
fn scaled_root(m: u64, w: u64) -> f64
    requires { (2 ^ 52 ≤ m) × (m < 2 ^ 53) × (w < 3072) }
    ensures { result ≡ units binary64 false (nearest_root 53 (m * 2 ^ (52 + w % 2))) (w / 2) }
{
    let s = near::nearest(m, w % 2);
    f64::from_bits(w / 2 * LEADING + s)
}

// The double that equals n, by one machine conversion.
pub fn exact(n: u64) -> f64
    requires { n ≤ exact_limit }
    ensures { result ≡ Steps.double n }
{
    (n as i64) as f64
}

// The double nearest n, ties to even. Most numbers are exact, which is one conversion of the machine's.
pub fn double(n: u64) -> f64
    ensures { result ≡ Steps.double n }
{
    if n <= EXACT_LIMIT {
        exact(n)
    } else {
        std::num::nearest_u64_to_f64(n)
    }
}

// Neither infinite nor not a number.
pub fn finite(x: f64) -> bool
    ensures { result ≡ Scale.finite x }
{
    x.is_finite()
}
