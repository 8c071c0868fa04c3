// The whole number nearest a root, in whole numbers of 128 bits.
ghost use Rattle.std.specs.Prelude.{◌≡◌, ◌+◌, ◌-◌, ◌*◌, ◌/◌, ◌^◌, ◌<◌, ◌≤◌};
ghost use Rattle.number.specs.Root.{is_nearest, nearest_root};

use crate::LEADING;

// The whole number nearest the root of m * 2^(52 + odd), which has 53 digits. Only what passes the test is answered: the guess, or,
// since that is one off for about one number in seven, its neighbour on the root's side; should both fail, the root is searched for.
pub fn nearest(m: u64, odd: u64) -> u64
    requires { (2 ^ 52 ≤ m) × (m < 2 ^ 53) × (odd < 2) }
    ensures { (result ≡ nearest_root 53 (m * 2 ^ (52 + odd))) × (2 ^ 52 ≤ result) × (result < 2 ^ 53) }
{
    let n = u128::from(m) << (52 + odd);
    let s = u128::from(guess(m, odd));
    if is_nearest(n, s) {
        return s as u64;
    }
    let t = nearer(n, s);
    if is_nearest(n, t) {
        return t as u64;
    }
    searched(n)
}

// Whether s is the whole number nearest the root of n. There is no branch to foresee.
#[tactic(auto, using(crate::proofs::Squares::squares_fit))]
fn is_nearest(n: u128, s: u128) -> bool
    requires { (0 < s) × (s ≤ 2 ^ 53) }
    ensures { result ≡ is_nearest n s }
{
    let square = s * s;
    (square - s < n) & (n <= square + s)
}

// The neighbour of s on the side of the root of n, or s where that is nearest. There is no branch to foresee.
#[tactic(auto, using(crate::proofs::Squares::squares_fit, crate::proofs::Words::bit_small))]
fn nearer(n: u128, s: u128) -> u128
    requires { (0 < s) × (s < 2 ^ 53) }
    ensures { (s ≤ result + 1) × (result ≤ s + 1) }
{
    let square = s * s;
    s + u128::from(square + s < n) - u128::from(n <= square - s)
}

// A quick guess at the root of m * 2^(52 + odd): the root of m * 2^(odd - 52), from 1 up to 4, in doubles, by Newton's steps on
// its inverse from a first guess that halves the exponent. Nothing is promised but its 53 digits.
#[tactic(auto, using(crate::proofs::Doubles::no_nan))]
fn guess(m: u64, odd: u64) -> u64
    requires { (2 ^ 52 ≤ m) × (m < 2 ^ 53) × (odd < 2) }
    ensures { (2 ^ 52 ≤ result) × (result < 2 ^ 53) }
{
    let bits = (1022 + odd) * LEADING + m;
    let x = f64::from_bits(bits);
    let h = 0.5 * x;
    let y = f64::from_bits(0x5fe6_eb50_c7b5_37a9 - bits / 2);
    let y = newton(h, newton(h, newton(h, y)));
    let s = x * y;
    digits_of(s + 0.5 * y * (x - s * s))
}

// A step towards the inverse of the root of 2h.
fn newton(h: f64, y: f64) -> f64 {
    y * (1.5 - h * y * y)
}

// The 53 digits of a number from 1 up to 2; of any other, some.
fn digits_of(s: f64) -> u64
    ensures { (2 ^ 52 ≤ result) × (result < 2 ^ 53) }
{
    if 1.0 <= s && s < 2.0 {
        s.to_bits() % LEADING + LEADING
    } else {
        LEADING
    }
}

// The whole number nearest the root of n: the last one whose square is at most n, or the next one up.
fn searched(n: u128) -> u64
    requires { n < 4 ^ 53 }
    ensures { result ≡ nearest_root 53 n }
{
    let s = n.isqrt();
    if s * (s + 1) < n {
        (s + 1) as u64
    } else {
        s as u64
    }
}
