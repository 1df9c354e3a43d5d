//! Exact arithmetic on whole numbers of at most 126 bits, with a bound on each result.
//!
//! A wide formula is written as a chain of these calls: each result is one exact value with a known size.
ghost use Rattle.std.specs.Prelude.{◌≡◌, ◌≢◌, ◌≤◌, ◌<◌, ◌+◌, ◌*◌, ◌^◌, ℕ, ℤ, pos, ◌+ℤ◌, ◌-ℤ◌, ◌*ℤ◌, unsigned_abs};
ghost use Rattle.fixed_math.specs.Whole.{floor_by, floor_div};

/// The exact sum.
pub fn plus(a: i128, b: i128) -> i128
    requires { unsigned_abs a + unsigned_abs b < 2 ^ 127 }
    ensures value { result ≡ a +ℤ b }
    ensures bound { unsigned_abs result ≤ unsigned_abs a + unsigned_abs b }
{
    a + b
}

/// The exact difference.
pub fn minus(a: i128, b: i128) -> i128
    requires { unsigned_abs a + unsigned_abs b < 2 ^ 127 }
    ensures value { result ≡ a -ℤ b }
    ensures bound { unsigned_abs result ≤ unsigned_abs a + unsigned_abs b }
{
    a - b
}

/// The exact product of a number of at most `A` bits and one of at most `B` bits.
pub fn times<const A: u32, const B: u32>(a: i128, b: i128) -> i128
    requires bits { A + B ≤ 126 }
    requires a_small { unsigned_abs a ≤ 2 ^ A }
    requires b_small { unsigned_abs b ≤ 2 ^ B }
    ensures value { result ≡ a *ℤ b }
    ensures bound { unsigned_abs result ≤ 2 ^ (A + B) }
{
    a * b
}

/// The exact product of a number that isn't negative and one of either sign.
pub fn scaled(p: u128, a: i128) -> i128
    requires fits { p * unsigned_abs a < 2 ^ 127 }
    requires small { p < 2 ^ 127 }
    ensures value { result ≡ pos p *ℤ a }
    ensures size { unsigned_abs result ≡ p * unsigned_abs a }
{
    p as i128 * a
}

/// The greatest whole number not above `z / n`, for a divisor above 0.
#[tactic(auto, using(crate::proofs::Floor::div_euclid_is))]
pub fn floor_by(z: i128, n: u128) -> i128
    requires some { 0 < n }
    requires small { n < 2 ^ 127 }
    ensures value { result ≡ floor_by z n }
    ensures bound { unsigned_abs result ≤ unsigned_abs z }
{
    z.div_euclid(n as i128)
}

/// The greatest whole number not above `a / b`, for a divisor of either sign.
pub fn floor_div(a: i128, b: i128) -> i128
    requires nonzero { b ≢ pos 0 }
    requires fits { unsigned_abs a < 2 ^ 126 }
    requires divisor { unsigned_abs b < 2 ^ 126 }
    ensures { result ≡ floor_div a b }
{
    if b < 0 {
        (-a).div_euclid(-b)
    } else {
        a.div_euclid(b)
    }
}

/// The same of a number of at most 62 bits, and a divisor of as many.
pub(crate) fn floor_div_short(n: i64, d: i64) -> i64
    requires nonzero { d ≢ pos 0 }
    requires fits { unsigned_abs n < 2 ^ 62 }
    requires divisor { unsigned_abs d < 2 ^ 62 }
    ensures { result ≡ floor_div n d }
{
    if d < 0 {
        (-n).div_euclid(-d)
    } else {
        n.div_euclid(d)
    }
}
