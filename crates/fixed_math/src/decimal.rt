// A number as it is written, and its values.
ghost use Rattle.std.specs.Prelude.{◌≡◌, ℕ, ◌+◌, ◌*◌, ◌/◌, ◌^◌, ◌<◌, ◌≤◌, ℤ, pos, negsuc, ◌≤ℤ◌, min, unsigned_abs, IfSome};
ghost use Rattle.fixed_math.specs.Decimal.{raw_magnitude, whole_magnitude, nearest, quotient, limited};

use crate::num::Num;

/// A number as it is written: `digits` times ten to `exponent`, with its sign.
#[derive(Debug, Clone, Copy, PartialEq, Eq)]
pub struct Decimal {
    pub negative: bool,
    pub digits: u64,
    pub exponent: i32,
}

#[tactic(auto, using(crate::proofs::Decimals::tens_small, crate::proofs::Decimals::tens_some))]
fn ten_to(k: u32) -> u128
    requires { k ≤ 24 }
    ensures value { result ≡ 10 ^ k }
    ensures low { 1 ≤ result }
    ensures high { result ≤ 10 ^ 24 }
{
    10u128.pow(k)
}

// digits * 65536 * 10^k
fn enlarged(digits: u64, k: u32) -> u128
    requires { k ≤ 4 }
    ensures value { result ≡ digits * 65536 * 10 ^ k }
    ensures small { result < 2 ^ 100 }
{
    digits as u128 * 65536 * ten_to(k)
}

// digits * 65536 / 10^k, rounded to the nearest
fn divided(digits: u64, k: u32) -> u128
    requires { k ≤ 24 }
    ensures value { result ≡ nearest (digits * 65536) (10 ^ k) }
    ensures small { result < 2 ^ 100 }
{
    let top = digits as u128 * 65536;
    let bottom = ten_to(k);
    (2 * top + bottom) / (2 * bottom)
}

// The magnitude as a raw, right up to 2147483647.
fn raw_magnitude(digits: u64, exponent: i32) -> u128
    ensures small { result < 2 ^ 100 }
    ensures value { min (raw_magnitude digits exponent) 2147483647 ≡ min result 2147483647 }
{
    if digits == 0 {
        0
    } else if exponent >= 5 {
        2147483647
    } else if exponent >= 0 {
        enlarged(digits, exponent as u32)
    } else if exponent < -24 {
        0
    } else {
        divided(digits, exponent.unsigned_abs())
    }
}

// The magnitude, where it is within the limit.
fn limited(magnitude: u128) -> Option<u64>
    ensures value { result ≡ limited (Some magnitude) }
    ensures small { IfSome result (λ m. m ≤ 2147483647) }
{
    if magnitude > 2147483647 {
        return None;
    }
    Some(magnitude as u64)
}

// The magnitude of digits / 10^k, where it is whole and within the limit.
fn whole_quotient(digits: u64, k: u32) -> Option<u64>
    requires { k ≤ 19 }
    ensures value { result ≡ limited (quotient digits (10 ^ k)) }
    ensures small { IfSome result (λ m. m ≤ 2147483647) }
{
    let scale = ten_to(k);
    if digits as u128 % scale != 0 {
        return None;
    }
    limited(digits as u128 / scale)
}

// The magnitude, where it is whole and within the limit.
fn whole_magnitude(digits: u64, exponent: i32) -> Option<u64>
    ensures value { result ≡ limited (whole_magnitude digits exponent) }
    ensures small { IfSome result (λ m. m ≤ 2147483647) }
{
    if digits == 0 {
        Some(0)
    } else if exponent >= 10 {
        None
    } else if exponent >= 0 {
        limited(digits as u128 * ten_to(exponent as u32))
    } else if exponent < -19 {
        None
    } else {
        whole_quotient(digits, exponent.unsigned_abs())
    }
}

impl Decimal {
    ghost use Rattle.fixed_math.specs.Decimal.{num, whole};

    /// The number nearest to the value, halves away from zero, saturated: right for every field.
    pub fn num(&self) -> Num
        ensures { result ≡ num self.now }
    {
        let magnitude = raw_magnitude(self.digits, self.exponent) as i128;
        Num::sat(if self.negative { -magnitude } else { magnitude })
    }

    /// The value, where it is a whole number of magnitude at most 2147483647: right for every field.
    pub fn whole(&self) -> Option<i64>
        ensures { result ≡ whole self.now }
    {
        let magnitude = whole_magnitude(self.digits, self.exponent)? as i64;
        Some(if self.negative { -magnitude } else { magnitude })
    }
}
