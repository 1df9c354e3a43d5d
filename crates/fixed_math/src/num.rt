// The fixed-point number with its sum, product, quotient and root.
ghost use Rattle.std.specs.Prelude.{◌≡◌, ◌≤◌, ℤ, pos, neg_ℤ, ◌≤ℤ◌, unsigned_abs};
ghost use Rattle.fixed_math.specs.Fixed.{sat, IsRaw, add, sub, mul, div, sqrt};

use crate::exact::floor_div_short;
use crate::roots::isqrt_short;
use std::marker::Model;

const LIMIT: i64 = 2147483647;

/// The fixed-point number `raw / 65536`, of raw -2147483647 to 2147483647. Contracts see it as its raw value.
#[derive(Debug, Clone, Copy, PartialEq, Eq, PartialOrd, Ord, Hash)]
pub struct Num {
    raw: i64,
}

impl Model for Num {
    ghost Value = { ℤ };

    ghost view = { λ n. n.raw };

    ghost invariant = { λ n. IsRaw n.raw };

    ghost inverse = { λ z. record { raw = z } };
}

impl Default for Num {
    ghost is_default = { λ n. n ≡ pos 0 };

    /// The number 0.
    fn default() -> Num {
        Num { raw: 0 }
    }
}

impl Num {
    /// The number nearest to the raw value `x`.
    pub fn sat(x: i128) -> Num
        ensures { result ≡ sat x }
    {
        if x < -(LIMIT as i128) {
            Num { raw: -LIMIT }
        } else if x > LIMIT as i128 {
            Num { raw: LIMIT }
        } else {
            Num { raw: x as i64 }
        }
    }

    // The same of a whole number of 64 bits.
    fn cut(x: i64) -> Num
        ensures { result ≡ sat x }
    {
        if x < -LIMIT {
            Num { raw: -LIMIT }
        } else if x > LIMIT {
            Num { raw: LIMIT }
        } else {
            Num { raw: x }
        }
    }

    /// The number of a raw value in range, -2147483647 to 2147483647, where a caller knows that it is: nothing is saturated.
    pub fn from_raw(raw: i64) -> Num
        requires { IsRaw raw }
        ensures { result ≡ raw }
    {
        Num { raw }
    }

    /// The raw value: the number times 65536.
    pub fn raw(self) -> i64
        ensures value { result ≡ self }
        ensures low { neg_ℤ (pos 2147483647) ≤ℤ result }
        ensures high { result ≤ℤ pos 2147483647 }
        ensures size { unsigned_abs result ≤ 2147483647 }
    {
        self.raw
    }

    /// The sum, saturated.
    pub fn add(self, o: Num) -> Num
        ensures { result ≡ add self o }
    {
        Num::cut(self.raw + o.raw)
    }

    /// The difference, saturated.
    pub fn sub(self, o: Num) -> Num
        ensures { result ≡ sub self o }
    {
        Num::cut(self.raw - o.raw)
    }

    /// The number with the other sign.
    pub fn neg(self) -> Num
        ensures { result ≡ neg_ℤ self }
    {
        Num { raw: -self.raw }
    }

    /// The product, rounded down and saturated.
    pub fn mul(self, o: Num) -> Num
        ensures { result ≡ mul self o }
    {
        Num::cut((self.raw * o.raw).div_euclid(65536))
    }

    /// The square root, rounded down; 0 for a number that isn't above 0.
    pub fn sqrt(self) -> Num
        ensures { result ≡ sqrt self }
    {
        if self.raw <= 0 {
            return Num { raw: 0 };
        }
        Num {
            raw: isqrt_short(self.raw as u64 * 65536) as i64,
        }
    }

    /// The quotient, rounded down and saturated; 0 where `o` is 0.
    pub fn div(self, o: Num) -> Num
        ensures { result ≡ div self o }
    {
        if o.raw == 0 {
            return Num { raw: 0 };
        }
        Num::cut(floor_div_short(self.raw * 65536, o.raw))
    }
}
