// Numbers as rows hold them.
ghost use Rattle.std.specs.Prelude.{◌≡◌, ℤ, pos};
ghost use Rattle.fixed_math.specs.Fixed.{IsRaw};

use fixed_math::Num;
use std::marker::Model;

/// A number as rows hold it, in 32 bits. Contracts see it as its raw value.
#[derive(Clone, Copy)]
pub struct Raw {
    raw: i32,
}

impl Model for Raw {
    ghost Value = { ℤ };

    ghost view = { λ r. r.raw };

    ghost invariant = { λ r. IsRaw r.raw };

    ghost inverse = { λ z. record { raw = z } };
}

impl Raw {
    /// A number in 32 bits.
    #[inline(always)]
    pub fn of(x: Num) -> Raw
        ensures { result ≡ x }
    {
        Raw {
            raw: x.raw() as i32,
        }
    }

    /// The number 0.
    #[inline(always)]
    pub fn zero() -> Raw
        ensures { result ≡ pos 0 }
    {
        Raw { raw: 0 }
    }

    /// The number of a raw value in 64 bits that is in range.
    #[inline(always)]
    pub fn of_raw(raw: i64) -> Raw
        requires { IsRaw raw }
        ensures { result ≡ raw }
    {
        Raw { raw: raw as i32 }
    }

    /// The raw value in 64 bits.
    #[inline(always)]
    pub fn raw(self) -> i64
        ensures value { result ≡ self }
        ensures raw { IsRaw result }
    {
        self.raw as i64
    }

    // A raw value in range.
    #[inline(always)]
    pub(crate) fn from_bits(raw: i32) -> Raw
        requires { IsRaw raw }
        ensures { result ≡ raw }
    {
        Raw { raw }
    }

    // The raw value.
    #[inline(always)]
    pub(crate) fn bits(self) -> i32
        ensures value { result ≡ self }
        ensures raw { IsRaw result }
    {
        self.raw
    }

    /// The number in its common form. The arm that is never taken tells the compiler the range, so that `sat` has nothing to cut.
    #[inline(always)]
    #[tactic(auto, using(fixed_math::proofs::Sat::sat_of_raw))]
    pub fn number(self) -> Num
        ensures { result ≡ self }
    {
        if self.raw < -2147483647 {
            unreachable!()
        }
        Num::sat(self.raw as i128)
    }
}
