// Logarithms and powers, by `fixed_math`.
ghost use Rattle.std.specs.Prelude.{◌≡◌};
ghost use Rattle.fixed_math.specs.Fixed.{IsRaw, sat};
ghost use Rattle.fixed_math.specs.Power.{log2, exp2, pow};

use crate::raw::mul;
use fixed_math::Num;

// The number of a raw, and the least one for the word that is none.
#[inline(always)]
fn number(x: i32) -> Num
    ensures { result ≡ sat x }
{
    Num::sat(x as i128)
}

#[inline(always)]
fn raw_of(x: Num) -> i32
    ensures value { result ≡ x }
    ensures raw { IsRaw result }
{
    x.raw() as i32
}

/// The logarithm to the base two, rounded down to sixteen bits; 0 for a number that isn't above 0.
#[inline(always)]
#[tactic(auto, using(crate::proofs::Numbers::log2_sat))]
pub fn log2(x: i32) -> i32
    ensures value { result ≡ log2 x }
    ensures raw { IsRaw result }
{
    raw_of(number(x).log2())
}

/// Two to the power of a number.
#[inline(always)]
#[tactic(auto, using(crate::proofs::Numbers::exp2_sat))]
pub fn exp2(x: i32) -> i32
    ensures value { result ≡ exp2 x }
    ensures raw { IsRaw result }
{
    raw_of(number(x).exp2())
}

/// The power `x^y`: 1 for `y` 0, else 0 for a base that isn't above 0.
#[inline(always)]
#[tactic(auto, unfolding(fixed_math::specs::Power::pow))]
pub fn pow(x: i32, y: i32) -> i32
    ensures value { result ≡ pow x y }
    ensures raw { IsRaw result }
{
    if y == 0 {
        65536
    } else if x <= 0 {
        0
    } else {
        exp2(mul(y, log2(x)))
    }
}
