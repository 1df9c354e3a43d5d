// Unit vectors of vectors whose length is nearly 1, by comparisons alone. Code mostly asks for the unit vector of what has length 1
// already but for the rounding of its parts.
ghost use Rattle.std.specs.Prelude.{◌≡◌, ℕ, ◌+◌, ◌<◌, ◌≤◌, ℤ, pos, ◌≤ℤ◌, true, unsigned_abs};
ghost use Rattle.fixed_math.specs.Fixed.{IsRaw};
ghost use Rattle.fixed_math.specs.Root.{isqrt};
ghost use Rattle.fixed_math.specs.Unit.{norm, part, unit_part};
ghost use Rattle.fixed_math.specs.Whole.{floor_by};
ghost use Rattle.lanes.specs.Directions.{IsNearUnit};

use crate::direction::{Direction, square};
use crate::quotient::lies_within;

/// Whether the length of a vector, rounded down, is from 65534 to 65537.
#[inline(always)]
pub fn is_near_unit(x: i32, y: i32, z: i32) -> bool
    ensures { result ≡ true → IsNearUnit x y z }
{
    lies_within(square(x) + square(y) + square(z), 4294705156, 524288)
}

// The root of what is so much above the square of 65534.
#[inline(always)]
#[tactic(auto, using(crate::proofs::NearUnits::root_0, crate::proofs::NearUnits::root_1, crate::proofs::NearUnits::root_2, crate::proofs::NearUnits::root_3))]
fn root_above(above: u32) -> u32
    requires { above < 524288 }
    ensures value { (s : ℕ) → s ≡ 4294705156 + above → result ≡ isqrt s }
    ensures low { 65534 ≤ result }
    ensures high { result ≤ 65537 }
{
    if above < 131069 {
        65534
    } else if above < 262140 {
        65535
    } else if above < 393213 {
        65536
    } else {
        65537
    }
}

#[inline(always)]
#[tactic(auto, unfolding(fixed_math::specs::Unit::norm))]
fn norm(x: i32, y: i32, z: i32) -> u32
    requires { IsNearUnit x y z }
    ensures value { result ≡ norm x y z }
    ensures low { 65534 ≤ result }
    ensures high { result ≤ 65537 }
{
    root_above((square(x) + square(y) + square(z) - 4294705156) as u32)
}

// The quotient, rounded down, of what is at most twice as far from 0.
#[inline(always)]
#[tactic(auto, using(crate::proofs::NearUnits::quotient_2, crate::proofs::NearUnits::quotient_0, crate::proofs::NearUnits::quotient_below, crate::proofs::NearUnits::quotient_least))]
fn quotient(t: i32, n: i32) -> i32
    requires some { pos 65534 ≤ℤ n }
    requires small { n ≤ℤ pos 65537 }
    requires near { unsigned_abs t ≤ unsigned_abs n + unsigned_abs n }
    ensures value { result ≡ floor_by t (unsigned_abs n) }
    ensures few { unsigned_abs result ≤ 2 }
{
    if t >= n + n {
        2
    } else if t >= n {
        1
    } else if t >= 0 {
        0
    } else if t >= -n {
        -1
    } else {
        -2
    }
}

// 65536 c over n differs from c by the little that n differs from 65536.
#[inline(always)]
fn part(c: i32, n: u32) -> i32
    requires low { 65534 ≤ n }
    requires high { n ≤ 65537 }
    requires le { unsigned_abs c ≤ n }
    ensures value { result ≡ part c n }
    ensures raw { IsRaw result }
{
    let whole = n as i32;
    c + quotient(c * (65536 - whole), whole)
}

/// The unit vector in the direction of a vector whose length is nearly 1.
#[inline(always)]
pub fn near_unit(x: i32, y: i32, z: i32) -> Direction
    requires { IsNearUnit x y z }
    ensures x { result.x ≡ unit_part x x y z }
    ensures y { result.y ≡ unit_part y x y z }
    ensures z { result.z ≡ unit_part z x y z }
    ensures raws { IsRaw result.x × IsRaw result.y × IsRaw result.z }
{
    let n = norm(x, y, z);
    Direction {
        x: part(x, n),
        y: part(y, n),
        z: part(z, n),
    }
}
