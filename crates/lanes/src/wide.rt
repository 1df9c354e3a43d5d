// Unit vectors of vectors whose squares pass 64 bits, as exact cross products are.
ghost use Rattle.std.specs.Prelude.{◌≡◌, ℕ, ◌+◌, ◌*◌, ◌/◌, ◌^◌, ◌<◌, ◌≤◌, ℤ, pos, ◌≤ℤ◌, unsigned_abs};
ghost use Rattle.fixed_math.specs.Fixed.{IsRaw};
ghost use Rattle.fixed_math.specs.Root.{isqrt};
ghost use Rattle.fixed_math.specs.Unit.{square, norm, part, unit_part};

use crate::direction::Direction;
use crate::quotient::{Inverse, floor_by_wide, guess, inverse_of};
use crate::root::isqrt;

// About the root: that of the bits from the 32nd on, and one of Newton's steps by an inverse.
#[inline(always)]
fn guess_root(n: u128) -> u64
    requires { n < 2 ^ 94 }
    ensures { result < 2 ^ 49 }
{
    let first = isqrt((n >> 32) as u64) * 65536;
    let low = (n % 18446744073709551616) as u64;
    let rest = low.wrapping_sub(first.wrapping_mul(first));
    first + guess(rest, inverse_of(2 * first)) % 131072
}

// The root, at once where `r` is it or one more.
#[inline(always)]
#[tactic(auto, using(fixed_math::proofs::Root::isqrt_is, fixed_math::proofs::Root::root_below, crate::proofs::Roots::wide_root_small))]
fn settled(n: u128, r: u64) -> u64
    requires n_small { n < 2 ^ 94 }
    requires r_small { r < 2 ^ 49 }
    ensures value { result ≡ isqrt n }
    ensures small { result < 2 ^ 47 }
{
    let square = r as u128 * r as u128;
    let twice = 2 * r as u128;
    if square <= n {
        if n - square <= twice {
            return r;
        }
    } else if square - n < twice {
        return r - 1;
    }
    fixed_math::isqrt(n) as u64
}

#[inline(always)]
#[tactic(auto, using(crate::proofs::Products::square_small))]
fn square(c: i64) -> u128
    requires { unsigned_abs c < 2 ^ 46 }
    ensures value { result ≡ square c }
    ensures bound { result < 2 ^ 92 }
{
    let magnitude = c.unsigned_abs() as u128;
    magnitude * magnitude
}

#[inline(always)]
#[tactic(auto, unfolding(fixed_math::specs::Unit::norm))]
fn norm(x: i64, y: i64, z: i64) -> u64
    requires x { unsigned_abs x < 2 ^ 46 }
    requires y { unsigned_abs y < 2 ^ 46 }
    requires z { unsigned_abs z < 2 ^ 46 }
    ensures value { result ≡ norm x y z }
    ensures bound { result < 2 ^ 47 }
{
    let sum = square(x) + square(y) + square(z);
    settled(sum, guess_root(sum))
}

#[inline(always)]
fn part(c: i64, n: u64, by: Inverse) -> i32
    requires some { 0 < n }
    requires small { unsigned_abs c < 2 ^ 46 }
    requires le { unsigned_abs c ≤ n }
    requires bound { n < 2 ^ 47 }
    ensures value { result ≡ part c n }
    ensures raw { IsRaw result }
{
    floor_by_wide(c * 65536, n, by) as i32
}

/// The unit vector in the direction of a vector of at most 46 bits.
#[inline(always)]
pub fn unit_wide(x: i64, y: i64, z: i64) -> Direction
    requires x { unsigned_abs x < 2 ^ 46 }
    requires y { unsigned_abs y < 2 ^ 46 }
    requires z { unsigned_abs z < 2 ^ 46 }
    ensures x { result.x ≡ unit_part x x y z }
    ensures y { result.y ≡ unit_part y x y z }
    ensures z { result.z ≡ unit_part z x y z }
    ensures raws { IsRaw result.x × IsRaw result.y × IsRaw result.z }
{
    let n = norm(x, y, z);
    if n == 0 {
        return Direction { x: 0, y: 0, z: 0 };
    }
    let by = inverse_of(n);
    Direction {
        x: part(x, n, by),
        y: part(y, n, by),
        z: part(z, n, by),
    }
}
