// Square roots.
ghost use Rattle.std.specs.Prelude.{◌≡◌, ◌<◌, ◌≤◌, ◌^◌, ◌*◌, pos, ◌≤ℤ◌, ◌<ℤ◌, unsigned_abs};
ghost use Rattle.fixed_math.specs.Fixed.{IsRaw, sqrt};
ghost use Rattle.fixed_math.specs.Root.{isqrt};

use crate::fine::{Fine, fine_inverse};
use crate::quotient::lies_within;
use crate::tables::INVERSE_ROOTS;

/// The root of a number of 64 bits.
#[inline(always)]
#[tactic(auto, using(crate::proofs::Roots::root_small))]
pub(crate) fn isqrt(n: u64) -> u64
    ensures value { result ≡ isqrt n }
    ensures small { result < 2 ^ 32 }
{
    fixed_math::isqrt(n as u128) as u64
}

// About a root, and about 2^31 over it, which has its first bit brought to the top of 32 for that: of any quality, since what
// uses them tests them.
#[derive(Clone, Copy)]
struct NearRoot {
    root: u64,
    inverse: u64,
    zeros: u32,
    ghost small: { root < 2 ^ 32 },
}

// A guess by two steps of Newton's from a table.
#[inline(always)]
fn near_root(n: u64) -> NearRoot {
    let zeros = n.leading_zeros() & 62;
    let top = n << zeros;
    let x = top >> 32;
    let first = INVERSE_ROOTS[(top >> 55) as usize] as u64;
    let e = 844424930131968u64.wrapping_sub(x.wrapping_mul(first * first) >> 2);
    let second = first.wrapping_mul(e) >> 28;
    let e = 13835058055282163712u64.wrapping_sub(x.wrapping_mul(second.wrapping_mul(second) >> 30));
    let inverse = second.wrapping_mul(e >> 32) >> 30;
    NearRoot {
        root: ((x.wrapping_mul(inverse) >> 31) & 4294967295) >> (zeros / 2),
        inverse,
        zeros: zeros / 2,
    }
}

// The root, at once where `r` is at most one off.
#[inline(always)]
#[tactic(auto, using(fixed_math::proofs::Root::isqrt_is, fixed_math::proofs::Root::root_below, crate::proofs::Roots::root_small, crate::proofs::Roots::room_of_square))]
fn settled(n: u64, r: u64) -> u64
    requires { r < 2 ^ 32 }
    ensures value { result ≡ isqrt n }
    ensures small { result < 2 ^ 32 }
{
    let square = r * r;
    if lies_within(n, square, 2 * r + 1) {
        return r;
    }
    if square <= n {
        if n - square - 2 * r <= 2 * r + 3 {
            return r + 1;
        }
    } else if square - n <= 2 * r - 1 {
        return r - 1;
    }
    isqrt(n)
}

/// A root with its inverse.
#[derive(Clone, Copy)]
pub(crate) struct Root {
    pub(crate) root: u64,
    pub(crate) by: Fine,
}

/// The root of a number of 64 bits, and its inverse, which costs little beside it.
#[inline(always)]
pub(crate) fn root_of(n: u64) -> Root
    ensures value { result.root ≡ isqrt n }
    ensures small { result.root < 2 ^ 32 }
{
    let guess = near_root(n);
    let root = settled(n, guess.root);
    Root {
        root,
        by: fine_inverse(root, guess.inverse, guess.zeros),
    }
}

// The number, and 0 where it isn't above 0: with no branch the roots of a row go side by side.
#[inline(always)]
fn above(a: i32) -> u64
    ensures value { (a ≤ℤ pos 0 → result ≡ 0) × (pos 0 <ℤ a → result ≡ unsigned_abs a) }
    ensures bound { result < 2 ^ 31 }
{
    a.max(0) as u64
}

/// The square root, rounded down; 0 for a number that isn't above 0.
#[inline(always)]
pub fn sqrt(a: i32) -> i32
    ensures value { result ≡ sqrt a }
    ensures raw { IsRaw result }
{
    isqrt(above(a) * 65536) as i32
}
