// Unit vectors.
ghost use Rattle.std.specs.Prelude.{◌≡◌, ℕ, ◌+◌, ◌*◌, ◌/◌, ◌^◌, ◌<◌, ◌≤◌, ℤ, pos, ◌≤ℤ◌, unsigned_abs};
ghost use Rattle.fixed_math.specs.Fixed.{IsRaw};
ghost use Rattle.fixed_math.specs.Unit.{square, norm, part, unit_part};
ghost use Rattle.lanes.specs.Directions.{IsFine};

use crate::fine::{Fine, fine_part};
use crate::near::{is_near_unit, near_unit};
use crate::quotient::{Inverse, floor_by, inverse_of};
use crate::root::{Root, root_of};

/// The three parts of a direction.
#[derive(Clone, Copy)]
pub struct Direction {
    pub x: i32,
    pub y: i32,
    pub z: i32,
}

#[inline(always)]
#[tactic(auto, using(crate::proofs::Products::product_small, crate::proofs::Products::square_is))]
pub(crate) fn square(c: i32) -> u64
    ensures value { result ≡ square c }
    ensures bound { result ≤ 4611686018427387904 }
{
    let wide = c as i64;
    (wide * wide) as u64
}

// The length, with its inverse.
#[inline(always)]
#[tactic(auto, unfolding(fixed_math::specs::Unit::norm))]
fn norm_with_inverse(x: i32, y: i32, z: i32) -> Root
    ensures value { result.root ≡ norm x y z }
    ensures bound { result.root < 2 ^ 32 }
{
    root_of(square(x) + square(y) + square(z))
}

#[inline(always)]
fn part(c: i32, n: u64, by: Inverse) -> i32
    requires some { 0 < n }
    requires le { unsigned_abs c ≤ n }
    requires bound { n < 2 ^ 32 }
    ensures value { result ≡ part c n }
    ensures raw { IsRaw result }
{
    floor_by(c as i64 * 65536, n, by) as i32
}

/// The unit vector, where the length and its inverse are at hand.
#[inline(always)]
fn unit_by(x: i32, y: i32, z: i32, n: u64, by: Inverse) -> Direction
    requires length { n ≡ norm x y z }
    requires bound { n < 2 ^ 32 }
    ensures x { result.x ≡ unit_part x x y z }
    ensures y { result.y ≡ unit_part y x y z }
    ensures z { result.z ≡ unit_part z x y z }
    ensures raws { IsRaw result.x × IsRaw result.y × IsRaw result.z }
{
    if n == 0 {
        return Direction { x: 0, y: 0, z: 0 };
    }
    Direction {
        x: part(x, n, by),
        y: part(y, n, by),
        z: part(z, n, by),
    }
}

// The same, where the inverse needs no test.
#[inline(always)]
#[tactic(auto, using(crate::proofs::Inverses::fine_some))]
fn unit_fine(x: i32, y: i32, z: i32, n: u64, by: Fine) -> Direction
    requires length { n ≡ norm x y z }
    requires bound { n < 2 ^ 32 }
    requires fine { IsFine n by.factor by.zeros }
    ensures x { result.x ≡ unit_part x x y z }
    ensures y { result.y ≡ unit_part y x y z }
    ensures z { result.z ≡ unit_part z x y z }
    ensures raws { IsRaw result.x × IsRaw result.y × IsRaw result.z }
{
    Direction {
        x: fine_part(x, n, by),
        y: fine_part(y, n, by),
        z: fine_part(z, n, by),
    }
}

/// The unit vector in the direction of a vector.
#[inline(always)]
pub fn unit(x: i32, y: i32, z: i32) -> Direction
    ensures x { result.x ≡ unit_part x x y z }
    ensures y { result.y ≡ unit_part y x y z }
    ensures z { result.z ≡ unit_part z x y z }
    ensures raws { IsRaw result.x × IsRaw result.y × IsRaw result.z }
{
    if is_near_unit(x, y, z) {
        return near_unit(x, y, z);
    }
    let n = norm_with_inverse(x, y, z);
    if n.by.serves(n.root) {
        unit_fine(x, y, z, n.root, n.by)
    } else {
        unit_by(x, y, z, n.root, inverse_of(n.root))
    }
}
