//! Rotations.
ghost use Rattle.std.specs.Prelude.{◌≡◌, ◌≤◌, ℤ, pos, unsigned_abs};
ghost use Rattle.transforms.specs.Rotation.{radians, cosine, sine, turning, transposed, unit_of, across, is_nothing};

use crate::matrix::{Matrix, Row, widened};
use fixed_math::{Num, Vec3, Wide, floor_by, unit};

/// An angle in degrees, in radians.
#[tactic(auto, unfolding(crate::specs::Rotation::radians))]
fn radians(angle: Num) -> Num
    ensures { result ≡ radians angle }
{
    Num::sat(floor_by(angle.raw() as i128 * 205887, 11796480))
}

/// The cosine of an angle in degrees, exact at quarter turns.
#[tactic(auto, unfolding(crate::specs::Rotation::cosine))]
fn cosine(angle: Num) -> Num
    ensures { result ≡ cosine angle }
{
    match angle.raw().rem_euclid(23592960) {
        0 => Num::sat(65536),
        5898240 => Num::sat(0),
        11796480 => Num::sat(-65536),
        17694720 => Num::sat(0),
        _ => radians(angle).cos(),
    }
}

/// The sine of an angle in degrees, exact at quarter turns.
#[tactic(auto, unfolding(crate::specs::Rotation::sine))]
fn sine(angle: Num) -> Num
    ensures { result ≡ sine angle }
{
    match angle.raw().rem_euclid(23592960) {
        0 => Num::sat(0),
        5898240 => Num::sat(65536),
        11796480 => Num::sat(0),
        17694720 => Num::sat(-65536),
        _ => radians(angle).sin(),
    }
}

/// The unit vector of an axis.
fn unit_axis(axis: &Vec3) -> Vec3
    ensures { result ≡ unit_of axis.now }
{
    unit([
        axis.x.raw() as i128,
        axis.y.raw() as i128,
        axis.z.raw() as i128,
    ])
}

/// The part of a rotation about the unit vector `k` that its sine has no part in, from two coordinates of `k`.
fn across(c: Num, a: Num, b: Num) -> Num
    ensures { result ≡ across c a b }
{
    Num::sat(65536).sub(c).mul(a.mul(b))
}

/// The rotation about the unit vector `k` by an angle of cosine `c` and sine `s`.
#[tactic(auto, unfolding(crate::specs::Rotation::turning))]
fn turning(c: Num, s: Num, k: &Vec3) -> Matrix
    ensures { result ≡ turning c s k.now }
{
    let zero = Wide::from_raw(0);
    Matrix {
        x: Row {
            x: widened(across(c, k.x, k.x).add(c)),
            y: widened(across(c, k.x, k.y).add(s.mul(k.z))),
            z: widened(across(c, k.x, k.z).sub(s.mul(k.y))),
        },
        y: Row {
            x: widened(across(c, k.y, k.x).sub(s.mul(k.z))),
            y: widened(across(c, k.y, k.y).add(c)),
            z: widened(across(c, k.y, k.z).add(s.mul(k.x))),
        },
        z: Row {
            x: widened(across(c, k.z, k.x).add(s.mul(k.y))),
            y: widened(across(c, k.z, k.y).sub(s.mul(k.x))),
            z: widened(across(c, k.z, k.z).add(c)),
        },
        shift: Row {
            x: zero,
            y: zero,
            z: zero,
        },
    }
}

/// The matrix with rows for columns, and no shift.
pub fn transposed(m: &Matrix) -> Matrix
    ensures { result ≡ transposed m.now }
{
    let zero = Wide::from_raw(0);
    Matrix {
        x: Row {
            x: m.x.x,
            y: m.y.x,
            z: m.z.x,
        },
        y: Row {
            x: m.x.y,
            y: m.y.y,
            z: m.z.y,
        },
        z: Row {
            x: m.x.z,
            y: m.y.z,
            z: m.z.z,
        },
        shift: Row {
            x: zero,
            y: zero,
            z: zero,
        },
    }
}

/// The matrix of a rotation about an axis through the origin.
pub fn turning_by(angle: Num, axis: &Vec3) -> Matrix
    ensures { result ≡ turning (cosine angle) (sine angle) (unit_of axis.now) }
{
    turning(cosine(angle), sine(angle), &unit_axis(axis))
}

/// Whether a vector has no length.
pub fn is_nothing(v: &Vec3) -> bool
    ensures value { result ≡ is_nothing v.now }
    ensures x { unsigned_abs v.now.x ≤ 2147483647 }
    ensures y { unsigned_abs v.now.y ≤ 2147483647 }
    ensures z { unsigned_abs v.now.z ≤ 2147483647 }
{
    let (x, y, z) = (v.x.raw(), v.y.raw(), v.z.raw());
    x == 0 && y == 0 && z == 0
}
