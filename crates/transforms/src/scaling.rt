//! Matrices with nothing off the diagonal.
ghost use Rattle.std.specs.Prelude.{◌≡◌, ◌≢◌, ◌≤◌, ◌^◌, ℤ, pos, unsigned_abs, false};
ghost use Rattle.transforms.specs.Matrix.{widened};
ghost use Rattle.transforms.specs.Map.{diagonal, shifted, reciprocal, widened_row, no_shift, differ, is_turned, has_zero};

use crate::matrix::{Matrix, Row, widened};
use fixed_math::{Num, Vec3, Wide, floor_div};

/// An entry that is 0.
fn nothing() -> Wide
    ensures { result ≡ pos 0 }
{
    Wide::from_raw(0)
}

/// The row of no shift.
pub fn no_shift() -> Row
    ensures { result ≡ no_shift }
{
    let zero = nothing();
    Row {
        x: zero,
        y: zero,
        z: zero,
    }
}

/// Whether a factor is 0.
pub fn has_zero(s: &Vec3) -> bool
    ensures value { result ≡ has_zero s.now }
    ensures x { result ≡ false → s.now.x ≢ pos 0 }
    ensures y { result ≡ false → s.now.y ≢ pos 0 }
    ensures z { result ≡ false → s.now.z ≢ pos 0 }
{
    s.x.raw() == 0 || s.y.raw() == 0 || s.z.raw() == 0
}

/// Whether one or three factors are negative.
pub fn is_mirrored(x: Num, y: Num, z: Num) -> bool
    ensures { result ≡ differ (differ (is_turned x) (is_turned y)) (is_turned z) }
{
    ((x.raw() < 0) != (y.raw() < 0)) != (z.raw() < 0)
}

/// The matrix that scales along each axis, and shifts.
pub fn diagonal(a: Wide, b: Wide, c: Wide, shift: Row) -> Matrix
    ensures { result ≡ diagonal a b c shift }
{
    let zero = nothing();
    Matrix {
        x: Row {
            x: a,
            y: zero,
            z: zero,
        },
        y: Row {
            x: zero,
            y: b,
            z: zero,
        },
        z: Row {
            x: zero,
            y: zero,
            z: c,
        },
        shift,
    }
}

/// The row of three raws.
pub fn widened_row(v: &Vec3) -> Row
    ensures value { result ≡ widened_row v.now }
    ensures x { unsigned_abs v.now.x ≤ 2147483647 }
    ensures y { unsigned_abs v.now.y ≤ 2147483647 }
    ensures z { unsigned_abs v.now.z ≤ 2147483647 }
{
    Row {
        x: widened(v.x),
        y: widened(v.y),
        z: widened(v.z),
    }
}

/// The matrix that shifts by `d`.
pub fn shifted(d: Vec3) -> Matrix
    ensures value { result ≡ shifted d.x d.y d.z }
    ensures x { unsigned_abs d.x ≤ 2147483647 }
    ensures y { unsigned_abs d.y ≤ 2147483647 }
    ensures z { unsigned_abs d.z ≤ 2147483647 }
{
    let one = Wide::from_raw(1 << 24);
    diagonal(one, one, one, widened_row(&d))
}

/// The entry of `1 / s`.
pub fn reciprocal(s: Num) -> Wide
    requires { s ≢ pos 0 }
    ensures { result ≡ reciprocal s }
{
    Wide::from_raw(floor_div(1 << 40, s.raw() as i128) as i64)
}
