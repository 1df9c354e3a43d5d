// Rows and columns of three control points, by the weights of a quarter of a circle.
ghost use Rattle.std.specs.Prelude.{◌≡◌, ◌≤◌, ◌<◌, ◌*◌, ◌+◌, ◌^◌, ℕ, List, [], ◌∷◌, length, pos, ◌*ℤ◌, unsigned_abs, slice_index_or};
ghost use Rattle.fixed_math.specs.Axes.{part_of, origin};
ghost use Rattle.fixed_math.specs.Blossom.{blossom};
ghost use Rattle.patches.specs.Nets.{control};
ghost use Rattle.quadrics.specs.Rational.{quarter};
ghost use Rattle.patches.specs.RationalCurves.{turn_at};
ghost use Rattle.quadrics.specs.QuadricSlopes.{same, meet_at, off_pole as off_pole_of};

use crate::quotient::{Pair, blossom_2};
use fixed_math::{Axis, Vec3, scaled};
use patches::Quadratic;

/// A coordinate of control point `k`.
pub(crate) fn control_at(points: &[Vec3], axis: Axis, k: usize) -> i128
    requires { k < length points.now }
    ensures value { result ≡ part_of axis (slice_index_or points.now k origin) }
    ensures bound { unsigned_abs result ≤ 2 ^ 31 }
{
    points[k].part(axis).raw() as i128
}

/// The blossom along u of row `j` of the control points, each times its weight.
pub(crate) fn row(points: &[Vec3], axis: Axis, j: usize, us: Pair) -> i128
    requires row { j ≤ 2 }
    requires there { 3 * j + 2 < length points.now }
    ensures value { result ≡ blossom (us.first ∷ us.second ∷ []) (λ x. pos (quarter x) *ℤ control 3 points.now axis x j) 0 }
    ensures bound { unsigned_abs result ≤ 2 ^ 56 }
{
    let a = control_at(points, axis, 3 * j);
    let b = control_at(points, axis, 3 * j + 1);
    let c = control_at(points, axis, 3 * j + 2);
    let twice = scaled(2, c);
    blossom_2(us, a, b, twice)
}

/// The value at `v` of column `k` of three rows of control points, each times its weight.
pub(crate) fn column(points: &[Vec3], axis: Axis, k: usize, v: u16) -> i128
    requires column { k ≤ 2 }
    requires there { k + 6 < length points.now }
    requires from_zero { v ≤ 4096 }
    ensures value { result ≡ blossom (v ∷ v ∷ []) (λ y. pos (quarter y) *ℤ control 3 points.now axis k y) 0 }
    ensures bound { unsigned_abs result ≤ 2 ^ 56 }
{
    let a = control_at(points, axis, k);
    let b = control_at(points, axis, 3 + k);
    let c = control_at(points, axis, 6 + k);
    let twice = scaled(2, c);
    blossom_2(Pair::equal(v), a, b, twice)
}

/// The numerator at `v` of the derivative of that column over its denominator.
pub(crate) fn turn(points: &[Vec3], axis: Axis, k: usize, v: u16) -> i128
    requires column { k ≤ 2 }
    requires there { k + 6 < length points.now }
    requires from_zero { v ≤ 4096 }
    ensures value { result ≡ pos (2 ^ 24) *ℤ turn_at v (λ y. pos (quarter y) *ℤ control 3 points.now axis k y) }
    ensures bound { unsigned_abs result ≤ 2 ^ 85 }
{
    let a = control_at(points, axis, k);
    let b = control_at(points, axis, 3 + k);
    let c = control_at(points, axis, 6 + k);
    let twice = scaled(2, c);
    let turn = Quadratic::of_turn(a, b, twice);
    turn.value(v)
}

fn is_same(p: Vec3, q: Vec3) -> bool
    ensures { result ≡ same p q }
{
    p.x.raw() == q.x.raw() && p.y.raw() == q.y.raw() && p.z.raw() == q.z.raw()
}

/// Whether the three points from place `k` on are one point.
fn is_met_at(points: &[Vec3], k: usize) -> bool
    requires near { k ≤ 6 }
    requires there { k + 2 < length points.now }
    ensures { result ≡ meet_at points.now k }
{
    is_same(points[k], points[k + 1]) && is_same(points[k + 1], points[k + 2])
}

/// The parameter that stands for `v` in a slope along u: 1/2 at an end of v whose row is one point. The last row starts at place `k`.
pub(crate) fn off_pole(points: &[Vec3], k: usize, v: u16) -> u16
    requires near { k ≤ 6 }
    requires there { k + 2 < length points.now }
    requires from_zero { v ≤ 4096 }
    ensures value { result ≡ off_pole_of points.now k v }
    ensures bound { result ≤ 4096 }
{
    if (v == 0 && is_met_at(points, 0)) || (v == 4096 && is_met_at(points, k)) {
        2048
    } else {
        v
    }
}
