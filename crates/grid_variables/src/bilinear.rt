// The bilinear patch of four triples of any numbers.
ghost use Rattle.std.specs.Prelude.{◌≡◌, ◌≤◌, ◌<◌, ◌*◌, ◌^◌, ℕ, [], ◌∷◌, unsigned_abs, slice_index_or};
ghost use Rattle.fixed_math.specs.Axes.{part_of, origin};
ghost use Rattle.fixed_math.specs.Blossom.{denominator, mix as mix_of};
ghost use Rattle.fixed_math.specs.Tensor.{blossom_net};
ghost use Rattle.fixed_math.specs.Whole.{floor_by as floor_of};
ghost use Rattle.patches.specs.Nets.{control, bilinear_point};

use fixed_math::{Axis, Num, Vec3, floor_by};

/// 4096 times the value at `s`/4096 on the way from `a` to `b`.
fn mix(s: u16, a: i128, b: i128) -> i128
    requires from_zero { s ≤ 4096 }
    requires small_a { unsigned_abs a ≤ 2 ^ 110 }
    requires small_b { unsigned_abs b ≤ 2 ^ 110 }
    ensures value { result ≡ mix_of s a b }
    ensures bound { (r : ℕ) → unsigned_abs a ≤ r → unsigned_abs b ≤ r → unsigned_abs result ≤ 4096 * r }
{
    (4096 - s) as i128 * a + s as i128 * b
}

/// A coordinate of triple `k`.
fn control_at(points: &[Vec3; 4], axis: Axis, k: usize) -> i128
    requires { k < 4 }
    ensures value { result ≡ part_of axis (slice_index_or points.now k origin) }
    ensures bound { unsigned_abs result ≤ 2147483647 }
{
    points[k].part(axis).raw() as i128
}

/// The coordinate at `u` and `v`, times 4096 twice.
fn exact(points: &[Vec3; 4], axis: Axis, u: u16, v: u16) -> i128
    requires across { u ≤ 4096 }
    requires up { v ≤ 4096 }
    ensures value { result ≡ blossom_net (u ∷ []) (v ∷ []) (control 2 points.now axis) }
    ensures bound { unsigned_abs result ≤ 2 ^ 24 * 2147483647 }
{
    let a = control_at(points, axis, 0);
    let b = control_at(points, axis, 1);
    let c = control_at(points, axis, 2);
    let d = control_at(points, axis, 3);
    let bottom = mix(u, a, b);
    let top = mix(u, c, d);
    mix(v, bottom, top)
}

/// The coordinate at `u` and `v`, rounded down once.
fn coordinate_at(points: &[Vec3; 4], axis: Axis, u: u16, v: u16) -> Num
    requires across { u ≤ 4096 }
    requires up { v ≤ 4096 }
    ensures { result ≡ floor_of (blossom_net (u ∷ []) (v ∷ []) (control 2 points.now axis)) (denominator ^ 2) }
{
    Num::sat(floor_by(exact(points, axis, u, v), 1 << 24))
}

/// The triple at `u` and `v`.
pub(crate) fn point_at(points: &[Vec3; 4], u: u16, v: u16) -> Vec3
    requires across { u ≤ 4096 }
    requires up { v ≤ 4096 }
    ensures { result ≡ bilinear_point points.now u v }
{
    Vec3 {
        x: coordinate_at(points, Axis::X, u, v),
        y: coordinate_at(points, Axis::Y, u, v),
        z: coordinate_at(points, Axis::Z, u, v),
    }
}
