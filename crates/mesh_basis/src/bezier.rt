// A patch of some basis in Bezier form.
ghost use Rattle.std.specs.Prelude.{◌≡◌, ◌≤◌, ◌<◌, ◌+◌, ◌*◌, ◌^◌, unsigned_abs, IfSome, slice_index_or, option_map, [], ◌++◌};
ghost use Rattle.fixed_math.specs.Axes.{AreWithin, part_of, origin};
ghost use Rattle.patches.specs.Boxes.{IsWithin};
ghost use Rattle.patches.specs.Nets.{control};
ghost use Rattle.mesh_basis.specs.Bases.{AreSmall, across, exact, bezier};
ghost use Rattle.mesh_basis.specs.Ranges.{number_in_range, point_in_range, points_in_range};
ghost use Rattle.mesh_basis.specs.Meshes.{bezier_point, bezier_row, bezier_points, bicubic_of};

use crate::basis::Basis;
use crate::blend::{Weights, blend};
use crate::net::joined;
use crate::range::number_in_range;
use fixed_math::{Axis, Num, Vec3, floor_by};
use patches::{Bicubic, Patch};

/// The bases along u and along v.
#[derive(Clone, Copy)]
pub(crate) struct Bases {
    pub(crate) along_u: Basis,
    pub(crate) along_v: Basis,
}

/// A coordinate of control point `k`.
fn control_at(net: &[Vec3; 16], axis: Axis, k: usize) -> i128
    requires { k < 16 }
    ensures value { result ≡ part_of axis (slice_index_or net.now k origin) }
    ensures bound { unsigned_abs result ≤ 2 ^ 31 }
{
    net[k].part(axis).raw() as i128
}

/// The blend of row `y` of control points.
fn across(net: &[Vec3; 16], axis: Axis, weights: Weights, y: usize) -> i128
    requires row { y < 4 }
    requires small { AreSmall weights }
    ensures value { result ≡ across weights (control 4 net.now axis) y }
    ensures bound { unsigned_abs result ≤ 2 ^ 36 }
{
    let a = control_at(net, axis, 4 * y);
    let b = control_at(net, axis, 4 * y + 1);
    let c = control_at(net, axis, 4 * y + 2);
    let d = control_at(net, axis, 4 * y + 3);
    blend(weights, a, b, c, d)
}

/// A coordinate of the Bezier point in column `x` and row `y`, in sixths of sixths.
fn exact(net: &[Vec3; 16], axis: Axis, bases: Bases, x: usize, y: usize) -> i128
    ensures value { result ≡ exact bases.along_u bases.along_v (control 4 net.now axis) x y }
    ensures bound { unsigned_abs result ≤ 2 ^ 41 }
{
    let weights = bases.along_u.weights(x);
    let a = across(net, axis, weights, 0);
    let b = across(net, axis, weights, 1);
    let c = across(net, axis, weights, 2);
    let d = across(net, axis, weights, 3);
    blend(bases.along_v.weights(y), a, b, c, d)
}

/// A coordinate of the Bezier point in column `x` and row `y`, where it is in range.
fn number(net: &[Vec3; 16], axis: Axis, bases: Bases, x: usize, y: usize) -> Option<Num>
    ensures value { result ≡ number_in_range (bezier bases.along_u bases.along_v (control 4 net.now axis) x y) }
    ensures range { IfSome result (λ n. unsigned_abs n ≤ 2 ^ 30) }
{
    let sum = exact(net, axis, bases, x, y);
    number_in_range(floor_by(sum, 36))
}

/// The Bezier point in column `x` and row `y`, where it is in range.
fn point(net: &[Vec3; 16], bases: Bases, x: usize, y: usize) -> Option<Vec3>
    ensures value { result ≡ point_in_range (bezier_point bases.along_u bases.along_v net.now x y) }
    ensures range { IfSome result (λ p. IsWithin (2 ^ 30) p) }
{
    Some(Vec3 {
        x: number(net, Axis::X, bases, x, y)?,
        y: number(net, Axis::Y, bases, x, y)?,
        z: number(net, Axis::Z, bases, x, y)?,
    })
}

/// Row `y` of the Bezier points, where each is in range.
fn row(net: &[Vec3; 16], bases: Bases, y: usize) -> Option<[Vec3; 4]>
    ensures value { result ≡ points_in_range (bezier_row bases.along_u bases.along_v net.now y) }
    ensures range { IfSome result (λ ps. AreWithin (2 ^ 30) ps) }
{
    Some([
        point(net, bases, 0, y)?,
        point(net, bases, 1, y)?,
        point(net, bases, 2, y)?,
        point(net, bases, 3, y)?,
    ])
}

/// The bicubic patch of sixteen points, where its control points are in range.
pub(crate) fn bicubic_of(net: &[Vec3; 16], bases: Bases) -> Option<Patch>
    ensures { result ≡ bicubic_of bases.along_u bases.along_v net.now }
{
    let a = row(net, bases, 0)?;
    let b = row(net, bases, 1)?;
    let c = row(net, bases, 2)?;
    let d = row(net, bases, 3)?;
    Some(Patch::Bicubic(Bicubic::new(joined(&a, &b, &c, &d))))
}
