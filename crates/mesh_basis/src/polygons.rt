// The pieces of a polygon and its normal.
ghost use Rattle.std.specs.Prelude.{◌≡◌, ◌≤◌, ◌<◌, ◌+◌, ◌-◌, ◌*◌, ◌^◌, ℕ, ℤ, ◌*ℤ◌, ◌-ℤ◌, true, length, unsigned_abs, IfOk, map, slice_index_or};
ghost use Rattle.std.specs.List.{range_with_len};
ghost use Rattle.fixed_math.specs.Axes.{AreWithin, part_of, origin};
ghost use Rattle.patches.specs.Boxes.{IsWithin};
ghost use Rattle.mesh_basis.specs.Ranges.{are_in_range};
ghost use Rattle.mesh_basis.specs.Polygons.{piece_count, piece_corners, point, piece_of, pieces_of, next, after, away, turn, sum_from, turns, direction, flat_normal, polygon_of};
ghost use Rattle.mesh_basis.specs.Answers.{GivesPolygon};

use crate::fault::MeshFault;
use crate::range::are_in_range;
use fixed_math::{Axis, Vec3, minus, plus, times, unit};
use patches::{Bilinear, Patch};
use std::alloc::{AllocError, Global};

/// The places of the points of piece `i` of a polygon of `n` points, in the order of a bilinear patch's corners.
pub fn piece_corners(n: usize, i: usize) -> [usize; 4]
    requires there { i < piece_count n }
    ensures value { result ≡ piece_corners n i }
    ensures within { (k : ℕ) → slice_index_or result k 0 < n }
{
    let k = 2 * i + 1;
    let across = if k + 2 < n { k + 2 } else { k + 1 };
    [0, k, across, k + 1]
}

/// Piece `i` of a polygon whose points are in range.
pub fn piece_of(points: &[Vec3], i: usize) -> Patch
    requires there { i < piece_count (length points.now) }
    requires near { are_in_range points.now ≡ true }
    ensures { result ≡ piece_of points.now i }
{
    let [a, b, c, d] = piece_corners(points.len(), i);
    Patch::Bilinear(Bilinear::new([points[a], points[b], points[c], points[d]]))
}

/// The pieces of a polygon.
fn pieces_of(alloc: Global, points: &[Vec3]) -> Result<Vec<Patch>, AllocError>
    requires near { are_in_range points.now ≡ true }
    ensures { IfOk result (λ v. v.items ≡ pieces_of points.now) }
{
    let mut pieces = Vec::new(alloc);
    for i in 0..points.len().saturating_sub(1) / 2 {
        pieces.push(piece_of(points, i))?;
    }
    Ok(pieces)
}

/// The axis behind an axis, in the order x, y, z, x.
fn next(axis: Axis) -> Axis
    ensures { result ≡ next axis }
{
    match axis {
        Axis::X => Axis::Y,
        Axis::Y => Axis::Z,
        Axis::Z => Axis::X,
    }
}

/// The axis behind the next one.
fn after(axis: Axis) -> Axis
    ensures { result ≡ after axis }
{
    match axis {
        Axis::X => Axis::Z,
        Axis::Y => Axis::X,
        Axis::Z => Axis::Y,
    }
}

/// A coordinate of point `k`.
fn number_at(points: &[Vec3], axis: Axis, k: usize) -> i128
    requires { k < length points.now }
    ensures value { result ≡ part_of axis (point points.now k) }
    ensures bound { unsigned_abs result ≤ 2 ^ 31 }
{
    points[k].part(axis).raw() as i128
}

/// How far point `k` lies from the first one along an axis.
fn away(points: &[Vec3], axis: Axis, k: usize) -> i128
    requires { k < length points.now }
    ensures value { result ≡ away points.now axis k }
    ensures bound { unsigned_abs result ≤ 2 ^ 32 }
{
    let to = number_at(points, axis, k);
    let from = number_at(points, axis, 0);
    minus(to, from)
}

/// A number of the cross product of points `k` and `k + 1` about the first one.
fn turn(points: &[Vec3], axis: Axis, k: usize) -> i128
    requires { k + 1 < length points.now }
    ensures value { result ≡ turn points.now axis k }
    ensures bound { unsigned_abs result ≤ 2 ^ 65 }
{
    let (first, second) = (next(axis), after(axis));
    let left = times::<32, 32>(away(points, first, k), away(points, second, k + 1));
    let right = times::<32, 32>(away(points, second, k), away(points, first, k + 1));
    minus(left, right)
}

/// A number of the sum of the cross products of all neighbours about the first point.
fn turns(points: &[Vec3], axis: Axis) -> i128
    requires some { 3 ≤ length points.now }
    requires few { length points.now ≤ 2 ^ 32 }
    ensures value { result ≡ turns points.now axis }
    ensures bound { unsigned_abs result ≤ 2 ^ 97 }
{
    let mut sum = 0;
    for k in 1..points.len() - 1 {
        sum = plus(sum, turn(points, axis, k));
    }
    sum
}

/// The unit vector of three whole numbers.
#[tactic(auto, unfolding(crate::specs::Polygons::direction))]
fn direction(x: i128, y: i128, z: i128) -> Vec3
    requires x { unsigned_abs x ≤ 2 ^ 97 }
    requires y { unsigned_abs y ≤ 2 ^ 97 }
    requires z { unsigned_abs z ≤ 2 ^ 97 }
    ensures { result ≡ direction x y z }
{
    unit([x, y, z])
}

/// The flat normal of a polygon: the unit of the exact sum of the cross products about its first point.
pub fn flat_normal(points: &[Vec3]) -> Vec3
    requires some { 3 ≤ length points.now }
    requires few { length points.now ≤ 2 ^ 32 }
    ensures { result ≡ flat_normal points.now }
{
    direction(
        turns(points, Axis::X),
        turns(points, Axis::Y),
        turns(points, Axis::Z),
    )
}

/// The pieces of a polygon of these points, in order, and its flat normal.
///
/// The refusals are `G5`, where there are less than three points, else `M7`, where a raw coordinate passes 2^30; else want of
/// memory.
pub fn polygon(alloc: Global, points: &[Vec3]) -> Result<(Vec<Patch>, Vec3), MeshFault>
    requires { length points.now ≤ 2 ^ 32 }
    ensures { GivesPolygon result (polygon_of points.now) }
{
    if points.len() < 3 {
        return Err(MeshFault::G5);
    }
    if !are_in_range(points) {
        return Err(MeshFault::M7);
    }
    let pieces = pieces_of(alloc, points)?;
    Ok((pieces, flat_normal(points)))
}
