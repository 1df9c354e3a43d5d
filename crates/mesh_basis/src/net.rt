// The control points of one patch of a mesh.
ghost use Rattle.std.specs.Prelude.{◌≡◌, ◌≤◌, ◌<◌, ◌+◌, ◌*◌, ◌^◌, length, [], ◌++◌};
ghost use Rattle.fixed_math.specs.Axes.{AreWithin};
ghost use Rattle.patches.specs.Boxes.{IsWithin};
ghost use Rattle.mesh_basis.specs.Meshes.{point_in, corners_in, row_in, rows_in, net_in};

use crate::shape::Shape;
use fixed_math::Vec3;

/// The points of four rows, one behind another.
pub(crate) fn joined(
    first: &[Vec3; 4],
    second: &[Vec3; 4],
    third: &[Vec3; 4],
    fourth: &[Vec3; 4],
) -> [Vec3; 16]
    ensures { result ≡ first.now ++ (second.now ++ (third.now ++ (fourth.now ++ []))) }
{
    let [a, b, c, d] = *first;
    let [e, f, g, h] = *second;
    let [i, j, k, l] = *third;
    let [m, n, o, p] = *fourth;
    [a, b, c, d, e, f, g, h, i, j, k, l, m, n, o, p]
}

/// The point in column `x` and row `y`, which wrap around.
fn point_in(points: &[Vec3], shape: &Shape, x: u64, y: u64) -> Vec3
    requires wide { 0 < shape.now.nu }
    requires high { 0 < shape.now.nv }
    requires len { length points.now ≡ shape.now.nu * shape.now.nv }
    ensures { result ≡ point_in points.now shape.now x y }
{
    let column = (x % shape.nu as u64) as usize;
    let row = (y % shape.nv as u64) as usize;
    points[shape.nu as usize * row + column]
}

/// The control points of the bilinear patch in column `c` and row `d`.
pub(crate) fn corners_in(points: &[Vec3], shape: &Shape, c: u32, d: u32) -> [Vec3; 4]
    requires wide { 0 < shape.now.nu }
    requires high { 0 < shape.now.nv }
    requires len { length points.now ≡ shape.now.nu * shape.now.nv }
    ensures { result ≡ corners_in points.now shape.now c d }
{
    let x = c as u64;
    let y = d as u64;
    [
        point_in(points, shape, x, y),
        point_in(points, shape, x + 1, y),
        point_in(points, shape, x, y + 1),
        point_in(points, shape, x + 1, y + 1),
    ]
}

/// Four points along u from column `x` of row `y` on.
fn row_in(points: &[Vec3], shape: &Shape, x: u64, y: u64) -> [Vec3; 4]
    requires wide { 0 < shape.now.nu }
    requires high { 0 < shape.now.nv }
    requires len { length points.now ≡ shape.now.nu * shape.now.nv }
    requires room { x + 3 < 2 ^ 64 }
    ensures { result ≡ row_in points.now shape.now x y }
{
    [
        point_in(points, shape, x, y),
        point_in(points, shape, x + 1, y),
        point_in(points, shape, x + 2, y),
        point_in(points, shape, x + 3, y),
    ]
}

/// The first column or row of the points of the patch at place `c`.
fn first_of(step: u32, c: u32) -> u64
    ensures value { result ≡ step * c }
    ensures room { result + 3 < 2 ^ 64 }
{
    step as u64 * c as u64
}

/// The sixteen points of the bicubic patch in column `c` and row `d`.
pub(crate) fn net_in(points: &[Vec3], shape: &Shape, c: u32, d: u32) -> [Vec3; 16]
    requires wide { 0 < shape.now.nu }
    requires high { 0 < shape.now.nv }
    requires len { length points.now ≡ shape.now.nu * shape.now.nv }
    ensures { result ≡ net_in points.now shape.now c d }
{
    let x = first_of(shape.step_u, c);
    let y = first_of(shape.step_v, d);
    joined(
        &row_in(points, shape, x, y),
        &row_in(points, shape, x, y + 1),
        &row_in(points, shape, x, y + 2),
        &row_in(points, shape, x, y + 3),
    )
}
