// The least box of points.
ghost use Rattle.std.specs.Prelude.{◌≡◌, ◌<◌, length};
ghost use Rattle.fixed_math.specs.Axes.{least as least_of, greatest as greatest_of};
ghost use Rattle.patches.specs.Boxes.{least_box, corners};

use fixed_math::{Axis, Num, Vec3};

/// The first and the last corner of the least box that holds the points.
pub(crate) fn box_of_points(points: &[Vec3]) -> [Vec3; 2]
    requires { 0 < length points.now }
    ensures { result ≡ corners (least_box points.now) }
{
    let low = Vec3 {
        x: least(points, Axis::X),
        y: least(points, Axis::Y),
        z: least(points, Axis::Z),
    };
    let high = Vec3 {
        x: greatest(points, Axis::X),
        y: greatest(points, Axis::Y),
        z: greatest(points, Axis::Z),
    };
    [low, high]
}

fn least(points: &[Vec3], axis: Axis) -> Num
    requires { 0 < length points.now }
    ensures { result ≡ least_of axis points.now }
{
    points[1..]
        .iter()
        .fold(points[0].part(axis), |m, q| m.min(q.part(axis)))
}

fn greatest(points: &[Vec3], axis: Axis) -> Num
    requires { 0 < length points.now }
    ensures { result ≡ greatest_of axis points.now }
{
    points[1..]
        .iter()
        .fold(points[0].part(axis), |m, q| m.max(q.part(axis)))
}
