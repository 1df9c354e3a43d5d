// Parts of the parameters, and the least box of points.
ghost use Rattle.std.specs.Prelude.{◌≡◌, ◌≤◌, ◌<◌, ◌*◌, ◌+◌, ◌-◌, ◌^◌, length};
ghost use Rattle.fixed_math.specs.Axes.{least as least_of, greatest as greatest_of};
ghost use Rattle.patches.specs.Boxes.{least_box, corners};

use fixed_math::{Axis, Num, Vec3};

/// An interval of parameters, by numerators over 4096.
#[derive(Clone, Copy)]
pub(crate) struct Span {
    pub(crate) low: u16,
    pub(crate) high: u16,
    ghost ordered: { low ≤ high },
    ghost within: { high ≤ 4096 },
}

/// The part `i` of 2^`a` equal ones.
pub(crate) fn span_at(a: u8, i: u16) -> Span
    requires depth { a ≤ 8 }
    requires place { i < 2 ^ a }
    ensures low { result.low ≡ i * 2 ^ (12 - a) }
    ensures high { result.high ≡ (i + 1) * 2 ^ (12 - a) }
{
    let size: u16 = 1 << (12 - a);
    Span {
        low: i * size,
        high: (i + 1) * size,
    }
}

/// The first and the last corner of the least box that holds the points.
pub(crate) fn box_of_points(points: &[Vec3]) -> [Vec3; 2]
    requires { 0 < length points.now }
    ensures { result ≡ corners (least_box points.now) }
{
    let low = Vec3 {
        x: least(points, Axis::X),
        y: least(points, Axis::Y),
        z: least(points, Axis::Z),
    };
    let high = Vec3 {
        x: greatest(points, Axis::X),
        y: greatest(points, Axis::Y),
        z: greatest(points, Axis::Z),
    };
    [low, high]
}

fn least(points: &[Vec3], axis: Axis) -> Num
    requires { 0 < length points.now }
    ensures { result ≡ least_of axis points.now }
{
    points[1..]
        .iter()
        .fold(points[0].part(axis), |m, q| m.min(q.part(axis)))
}

fn greatest(points: &[Vec3], axis: Axis) -> Num
    requires { 0 < length points.now }
    ensures { result ≡ greatest_of axis points.now }
{
    points[1..]
        .iter()
        .fold(points[0].part(axis), |m, q| m.max(q.part(axis)))
}
