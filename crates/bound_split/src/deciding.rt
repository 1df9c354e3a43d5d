// The split decision of a piece: its four rules.
ghost use Rattle.std.specs.Prelude.{◌≡◌, ◌≤◌, ◌<◌, ◌%◌, ◌^◌, pos, ◌+ℤ◌, ◌-ℤ◌, ◌≤ℤ◌, int_lt, length};
ghost use Rattle.fixed_math.specs.declared.vec3.Axis.TheVariants.{Z};
ghost use Rattle.fixed_math.specs.Axes.{least, greatest};
ghost use Rattle.bound_split.specs.Decisions.{cell_side, grid_size, by_lengths, by_turns, decision, decision_of, FitsPart};

use crate::lengths::{columns_length, places_of, rows_length};
use crate::splits::Decision;
use fixed_math::{Num, Vec3};
use patches::{Piece, Surface};
use transforms::Camera;

/// The side of a cell of the shading rate, in 1/256 pixel: at least 1/16 pixel.
#[tactic(auto, unfolding(crate::specs::Decisions::cell_side))]
fn cell_side(rate: Num) -> u64
    ensures value { result ≡ cell_side rate }
    ensures bound { result < 2 ^ 24 }
{
    (rate.sqrt().raw() as u64 / 256).max(16)
}

/// The least of 0 to 4 for which 2^p cells of side `side` are as long as `length`.
#[tactic(auto, unfolding(crate::specs::Decisions::grid_size))]
fn grid_size(side: u64, length: u64) -> Option<u8>
    requires { side < 2 ^ 24 }
    ensures { result ≡ grid_size side length }
{
    for p in 0..5 {
        if length <= side << p {
            return Some(p);
        }
    }
    None
}

/// Splits that go by turns, u first, of a piece that is halved `a` and `b` times.
fn by_turns(a: u8, b: u8) -> Decision
    ensures { result ≡ by_turns a b }
{
    if a <= b && a < 8 {
        Decision::SplitU
    } else if b < 8 {
        Decision::SplitV
    } else {
        Decision::Dice { p: 2, q: 2 }
    }
}

/// The decision by the lengths along u and v, of a piece that is halved `a` and `b` times.
#[tactic(auto, unfolding(crate::specs::Decisions::by_lengths))]
fn by_lengths(side: u64, a: u8, b: u8, along_u: u64, along_v: u64) -> Decision
    requires { side < 2 ^ 24 }
    ensures { result ≡ by_lengths side a b along_u along_v }
{
    let p = grid_size(side, along_u);
    let q = grid_size(side, along_v);
    let wants_u = p.is_none() && a < 8;
    let wants_v = q.is_none() && b < 8;
    match (wants_u, wants_v) {
        (true, true) if along_v <= along_u => Decision::SplitU,
        (true, false) => Decision::SplitU,
        (_, true) => Decision::SplitV,
        (false, false) => Decision::Dice {
            p: p.unwrap_or(4),
            q: q.unwrap_or(4),
        },
    }
}

/// The least z of points.
fn least_depth(points: &[Vec3]) -> Num
    requires { 0 < length points.now }
    ensures { result ≡ least Z points.now }
{
    points[1..].iter().fold(points[0].z, |m, q| m.min(q.z))
}

/// The greatest z of points.
fn greatest_depth(points: &[Vec3]) -> Num
    requires { 0 < length points.now }
    ensures { result ≡ greatest Z points.now }
{
    points[1..].iter().fold(points[0].z, |m, q| m.max(q.z))
}

/// Whether all points lie before the near plane, moved towards it or from it by at most `bound`.
fn lies_before(points: &[Vec3], bound: Num, near: Num) -> bool
    requires { 0 < length points.now }
    ensures { result ≡ int_lt (greatest Z points.now +ℤ bound) near }
{
    greatest_depth(points).raw() + bound.raw() < near.raw()
}

/// Whether a point lies before the near plane, or may be moved before it.
fn may_cross(points: &[Vec3], bound: Num, near: Num) -> bool
    requires { 0 < length points.now }
    ensures { result ≡ int_lt (least Z points.now -ℤ bound) near }
{
    least_depth(points).raw() - bound.raw() < near.raw()
}

/// The decision of a piece with the net `points`, in rows of `width`.
#[tactic(auto, unfolding(crate::specs::Decisions::decision))]
fn by_net(
    points: &[Vec3],
    width: usize,
    piece: &Piece,
    camera: &Camera,
    rate: Num,
    bound: Num,
) -> Decision
    requires few { length points.now ≤ 16 }
    requires some { 0 < length points.now }
    requires wide { 1 ≤ width }
    requires rows { length points.now % width ≡ 0 }
    requires low { pos 0 ≤ℤ bound }
    ensures { result ≡ decision camera.now rate bound width points.now piece.now.a piece.now.b }
{
    let near = camera.view().near;
    if lies_before(points, bound, near) {
        return Decision::Dice { p: 0, q: 0 };
    }
    if may_cross(points, bound, near) {
        return by_turns(piece.a, piece.b);
    }
    let places = places_of(camera, points);
    let along_u = rows_length(places.as_slice(), width);
    let along_v = columns_length(places.as_slice(), width);
    by_lengths(cell_side(rate), piece.a, piece.b, along_u, along_v)
}

/// Whether a piece of a surface is split, and along which parameter, or diced, and how finely.
///
/// `rate` is the shading rate in square pixels. `bound` is how far displacement may move the piece's points in camera
/// space, raw 0 to 2^29.
///
/// A piece that lies before the near plane, moved or not, becomes one cell. One that may cross the near plane is
/// split by turns. Any other is diced where at most 16 cells of the shading rate along u, and as many along v, are
/// as long as its control net on the raster; else it is split along the parameter that is too long, or the longer one.
pub fn decide<S: Surface>(s: &S, piece: &Piece, camera: &Camera, rate: Num, bound: Num) -> Decision
    requires low { pos 0 ≤ℤ bound }
    requires high { bound ≤ℤ pos 536870912 }
    ensures value { result ≡ decision_of camera.now rate bound (S.width_of s.now) (S.net_of s.now) piece.now }
    ensures fits { FitsPart result piece.now }
{
    let net = s.net(piece);
    by_net(net.as_slice(), s.net_width(), piece, camera, rate, bound)
}
