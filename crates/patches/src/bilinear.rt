// Bilinear patches.
ghost use Rattle.std.specs.Prelude.{◌≡◌, ◌≤◌, ◌<◌, ◌*◌, ◌^◌, ℕ, ℤ, pos, ◌*ℤ◌, List, [], ◌∷◌, length, unsigned_abs, slice_index_or};
ghost use Rattle.fixed_math.specs.declared.vec3.Vec3.{Vec3};
ghost use Rattle.fixed_math.specs.Axes.{AreWithin, part_of, origin};
ghost use Rattle.fixed_math.specs.Blossom.{denominator};
ghost use Rattle.fixed_math.specs.Tensor.{blossom_net, weighted_net, weights_1};
ghost use Rattle.fixed_math.specs.Whole.{floor_by as floor_of};
ghost use Rattle.patches.specs.Boxes.{IsWithin};
ghost use Rattle.patches.specs.BoxLaws.{bilinear_box, bilinear_inside, bilinear_parts, bilinear_rows};
ghost use Rattle.patches.specs.Nets.{control, blossom_point, bilinear_point, bilinear_net};
ghost use Rattle.patches.specs.Curves.{value_at, slope_at, IsCurve};
ghost use Rattle.patches.specs.Slopes.{bilinear_du, bilinear_dv, weights_0, steps_u, steps_v, AreBelow};

use crate::boxes::box_of_points;
use crate::cubic::Cubic;
use crate::curve::{Coordinate, Curve, PolynomialCurve};
use crate::mixing::mix_short;
use crate::piece::{Dyadic, Piece, span_at};
use crate::surface::Surface;
use arrayvec::ArrayVec;
use fixed_math::{Axis, Num, Vec3, floor_by, minus};
use std::marker::Model;

/// The bilinear patch of four points (RenderMan Interface 3.2, section 5.2, `Patch "bilinear"`), in the order (0,0), (1,0), (0,1), (1,1)
/// of u and v. Contracts see it as the list of its points.
#[derive(Drop)]
pub struct Bilinear {
    points: [Vec3; 4],
}

impl Model for Bilinear {
    ghost Value = { List Vec3 };

    ghost view = { λ b. b.points };

    ghost invariant = { λ b. AreWithin (2 ^ 30) b.points };
}

impl Bilinear {
    /// The patch of these points, of raw coordinates with a magnitude of at most 2^30.
    pub fn new(p: [Vec3; 4]) -> Bilinear
        requires { AreWithin (2 ^ 30) p }
        ensures { result ≡ p }
    {
        Bilinear { points: p }
    }

    /// The points.
    pub fn points(&self) -> &[Vec3; 4]
        ensures value { result.now ≡ self.now }
        ensures small { AreWithin (2 ^ 30) result.now }
    {
        &self.points
    }
}

/// A coordinate of control point `k`.
fn control_at(points: &[Vec3; 4], axis: Axis, k: usize) -> i64
    requires { k < 4 }
    ensures value { result ≡ part_of axis (slice_index_or points.now k origin) }
    ensures bound { unsigned_abs result ≤ 2 ^ 31 }
{
    points[k].part(axis).raw()
}

/// The coordinate at `u` and `v`, times 4096 twice.
fn exact(points: &[Vec3; 4], axis: Axis, u: u16, v: u16) -> i64
    requires across { u ≤ 4096 }
    requires up { v ≤ 4096 }
    ensures value { result ≡ blossom_net (u ∷ []) (v ∷ []) (control 2 points.now axis) }
    ensures bound { unsigned_abs result ≤ 2 ^ 55 }
{
    let a = control_at(points, axis, 0);
    let b = control_at(points, axis, 1);
    let c = control_at(points, axis, 2);
    let d = control_at(points, axis, 3);
    let bottom = mix_short(u, a, b);
    let top = mix_short(u, c, d);
    mix_short(v, bottom, top)
}

/// The coordinate at `u` and `v`, rounded down once.
fn coordinate_at(points: &[Vec3; 4], axis: Axis, u: u16, v: u16) -> Num
    requires small { AreWithin (2 ^ 30) points.now }
    requires across { u ≤ 4096 }
    requires up { v ≤ 4096 }
    ensures { result ≡ floor_of (blossom_net (u ∷ []) (v ∷ []) (control 2 points.now axis)) (denominator ^ 2) }
{
    Num::sat(floor_by(exact(points, axis, u, v) as i128, 1 << 24))
}

/// The point at `u` and `v`.
fn point_at(points: &[Vec3; 4], u: u16, v: u16) -> Vec3
    requires small { AreWithin (2 ^ 30) points.now }
    requires across { u ≤ 4096 }
    requires up { v ≤ 4096 }
    ensures value { result ≡ blossom_point 2 (denominator ^ 2) points.now (u ∷ []) (v ∷ []) }
    ensures small { IsWithin (2 ^ 30) result }
{
    Vec3 {
        x: coordinate_at(points, Axis::X, u, v),
        y: coordinate_at(points, Axis::Y, u, v),
        z: coordinate_at(points, Axis::Z, u, v),
    }
}

/// A coordinate along the curve at `v`, over the denominators of a bicubic patch.
fn coordinate_along(points: &[Vec3; 4], axis: Axis, v: u16) -> Coordinate
    requires { v ≤ 4096 }
    ensures place { (u : ℕ) → u ≤ 4096 → value_at result.place u ≡ pos (2 ^ 48) *ℤ weighted_net (weights_1 u) (weights_1 v) (control 2 points.now axis) }
    ensures across { (u : ℕ) → slope_at result.place u ≡ pos (2 ^ 48) *ℤ weighted_net weights_0 (weights_1 v) (steps_u (control 2 points.now axis)) }
    ensures up { (u : ℕ) → u ≤ 4096 → value_at result.rise u ≡ pos (2 ^ 48) *ℤ weighted_net (weights_1 u) weights_0 (steps_v (control 2 points.now axis)) }
{
    let a = control_at(points, axis, 0);
    let b = control_at(points, axis, 1);
    let c = control_at(points, axis, 2);
    let d = control_at(points, axis, 3);
    let left = mix_short(v, a, c);
    let right = mix_short(v, b, d);
    let left_rise = minus(c as i128, a as i128);
    let right_rise = minus(d as i128, b as i128);
    Coordinate {
        place: Cubic::of_ends(left as i128, right as i128),
        rise: Cubic::of_ends(left_rise, right_rise),
    }
}

impl Bilinear {
    /// The curve at `v`.
    fn curve(&self, v: Dyadic) -> Curve
        ensures { IsCurve result (λ u. bilinear_point self.now u v) (λ u. bilinear_du self.now u v) (λ u. bilinear_dv self.now u v) }
    {
        let v = v.numerator();
        Curve::Polynomial(PolynomialCurve {
            x: coordinate_along(&self.points, Axis::X, v),
            y: coordinate_along(&self.points, Axis::Y, v),
            z: coordinate_along(&self.points, Axis::Z, v),
        })
    }
}

impl Surface for Bilinear {
    ghost point_of = { bilinear_point };

    ghost du_of = { bilinear_du };

    ghost dv_of = { bilinear_dv };

    ghost net_of = { bilinear_net };

    ghost width_of = { λ _. 2 };

    ghost box_in = { bilinear_box };

    ghost inside = { bilinear_inside };

    ghost parts = { bilinear_parts };

    ghost rows = { bilinear_rows };

    fn point(&self, u: Dyadic, v: Dyadic) -> Vec3 {
        point_at(&self.points, u.numerator(), v.numerator())
    }

    fn du_at(&self, u: Dyadic, v: Dyadic) -> [i64; 3] {
        self.curve(v).du(u)
    }

    fn dv_at(&self, u: Dyadic, v: Dyadic) -> [i64; 3] {
        self.curve(v).dv(u)
    }

    fn curve_at(&self, v: Dyadic) -> Option<Curve> {
        Some(self.curve(v))
    }

    fn net(&self, piece: &Piece) -> ArrayVec<Vec3, 16> {
        let across = span_at(piece.a, piece.i);
        let up = span_at(piece.b, piece.j);
        let mut net = ArrayVec::new();
        net.push(point_at(&self.points, across.low, up.low));
        net.push(point_at(&self.points, across.high, up.low));
        net.push(point_at(&self.points, across.low, up.high));
        net.push(point_at(&self.points, across.high, up.high));
        net
    }

    fn net_width(&self) -> usize {
        2
    }

    fn box_of(&self, piece: &Piece) -> [Vec3; 2] {
        let net = self.net(piece);
        box_of_points(net.as_slice())
    }
}
