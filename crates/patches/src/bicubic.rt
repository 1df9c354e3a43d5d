// Bicubic patches.
ghost use Rattle.std.specs.Prelude.{◌≡◌, ◌≤◌, ◌<◌, ◌*◌, ◌^◌, ℕ, ℤ, pos, ◌-ℤ◌, ◌*ℤ◌, ◌-◌, List, [], ◌∷◌, length, unsigned_abs, slice_index_or, ◌++◌, ◌+◌, map};
ghost use Rattle.fixed_math.specs.declared.vec3.Vec3.{Vec3};
ghost use Rattle.fixed_math.specs.Axes.{AreWithin, part_of, origin};
ghost use Rattle.fixed_math.specs.Blossom.{denominator, blossom, ends};
ghost use Rattle.fixed_math.specs.Tensor.{blossom_net, weighted_net, weights_3};
ghost use Rattle.fixed_math.specs.Fixed.{sat};
ghost use Rattle.fixed_math.specs.Whole.{floor_by as floor_of};
ghost use Rattle.patches.specs.Boxes.{IsWithin};
ghost use Rattle.patches.specs.BoxLaws.{bicubic_box, bicubic_inside, bicubic_parts, bicubic_rows};
ghost use Rattle.patches.specs.Nets.{control, blossom_point, bicubic_point, bicubic_net, all_ends};
ghost use Rattle.patches.specs.Curves.{value_at, slope_at, IsCurve};
ghost use Rattle.patches.specs.Slopes.{bicubic_du, bicubic_dv, weights_2, steps_u, steps_v, AreBelow};

use crate::blossoms::{Arguments, Column, blossom_3, column_at, ends_of};
use crate::boxes::box_of_points;
use crate::cubic::Cubic;
use crate::curve::{Coordinate, Curve, PolynomialCurve};
use crate::piece::{Dyadic, Piece, Span, span_at};
use crate::surface::Surface;
use arrayvec::ArrayVec;
use fixed_math::{Axis, Num, Vec3, floor_by};
use std::marker::Model;

/// The bicubic patch in Bezier form of sixteen points (RenderMan Interface 3.2, section 5.2, `Patch "bicubic"`), by rows of four,
/// u fastest. Contracts see it as the list of its points.
#[derive(Drop)]
pub struct Bicubic {
    points: [Vec3; 16],
}

impl Model for Bicubic {
    ghost Value = { List Vec3 };

    ghost view = { λ b. b.points };

    ghost invariant = { λ b. AreWithin (2 ^ 30) b.points };
}

impl Bicubic {
    /// The patch of these points, of raw coordinates with a magnitude of at most 2^30.
    pub fn new(p: [Vec3; 16]) -> Bicubic
        requires { AreWithin (2 ^ 30) p }
        ensures { result ≡ p }
    {
        Bicubic { points: p }
    }

    /// The points.
    pub fn points(&self) -> &[Vec3; 16]
        ensures value { result.now ≡ self.now }
        ensures small { AreWithin (2 ^ 30) result.now }
    {
        &self.points
    }
}

/// A coordinate of control point `k`.
fn control_at(points: &[Vec3; 16], axis: Axis, k: usize) -> i64
    requires { k < 16 }
    ensures value { result ≡ part_of axis (slice_index_or points.now k origin) }
    ensures bound { unsigned_abs result ≤ 2 ^ 31 }
{
    points[k].part(axis).raw()
}

/// The blossom along v of column `k` of the control points.
fn column(points: &[Vec3; 16], axis: Axis, k: usize, vs: Arguments) -> i128
    requires { k < 4 }
    ensures value { result ≡ blossom (vs.first ∷ vs.second ∷ vs.third ∷ []) (λ y. control 4 points.now axis k y) 0 }
    ensures bound { unsigned_abs result ≤ 2 ^ 67 }
{
    let a = control_at(points, axis, k);
    let b = control_at(points, axis, 4 + k);
    let c = control_at(points, axis, 8 + k);
    let d = control_at(points, axis, 12 + k);
    blossom_3(vs, a, b, c, d)
}

/// Column `k` of the control points at `v`.
fn column_of(points: &[Vec3; 16], axis: Axis, k: usize, v: u16) -> Column
    requires place { k < 4 }
    requires from_zero { v ≤ 4096 }
    ensures place { result.place ≡ blossom (v ∷ v ∷ v ∷ []) (λ y. control 4 points.now axis k y) 0 }
    ensures rise { result.rise ≡ pos 3 *ℤ blossom (v ∷ v ∷ []) (λ y. steps_v (control 4 points.now axis) k y) 0 }
    ensures place_small { unsigned_abs result.place ≤ 2 ^ 67 }
    ensures rise_small { unsigned_abs result.rise ≤ 2 ^ 67 }
{
    let a = control_at(points, axis, k);
    let b = control_at(points, axis, 4 + k);
    let c = control_at(points, axis, 8 + k);
    let d = control_at(points, axis, 12 + k);
    column_at(v, a, b, c, d)
}

/// A coordinate along the curve at `v`.
fn coordinate_along(points: &[Vec3; 16], axis: Axis, v: u16) -> Coordinate
    requires { v ≤ 4096 }
    ensures place { (u : ℕ) → u ≤ 4096 → value_at result.place u ≡ weighted_net (weights_3 u) (weights_3 v) (control 4 points.now axis) }
    ensures across { (u : ℕ) → u ≤ 4096 → slope_at result.place u ≡ pos 3 *ℤ weighted_net (weights_2 u) (weights_3 v) (steps_u (control 4 points.now axis)) }
    ensures up { (u : ℕ) → u ≤ 4096 → value_at result.rise u ≡ pos 3 *ℤ weighted_net (weights_3 u) (weights_2 v) (steps_v (control 4 points.now axis)) }
{
    let a = column_of(points, axis, 0, v);
    let b = column_of(points, axis, 1, v);
    let c = column_of(points, axis, 2, v);
    let d = column_of(points, axis, 3, v);
    Coordinate {
        place: Cubic::of_control(a.place, b.place, c.place, d.place),
        rise: Cubic::of_control(a.rise, b.rise, c.rise, d.rise),
    }
}

/// A coordinate of four points of a net.
#[derive(Clone, Copy)]
struct Four {
    first: Num,
    second: Num,
    third: Num,
    fourth: Num,
}

/// A number over 4096 six times, rounded down.
fn rounded(exact: i128) -> Num
    ensures { result ≡ sat (floor_of exact (denominator ^ 6)) }
{
    Num::sat(floor_by(exact, 1 << 72))
}

/// A coordinate of the row of the net at `vs`.
fn row_over(points: &[Vec3; 16], axis: Axis, across: Span, vs: Arguments) -> Four
    requires { AreWithin (2 ^ 30) points.now }
    ensures first { result.first ≡ floor_of (blossom_net (across.low ∷ across.low ∷ across.low ∷ []) (vs.first ∷ vs.second ∷ vs.third ∷ []) (control 4 points.now axis)) (denominator ^ 6) }
    ensures second { result.second ≡ floor_of (blossom_net (across.low ∷ across.low ∷ across.high ∷ []) (vs.first ∷ vs.second ∷ vs.third ∷ []) (control 4 points.now axis)) (denominator ^ 6) }
    ensures third { result.third ≡ floor_of (blossom_net (across.low ∷ across.high ∷ across.high ∷ []) (vs.first ∷ vs.second ∷ vs.third ∷ []) (control 4 points.now axis)) (denominator ^ 6) }
    ensures fourth { result.fourth ≡ floor_of (blossom_net (across.high ∷ across.high ∷ across.high ∷ []) (vs.first ∷ vs.second ∷ vs.third ∷ []) (control 4 points.now axis)) (denominator ^ 6) }
{
    let a = column(points, axis, 0, vs);
    let b = column(points, axis, 1, vs);
    let c = column(points, axis, 2, vs);
    let d = column(points, axis, 3, vs);
    let ends = ends_of(across, a, b, c, d);
    Four {
        first: rounded(ends.first),
        second: rounded(ends.second),
        third: rounded(ends.third),
        fourth: rounded(ends.fourth),
    }
}

/// Appends the row of the net at `vs`.
fn push_row(net: &mut ArrayVec<Vec3, 16>, points: &[Vec3; 16], across: Span, vs: Arguments)
    requires room { length net.old.items + 4 ≤ 16 }
    requires small { AreWithin (2 ^ 30) points.now }
    ensures { net.new.items ≡ net.old.items ++ map (λ us. blossom_point 4 (denominator ^ 6) points.now us (vs.first ∷ vs.second ∷ vs.third ∷ [])) (all_ends 3 0 across.low across.high) }
{
    let x = row_over(points, Axis::X, across, vs);
    let y = row_over(points, Axis::Y, across, vs);
    let z = row_over(points, Axis::Z, across, vs);
    net.push(Vec3 {
        x: x.first,
        y: y.first,
        z: z.first,
    });
    net.push(Vec3 {
        x: x.second,
        y: y.second,
        z: z.second,
    });
    net.push(Vec3 {
        x: x.third,
        y: y.third,
        z: z.third,
    });
    net.push(Vec3 {
        x: x.fourth,
        y: y.fourth,
        z: z.fourth,
    });
}

impl Bicubic {
    /// The curve at `v`.
    fn curve(&self, v: Dyadic) -> Curve
        ensures { IsCurve result (λ u. bicubic_point self.now u v) (λ u. bicubic_du self.now u v) (λ u. bicubic_dv self.now u v) }
    {
        let v = v.numerator();
        Curve::Polynomial(PolynomialCurve {
            x: coordinate_along(&self.points, Axis::X, v),
            y: coordinate_along(&self.points, Axis::Y, v),
            z: coordinate_along(&self.points, Axis::Z, v),
        })
    }
}

impl Surface for Bicubic {
    ghost point_of = { bicubic_point };

    ghost du_of = { bicubic_du };

    ghost dv_of = { bicubic_dv };

    ghost net_of = { bicubic_net };

    ghost width_of = { λ _. 4 };

    ghost box_in = { bicubic_box };

    ghost inside = { bicubic_inside };

    ghost parts = { bicubic_parts };

    ghost rows = { bicubic_rows };

    fn point(&self, u: Dyadic, v: Dyadic) -> Vec3 {
        self.curve(v).point(u)
    }

    fn du_at(&self, u: Dyadic, v: Dyadic) -> [i64; 3] {
        self.curve(v).du(u)
    }

    fn dv_at(&self, u: Dyadic, v: Dyadic) -> [i64; 3] {
        self.curve(v).dv(u)
    }

    fn curve_at(&self, v: Dyadic) -> Option<Curve> {
        Some(self.curve(v))
    }

    fn net(&self, piece: &Piece) -> ArrayVec<Vec3, 16> {
        let across = span_at(piece.a, piece.i);
        let up = span_at(piece.b, piece.j);
        let mut net = ArrayVec::new();
        push_row(&mut net, &self.points, across, Arguments::ends(up, 0));
        push_row(&mut net, &self.points, across, Arguments::ends(up, 1));
        push_row(&mut net, &self.points, across, Arguments::ends(up, 2));
        push_row(&mut net, &self.points, across, Arguments::ends(up, 3));
        net
    }

    fn net_width(&self) -> usize {
        4
    }

    fn box_of(&self, piece: &Piece) -> [Vec3; 2] {
        let net = self.net(piece);
        box_of_points(net.as_slice())
    }
}
