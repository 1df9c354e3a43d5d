// Patches of straight lines between two quarters of circles.
ghost use Rattle.std.specs.Prelude.{◌≡◌, ◌≤◌, ◌<◌, ◌*◌, ◌+◌, ◌-◌, ◌^◌, ℕ, ℤ, List, [], ◌∷◌, ◌++◌, map, length, pos, ◌*ℤ◌, unsigned_abs};
ghost use Rattle.fixed_math.specs.declared.vec3.Vec3.{Vec3};
ghost use Rattle.fixed_math.specs.Axes.{AreWithin};
ghost use Rattle.fixed_math.specs.Blossom.{blossom};
ghost use Rattle.fixed_math.specs.Tensor.{blossom_net, weighted_net, weights_1};
ghost use Rattle.fixed_math.specs.Whole.{floor_by as floor_of};
ghost use Rattle.patches.specs.Boxes.{IsWithin};
ghost use Rattle.patches.specs.Curves.{IsCurve};
ghost use Rattle.patches.specs.RationalCurves.{quadratic_at};
ghost use Rattle.patches.specs.Nets.{control, all_ends};
ghost use Rattle.patches.specs.Slopes.{AreBelow, weights_2};
ghost use Rattle.quadrics.specs.Rational.{quarter, even, heavy, spread, rational_blossom, ruled_point, ruled_net};
ghost use Rattle.quadrics.specs.RationalLaws.{gap, ruled_box, ruled_inside, ruled_parts, ruled_rows};
ghost use Rattle.quadrics.specs.QuadricSlopes.{ruled_rise_u, ruled_rise_v, ruled_du, ruled_dv};

use crate::mixing::mix;
use crate::quotient::{Pair, quarter_at, under};
use crate::rows::{control_at, off_pole, row};
use crate::spans::{Span, box_of_points, span_at};
use arrayvec::ArrayVec;
use fixed_math::{Axis, Num, Vec3, floor_by, minus, scaled};
use patches::{Curve, Dyadic, Piece, Quadratic, RationalCoordinate, RationalCurve, Surface};
use std::marker::Model;

/// A patch of a surface of revolution between two quarters of circles: six control points by rows of three, u fastest, with the weights
/// 1, 1, 2 along u and 1, 1 along v. Contracts see it as the list of its points.
#[derive(Drop)]
pub struct Ruled {
    points: [Vec3; 6],
}

impl Model for Ruled {
    ghost Value = { List Vec3 };

    ghost view = { λ b. b.points };

    ghost invariant = { λ b. AreWithin (2 ^ 30) b.points };
}

impl Ruled {
    /// The patch of these points, of raw coordinates with a magnitude of at most 2^30.
    pub fn new(p: [Vec3; 6]) -> Ruled
        requires { AreWithin (2 ^ 30) p }
        ensures { result ≡ p }
    {
        Ruled { points: p }
    }

    /// The points.
    pub fn points(&self) -> &[Vec3; 6]
        ensures value { result.now ≡ self.now }
        ensures small { AreWithin (2 ^ 30) result.now }
    {
        &self.points
    }
}

/// The numerator of a coordinate by the blossoms at `us` and `v`.
fn numerator(points: &[Vec3; 6], axis: Axis, us: Pair, v: u16) -> i128
    requires { v ≤ 4096 }
    ensures value { result ≡ blossom_net (us.first ∷ us.second ∷ []) (v ∷ []) (heavy quarter even (control 3 points.now axis)) }
    ensures bound { unsigned_abs result ≤ 2 ^ 68 }
{
    let a = row(points, axis, 0, us);
    let b = row(points, axis, 1, us);
    mix(v, a, b)
}

/// The coordinate by the blossoms at `us` and `v`, rounded down once.
fn coordinate_at(points: &[Vec3; 6], axis: Axis, us: Pair, v: u16, denominator: u128) -> Num
    requires small { AreWithin (2 ^ 30) points.now }
    requires up { v ≤ 4096 }
    requires under { denominator ≡ spread (us.first ∷ us.second ∷ []) quarter 0 * spread (v ∷ []) even 0 }
    requires within { denominator ≤ 2 ^ 75 }
    ensures { result ≡ floor_of (blossom_net (us.first ∷ us.second ∷ []) (v ∷ []) (heavy quarter even (control 3 points.now axis)))
        (spread (us.first ∷ us.second ∷ []) quarter 0 * spread (v ∷ []) even 0) }
{
    Num::sat(floor_by(numerator(points, axis, us, v), denominator))
}

/// The point by the blossoms at `us` and `v`.
fn point_at(points: &[Vec3; 6], us: Pair, v: u16) -> Vec3
    requires small { AreWithin (2 ^ 30) points.now }
    requires up { v ≤ 4096 }
    ensures value { result ≡ rational_blossom quarter even points.now (us.first ∷ us.second ∷ []) (v ∷ []) }
    ensures small { IsWithin (2 ^ 30) result }
{
    let denominator = under(quarter_at(us) as u128, 4096);
    Vec3 {
        x: coordinate_at(points, Axis::X, us, v, denominator),
        y: coordinate_at(points, Axis::Y, us, v, denominator),
        z: coordinate_at(points, Axis::Z, us, v, denominator),
    }
}

/// The value at `v` of column `k` of the control points.
fn column(points: &[Vec3; 6], axis: Axis, k: usize, v: u16) -> i128
    requires column { k ≤ 2 }
    requires from_zero { v ≤ 4096 }
    ensures value { result ≡ blossom (v ∷ []) (λ y. pos (even y) *ℤ control 3 points.now axis k y) 0 }
    ensures bound { unsigned_abs result ≤ 2 ^ 43 }
{
    let a = control_at(points, axis, k);
    let b = control_at(points, axis, 3 + k);
    mix(v, a, b)
}

/// The rise of that column, times 4096 four times.
fn rise(points: &[Vec3; 6], axis: Axis, k: usize) -> i128
    requires { k ≤ 2 }
    ensures value { result ≡ pos (2 ^ 48) *ℤ gap even (λ y. control 3 points.now axis k y) 0 }
    ensures bound { unsigned_abs result ≤ 2 ^ 80 }
{
    let a = control_at(points, axis, k);
    let b = control_at(points, axis, 3 + k);
    let step = minus(b, a);
    scaled(1 << 48, step)
}

/// The numerator of a coordinate's places along the curve at `v`.
fn place(points: &[Vec3; 6], axis: Axis, v: u16) -> Quadratic
    requires { v ≤ 4096 }
    ensures { (u : ℕ) → u ≤ 4096 → quadratic_at result u ≡ weighted_net (weights_2 u) (weights_1 v) (heavy quarter even (control 3 points.now axis)) }
{
    let a = column(points, axis, 0, v);
    let b = column(points, axis, 1, v);
    let c = column(points, axis, 2, v);
    let twice = scaled(2, c);
    Quadratic::of_control(a, b, twice)
}

/// The numerator of its slopes along u.
fn across(points: &[Vec3; 6], axis: Axis, v: u16) -> Quadratic
    requires { v ≤ 4096 }
    ensures { (u : ℕ) → u ≤ 4096 → quadratic_at result u ≡ ruled_rise_u points.now u v axis }
{
    let a = column(points, axis, 0, v);
    let b = column(points, axis, 1, v);
    let c = column(points, axis, 2, v);
    let twice = scaled(2, c);
    Quadratic::of_turn(a, b, twice)
}

/// The numerator of its slopes along v, times 4096 twice.
fn up(points: &[Vec3; 6], axis: Axis) -> Quadratic
    ensures { (u v : ℕ) → u ≤ 4096 → v ≤ 4096 → quadratic_at result u ≡ pos (2 ^ 24) *ℤ ruled_rise_v points.now u v axis }
{
    let a = rise(points, axis, 0);
    let b = rise(points, axis, 1);
    let c = rise(points, axis, 2);
    let twice = scaled(2, c);
    Quadratic::of_control(a, b, twice)
}

/// A coordinate along the curve at `v`, with the slopes along u of that at `off`.
fn coordinate(points: &[Vec3; 6], axis: Axis, v: u16, off: u16) -> RationalCoordinate
    requires up { v ≤ 4096 }
    requires off { off ≤ 4096 }
    ensures place { (u : ℕ) → u ≤ 4096 → quadratic_at result.place u ≡ weighted_net (weights_2 u) (weights_1 v) (heavy quarter even (control 3 points.now axis)) }
    ensures across { (u : ℕ) → u ≤ 4096 → quadratic_at result.across u ≡ ruled_rise_u points.now u off axis }
    ensures up { (u : ℕ) → u ≤ 4096 → quadratic_at result.up u ≡ pos (2 ^ 24) *ℤ ruled_rise_v points.now u v axis }
{
    RationalCoordinate {
        place: place(points, axis, v),
        across: across(points, axis, off),
        up: up(points, axis),
    }
}

impl Ruled {
    /// The curve at `v`.
    fn curve(&self, v: Dyadic) -> Curve
        ensures { IsCurve result (λ u. ruled_point self.now u v) (λ u. ruled_du self.now u v) (λ u. ruled_dv self.now u v) }
    {
        let v = v.numerator();
        let off = off_pole(&self.points, 3, v);
        Curve::Rational(RationalCurve {
            under: 4096,
            across_under: 4096,
            up_under: 1 << 48,
            x: coordinate(&self.points, Axis::X, v, off),
            y: coordinate(&self.points, Axis::Y, v, off),
            z: coordinate(&self.points, Axis::Z, v, off),
        })
    }
}

/// Appends the row of the net at `v`.
fn push_row(net: &mut ArrayVec<Vec3, 16>, points: &[Vec3; 6], across: Span, v: u16)
    requires room { length net.old.items + 3 ≤ 16 }
    requires small { AreWithin (2 ^ 30) points.now }
    requires up { v ≤ 4096 }
    ensures { net.new.items ≡ net.old.items ++ map (λ us. rational_blossom quarter even points.now us (v ∷ [])) (all_ends 2 0 across.low across.high) }
{
    net.push(point_at(points, Pair::ends(across, 0), v));
    net.push(point_at(points, Pair::ends(across, 1), v));
    net.push(point_at(points, Pair::ends(across, 2), v));
}

impl Surface for Ruled {
    ghost point_of = { ruled_point };

    ghost du_of = { ruled_du };

    ghost dv_of = { ruled_dv };

    ghost net_of = { ruled_net };

    ghost width_of = { λ _. 3 };

    ghost box_in = { ruled_box };

    ghost inside = { ruled_inside };

    ghost parts = { ruled_parts };

    ghost rows = { ruled_rows };

    fn point(&self, u: Dyadic, v: Dyadic) -> Vec3 {
        self.curve(v).point(u)
    }

    fn du_at(&self, u: Dyadic, v: Dyadic) -> [i64; 3] {
        self.curve(v).du(u)
    }

    fn dv_at(&self, u: Dyadic, v: Dyadic) -> [i64; 3] {
        self.curve(v).dv(u)
    }

    fn curve_at(&self, v: Dyadic) -> Option<Curve> {
        Some(self.curve(v))
    }

    fn net(&self, piece: &Piece) -> ArrayVec<Vec3, 16> {
        let across = span_at(piece.a, piece.i);
        let up = span_at(piece.b, piece.j);
        let mut net = ArrayVec::new();
        push_row(&mut net, &self.points, across, up.low);
        push_row(&mut net, &self.points, across, up.high);
        net
    }

    fn net_width(&self) -> usize {
        3
    }

    fn box_of(&self, piece: &Piece) -> [Vec3; 2] {
        let net = self.net(piece);
        box_of_points(net.as_slice())
    }
}
