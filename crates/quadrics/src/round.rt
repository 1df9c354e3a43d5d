// Patches whose rows and columns are quarters of circles.
ghost use Rattle.std.specs.Prelude.{◌≡◌, ◌≤◌, ◌<◌, ◌*◌, ◌+◌, ◌-◌, ◌^◌, ℕ, ℤ, List, [], ◌∷◌, ◌++◌, map, length, pos, ◌*ℤ◌, unsigned_abs};
ghost use Rattle.fixed_math.specs.declared.vec3.Vec3.{Vec3};
ghost use Rattle.fixed_math.specs.Axes.{AreWithin};
ghost use Rattle.fixed_math.specs.Tensor.{blossom_net, weighted_net};
ghost use Rattle.patches.specs.Boxes.{IsWithin};
ghost use Rattle.patches.specs.Curves.{IsCurve};
ghost use Rattle.patches.specs.RationalCurves.{quadratic_at};
ghost use Rattle.patches.specs.Nets.{control, all_ends};
ghost use Rattle.patches.specs.Slopes.{AreBelow, weights_2};
ghost use Rattle.quadrics.specs.Rational.{quarter, heavy, spread, rational_coordinate, rational_blossom, round_point, round_net};
ghost use Rattle.quadrics.specs.RationalLaws.{round_box, round_inside, round_parts, round_rows};
ghost use Rattle.quadrics.specs.QuadricSlopes.{round_rise_u, round_rise_v, round_du, round_dv};

use crate::quotient::{Pair, blossom_2, quarter_at, under};
use crate::rows::{column, off_pole, row, turn};
use crate::spans::{Span, box_of_points, span_at};
use arrayvec::ArrayVec;
use fixed_math::{Axis, Num, Vec3, floor_by, scaled};
use patches::{
    Curve, Dyadic, Piece, Quadratic, RationalCoordinate, RationalCurve, Surface, factor_at,
};
use std::marker::Model;

/// A patch of a surface of revolution whose rows and columns are quarters of circles: nine control points by rows of three, u fastest,
/// with the weights 1, 1, 2 both ways. Contracts see it as the list of its points.
#[derive(Drop)]
pub struct Round {
    points: [Vec3; 9],
}

impl Model for Round {
    ghost Value = { List Vec3 };

    ghost view = { λ b. b.points };

    ghost invariant = { λ b. AreWithin (2 ^ 30) b.points };
}

impl Round {
    /// The patch of these points, of raw coordinates with a magnitude of at most 2^30.
    pub fn new(p: [Vec3; 9]) -> Round
        requires { AreWithin (2 ^ 30) p }
        ensures { result ≡ p }
    {
        Round { points: p }
    }

    /// The points.
    pub fn points(&self) -> &[Vec3; 9]
        ensures value { result.now ≡ self.now }
        ensures small { AreWithin (2 ^ 30) result.now }
    {
        &self.points
    }
}

/// The numerator of a coordinate by the blossoms at `us` and `vs`.
fn numerator(points: &[Vec3; 9], axis: Axis, us: Pair, vs: Pair) -> i128
    ensures value { result ≡ blossom_net (us.first ∷ us.second ∷ []) (vs.first ∷ vs.second ∷ []) (heavy quarter quarter (control 3 points.now axis)) }
    ensures bound { unsigned_abs result ≤ 2 ^ 81 }
{
    let a = row(points, axis, 0, us);
    let b = row(points, axis, 1, us);
    let c = row(points, axis, 2, us);
    let twice = scaled(2, c);
    blossom_2(vs, a, b, twice)
}

/// The coordinate by the blossoms at `us` and `vs`, rounded down once.
fn coordinate_at(points: &[Vec3; 9], axis: Axis, us: Pair, vs: Pair, denominator: u128) -> Num
    requires small { AreWithin (2 ^ 30) points.now }
    requires under { denominator ≡ spread (us.first ∷ us.second ∷ []) quarter 0 * spread (vs.first ∷ vs.second ∷ []) quarter 0 }
    requires within { denominator ≤ 2 ^ 75 }
    ensures { result ≡ rational_coordinate quarter quarter points.now (us.first ∷ us.second ∷ []) (vs.first ∷ vs.second ∷ []) axis }
{
    Num::sat(floor_by(numerator(points, axis, us, vs), denominator))
}

/// The point by the blossoms at `us` and `vs`.
fn point_at(points: &[Vec3; 9], us: Pair, vs: Pair) -> Vec3
    requires small { AreWithin (2 ^ 30) points.now }
    ensures value { result ≡ rational_blossom quarter quarter points.now (us.first ∷ us.second ∷ []) (vs.first ∷ vs.second ∷ []) }
    ensures small { IsWithin (2 ^ 30) result }
{
    let denominator = under(quarter_at(us) as u128, quarter_at(vs));
    Vec3 {
        x: coordinate_at(points, Axis::X, us, vs, denominator),
        y: coordinate_at(points, Axis::Y, us, vs, denominator),
        z: coordinate_at(points, Axis::Z, us, vs, denominator),
    }
}

/// The numerator of a coordinate's places along the curve at `v`.
fn place(points: &[Vec3; 9], axis: Axis, v: u16) -> Quadratic
    requires { v ≤ 4096 }
    ensures { (u : ℕ) → u ≤ 4096 → quadratic_at result u ≡ weighted_net (weights_2 u) (weights_2 v) (heavy quarter quarter (control 3 points.now axis)) }
{
    let a = column(points, axis, 0, v);
    let b = column(points, axis, 1, v);
    let c = column(points, axis, 2, v);
    let twice = scaled(2, c);
    Quadratic::of_control(a, b, twice)
}

/// The numerator of its slopes along u.
fn across(points: &[Vec3; 9], axis: Axis, v: u16) -> Quadratic
    requires { v ≤ 4096 }
    ensures { (u : ℕ) → u ≤ 4096 → quadratic_at result u ≡ round_rise_u points.now u v axis }
{
    let a = column(points, axis, 0, v);
    let b = column(points, axis, 1, v);
    let c = column(points, axis, 2, v);
    let twice = scaled(2, c);
    Quadratic::of_turn(a, b, twice)
}

/// The numerator of its slopes along v.
fn up(points: &[Vec3; 9], axis: Axis, v: u16) -> Quadratic
    requires { v ≤ 4096 }
    ensures { (u : ℕ) → u ≤ 4096 → quadratic_at result u ≡ round_rise_v points.now u v axis }
{
    let a = turn(points, axis, 0, v);
    let b = turn(points, axis, 1, v);
    let c = turn(points, axis, 2, v);
    let twice = scaled(2, c);
    Quadratic::of_control(a, b, twice)
}

/// A coordinate along the curve at `v`, with the slopes along u of that at `off`.
fn coordinate(points: &[Vec3; 9], axis: Axis, v: u16, off: u16) -> RationalCoordinate
    requires up { v ≤ 4096 }
    requires off { off ≤ 4096 }
    ensures place { (u : ℕ) → u ≤ 4096 → quadratic_at result.place u ≡ weighted_net (weights_2 u) (weights_2 v) (heavy quarter quarter (control 3 points.now axis)) }
    ensures across { (u : ℕ) → u ≤ 4096 → quadratic_at result.across u ≡ round_rise_u points.now u off axis }
    ensures up { (u : ℕ) → u ≤ 4096 → quadratic_at result.up u ≡ round_rise_v points.now u v axis }
{
    RationalCoordinate {
        place: place(points, axis, v),
        across: across(points, axis, off),
        up: up(points, axis, v),
    }
}

impl Round {
    /// The curve at `v`.
    fn curve(&self, v: Dyadic) -> Curve
        ensures { IsCurve result (λ u. round_point self.now u v) (λ u. round_du self.now u v) (λ u. round_dv self.now u v) }
    {
        let v = v.numerator();
        let off = off_pole(&self.points, 6, v);
        let under = factor_at(v);
        let square = under * under;
        Curve::Rational(RationalCurve {
            under,
            across_under: factor_at(off),
            up_under: square,
            x: coordinate(&self.points, Axis::X, v, off),
            y: coordinate(&self.points, Axis::Y, v, off),
            z: coordinate(&self.points, Axis::Z, v, off),
        })
    }
}

/// Appends the row of the net at `vs`.
fn push_row(net: &mut ArrayVec<Vec3, 16>, points: &[Vec3; 9], across: Span, vs: Pair)
    requires room { length net.old.items + 3 ≤ 16 }
    requires small { AreWithin (2 ^ 30) points.now }
    ensures { net.new.items ≡ net.old.items ++ map (λ us. rational_blossom quarter quarter points.now us (vs.first ∷ vs.second ∷ [])) (all_ends 2 0 across.low across.high) }
{
    net.push(point_at(points, Pair::ends(across, 0), vs));
    net.push(point_at(points, Pair::ends(across, 1), vs));
    net.push(point_at(points, Pair::ends(across, 2), vs));
}

impl Surface for Round {
    ghost point_of = { round_point };

    ghost du_of = { round_du };

    ghost dv_of = { round_dv };

    ghost net_of = { round_net };

    ghost width_of = { λ _. 3 };

    ghost box_in = { round_box };

    ghost inside = { round_inside };

    ghost parts = { round_parts };

    ghost rows = { round_rows };

    fn point(&self, u: Dyadic, v: Dyadic) -> Vec3 {
        self.curve(v).point(u)
    }

    fn du_at(&self, u: Dyadic, v: Dyadic) -> [i64; 3] {
        self.curve(v).du(u)
    }

    fn dv_at(&self, u: Dyadic, v: Dyadic) -> [i64; 3] {
        self.curve(v).dv(u)
    }

    fn curve_at(&self, v: Dyadic) -> Option<Curve> {
        Some(self.curve(v))
    }

    fn net(&self, piece: &Piece) -> ArrayVec<Vec3, 16> {
        let across = span_at(piece.a, piece.i);
        let up = span_at(piece.b, piece.j);
        let mut net = ArrayVec::new();
        push_row(&mut net, &self.points, across, Pair::ends(up, 0));
        push_row(&mut net, &self.points, across, Pair::ends(up, 1));
        push_row(&mut net, &self.points, across, Pair::ends(up, 2));
        net
    }

    fn net_width(&self) -> usize {
        3
    }

    fn box_of(&self, piece: &Piece) -> [Vec3; 2] {
        let net = self.net(piece);
        box_of_points(net.as_slice())
    }
}
