// Parametric surfaces, with their laws.
ghost use Rattle.std.specs.Prelude.{◌≡◌, ◌≤◌, ◌<◌, ◌%◌, ◌^◌, ℕ, ℤ, List, [], ◌∷◌, length, IfSome};
ghost use Rattle.fixed_math.specs.declared.vec3.Vec3.{Vec3};
ghost use Rattle.fixed_math.specs.Axes.{AreWithin};
ghost use Rattle.patches.specs.Rects.{Rect};
ghost use Rattle.patches.specs.Parts.{rect_of};
ghost use Rattle.patches.specs.Slopes.{AreBelow};
ghost use Rattle.patches.specs.Curves.{IsCurve};
ghost use Rattle.patches.specs.Boxes.{Box, corners, IsOrdered, IsWithin, PointsLieInBoxes, PartsLieInBoxes, NetsHaveRows};

use crate::curve::Curve;
use crate::piece::{Dyadic, Piece};
use arrayvec::ArrayVec;
use fixed_math::Vec3;

/// A parametric surface over u and v from 0 to 1. Its points are raw camera-space coordinates of a magnitude of at most 2^30.
///
/// A point at parameters inside a piece lies in the piece's box, and the box of any part of a piece lies in the box of the whole.
pub trait Surface {
    ghost point_of: { Self → ℕ → ℕ → Vec3 };

    ghost du_of: { Self → ℕ → ℕ → List ℤ };

    ghost dv_of: { Self → ℕ → ℕ → List ℤ };

    ghost net_of: { Self → Rect → List Vec3 };

    ghost width_of: { Self → ℕ };

    ghost box_in: { Self → Rect → Box };

    /// The point at `u` and `v`.
    fn point(&self, u: Dyadic, v: Dyadic) -> Vec3
        ensures value { result ≡ point_of self.now u v }
        ensures small { IsWithin (2 ^ 30) result };

    /// The partial derivative along u, per unit of the parameter: each coordinate raw and rounded down once.
    fn du_at(&self, u: Dyadic, v: Dyadic) -> [i64; 3]
        ensures value { result ≡ du_of self.now u v }
        ensures small { AreBelow (2 ^ 40) result };

    /// The partial derivative along v, per unit of the parameter: each coordinate raw and rounded down once.
    fn dv_at(&self, u: Dyadic, v: Dyadic) -> [i64; 3]
        ensures value { result ≡ dv_of self.now u v }
        ensures small { AreBelow (2 ^ 40) result };

    /// The curve at `v`, by which many points and derivatives are had at a small part of the cost of single ones; none where
    /// the surface isn't polynomial along u, and by default: it is about speed alone.
    fn curve_at(&self, v: Dyadic) -> Option<Curve>
        ensures { IfSome result (λ curve. IsCurve curve (λ u. point_of self.now u v) (λ u. du_of self.now u v) (λ u. dv_of self.now u v)) }
    {
        None
    }

    /// The control points of the surface over a piece, by rows of `net_width` points, u fastest.
    fn net(&self, piece: &Piece) -> ArrayVec<Vec3, 16>
        ensures value { result.items ≡ net_of self.now (rect_of piece.now) }
        ensures some { 0 < length result.items }
        ensures rows { length result.items % width_of self.now ≡ 0 }
        ensures small { AreWithin (2 ^ 30) result.items };

    /// The number of points in a row of a net; it divides the length of each net.
    fn net_width(&self) -> usize
        ensures value { result ≡ width_of self.now }
        ensures some { 1 ≤ result };

    /// The first and the last corner of a box that holds the surface over a piece.
    fn box_of(&self, piece: &Piece) -> [Vec3; 2]
        ensures value { result ≡ corners (box_in self.now (rect_of piece.now)) }
        ensures ordered { IsOrdered (box_in self.now (rect_of piece.now)) }
        ensures small { AreWithin (2 ^ 30) result };

    ghost inside: { PointsLieInBoxes point_of box_in };

    ghost parts: { PartsLieInBoxes box_in };

    ghost rows: { NetsHaveRows width_of net_of };
}
