// A surface that moves, as a surface.
ghost use Rattle.std.specs.Prelude.{◌≡◌};
ghost use Rattle.moving.specs.Closing.{closing_place as place_of};
ghost use Rattle.moving.specs.MovingBoxes.{moving_box};
ghost use Rattle.moving.specs.MovingLaws.{moving_inside, moving_parts, StaysNear};

use crate::boxes::both_boxes;
use crate::closing::closing_place;
use arrayvec::ArrayVec;
use fixed_math::Vec3;
use patches::{Curve, Dyadic, Piece, Surface};

/// A surface that moves while the shutter is open, from an opening surface to a closing one. As a surface it is the opening one,
/// but for its boxes: they hold those of both, and so all that lies between points of one and the other.
#[derive(Drop)]
pub struct Moving<'s, S> {
    pub first: &'s S,
    pub last: &'s S,
}

impl<'s, S: Surface> Moving<'s, S> {
    /// Where the point at `u` and `v` is when the motion ends, if displacement moves the opening surface's point there to `after`. Where
    /// it moves that by at most a bound, the point is at all times in the boxes over these parameters, or at most the bound from them.
    pub fn closing_at(&self, u: Dyadic, v: Dyadic, after: Vec3) -> Vec3
        ensures value { result ≡ place_of (S.point_of self.now.last.now u v) (S.point_of self.now.first.now u v) after }
        ensures stays { StaysNear (moving_box S.box_in self.now.first.now self.now.last.now) u v (S.point_of self.now.first.now u v) after result }
    {
        closing_place(self.last.point(u, v), self.first.point(u, v), after)
    }
}

impl<'s, S: Surface> Surface for Moving<'s, S> {
    ghost point_of = { λ m. S.point_of m.first.now };

    ghost du_of = { λ m. S.du_of m.first.now };

    ghost dv_of = { λ m. S.dv_of m.first.now };

    ghost net_of = { λ m. S.net_of m.first.now };

    ghost width_of = { λ m. S.width_of m.first.now };

    ghost box_in = { λ m. moving_box S.box_in m.first.now m.last.now };

    ghost inside = { λ m. moving_inside S.point_of S.box_in S.inside m.first.now m.last.now };

    ghost parts = { λ m. moving_parts S.box_in S.parts m.first.now m.last.now };

    ghost rows = { λ m. S.rows m.first.now };

    fn point(&self, u: Dyadic, v: Dyadic) -> Vec3 {
        self.first.point(u, v)
    }

    fn du_at(&self, u: Dyadic, v: Dyadic) -> [i64; 3] {
        self.first.du_at(u, v)
    }

    fn dv_at(&self, u: Dyadic, v: Dyadic) -> [i64; 3] {
        self.first.dv_at(u, v)
    }

    fn curve_at(&self, v: Dyadic) -> Option<Curve> {
        self.first.curve_at(v)
    }

    fn net(&self, piece: &Piece) -> ArrayVec<Vec3, 16> {
        self.first.net(piece)
    }

    fn net_width(&self) -> usize {
        self.first.net_width()
    }

    fn box_of(&self, piece: &Piece) -> [Vec3; 2] {
        both_boxes(self.first.box_of(piece), self.last.box_of(piece))
    }
}
