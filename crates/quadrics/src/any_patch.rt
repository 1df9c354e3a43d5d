// A patch of a scene: of a primitive by its control points, or of a quadric.
ghost use Rattle.quadrics.specs.AnyPatches.{patch_point, patch_du, patch_dv, patch_net, patch_width, patch_box, patch_inside, patch_parts, patch_rows, IsSmallPatch};

use crate::quadric::Quadric;
use arrayvec::ArrayVec;
use fixed_math::Vec3;
use patches::{Curve, Dyadic, Patch, Piece, Surface};

/// A patch of any primitive. It is the surface of its kind.
#[derive(Drop)]
pub enum AnyPatch {
    Plain(Patch),
    Quadric(Quadric),
}

impl AnyPatch {
    /// Does nothing: a call tells a proof that raw coordinates of control points have a magnitude of at most 2^30.
    pub fn recall(&self)
        ensures { IsSmallPatch self.now }
    {
        match self {
            AnyPatch::Plain(patch) => patch.recall(),
            AnyPatch::Quadric(patch) => patch.recall(),
        }
    }
}

impl Surface for AnyPatch {
    ghost point_of = { patch_point };

    ghost du_of = { patch_du };

    ghost dv_of = { patch_dv };

    ghost net_of = { patch_net };

    ghost width_of = { patch_width };

    ghost box_in = { patch_box };

    ghost inside = { patch_inside };

    ghost parts = { patch_parts };

    ghost rows = { patch_rows };

    fn point(&self, u: Dyadic, v: Dyadic) -> Vec3 {
        match self {
            AnyPatch::Plain(patch) => patch.point(u, v),
            AnyPatch::Quadric(patch) => patch.point(u, v),
        }
    }

    fn du_at(&self, u: Dyadic, v: Dyadic) -> [i64; 3] {
        match self {
            AnyPatch::Plain(patch) => patch.du_at(u, v),
            AnyPatch::Quadric(patch) => patch.du_at(u, v),
        }
    }

    fn dv_at(&self, u: Dyadic, v: Dyadic) -> [i64; 3] {
        match self {
            AnyPatch::Plain(patch) => patch.dv_at(u, v),
            AnyPatch::Quadric(patch) => patch.dv_at(u, v),
        }
    }

    fn curve_at(&self, v: Dyadic) -> Option<Curve> {
        match self {
            AnyPatch::Plain(patch) => patch.curve_at(v),
            AnyPatch::Quadric(patch) => patch.curve_at(v),
        }
    }

    fn net(&self, piece: &Piece) -> ArrayVec<Vec3, 16> {
        match self {
            AnyPatch::Plain(patch) => patch.net(piece),
            AnyPatch::Quadric(patch) => patch.net(piece),
        }
    }

    fn net_width(&self) -> usize {
        match self {
            AnyPatch::Plain(patch) => patch.net_width(),
            AnyPatch::Quadric(patch) => patch.net_width(),
        }
    }

    fn box_of(&self, piece: &Piece) -> [Vec3; 2] {
        match self {
            AnyPatch::Plain(patch) => patch.box_of(piece),
            AnyPatch::Quadric(patch) => patch.box_of(piece),
        }
    }
}
