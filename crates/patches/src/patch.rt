// A patch of any kind.
ghost use Rattle.patches.specs.Patches.{patch_point, patch_du, patch_dv, patch_net, patch_width, patch_box, patch_inside, patch_parts, patch_rows, IsSmallPatch};

use crate::bicubic::Bicubic;
use crate::bilinear::Bilinear;
use crate::curve::Curve;
use crate::piece::{Dyadic, Piece};
use crate::surface::Surface;
use arrayvec::ArrayVec;
use fixed_math::Vec3;

/// A patch of one of the kinds that scenes have. It is the surface of its kind.
#[derive(Drop)]
pub enum Patch {
    Bilinear(Bilinear),
    Bicubic(Bicubic),
}

impl Patch {
    /// Does nothing: a call tells a proof that raw coordinates of control points have a magnitude of at most 2^30.
    pub fn recall(&self)
        ensures { IsSmallPatch self.now }
    {
        match self {
            Patch::Bilinear(patch) => {
                let _points = patch.points();
            }
            Patch::Bicubic(patch) => {
                let _points = patch.points();
            }
        }
    }
}

impl Surface for Patch {
    ghost point_of = { patch_point };

    ghost du_of = { patch_du };

    ghost dv_of = { patch_dv };

    ghost net_of = { patch_net };

    ghost width_of = { patch_width };

    ghost box_in = { patch_box };

    ghost inside = { patch_inside };

    ghost parts = { patch_parts };

    ghost rows = { patch_rows };

    fn point(&self, u: Dyadic, v: Dyadic) -> Vec3 {
        match self {
            Patch::Bilinear(patch) => patch.point(u, v),
            Patch::Bicubic(patch) => patch.point(u, v),
        }
    }

    fn du_at(&self, u: Dyadic, v: Dyadic) -> [i64; 3] {
        match self {
            Patch::Bilinear(patch) => patch.du_at(u, v),
            Patch::Bicubic(patch) => patch.du_at(u, v),
        }
    }

    fn dv_at(&self, u: Dyadic, v: Dyadic) -> [i64; 3] {
        match self {
            Patch::Bilinear(patch) => patch.dv_at(u, v),
            Patch::Bicubic(patch) => patch.dv_at(u, v),
        }
    }

    fn curve_at(&self, v: Dyadic) -> Option<Curve> {
        match self {
            Patch::Bilinear(patch) => patch.curve_at(v),
            Patch::Bicubic(patch) => patch.curve_at(v),
        }
    }

    fn net(&self, piece: &Piece) -> ArrayVec<Vec3, 16> {
        match self {
            Patch::Bilinear(patch) => patch.net(piece),
            Patch::Bicubic(patch) => patch.net(piece),
        }
    }

    fn net_width(&self) -> usize {
        match self {
            Patch::Bilinear(patch) => patch.net_width(),
            Patch::Bicubic(patch) => patch.net_width(),
        }
    }

    fn box_of(&self, piece: &Piece) -> [Vec3; 2] {
        match self {
            Patch::Bilinear(patch) => patch.box_of(piece),
            Patch::Bicubic(patch) => patch.box_of(piece),
        }
    }
}
