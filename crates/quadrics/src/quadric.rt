// A patch of a quadric, of either kind.
ghost use Rattle.std.specs.Prelude.{◌≡◌, ◌^◌};
ghost use Rattle.fixed_math.specs.Axes.{AreWithin};
ghost use Rattle.quadrics.specs.declared.quadric.Quadric.TheVariants.{Round as of_round, Ruled as of_ruled};
ghost use Rattle.quadrics.specs.Quadrics.{quadric_point, quadric_du, quadric_dv, quadric_net, quadric_box, quadric_inside, quadric_parts, quadric_rows, IsSmallQuadric};

use crate::round::Round;
use crate::ruled::Ruled;
use arrayvec::ArrayVec;
use fixed_math::Vec3;
use patches::{Curve, Dyadic, Piece, Surface};

/// A patch of a quadric (RenderMan Interface 3.2, section 5, on quadrics), of three rows of points or of two. It is the surface of its kind.
#[derive(Drop)]
pub enum Quadric {
    Round(Round),
    Ruled(Ruled),
}

impl Quadric {
    /// The patch of nine points by rows of three, u fastest, with the weights 1, 1, 2 both ways: its rows and columns are quarters of
    /// circles, as a sphere's. Raw coordinates have a magnitude of at most 2^30.
    pub fn round(p: [Vec3; 9]) -> Quadric
        requires { AreWithin (2 ^ 30) p }
        ensures { result ≡ of_round p }
    {
        Quadric::Round(Round::new(p))
    }

    /// The patch of six points by rows of three, u fastest, with the weights 1, 1, 2 along u and 1, 1 along v: straight lines between two
    /// quarters of circles, as a cylinder's, a cone's and a disk's. Raw coordinates have a magnitude of at most 2^30.
    pub fn ruled(p: [Vec3; 6]) -> Quadric
        requires { AreWithin (2 ^ 30) p }
        ensures { result ≡ of_ruled p }
    {
        Quadric::Ruled(Ruled::new(p))
    }

    /// Does nothing: a call tells a proof that raw coordinates of control points have a magnitude of at most 2^30.
    pub fn recall(&self)
        ensures { IsSmallQuadric self.now }
    {
        match self {
            Quadric::Round(patch) => {
                let _points = patch.points();
            }
            Quadric::Ruled(patch) => {
                let _points = patch.points();
            }
        }
    }
}

impl Surface for Quadric {
    ghost point_of = { quadric_point };

    ghost du_of = { quadric_du };

    ghost dv_of = { quadric_dv };

    ghost net_of = { quadric_net };

    ghost width_of = { λ _. 3 };

    ghost box_in = { quadric_box };

    ghost inside = { quadric_inside };

    ghost parts = { quadric_parts };

    ghost rows = { quadric_rows };

    fn point(&self, u: Dyadic, v: Dyadic) -> Vec3 {
        match self {
            Quadric::Round(patch) => patch.point(u, v),
            Quadric::Ruled(patch) => patch.point(u, v),
        }
    }

    fn du_at(&self, u: Dyadic, v: Dyadic) -> [i64; 3] {
        match self {
            Quadric::Round(patch) => patch.du_at(u, v),
            Quadric::Ruled(patch) => patch.du_at(u, v),
        }
    }

    fn dv_at(&self, u: Dyadic, v: Dyadic) -> [i64; 3] {
        match self {
            Quadric::Round(patch) => patch.dv_at(u, v),
            Quadric::Ruled(patch) => patch.dv_at(u, v),
        }
    }

    fn curve_at(&self, v: Dyadic) -> Option<Curve> {
        match self {
            Quadric::Round(patch) => patch.curve_at(v),
            Quadric::Ruled(patch) => patch.curve_at(v),
        }
    }

    fn net(&self, piece: &Piece) -> ArrayVec<Vec3, 16> {
        match self {
            Quadric::Round(patch) => patch.net(piece),
            Quadric::Ruled(patch) => patch.net(piece),
        }
    }

    fn net_width(&self) -> usize {
        match self {
            Quadric::Round(patch) => patch.net_width(),
            Quadric::Ruled(patch) => patch.net_width(),
        }
    }

    fn box_of(&self, piece: &Piece) -> [Vec3; 2] {
        match self {
            Quadric::Round(patch) => patch.box_of(piece),
            Quadric::Ruled(patch) => patch.box_of(piece),
        }
    }
}
