// The corners of a cell on the raster, where a camera sees all of them in depth.
ghost use Rattle.std.specs.Prelude.{◌≡◌, true};
ghost use Rattle.hider.specs.Flat.{is_seen, raster_point};
ghost use Rattle.hider.specs.SeenCorners.{are_seen, points_of};

use crate::extents::Corners;
use crate::raster_point::{RasterPoint, is_seen};
use crate::spot::Spot;
use fixed_math::Vec3;
use transforms::Camera;

/// Whether the depths of all corners lie from near to far.
pub(crate) fn are_seen(camera: &Camera, corners: &Corners) -> bool
    ensures { result ≡ are_seen camera.now corners.now }
{
    let [a, b, c, d] = *corners;
    is_seen(camera, a.z) && is_seen(camera, b.z) && is_seen(camera, c.z) && is_seen(camera, d.z)
}

/// A point at a depth from near to far as a camera sees it.
#[tactic(auto, unfolding(crate::specs::Flat::raster_point))]
fn point_of(camera: &Camera, point: &Vec3) -> RasterPoint
    requires { is_seen camera.now point.now.z ≡ true }
    ensures { result ≡ raster_point camera.now point.now }
{
    RasterPoint {
        place: Spot::new(camera.column(*point), camera.row(*point)),
        depth: point.z,
        is_seen: true,
    }
}

/// The corners as a camera sees them.
pub(crate) fn points_of(camera: &Camera, corners: &Corners) -> [RasterPoint; 4]
    requires { are_seen camera.now corners.now ≡ true }
    ensures { result ≡ points_of camera.now corners.now }
{
    let [a, b, c, d] = *corners;
    [
        point_of(camera, &a),
        point_of(camera, &b),
        point_of(camera, &c),
        point_of(camera, &d),
    ]
}
