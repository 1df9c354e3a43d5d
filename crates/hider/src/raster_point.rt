// A point on the raster.
ghost use Rattle.std.specs.Prelude.{◌≡◌};
ghost use Rattle.hider.specs.Flat.{is_seen, raster_point};

use crate::spot::Spot;
use fixed_math::{Num, Vec3};
use transforms::Camera;

/// A point as a camera sees it: its depth in camera space, whether that lies from near to far, and where it does, its place on
/// the raster.
#[derive(Clone, Copy)]
pub(crate) struct RasterPoint {
    pub(crate) place: Spot,
    pub(crate) depth: Num,
    pub(crate) is_seen: bool,
}

/// Whether a depth lies from near to far.
pub(crate) fn is_seen(camera: &Camera, depth: Num) -> bool
    ensures { result ≡ is_seen camera.now depth }
{
    let view = camera.view();
    view.near.raw() <= depth.raw() && depth.raw() <= view.far.raw()
}

/// The point as the camera sees it.
#[tactic(auto, unfolding(crate::specs::Flat::raster_point))]
pub(crate) fn put_on_raster(camera: &Camera, point: &Vec3) -> RasterPoint
    ensures { result ≡ raster_point camera.now point.now }
{
    if is_seen(camera, point.z) {
        let place = camera.raster(*point);
        RasterPoint {
            place: Spot::new(place[0], place[1]),
            depth: point.z,
            is_seen: true,
        }
    } else {
        RasterPoint {
            place: Spot::new(0, 0),
            depth: point.z,
            is_seen: false,
        }
    }
}
