// A micropolygon of one colour and opacity, on the raster.
use crate::raster_point::RasterPoint;
use fixed_math::Vec3;

/// A micropolygon of one colour and opacity: its corners in turn, as a camera sees them. All of it stays where its grid has it.
#[derive(Clone, Copy)]
pub(crate) struct RasterCell<'a> {
    pub(crate) a: &'a RasterPoint,
    pub(crate) b: &'a RasterPoint,
    pub(crate) c: &'a RasterPoint,
    pub(crate) d: &'a RasterPoint,
    pub(crate) colour: &'a Vec3,
    pub(crate) opacity: &'a Vec3,
}
