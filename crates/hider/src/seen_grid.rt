// A shaded grid as a camera sees it.
ghost use Rattle.std.specs.Prelude.{◌≡◌, ◌-◌, ◌*◌, length};

use crate::bounds::Bounds;
use crate::raster_point::RasterPoint;
use dice::GridRef;

/// A shaded grid as a camera sees it: its points on the raster, and a box round each of its cells. These are the same for all tiles.
#[derive(Clone, Copy)]
pub struct SeenGrid<'a> {
    /// The grid.
    pub grid: GridRef<'a>,
    pub(crate) points: &'a [RasterPoint],
    pub(crate) boxes: &'a [Bounds],
    pub ghost each_point: { length points.now ≡ length grid.p.now },
    pub ghost each_cell: { length boxes.now ≡ (grid.columns - 1) * (grid.rows - 1) },
}
