// Cells that lie beside a tile.
ghost use Rattle.std.specs.Prelude.{◌≡◌, ◌≤◌, ◌*◌, pos, IsTrue};
ghost use Rattle.hider.specs.Searching.{IsBeside};
ghost use Rattle.hider.specs.Tiles.{IsSampleGrid};

use crate::bounds::Bounds;
use crate::sample_grid::SampleGrid;

/// The place at which a pixel begins.
fn start_of(pixel: u32) -> i64
    requires { pixel ≤ 4096 }
    ensures { result ≡ pos (256 * pixel) }
{
    (256 * pixel) as i64
}

/// Whether a box on the raster lies beyond one side of a grid's pixels.
pub(crate) fn is_beside(grid: &SampleGrid, bounds: &Bounds) -> bool
    requires { IsSampleGrid grid.now }
    ensures { IsTrue result → IsBeside bounds.now grid.now }
{
    if bounds.right < start_of(grid.left) {
        return true;
    }
    if start_of(grid.right) <= bounds.left {
        return true;
    }
    if bounds.bottom < start_of(grid.top) {
        return true;
    }
    start_of(grid.bottom) <= bounds.top
}
