// The samples that a box on the raster may hold, row by row.
ghost use Rattle.std.specs.Prelude.{◌≡◌, ◌≤◌, ◌+◌, ◌-◌, ◌*◌, [], OnOk, length, unsigned_abs};
ghost use Rattle.std.specs.List.{cons_option};
ghost use Rattle.hider.specs.Searching.{IsPartOf, StaysIn, StaysInside};
ghost use Rattle.hider.specs.Tiles.{HavePut, sample_count};

use crate::bounds::Bounds;
use crate::list::FragmentList;
use crate::places::Places;
use crate::runs::put_between;
use crate::sample_grid::SampleGrid;
use crate::showing::Showing;
use crate::spans::part_near;
use fixed_math::NoMemory;

/// Puts in what shows at each sample, where that is nothing but in the pixels of `part`: row by row.
pub(crate) fn put_rows<S: Showing>(
    lists: &mut [FragmentList],
    places: &Places<'_>,
    part: &SampleGrid,
    shown: &S,
) -> Result<(), NoMemory>
    requires enough { sample_count places.now.grid ≤ length lists.old }
    requires part { IsPartOf part.now places.now.grid }
    requires beside { StaysIn part.now places.now.grid (S.shown shown.now) }
    ensures { OnOk result (HavePut places.now.grid (λ s. cons_option (S.shown shown.now s) []) lists.old lists.new) }
{
    let grid = places.grid;
    let per_pixel = grid.per_pixel();
    let width = grid.width();
    let left = (part.left - grid.left) as usize;
    let right = (part.right - grid.left) as usize;
    let top = (part.top - grid.top) as usize;
    let bottom = (part.bottom - grid.top) as usize;
    for row in top..bottom {
        let first = (row * width + left) * per_pixel;
        let last = (row * width + right) * per_pixel;
        put_between(lists, places, first, last, shown)?;
    }
    Ok(())
}

/// Puts in what shows at each sample, where that is nothing outside a box on the raster: only samples of pixels that the box
/// meets are looked at.
pub(crate) fn put_near<S: Showing>(
    lists: &mut [FragmentList],
    places: &Places<'_>,
    bounds: &Bounds,
    shown: &S,
) -> Result<(), NoMemory>
    requires enough { sample_count places.now.grid ≤ length lists.old }
    requires inside { StaysInside bounds.now (S.shown shown.now) }
    ensures { OnOk result (HavePut places.now.grid (λ s. cons_option (S.shown shown.now s) []) lists.old lists.new) }
{
    let part = part_near(&places.grid, bounds);
    put_rows(lists, places, &part, shown)
}
