// The cells of a grid that stays where it is, whose corners have colours and opacities of their own: its points are put on the
// raster once.
ghost use Rattle.std.specs.Prelude.{◌≡◌, ◌<◌, ◌≤◌, ◌*◌, [], ◌∷◌, true, OnOk, length};
ghost use Rattle.transforms.specs.declared.view.View.{View};
ghost use Rattle.hider.specs.CellValues.{cell_when, micropolygons_of, values_of};
ghost use Rattle.hider.specs.Cells.{projected, still};
ghost use Rattle.hider.specs.Flat.{IsPlaced, IsSeenBy, are_all_seen, flat_of, own_corner};
ghost use Rattle.hider.specs.Fragments.{covering, quad_covering};
ghost use Rattle.hider.specs.Tiles.{HavePut, sample_count};

use crate::beside::is_beside;
use crate::bounded::BoundedQuad;
use crate::flat_hiding::{are_all_seen, flat_cell};
use crate::grid_cells::first_of;
use crate::list::FragmentList;
use crate::near::put_near;
use crate::places::Places;
use crate::quad::{Corner, Quad};
use crate::raster_cell::RasterCell;
use crate::raster_point::RasterPoint;
use crate::seen_grid::SeenGrid;
use crate::sight::{is_turned_away, turn_of};
use dice::GridRef;
use fixed_math::NoMemory;

/// Point `n` of a grid, which is on the raster, as a corner with its own colour and opacity.
fn own_corner(grid: &GridRef<'_>, point: &RasterPoint, n: usize) -> Corner
    requires { n < grid.now.columns * grid.now.rows }
    ensures { result ≡ own_corner grid.now point.now n }
{
    Corner {
        place: point.place,
        depth: point.depth,
        colour: grid.ci[n],
        opacity: grid.oi[n],
    }
}

/// Cell `cell` of a grid on the raster, whose points are those of a cell of one colour.
fn smooth_quad(grid: &GridRef<'_>, cell: usize, flat: &RasterCell<'_>) -> Quad
    requires { cell < (values_of true grid.now).count }
    ensures { (v : View) → IsPlaced v (values_of true grid.now).corner cell (flat_of flat.now) → are_all_seen (flat_of flat.now) ≡ true → result ≡ projected v (cell_when (values_of true grid.now) cell 0) }
{
    let columns = grid.columns;
    let n = first_of(columns, cell);
    Quad {
        a: own_corner(grid, flat.a, n),
        b: own_corner(grid, flat.b, n + 1),
        c: own_corner(grid, flat.c, n + columns + 1),
        d: own_corner(grid, flat.d, n + columns),
    }
}

/// Puts in what a micropolygon on the raster shows at each sample, unless its one side is turned away.
fn hide_quad(
    lists: &mut [FragmentList],
    places: &Places<'_>,
    quad: Quad,
    one_sided: bool,
    flip: bool,
) -> Result<(), NoMemory>
    requires enough { sample_count places.now.grid ≤ length lists.old }
    ensures { OnOk result (HavePut places.now.grid (quad_covering one_sided flip quad) lists.old lists.new) }
{
    if is_turned_away(one_sided, flip, turn_of(&quad)) {
        return Ok(());
    }
    let shown = BoundedQuad::new(quad);
    put_near(lists, places, shown.bounds(), &shown)?;
    Ok(())
}

/// Puts in what cell `cell` of a grid shows at each sample. Most cells of a large grid lie beside a tile, and are left at once.
fn hide_smooth_at(
    lists: &mut [FragmentList],
    places: &Places<'_>,
    seen: &SeenGrid<'_>,
    cell: usize,
    one_sided: bool,
    flip: bool,
) -> Result<(), NoMemory>
    requires enough { sample_count places.now.grid ≤ length lists.old }
    requires cell { cell < (values_of true seen.now.grid).count }
    ensures { OnOk result ((v : View) → IsSeenBy v seen.now → HavePut places.now.grid (covering v (still one_sided flip (cell_when (values_of true seen.now.grid) cell 0) ∷ [])) lists.old lists.new) }
{
    if is_beside(&places.grid, &seen.boxes[cell]) {
        return Ok(());
    }
    let flat = flat_cell(&seen.grid, seen.points, cell);
    if !are_all_seen(&flat) {
        return Ok(());
    }
    let quad = smooth_quad(&seen.grid, cell, &flat);
    hide_quad(lists, places, quad, one_sided, flip)?;
    Ok(())
}

/// Puts in what the cells of a grid show at each sample.
pub(crate) fn hide_smooth_grid(
    lists: &mut [FragmentList],
    places: &Places<'_>,
    seen: &SeenGrid<'_>,
    one_sided: bool,
    flip: bool,
) -> Result<(), NoMemory>
    requires { sample_count places.now.grid ≤ length lists.old }
    ensures { OnOk result ((v : View) → IsSeenBy v seen.now → HavePut places.now.grid (covering v (micropolygons_of (values_of true seen.now.grid) one_sided flip)) lists.old lists.new) }
{
    for cell in 0..seen.boxes.len() {
        hide_smooth_at(lists, places, seen, cell, one_sided, flip)?;
    }
    Ok(())
}
