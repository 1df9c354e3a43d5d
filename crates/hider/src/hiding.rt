// Cells put on the raster and into the samples that they cover.
ghost use Rattle.std.specs.Prelude.{◌≡◌, ◌<◌, ◌≤◌, ◌≤ℤ◌, [], ◌∷◌, Bool, OnOk, length};
ghost use Rattle.transforms.specs.declared.view.View.{View};
ghost use Rattle.std.specs.List.{cons_option};
ghost use Rattle.hider.specs.Cells.{still};
ghost use Rattle.hider.specs.CellValues.{micropolygon_of, micropolygons_of, values_of};
ghost use Rattle.hider.specs.Steps.{cell_in_step};
ghost use Rattle.hider.specs.Flat.{IsSeenBy};
ghost use Rattle.hider.specs.Fragments.{covering};
ghost use Rattle.hider.specs.Tiles.{HavePut, sample_count};

use crate::bounded::BoundedQuad;
use crate::cell::Cell;
use crate::cells::Cells;
use crate::extents::have_same_points;
use crate::flat_hiding::{fill_boxes, fill_points, hide_grid};
use crate::grid_cells::GridCells;
use crate::list::FragmentList;
use crate::moving_cell::{MovingCell, cell_when};
use crate::near::put_near;
use crate::passing::passed_always;
use crate::places::Places;
use crate::seen_grid::SeenGrid;
use crate::sight::quad_of;
use crate::smooth_hiding::hide_smooth_grid;
use crate::spans::part_near;
use crate::timed::TimedPlaces;
use fixed_math::NoMemory;
use std::alloc::Global;
use transforms::Camera;

/// Puts in what a cell that stays where it is shows at each sample: it is put on the raster once.
fn hide_still(
    lists: &mut [FragmentList],
    places: &Places<'_>,
    cell: &Cell,
    camera: &Camera,
    one_sided: bool,
    flip: bool,
) -> Result<(), NoMemory>
    requires enough { sample_count places.now.grid ≤ length lists.old }
    ensures { OnOk result (HavePut places.now.grid (covering camera.now (still one_sided flip cell.now ∷ [])) lists.old lists.new) }
{
    match quad_of(camera, cell, one_sided, flip) {
        None => Ok(()),
        Some(quad) => {
            let shown = BoundedQuad::new(quad);
            put_near(lists, places, shown.bounds(), &shown)?;
            Ok(())
        }
    }
}

/// Puts in what a cell that moves shows in one step of the shutter's interval.
fn hide_step<C: Cells>(
    lists: &mut [FragmentList],
    timed: &TimedPlaces<'_>,
    shown: &MovingCell<'_, C>,
    step: usize,
) -> Result<(), NoMemory>
    requires step { step < 8 }
    requires enough { sample_count timed.now.places.grid ≤ length lists.old }
    ensures { let m = shown.now in
        OnOk result (HavePut timed.now.places.grid (λ s. cons_option (cell_in_step step m.camera.now (C.values m.cells.now) m.one_sided m.flip m.cell s) []) lists.old lists.new) }
{
    let places = &timed.places;
    let part = part_near(&places.grid, &shown.passed[step]);
    timed.steps[step].put_rows(lists, places, &part, shown)
}

/// Puts in what a cell that moves shows at each sample: step by step, since few samples of a pixel that it passes lie in the step
/// in which it does.
fn hide_moving<C: Cells>(
    lists: &mut [FragmentList],
    timed: &TimedPlaces<'_>,
    shown: &MovingCell<'_, C>,
) -> Result<(), NoMemory>
    requires enough { sample_count timed.now.places.grid ≤ length lists.old }
    ensures { let m = shown.now in OnOk result (HavePut timed.now.places.grid (covering m.camera.now (micropolygon_of (C.values m.cells.now) m.one_sided m.flip m.cell ∷ [])) lists.old lists.new) }
{
    for step in 0..8 {
        hide_step(lists, timed, shown, step)?;
    }
    Ok(())
}

/// Puts in what a cell shows at each sample.
fn hide_cell<C: Cells>(
    lists: &mut [FragmentList],
    timed: &TimedPlaces<'_>,
    cells: &C,
    cell: usize,
    camera: &Camera,
    one_sided: bool,
    flip: bool,
) -> Result<(), NoMemory>
    requires cell { cell < (C.values cells.now).count }
    requires enough { sample_count timed.now.places.grid ≤ length lists.old }
    ensures { OnOk result (HavePut timed.now.places.grid (covering camera.now (micropolygon_of (C.values cells.now) one_sided flip cell ∷ [])) lists.old lists.new) }
{
    let round = cells.moving_box(cell);
    let passed = passed_always(cells, cell, &round, camera);
    let part = part_near(&timed.places.grid, &passed);
    if part.left >= part.right {
        return Ok(());
    }
    if part.top >= part.bottom {
        return Ok(());
    }
    let first = cells.corners(cell, 0);
    let last = cells.corners(cell, 65535);
    if have_same_points(&first, &last) {
        let cell = cell_when(cells, cell, 0);
        hide_still(lists, &timed.places, &cell, camera, one_sided, flip)?;
        return Ok(());
    }
    let shown = MovingCell::new(cells, cell, round, passed, camera, one_sided, flip);
    hide_moving(lists, timed, &shown)?;
    Ok(())
}

/// Puts in what the cells show at each sample, one cell after another.
pub(crate) fn hide_all<C: Cells>(
    lists: &mut [FragmentList],
    timed: &TimedPlaces<'_>,
    cells: &C,
    camera: &Camera,
    one_sided: bool,
    flip: bool,
) -> Result<(), NoMemory>
    requires enough { sample_count timed.now.places.grid ≤ length lists.old }
    ensures { OnOk result (HavePut timed.now.places.grid (covering camera.now (micropolygons_of (C.values cells.now) one_sided flip)) lists.old lists.new) }
{
    for cell in 0..cells.count() {
        hide_cell(lists, timed, cells, cell, camera, one_sided, flip)?;
    }
    Ok(())
}

/// Puts in what the cells of a grid show at each sample, which is on the raster already.
pub(crate) fn hide_seen_grid(
    lists: &mut [FragmentList],
    places: &Places<'_>,
    seen: &SeenGrid<'_>,
    smooth: bool,
    one_sided: bool,
    flip: bool,
) -> Result<(), NoMemory>
    requires { sample_count places.now.grid ≤ length lists.old }
    ensures { OnOk result ((v : View) → IsSeenBy v seen.now → HavePut places.now.grid (covering v (micropolygons_of (values_of smooth seen.now.grid) one_sided flip)) lists.old lists.new) }
{
    if smooth {
        hide_smooth_grid(lists, places, seen, one_sided, flip)
    } else {
        hide_grid(lists, places, seen, one_sided, flip)
    }
}

/// Puts in what the cells of a grid show at each sample, which stays where it is: its points are put on the raster once.
pub(crate) fn hide_grid_cells(
    lists: &mut [FragmentList],
    places: &Places<'_>,
    alloc: Global,
    still: &GridCells<'_>,
    camera: &Camera,
    one_sided: bool,
    flip: bool,
) -> Result<(), NoMemory>
    requires enough { sample_count places.now.grid ≤ length lists.old }
    ensures { OnOk result (HavePut places.now.grid (covering camera.now (micropolygons_of (values_of still.now.smooth still.now.grid) one_sided flip)) lists.old lists.new) }
{
    let mut points = Vec::new(alloc);
    fill_points(&mut points, camera, still.grid.p)?;
    let mut boxes = Vec::new(alloc);
    fill_boxes(&mut boxes, &still.grid, points.as_slice())?;
    let seen = SeenGrid {
        grid: still.grid,
        points: points.as_slice(),
        boxes: boxes.as_slice(),
    };
    hide_seen_grid(lists, places, &seen, still.smooth, one_sided, flip)?;
    Ok(())
}
