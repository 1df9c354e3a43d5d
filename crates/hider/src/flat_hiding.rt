// The cells of a grid that stays where it is, each of one colour and opacity: its points are put on the raster once.
ghost use Rattle.std.specs.Prelude.{◌≡◌, ◌<◌, ◌≤◌, [], ◌∷◌, false, OnOk, length};
ghost use Rattle.transforms.specs.declared.view.View.{View};
ghost use Rattle.hider.specs.Bounding.{bounds_of};
ghost use Rattle.hider.specs.CellValues.{micropolygons_of, cell_when, values_of};
ghost use Rattle.hider.specs.Cells.{still};
ghost use Rattle.hider.specs.Flat.{AreBoxes, AreOnRaster, HavePutFlat, IsFlat, IsSeenBy, are_all_seen, flat_of, flat_quad, held_covers};
ghost use Rattle.hider.specs.Fragments.{covering, quad_covering};
ghost use Rattle.hider.specs.Searching.{IsPartOf, StaysIn};
ghost use Rattle.hider.specs.Tiles.{HavePut, sample_count};

use crate::beside::is_beside;
use crate::bounds::Bounds;
use crate::edges::edge_at;
use crate::extremes::{greatest_of, least_of};
use crate::facing::Facing;
use crate::flat_quad::{FlatQuad, turn_of};
use crate::grid_cells::first_of;
use crate::list::FragmentList;
use crate::near::put_rows;
use crate::places::Places;
use crate::raster_cell::RasterCell;
use crate::raster_point::{RasterPoint, put_on_raster};
use crate::sample_grid::SampleGrid;
use crate::seen_grid::SeenGrid;
use crate::sight::is_turned_away;
use crate::spans::part_near;
use dice::GridRef;
use fixed_math::{NoMemory, Vec3};
use std::alloc::Allocator;
use transforms::Camera;

/// Puts the points of a grid on the raster, into a row for them.
pub(crate) fn fill_points<A: Allocator>(
    seen: &mut Vec<RasterPoint, A>,
    camera: &Camera,
    points: &[Vec3],
) -> Result<(), NoMemory>
    ensures { OnOk result (AreOnRaster camera.now points.now seen.new.items) }
{
    seen.clear();
    for n in 0..points.len() {
        seen.push(put_on_raster(camera, &points[n]))?;
    }
    Ok(())
}

/// The least box that holds the corners.
#[tactic(auto, unfolding(crate::specs::Bounding::bounds_of, crate::specs::Flat::flat_quad))]
pub(crate) fn bounds_of(cell: &RasterCell<'_>) -> Bounds
    ensures { result ≡ bounds_of (flat_quad (flat_of cell.now)) }
{
    let [a, b, c, d] = [cell.a.place, cell.b.place, cell.c.place, cell.d.place];
    Bounds {
        left: least_of(a.x(), b.x(), c.x(), d.x()),
        right: greatest_of(a.x(), b.x(), c.x(), d.x()),
        top: least_of(a.y(), b.y(), c.y(), d.y()),
        bottom: greatest_of(a.y(), b.y(), c.y(), d.y()),
    }
}

pub(crate) fn are_all_seen(cell: &RasterCell<'_>) -> bool
    ensures { result ≡ are_all_seen (flat_of cell.now) }
{
    cell.a.is_seen && cell.b.is_seen && cell.c.is_seen && cell.d.is_seen
}

/// Puts in what a cell shows, where that is nothing but in the pixels of `part`.
fn hide_in(
    lists: &mut [FragmentList],
    places: &Places<'_>,
    part: &SampleGrid,
    cell: &RasterCell<'_>,
    bounds: &Bounds,
    one_sided: bool,
    flip: bool,
) -> Result<(), NoMemory>
    requires enough { sample_count places.now.grid ≤ length lists.old }
    requires part { IsPartOf part.now places.now.grid }
    requires beside { StaysIn part.now places.now.grid (λ s. held_covers bounds.now (flat_of cell.now) s.place) }
    ensures { OnOk result (bounds.now ≡ bounds_of (flat_quad (flat_of cell.now)) →
        HavePut places.now.grid (quad_covering one_sided flip (flat_quad (flat_of cell.now))) lists.old lists.new) }
{
    let first = edge_at(cell.a.place, cell.b.place, cell.c.place);
    let second = edge_at(cell.a.place, cell.c.place, cell.d.place);
    if is_turned_away(one_sided, flip, turn_of(first, second)) {
        return Ok(());
    }
    let quad = FlatQuad {
        cell,
        bounds,
        first: Facing::of(cell.a, cell.b, cell.c, first),
        second: Facing::of(cell.a, cell.c, cell.d, second),
    };
    put_rows(lists, places, part, &quad)?;
    Ok(())
}

/// Puts in what a cell shows at each sample, with the least box that holds its corners.
fn hide_flat(
    lists: &mut [FragmentList],
    places: &Places<'_>,
    cell: &RasterCell<'_>,
    bounds: &Bounds,
    one_sided: bool,
    flip: bool,
) -> Result<(), NoMemory>
    requires enough { sample_count places.now.grid ≤ length lists.old }
    ensures { OnOk result (HavePutFlat places.now.grid one_sided flip bounds.now (flat_of cell.now) lists.old lists.new) }
{
    if !are_all_seen(cell) {
        return Ok(());
    }
    let part = part_near(&places.grid, bounds);
    if part.left >= part.right {
        return Ok(());
    }
    if part.top >= part.bottom {
        return Ok(());
    }
    hide_in(lists, places, &part, cell, bounds, one_sided, flip)?;
    Ok(())
}

/// Cell `cell` of a grid, whose points are on the raster.
pub(crate) fn flat_cell<'a>(
    grid: &GridRef<'a>,
    seen: &'a [RasterPoint],
    cell: usize,
) -> RasterCell<'a>
    requires count { length seen.now ≡ length grid.now.p.now }
    requires cell { cell < (values_of false grid.now).count }
    ensures { (v : View) → AreOnRaster v grid.now.p.now seen.now → IsFlat v (values_of false grid.now) cell (flat_of result) }
{
    let columns = grid.columns;
    let n = first_of(columns, cell);
    RasterCell {
        a: &seen[n],
        b: &seen[n + 1],
        c: &seen[n + columns + 1],
        d: &seen[n + columns],
        colour: &grid.ci[n],
        opacity: &grid.oi[n],
    }
}

/// Puts the boxes round a grid's cells, whose points are on the raster, into a row for them.
pub(crate) fn fill_boxes<'a, A: Allocator>(
    boxes: &mut Vec<Bounds, A>,
    grid: &GridRef<'a>,
    seen: &'a [RasterPoint],
) -> Result<(), NoMemory>
    requires { length seen.now ≡ length grid.now.p.now }
    ensures count { OnOk result (length boxes.new.items ≡ (values_of false grid.now).count) }
    ensures boxes { OnOk result ((v : View) → AreOnRaster v grid.now.p.now seen.now → AreBoxes v (values_of false grid.now) boxes.new.items) }
{
    boxes.clear();
    for cell in 0..(grid.columns - 1) * (grid.rows - 1) {
        boxes.push(bounds_of(&flat_cell(grid, seen, cell)))?;
    }
    Ok(())
}

/// Puts in what cell `cell` of a grid shows at each sample. Most cells of a large grid lie beside a tile, and are left at once.
fn hide_at(
    lists: &mut [FragmentList],
    places: &Places<'_>,
    seen: &SeenGrid<'_>,
    cell: usize,
    one_sided: bool,
    flip: bool,
) -> Result<(), NoMemory>
    requires enough { sample_count places.now.grid ≤ length lists.old }
    requires cell { cell < (values_of false seen.now.grid).count }
    ensures { OnOk result ((v : View) → IsSeenBy v seen.now → HavePut places.now.grid (covering v (still one_sided flip (cell_when (values_of false seen.now.grid) cell 0) ∷ [])) lists.old lists.new) }
{
    if is_beside(&places.grid, &seen.boxes[cell]) {
        return Ok(());
    }
    let flat = flat_cell(&seen.grid, seen.points, cell);
    hide_flat(lists, places, &flat, &seen.boxes[cell], one_sided, flip)?;
    Ok(())
}

/// Puts in what the cells of a grid show at each sample.
pub(crate) fn hide_grid(
    lists: &mut [FragmentList],
    places: &Places<'_>,
    seen: &SeenGrid<'_>,
    one_sided: bool,
    flip: bool,
) -> Result<(), NoMemory>
    requires { sample_count places.now.grid ≤ length lists.old }
    ensures { OnOk result ((v : View) → IsSeenBy v seen.now → HavePut places.now.grid (covering v (micropolygons_of (values_of false seen.now.grid) one_sided flip)) lists.old lists.new) }
{
    for cell in 0..seen.boxes.len() {
        hide_at(lists, places, seen, cell, one_sided, flip)?;
    }
    Ok(())
}
