// The cells of a shaded grid, seen at samples.
ghost use Rattle.std.specs.Prelude.{◌≡◌, ◌<◌, ◌≤◌, ◌∷◌, [], OnOk, length};
ghost use Rattle.hider.specs.Cells.{seen_at};
ghost use Rattle.hider.specs.CellValues.{corner_when, cell_when, micropolygon_of, micropolygons_of};
ghost use Rattle.moving_cells.specs.MovingGrids.{values_when};
ghost use Rattle.pixel_account.specs.Grids.{IsLeafGrid};
ghost use Rattle.pixel_account.specs.Stacks.{InFrame, PutIn, PutInAll, cell_in_grid, cells_in_grid};

use crate::points::{LeafGrid, cell_of};
use crate::stacks::Stack;
use crate::traces::Trace;
use fixed_math::{NoMemory, Vec3};
use hider::{Cell, CellCorner, Cells, Quad, covers, quad_of};
use moving_cells::MovingCells;
use transforms::Camera;

/// Corner `k` of a cell, at this point.
fn corner_of(cells: &MovingCells<'_>, cell: usize, k: usize, point: Vec3) -> CellCorner
    requires cell { cell < (values_when cells.now.smooth cells.now.grid).count }
    requires corner { k < 4 }
    ensures { let v = values_when cells.now.smooth cells.now.grid in result ≡ record { point = point; colour = v.colour cell k; opacity = v.opacity cell k } }
{
    CellCorner {
        point,
        colour: cells.colour(cell, k),
        opacity: cells.opacity(cell, k),
    }
}

/// A cell at a time.
#[tactic(auto, unfolding(hider::specs::CellValues::cell_when))]
fn corners_at(cells: &MovingCells<'_>, cell: usize, time: u16) -> Cell
    requires { cell < (values_when cells.now.smooth cells.now.grid).count }
    ensures { result ≡ cell_when (values_when cells.now.smooth cells.now.grid) cell time }
{
    let [a, b, c, d] = cells.corners(cell, time);
    Cell {
        a: corner_of(cells, cell, 0, a),
        b: corner_of(cells, cell, 1, b),
        c: corner_of(cells, cell, 2, c),
        d: corner_of(cells, cell, 3, d),
    }
}

/// The cells of a leaf's grid.
fn cells_of<'a>(shaded: &LeafGrid<'_, 'a>) -> MovingCells<'a>
    ensures grid { result.grid ≡ shaded.now.grid }
    ensures smooth { result.smooth ≡ shaded.now.prim.now.smooth }
{
    let prim = shaded.prim;
    MovingCells {
        grid: shaded.grid,
        smooth: prim.smooth,
    }
}

/// What a camera sees of a cell at a time.
fn seen_of(camera: &Camera, shaded: &LeafGrid<'_, '_>, cell: usize, time: u16) -> Option<Quad>
    requires { cell < (values_when shaded.now.prim.now.smooth shaded.now.grid).count }
    ensures { result ≡ seen_at camera.now time (cell_in_grid shaded.now cell) }
{
    let prim = shaded.prim;
    let corners = corners_at(&cells_of(shaded), cell, time);
    quad_of(camera, &corners, prim.one_sided, prim.flip)
}

/// Puts in what a cell shows at a sample.
#[tactic(auto, unfolding(hider::specs::Fragments::fragment_of))]
fn put_cell(
    camera: &Camera,
    shaded: &LeafGrid<'_, '_>,
    cell: usize,
    stack: &mut Stack,
) -> Result<(), NoMemory>
    ghost at: { InFrame }
    requires camera { camera.now ≡ at.frame.camera }
    requires grid { IsLeafGrid at.accepted at.frame shaded.now }
    requires cell { cell < (values_when shaded.now.prim.now.smooth shaded.now.grid).count }
    ensures { OnOk result (PutIn at.accepted at.frame (cell_in_grid shaded.now cell ∷ []) stack.old stack.new) }
{
    let Some(seen) = seen_of(camera, shaded, cell, stack.sample.time) else {
        return Ok(());
    };
    let Some(fragment) = covers(&seen, stack.sample.place) else {
        return Ok(());
    };
    stack.traces.put(Trace {
        fragment,
        cell: cell_of(shaded, cell),
        seen,
    })?;
    Ok(())
}

/// Puts in what all cells of a leaf's grid show at a sample.
fn put_cells(camera: &Camera, shaded: &LeafGrid<'_, '_>, stack: &mut Stack) -> Result<(), NoMemory>
    ghost at: { InFrame }
    requires camera { camera.now ≡ at.frame.camera }
    requires grid { IsLeafGrid at.accepted at.frame shaded.now }
    ensures { OnOk result (PutIn at.accepted at.frame (cells_in_grid shaded.now) stack.old stack.new) }
{
    for cell in 0..cells_of(shaded).count() {
        put_cell(camera, shaded, cell, stack)?;
    }
    Ok(())
}

/// Puts in what a leaf's grid shows at each sample.
pub(crate) fn put_grid(
    camera: &Camera,
    shaded: &LeafGrid<'_, '_>,
    stacks: &mut [Stack],
) -> Result<(), NoMemory>
    ghost at: { InFrame }
    requires camera { camera.now ≡ at.frame.camera }
    requires grid { IsLeafGrid at.accepted at.frame shaded.now }
    ensures { OnOk result (PutInAll at.accepted at.frame (cells_in_grid shaded.now) stacks.old stacks.new) }
{
    for k in 0..stacks.len() {
        put_cells(camera, shaded, &mut stacks[k])?;
    }
    Ok(())
}
