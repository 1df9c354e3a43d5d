// The points of a leaf's grid.
ghost use Rattle.std.specs.Prelude.{true, ◌≡◌, ◌≤◌, ◌<◌, ◌*◌, ◌^◌};
ghost use Rattle.dice.specs.Grids.{line_at};
ghost use Rattle.dice.specs.Placed.{parameter_of};
ghost use Rattle.grid_variables.specs.Points.{Leaf as LeafValue, patch_column, patch_columns, patch_row, patch_rows};
ghost use Rattle.displace_shade.specs.Diced.{grid_value};
ghost use Rattle.hider.specs.CellValues.{values_of, corner_number};
ghost use Rattle.hider.specs.Cells.{first_corner};
ghost use Rattle.pixel_account.specs.Origins.{grid_point, grid_cell};
ghost use Rattle.pixel_account.specs.Grids.{IsGridOf};

use bound_split::Leaf;
use dice::{GridRef, line_at, placed_parameter};
use fixed_math::Num;
use hider::GridCells;
use pixel_record::{GridCell, GridPoint};
use scene::Prim;

/// The shaded grid of a leaf of a primitive.
#[derive(Clone, Copy)]
pub(crate) struct LeafGrid<'p, 'a> {
    pub(crate) prim: &'p Prim,
    pub(crate) leaf: Leaf,
    pub(crate) grid: GridRef<'a>,
}

/// The shader's u at a column of points of a leaf's grid.
fn u_at(prim: &Prim, leaf: &Leaf, column: usize) -> Num
    requires p { leaf.now.p ≤ 4 }
    requires column { column ≤ 2 ^ leaf.now.p }
    ensures { result ≡ parameter_of (patch_column prim.now) (patch_columns prim.now) (line_at leaf.now.piece.a leaf.now.piece.i leaf.now.p column) }
{
    let piece = &leaf.piece;
    piece.recall();
    let [place, count, _, _] = prim.place;
    placed_parameter(
        place,
        count,
        line_at(piece.a, piece.i, leaf.p, column as u16),
    )
}

/// The shader's v at a row of points.
fn v_at(prim: &Prim, leaf: &Leaf, row: usize) -> Num
    requires q { leaf.now.q ≤ 4 }
    requires row { row ≤ 2 ^ leaf.now.q }
    ensures { result ≡ parameter_of (patch_row prim.now) (patch_rows prim.now) (line_at leaf.now.piece.b leaf.now.piece.j leaf.now.q row) }
{
    let piece = &leaf.piece;
    piece.recall();
    let [_, _, place, count] = prim.place;
    placed_parameter(place, count, line_at(piece.b, piece.j, leaf.q, row as u16))
}

/// Point `n` of the grid.
fn point_at(shaded: &LeafGrid<'_, '_>, n: usize) -> GridPoint
    ghost of: { LeafValue }
    requires of { IsGridOf of shaded.now }
    requires inside { n < shaded.now.grid.columns * shaded.now.grid.rows }
    ensures { result ≡ grid_point of (grid_value shaded.now.grid) n }
{
    let grid = &shaded.grid;
    GridPoint {
        point: grid.p[n],
        colour: grid.ci[n],
        opacity: grid.oi[n],
        u: u_at(shaded.prim, &shaded.leaf, n % grid.columns),
        v: v_at(shaded.prim, &shaded.leaf, n / grid.columns),
    }
}

/// The point at corner `k` of a cell.
fn corner_at(shaded: &LeafGrid<'_, '_>, cell: usize, k: usize) -> GridPoint
    ghost of: { LeafValue }
    requires of { IsGridOf of shaded.now }
    requires cell { cell < (values_of true shaded.now.grid).count }
    requires corner { k < 4 }
    ensures { let columns = shaded.now.grid.columns in result ≡ grid_point of (grid_value shaded.now.grid) (corner_number columns (first_corner columns cell) k) }
{
    let cells = GridCells {
        grid: shaded.grid,
        smooth: true,
    };
    point_at(shaded, cells.point_of(cell, k))
}

/// Cell `cell` of the grid.
pub(crate) fn cell_of(shaded: &LeafGrid<'_, '_>, cell: usize) -> GridCell
    ghost of: { LeafValue }
    requires of { IsGridOf of shaded.now }
    requires cell { cell < (values_of true shaded.now.grid).count }
    ensures { result ≡ grid_cell of (grid_value shaded.now.grid) cell }
{
    let columns = shaded.grid.columns - 1;
    let rows = shaded.grid.rows - 1;
    GridCell {
        piece: shaded.leaf.piece,
        columns,
        rows,
        column: cell % columns,
        row: cell / columns,
        points: [
            corner_at(shaded, cell, 0),
            corner_at(shaded, cell, 1),
            corner_at(shaded, cell, 2),
            corner_at(shaded, cell, 3),
        ],
    }
}
