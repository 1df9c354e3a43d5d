// The micropolygons of a shaded grid.
ghost use Rattle.std.specs.Prelude.{◌≡◌, ◌<◌, ◌+◌, ◌*◌, ◌-◌, ◌≤◌, ◌^◌, map, length};
ghost use Rattle.hider.specs.Cells.{still, first_corner, cells_of};
ghost use Rattle.hider.specs.CellValues.{CellValues, corner_number, shade_number, values_of, micropolygons_of, stays_between};

use crate::cells::Cells;
use crate::moving_box::MovingBox;
use dice::GridRef;
use fixed_math::Vec3;

/// The micropolygons of a shaded grid, at the same places at all times. Each has the colour and opacity of its first point, or
/// where it is `smooth`, those of all four: they vary over the micropolygon then (RenderMan Interface 3.2, ShadingInterpolation).
#[derive(Clone, Copy)]
pub struct GridCells<'a> {
    pub grid: GridRef<'a>,
    pub smooth: bool,
}

/// The number of the first corner of a cell: cells go by rows, one fewer in a row than points.
pub(crate) fn first_of(columns: usize, cell: usize) -> usize
    requires columns { 2 ≤ columns }
    requires most { columns ≤ 17 }
    requires fits { cell < 2 ^ 32 }
    ensures { result ≡ first_corner columns cell }
{
    cell / (columns - 1) * columns + cell % (columns - 1)
}

/// The number of corner `k` of the cell whose first corner is `n`.
fn corner_of(columns: usize, n: usize, k: usize) -> usize
    requires columns { columns ≤ 17 }
    requires corner { k < 4 }
    requires fits { n < 2 ^ 40 }
    ensures { result ≡ corner_number columns n k }
{
    match k {
        0 => n,
        1 => n + 1,
        2 => n + columns + 1,
        _ => n + columns,
    }
}

impl<'a> GridCells<'a> {
    /// The number of the point at which corner `k` of a cell lies.
    pub fn point_of(&self, cell: usize, k: usize) -> usize
        requires cell { cell < (values_of self.now.smooth self.now.grid).count }
        requires corner { k < 4 }
        ensures value { result ≡ corner_number self.now.grid.columns (first_corner self.now.grid.columns cell) k }
        ensures inside { result < self.now.grid.columns * self.now.grid.rows }
    {
        let columns = self.grid.columns;
        corner_of(columns, first_of(columns, cell), k)
    }

    /// The number of the point whose colour and opacity corner `k` of a cell has.
    fn shade_of(&self, cell: usize, k: usize) -> usize
        requires cell { cell < (values_of self.now.smooth self.now.grid).count }
        requires corner { k < 4 }
        ensures { result ≡ shade_number self.now.smooth self.now.grid.columns cell k }
    {
        let columns = self.grid.columns;
        let first = first_of(columns, cell);
        if self.smooth {
            corner_of(columns, first, k)
        } else {
            first
        }
    }
}

impl<'a> Cells for GridCells<'a> {
    ghost values = { λ c. values_of c.smooth c.grid };

    fn count(&self) -> usize {
        (self.grid.columns - 1) * (self.grid.rows - 1)
    }

    fn corner(&self, cell: usize, k: usize, _time: u16) -> Vec3 {
        let columns = self.grid.columns;
        self.grid.p[corner_of(columns, first_of(columns, cell), k)]
    }

    fn corners(&self, cell: usize, _time: u16) -> [Vec3; 4] {
        let points = self.grid.p;
        let columns = self.grid.columns;
        let first = first_of(columns, cell);
        [
            points[first],
            points[first + 1],
            points[first + columns + 1],
            points[first + columns],
        ]
    }

    fn moving_box(&self, cell: usize) -> MovingBox {
        let corners = self.corners(cell, 0);
        MovingBox::around(&corners, &corners)
    }

    fn colour(&self, cell: usize, k: usize) -> Vec3 {
        self.grid.ci[self.shade_of(cell, k)]
    }

    fn opacity(&self, cell: usize, k: usize) -> Vec3 {
        self.grid.oi[self.shade_of(cell, k)]
    }

    fn still_grid(&self) -> Option<GridCells<'_>> {
        Some(*self)
    }

    ghost between = { λ c i k t a hi hk ht. stays_between _ };
}

/// The law of the cells of a grid: they are those between its points by rows, each of which stays where it is.
pub fn grid_cells_law(cells: &GridCells, one_sided: bool, flip: bool)
    ensures { let g = cells.now.grid in micropolygons_of (values_of cells.now.smooth g) one_sided flip ≡ map (still one_sided flip) (cells_of cells.now.smooth g.columns g.rows g.p.now g.ci.now g.oi.now) }
{}
