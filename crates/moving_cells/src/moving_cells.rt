// The micropolygons of a grid whose points move.
ghost use Rattle.std.specs.Prelude.{◌≡◌, ◌*◌, length};
ghost use Rattle.hider.specs.CellValues.{values_of, grid_values};
ghost use Rattle.moving_cells.specs.MovingGrids.{values_when, moving-between};

use dice::GridRef;
use fixed_math::Vec3;
use hider::{Cells, GridCells, MovingBox};
use moving::place_on_way;

/// The micropolygons of a grid whose points go straight from their places to closing places while the shutter is open, or stay where
/// there are none. Each has the colour and opacity of its first point, or where it is `smooth`, those of all four.
#[derive(Clone, Copy)]
pub struct MovingCells<'a> {
    pub grid: GridRef<'a>,
    pub smooth: bool,
}

impl<'a> MovingCells<'a> {
    /// The cells where they are before they move.
    fn opening_cells(&self) -> GridCells<'a>
        ensures grid { result.grid ≡ self.now.grid }
        ensures smooth { result.smooth ≡ self.now.smooth }
    {
        GridCells {
            grid: self.grid,
            smooth: self.smooth,
        }
    }

    /// The same at other places.
    fn closing_cells(&self, places: &'a [Vec3]) -> GridCells<'a>
        requires { length places.now ≡ self.now.grid.columns * self.now.grid.rows }
        ensures columns { result.grid.columns ≡ self.now.grid.columns }
        ensures rows { result.grid.rows ≡ self.now.grid.rows }
        ensures places { result.grid.p.now ≡ places.now }
    {
        GridCells {
            grid: GridRef {
                columns: self.grid.columns,
                rows: self.grid.rows,
                p: places,
                ci: self.grid.ci,
                oi: self.grid.oi,
                closing: None,
            },
            smooth: self.smooth,
        }
    }
}

impl<'a> Cells for MovingCells<'a> {
    ghost values = { λ c. values_when c.smooth c.grid };

    fn count(&self) -> usize {
        self.opening_cells().count()
    }

    fn corner(&self, cell: usize, k: usize, time: u16) -> Vec3 {
        let n = self.opening_cells().point_of(cell, k);
        let opening = self.grid.p[n];
        match self.grid.closing {
            None => opening,
            Some(closing) => place_on_way(opening, closing[n], time as u32),
        }
    }

    fn corners(&self, cell: usize, time: u16) -> [Vec3; 4] {
        let opening = self.opening_cells().corners(cell, time);
        match self.grid.closing {
            None => opening,
            Some(places) => {
                let [a, b, c, d] = opening;
                let [e, f, g, h] = self.closing_cells(places).corners(cell, time);
                let steps = time as u32;
                [
                    place_on_way(a, e, steps),
                    place_on_way(b, f, steps),
                    place_on_way(c, g, steps),
                    place_on_way(d, h, steps),
                ]
            }
        }
    }

    fn moving_box(&self, cell: usize) -> MovingBox {
        let opening = self.opening_cells().corners(cell, 0);
        match self.grid.closing {
            None => MovingBox::around(&opening, &opening),
            Some(places) => {
                let closing = self.closing_cells(places).corners(cell, 0);
                MovingBox::around(&opening, &closing)
            }
        }
    }

    fn colour(&self, cell: usize, k: usize) -> Vec3 {
        self.opening_cells().colour(cell, k)
    }

    fn opacity(&self, cell: usize, k: usize) -> Vec3 {
        self.opening_cells().opacity(cell, k)
    }

    fn still_grid(&self) -> Option<GridCells<'_>> {
        match self.grid.closing {
            None => Some(self.opening_cells()),
            Some(_) => None,
        }
    }

    ghost between = { λ c. moving-between c.smooth c.grid };
}
