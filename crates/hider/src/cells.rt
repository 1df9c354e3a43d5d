// Micropolygons that may move.
ghost use Rattle.std.specs.Prelude.{◌≡◌, ◌<◌, IfSome};
ghost use Rattle.hider.specs.CellBoxes.{EnclosesCell};
ghost use Rattle.hider.specs.CellValues.{CellValues, MovesBetween, corners_when, values_of};

use crate::extents::{high_of_two, low_of_two};
use crate::grid_cells::GridCells;
use crate::moving_box::MovingBox;
use fixed_math::Vec3;

/// Micropolygons that may move: each is asked for its corners at a time, in 1/65536 of the shutter's interval, and for their
/// colours and opacities. A coordinate of a corner lies at any time between those at times 0 and 65535.
pub trait Cells {
    ghost values: { Self → CellValues };

    /// The number of cells.
    fn count(&self) -> usize
        ensures { result ≡ (values self.now).count };

    /// Corner `k` of a cell at a time: the four go round, in the order of [`crate::Cell`].
    fn corner(&self, cell: usize, k: usize, time: u16) -> Vec3
        requires cell { cell < (values self.now).count }
        requires corner { k < 4 }
        ensures { result ≡ (values self.now).corner cell k time };

    /// The four corners of a cell at a time, in that order: each is asked for by [`Cells::corner`], unless the implementer has a
    /// shorter way to all four.
    fn corners(&self, cell: usize, time: u16) -> [Vec3; 4]
        requires { cell < (values self.now).count }
        ensures { result ≡ corners_when (values self.now) cell time }
    {
        [
            self.corner(cell, 0, time),
            self.corner(cell, 1, time),
            self.corner(cell, 2, time),
            self.corner(cell, 3, time),
        ]
    }

    /// A box in camera space that holds the corners of a cell at all times: the least that holds them when the shutter opens and
    /// when it closes, and it stays where it is. An implementer that knows how they go may give a tighter box, which goes with them:
    /// the tighter it is, the fewer samples are tried.
    fn moving_box(&self, cell: usize) -> MovingBox
        requires { cell < (values self.now).count }
        ensures { EnclosesCell (values self.now) cell result }
    {
        let first = self.corners(cell, 0);
        let last = self.corners(cell, 65535);
        let low = low_of_two(&first, &last);
        let high = high_of_two(&first, &last);
        let closing_low = low;
        let closing_high = high;
        MovingBox {
            low,
            high,
            closing_low,
            closing_high,
        }
    }

    /// The colour of corner `k` of a cell.
    fn colour(&self, cell: usize, k: usize) -> Vec3
        requires cell { cell < (values self.now).count }
        requires corner { k < 4 }
        ensures { result ≡ (values self.now).colour cell k };

    /// The opacity of corner `k` of a cell.
    fn opacity(&self, cell: usize, k: usize) -> Vec3
        requires cell { cell < (values self.now).count }
        requires corner { k < 4 }
        ensures { result ≡ (values self.now).opacity cell k };

    /// The cells of a grid that they are, where they stay where they are at all times; None where they may move, and by default: it
    /// is about speed alone.
    fn still_grid(&self) -> Option<GridCells<'_>>
        ensures { IfSome result (λ c. values self.now ≡ values_of c.smooth c.grid) }
    {
        None
    }

    ghost between: { (c : Self) → MovesBetween (values c) };
}
