//! Micropolygons of grids whose points move while the shutter is open.
#![tactic(auto)]

mod moving_cells;

pub use moving_cells::MovingCells;
