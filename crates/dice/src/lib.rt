//! Dicing: the grid of points with normals that a leaf of a surface is shaded on, and what a shader reads of a point's place in it.
#![tactic(auto)]

mod diced;
mod grid;
mod normals;
mod parameters;

pub use diced::{Diced, GridRef, normals_alone, points, points_alone};
pub use grid::{line_at, positions};
pub use parameters::{placed_derivative, placed_parameter, placed_step};
