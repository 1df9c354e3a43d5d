//! Rows of numbers as shader code takes and leaves them: the values of parameters and variables at the points of a leaf's grid.
#![tactic(auto)]

mod arguments;
mod given;
mod left;
mod parameters;
mod rows;

pub use arguments::{surface_values, uniform_values};
pub use given::{Wanted, rows_given};
pub use left::triples_left;
pub use parameters::Parameters;
pub use rows::length_of_row;
