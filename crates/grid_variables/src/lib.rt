//! The variables at the points of a leaf's grid: those that its primitive gives, those that shaders begin with, and what is kept of those that
//! shaders leave.
#![tactic(auto)]

mod at_points;
mod bilinear;
mod closings;
mod corners;
mod kept;
mod leaf;
mod moves;
mod named;
mod places;
mod stages;
mod values;
mod variables;

pub use at_points::{
    first_colours, first_coordinates, first_opacities, normals_or, one_colour, one_opacity,
    second_coordinates, spread,
};
pub use closings::moving_grid;
pub use kept::kept_near;
pub use leaf::{Along, Leaf};
pub use places::{derivatives, parameters};
pub use stages::{begun, geometric_normals, grid_of};
pub use values::value_or;
pub use variables::Variables;
