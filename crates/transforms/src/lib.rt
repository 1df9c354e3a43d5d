//! Maps between spaces, and the camera that puts points on the raster.
//!
//! Points are rows and maps act from the right of them. Every formula is exact whole-number arithmetic with one floor.
#![tactic(auto)]

mod affine;
mod camera;
mod concat;
mod corners;
mod fault;
mod field;
mod image;
mod matrix;
mod place;
mod rotation;
mod scaling;
mod spaces;
mod view;

pub use affine::Affine;
pub use camera::Camera;
pub use fault::FormFault;
pub use spaces::Spaces;
pub use view::View;
