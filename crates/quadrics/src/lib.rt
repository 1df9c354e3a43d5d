//! Quadrics: rational patches of spheres, cylinders, cones and disks. A point is the exact quotient of two Bernstein sums, rounded down once.
#![tactic(auto)]

mod any_patch;
mod mixing;
mod quadric;
mod quotient;
mod round;
mod rows;
mod ruled;
mod spans;

pub use any_patch::AnyPatch;
pub use quadric::Quadric;
pub use round::Round;
pub use ruled::Ruled;
