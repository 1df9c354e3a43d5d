//! Meshes and polygons as lists of patches in Bezier form (RenderMan Interface 3.2, sections 5.1 and 5.2): bases, counts, pieces.
#![tactic(auto)]

mod basis;
mod bezier;
mod blend;
mod counts;
mod fault;
mod meshes;
mod net;
mod polygons;
mod range;
mod shape;

pub use basis::Basis;
pub use counts::{Counts, counts_of};
pub use fault::MeshFault;
pub use meshes::{mesh, patch_at};
pub use polygons::{flat_normal, piece_corners, piece_of, polygon};
pub use range::are_in_range;
pub use shape::Shape;
