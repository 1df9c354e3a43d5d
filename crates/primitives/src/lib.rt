//! The patches of primitives: what a primitive's request, its bases and its map to camera space give
//! (RenderMan Interface 3.2, sections 5.1 and 5.2).
#![tactic(auto)]

mod faces;
mod fault;
mod forms;
mod meshes;
mod motion;
mod patch;
mod points;
mod quarters;
mod requests;
mod seat;
mod shift;
mod spread;
mod variables;
mod ways;

pub use fault::PrimitiveFault;
pub use motion::{Last, moving_patches_of};
pub use patch::PrimitivePatch;
pub use requests::patches_of;
pub use shift::Shift;
