//! The tree of splits: whether a part of a patch is split or diced, and the walk through its leaves.
//!
//! A part of a patch is halved along a parameter until its control net is short enough on the raster for one small
//! grid (Cook, Carpenter and Catmull, "The Reyes Image Rendering Architecture", 1987).
#![tactic(auto)]

mod deciding;
mod extents;
mod lengths;
mod sights;
mod splits;
mod walk;

pub use deciding::decide;
pub use extents::{Extent, Reach, extent_of, meets};
pub use sights::{Sight, sight_of};
pub use splits::{Decision, halves};
pub use walk::{Leaf, Walk};
