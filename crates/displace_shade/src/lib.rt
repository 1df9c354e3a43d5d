//! Shading: displacement, surface and volume over the diced grid of a leaf.
#![tactic(auto)]

mod asking;
mod bound;
mod cached;
mod constant;
mod lamps;
mod leaves;
mod runs;
mod set;
mod shop;

pub use constant::constant_law;
pub use set::ShaderSet;
pub use shop::Shop;
