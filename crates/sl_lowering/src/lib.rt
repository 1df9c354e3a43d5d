//! The core trees of shaders and of the defaults of their parameters.
#![tactic(auto)]

mod core_nodes;
mod lowering;

pub use lowering::{lower_body, lower_default};
