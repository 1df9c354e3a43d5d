//! What the shaders of a scene are bound to, and how primitives' variables fit them.
#![tactic(auto)]

mod predefined;

pub use predefined::sets_predefined;
