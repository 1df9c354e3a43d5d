//! The typed tree of a shader: types, functions put in place, and classes settled.
#![tactic(auto)]

mod checking;
mod inline;
mod sizes;

pub use checking::check;
pub use sl_typing::{TypeCode, TypeFault};
