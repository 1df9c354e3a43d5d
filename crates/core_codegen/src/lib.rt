//! The code of a core tree, and the registers that it begins with.
#![tactic(auto)]

mod beginning;
mod emission;
mod ends;
mod laws;
mod locals;
mod nodes;
mod registers;
mod scope;
mod slot;

pub use beginning::{given_registers, param_slots};
pub use emission::emit;
pub use laws::uniform_register_law;
