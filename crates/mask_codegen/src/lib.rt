//! The compiler from shaders to grid code.
#![tactic(auto)]

mod compiled;
mod fault;
mod laws;
mod lit;
mod looks;
mod named;
mod sets;

pub use compiled::{Compiled, compile};
pub use fault::CodeFault;
pub use laws::classes_agree;
