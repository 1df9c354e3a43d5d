//! Grid code: structured blocks of instructions over uniform and varying registers, and what they mean under a mask.
#![tactic(auto)]

mod code;
mod collect;
mod laws;
mod look_up_set;
pub mod named;
mod register_set;
mod registers;
mod shader_code;
mod slot;

pub use code::{Node, Register, Source};
pub use collect::gather;
pub use laws::{leaver_law, own_turns_law, rest_law};
pub use look_up_set::LookUpSet;
pub use named::{register, register_of};
pub use register_set::RegisterSet;
pub use shader_code::Code;
pub use slot::Slot;
