//! The interpreter of grid code: instructions over rows of values in an arena.
//!
//! A machine holds the values of a code's registers, the numbers, the triples and the texts each in rows of their own. An instruction
//! computes a row and stores it at the places that are live. Everything is laid out before the first instruction.
#![tactic(auto)]

mod asking;
mod blocks;
mod call;
mod control;
mod execute;
mod fresh;
mod given;
mod held;
mod inputs;
mod lamp;
mod lamps;
mod leaving;
mod lighting;
mod loading;
mod look_ups;
mod machine;
mod preparing;
mod reset;
mod rows;
mod step;
mod sums;
mod unloading;

pub use call::run;
pub use grid_registers::{NoTextures, Textures};
pub use inputs::{Inputs, Lights};
