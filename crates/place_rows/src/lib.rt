//! Rows of values and sets of places of a grid.
//!
//! A bank holds values by shape in rows of an arena.
#![tactic(auto)]

mod bank;
mod bank_planes;
mod mask;
mod storing;

pub use bank::Bank;
pub use mask::{Mask, both};
