//! Values at one place of a grid, without memory of their own, and what operations give of them.
//!
//! A cell is a number, a triple, or the place of a text in the list of a run's texts.
#![tactic(auto)]

mod cell;
mod formulas;
mod known;
mod placed;
mod slope;
mod table;

pub use cell::{Cell, Setting};
