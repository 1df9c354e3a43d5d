//! Kernels on rows of numbers, one number for each place, and the same kernels on single numbers.
//!
//! A number is a raw of 32 bits: it stands for raw / 65536. Each element of a row is the formula of the elements at its place, for
//! every number of 32 bits. The loops are plain ones over one small function; the compiler turns them into lanes.
#![tactic(auto)]

mod calls;
pub mod direction;
mod edges;
mod fine;
mod kernels;
pub mod mask;
mod near;
mod power;
mod quotient;
pub mod raw;
mod root;
mod sine;
mod tables;
pub mod wide;

pub use calls::{add, and, any, equal, less, less_equal, max, min, mul, not, or, select, sub};
pub use edges::edge;
pub use near::{is_near_unit, near_unit};
