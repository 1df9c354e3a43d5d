//! The account of a pixel of a frame's picture, by the definitions of the picture: each sample that counts for the pixel sees all leaves
//! of the frame, one after another.
#![tactic(auto)]

mod account;
mod accounts;
mod cells;
mod laid;
mod leaves;
mod points;
mod primitives;
mod shown;
mod stacks;
mod sums;
mod tones;
mod traces;
mod window;

pub use account::explain;
