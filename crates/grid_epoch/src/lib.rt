//! Shaded grids that are kept over the tiles of a frame, of at most a limit of points in all.
#![tactic(auto)]

mod epoch;

pub use epoch::Epoch;
