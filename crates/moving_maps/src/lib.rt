//! Transformations that move: a map for the time when the motion begins and one for its end, changed by one function in motion blocks
//! and outside of them.
#![tactic(auto)]

mod change;
mod moving_map;
mod times;

pub use change::{Change, When};
pub use moving_map::MovingMap;
pub use times::Times;
