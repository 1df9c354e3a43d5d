//! Surfaces that move: from an opening surface to a closing one, with boxes that hold all between them; the places that points take on
//! the way.
#![tactic(auto)]

mod boxes;
mod closing;
mod moments;
mod moving;
mod ways;

pub use closing::closing_place;
pub use moments::steps_at;
pub use moving::Moving;
pub use ways::{on_way, place_on_way};
