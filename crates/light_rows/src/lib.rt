//! What lights answer at the places of a grid, what is seen of them, and sums over them.
//!
//! Answers lie in rows, one number for each place. A sum over lights is a few loops over rows a light.
#![tactic(auto)]

mod answers;
mod cones;
mod illumination;
mod loops;
mod points;
mod sums;
mod taking;
mod triples;
mod units;
mod viewing;
mod workroom;

pub use answers::Answers;
pub use cones::{Cones, Scope};
pub use illumination::{Dark, Illumination};
pub use points::{Numbers, Points};
pub use sums::Sum;
pub use triples::Triples;
pub use viewing::{Cone, View};
pub use workroom::Workroom;
