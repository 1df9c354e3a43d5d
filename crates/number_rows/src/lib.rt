//! Rows of numbers at the places of a grid, and operations on them.
//!
//! A row holds numbers in 32 bits. An operation is chosen once for a row, and is then one loop over the places.
#![tactic(auto)]

mod choice;
mod comparing;
mod dots;
mod kernels;
mod loops;
mod plane;
mod raw;
mod triples;
mod units;

pub use choice::{number_row, order_rows, part_row, parts_rows, three_parts_rows};
pub use comparing::{And, Chosen, Differs, Not, Or, Same, nonzero_places};
pub use dots::{Dot, FaceForward};
pub use kernels::{Add, Multiply, One, Power, SmoothStep, Step, Three, Two};
pub use loops::{blend, copy, fill, give_raws, one_plane, take_raws, three_planes, two_planes};
pub use plane::{Plane, Planes};
pub use raw::Raw;
pub use triples::{
    Cross, Distance, Length, Noise, OfTriple, OfTriples, Reflect, ToTriple, ToTripleOfThree,
    ToTriples, number_of_triple, number_of_triples, triple_of_three, triple_of_triple,
    triple_of_triples,
};
pub use units::{Normalize, unit};
