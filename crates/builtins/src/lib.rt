//! The built-in functions of the Shading Language on the values of one point: each is a stated formula over exact whole numbers.
//!
//! All are total. `sin`, `cos`, `sqrt` and `pow` are calls of `fixed_math`.
#![tactic(auto)]

mod blended;
mod choice;
mod formulas;
mod numbers;
mod placed;
mod shape;
mod shapes;
mod table;
mod triples;
mod values;

pub use blended::noise;
pub use choice::same_triple;
pub use formulas::{number_formula, order, part, parts, three_parts};
pub use numbers::{
    abs, ceil, clamp, degrees, exp, floor, inversesqrt, log, max, min, mix, modulo, radians, round,
    sign, smoothstep, step, tan,
};
pub use placed::{from_space, image, into_space};
pub use shape::Shape;
pub use shapes::{shape_applied, shape_of};
pub use table::applied;
pub use triples::{
    comp, cross, depth, distance, dot, faceforward, length, normalize, reflect, xcomp, ycomp, zcomp,
};
pub use values::{as_shape, copied, each_three, each_two, is_true, number, triple, truth};
