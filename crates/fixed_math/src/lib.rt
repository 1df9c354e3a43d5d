//! Fixed-point numbers and the exact whole-number arithmetic that all other crates stand on.
//!
//! A number is a raw whole number that stands for raw / 65536. Each call is a stated formula over exact whole
//! numbers: one floor, one clamp, no rounding mode and no machine dependence.
#![tactic(auto)]

mod decimal;
mod decimal_text;
mod digit_rows;
mod digits;
mod direction;
mod exact;
mod hash;
mod list;
mod memory;
mod names;
mod num;
mod power;
mod roots;
mod sine;
mod tables;
mod text;
mod vec3;
mod wide;

pub use decimal::Decimal;
pub use direction::unit;
pub use exact::{floor_by, floor_div, minus, plus, scaled, times};
pub use hash::{hash32, with_word};
pub use list::List;
pub use memory::NoMemory;
pub use names::Names;
pub use num::Num;
pub use roots::isqrt;
pub use text::Text;
pub use vec3::{Axis, Vec3};
pub use wide::Wide;
