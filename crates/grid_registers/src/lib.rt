//! The values of registers on a grid, and instructions computed of them a row at a time.
//!
//! Registers hold the numbers, the triples and the texts each in rows of their own. An instruction's operands are found once, its operation is
//! chosen once, and a row takes what it gives.
#![tactic(auto)]

mod choosing;
mod differences;
mod frame;
mod instruction;
mod look_ups;
mod of_numbers;
mod of_parts;
mod of_triples;
mod operand;
mod planes;
mod reading;
mod registers;
mod room;
mod sides;
mod spaces;
mod textures;

pub use frame::{Frame, Steps};
pub use look_ups::Placed;
pub use operand::{Operand, Work};
pub use reading::row_of;
pub use registers::Registers;
pub use room::{Counts, Room, counts_of, counts_once};
pub use textures::{NoTextures, Textures};
