// The machine's state.
use bumpalo::Bump;
use grid_registers::Registers;
use place_rows::{Bank, Mask};

/// Registers, a row of each shape for what an instruction gives, budgets and masks. The budgets of the places stand in the arena, so that a
/// machine isn't dear to hand on.
#[derive(Drop)]
pub struct Machine<'a> {
    pub registers: Registers<'a>,
    pub scratch: Bank<'a>,
    pub turns: u32,
    pub own: Vec<u32, &'a Bump>,
    pub live: Mask,
    pub staying: Mask,
}
