// Machines before a run.
ghost use Rattle.std.specs.Prelude.{◌≡◌, ℕ, ◌<◌, true, length, get_or, false, IfOk};
ghost use Rattle.builtins.specs.declared.shape.Shape.{Shape as AnyShape};
ghost use Rattle.place_rows.specs.Banks.{size, held, zero_cell};
ghost use Rattle.grid_registers.specs.Rooms.{counted};
ghost use Rattle.grid_machine.specs.Run.{fresh};
ghost use Rattle.grid_machine.specs.State.{state_of, NearIn, Full, Sized, Whole};

use crate::machine::Machine;
use bumpalo::Bump;
use fixed_math::NoMemory;
use grid_registers::{Frame, Registers};
use place_rows::{Bank, Mask};

// Whole budgets, in an arena; or want of memory.
fn whole_budgets<'a>(arena: &'a Bump) -> Result<Vec<u32, &'a Bump>, NoMemory>
    ensures long { IfOk result (λ own. length own.items ≡ 289) }
    ensures each { IfOk result (λ own. (i : ℕ) → i < 289 → get_or own.items i 0 ≡ 65536) }
{
    let own = vec![in arena; 65536; 289]?;
    Ok(own)
}

impl<'a> Machine<'a> {
    /// A machine whose registers are 0, with whole budgets, all places live; or want of memory.
    pub fn fresh(arena: &'a Bump, frame: &'a Frame<'a>) -> Result<Machine<'a>, NoMemory>
        ensures whole { IfOk result (λ m. Whole m) }
        ensures frame { IfOk result (λ m. m.registers.frame.now ≡ frame.now) }
        ensures near { IfOk result (λ m. NearIn m fresh (state_of m)) }
    {
        let places = frame.places;
        let registers = Registers::zeros(arena, frame)?;
        let scratch = Bank::zeros(arena, places, places, places)?;
        let own = whole_budgets(arena)?;
        Ok(Machine {
            registers,
            scratch,
            turns: 65536,
            own,
            live: Mask::full(),
            staying: Mask::full(),
        })
    }
}
