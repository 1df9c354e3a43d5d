// The values of registers.
ghost use Rattle.std.specs.Prelude.{◌≡◌, ℕ, IfOk};
ghost use Rattle.builtins.specs.declared.shape.Shape.{Shape as AnyShape};
ghost use Rattle.place_rows.specs.Banks.{size, held, zero_cell};
ghost use Rattle.grid_registers.specs.Rooms.{counted};
ghost use Rattle.grid_registers.specs.Held.{Full, Sized};

use crate::frame::Frame;
use crate::room::Counts;
use bumpalo::Bump;
use fixed_math::NoMemory;
use place_rows::Bank;

/// The values of registers: the row of a varying register is its place among those of its shape, and so is the place of a uniform one.
#[derive(Drop)]
pub struct Registers<'a> {
    pub frame: &'a Frame<'a>,
    pub rows: Bank<'a>,
    pub shared: Bank<'a>,
}

// A bank of that many values of each shape, all 0; or want of memory.
fn zeros_of<'a>(arena: &'a Bump, counts: Counts) -> Result<Bank<'a>, NoMemory>
    ensures size { IfOk result (λ b. (s : AnyShape) → size b s ≡ counted counts s) }
    ensures zero { IfOk result (λ b. (s : AnyShape) (k : ℕ) → held b s k ≡ zero_cell s) }
{
    Bank::zeros(arena, counts.numbers, counts.triples, counts.words)
}

impl<'a> Registers<'a> {
    /// Registers that are 0; or want of memory.
    pub fn zeros(arena: &'a Bump, frame: &'a Frame<'a>) -> Result<Registers<'a>, NoMemory>
        ensures full { IfOk result (λ r. Full r) }
        ensures sized { IfOk result (λ r. Sized r) }
        ensures frame { IfOk result (λ r. r.frame.now ≡ frame.now) }
        ensures rows { IfOk result (λ r. (s : AnyShape) (k : ℕ) → held r.rows s k ≡ zero_cell s) }
        ensures shared { IfOk result (λ r. (s : AnyShape) (k : ℕ) → held r.shared s k ≡ zero_cell s) }
    {
        let room = frame.room;
        let rows = zeros_of(arena, room.rows)?;
        let shared = zeros_of(arena, room.shared)?;
        Ok(Registers {
            frame,
            rows,
            shared,
        })
    }
}
