// Rows that take the values of registers.
ghost use Rattle.std.specs.Prelude.{◌≡◌, ℕ, ℤ, ◌+◌, ◌*◌, ◌<◌, ◌≤◌, pos, length, get_or};
ghost use Rattle.fixed_math.specs.Fixed.{IsRaw};
ghost use Rattle.builtins.specs.declared.shape.Shape.TheVariants as shapes;
ghost use Rattle.grid_code.specs.Masked.{read};
ghost use Rattle.grid_code.specs.Shapes.{register_shape};
ghost use Rattle.grid_machine.specs.Run.{value_in};
ghost use Rattle.grid_machine.specs.State.{state_of, HasRegister, Whole};

use crate::held::triples_of;
use crate::machine::Machine;
use crate::rows::give;
use grid_code::Register;
use number_rows::Planes;

// Makes at most 128 elements from one on 0.
fn clear_piece(rows: &mut [i64], start: usize)
    requires { start ≤ length rows.old }
    ensures long { length rows.new ≡ length rows.old }
    ensures before { (k : ℕ) → k < start → get_or rows.new k (pos 0) ≡ get_or rows.old k (pos 0) }
    ensures zero { (k : ℕ) → start ≤ k → k < start + 128 → k < length rows.old → get_or rows.new k (pos 0) ≡ pos 0 }
{
    for k in start..start + (rows.len() - start).min(128) {
        rows[k] = 0;
    }
}

/// Makes all elements 0, a kilobyte at a time, for which no instruction has to go through memory byte by byte.
pub fn clear(rows: &mut [i64])
    ensures long { length rows.new ≡ length rows.old }
    ensures raws { (k : ℕ) → IsRaw (get_or rows.new k (pos 0)) }
{
    for piece in 0..rows.len().div_ceil(128) {
        clear_piece(rows, 128 * piece);
    }
}

impl Machine<'_> {
    /// Writes the values of a register of triples into three rows from an element on.
    pub fn unload(&self, from: Register, rows: &mut [i64], width: usize, start: usize)
        requires whole { Whole self.now }
        requires has { HasRegister self.now from }
        requires triple { register_shape from ≡ shapes.Triple }
        requires room { start + 3 * width ≤ length rows.old }
        requires wide { self.now.registers.frame.now.places ≤ width }
        ensures long { length rows.new ≡ length rows.old }
        ensures values { (i : ℕ) → i < self.now.registers.frame.now.places → value_in shapes.Triple rows.new width (start + i) ≡ read (state_of self.now) from i }
        ensures before { (k : ℕ) → k < start → get_or rows.new k (pos 0) ≡ get_or rows.old k (pos 0) }
        ensures raws { ((k : ℕ) → IsRaw (get_or rows.old k (pos 0))) → (k : ℕ) → IsRaw (get_or rows.new k (pos 0)) }
    {
        let Planes { x, y, z } = triples_of(&self.registers, from);
        give(
            &Planes { x, y, z },
            rows,
            width,
            start,
            self.registers.frame.places,
        );
    }
}
