// Operands found, and values computed of them.
ghost use Rattle.std.specs.Prelude.{◌≡◌, ℕ, ◌<◌, ◌≤◌, true, length};
ghost use Rattle.grid_code.specs.Masked.{read};
ghost use Rattle.grid_code.specs.Uses.{is_in, has, numbers_of};
ghost use Rattle.place_rows.specs.Banks.{held};
ghost use Rattle.place_values.specs.Cells.{value_of};
ghost use Rattle.grid_registers.specs.Held.{rank, held_by, texts_of, Full};
ghost use Rattle.grid_registers.specs.Operands.{cell_at, operand_at, work_at, OperandIn, WorkIn};

use crate::operand::{Operand, Work};
use crate::registers::Registers;
use builtins::Shape;
use grid_code::{Register, RegisterSet};
use place_values::Cell;

/// The place of a register among those of its shape.
#[tactic(auto, using(crate::proofs::Ranks::rank_found))]
pub fn row_of(set: &RegisterSet, shape: Shape, number: u32) -> usize
    requires { is_in set.now shape number ≡ true }
    ensures below { result < length (numbers_of set.now shape) }
    ensures value { result ≡ rank (numbers_of set.now shape) number }
{
    match set.index(shape, number) {
        Some(row) => row,
        None => unreachable!(),
    }
}

impl Registers<'_> {
    /// Where a register's values stand.
    pub fn operand(&self, register: Register) -> Operand
        requires full { Full self.now }
        requires has { has self.now.frame.now.varying.now self.now.frame.now.uniform.now register ≡ true }
        ensures fits { OperandIn self.now result }
        ensures same { (i : ℕ) → operand_at self.now result i ≡ read (held_by self.now) register i }
    {
        match register {
            Register::Uniform(shape, number) => {
                Operand::Shared(shape, row_of(self.frame.uniform, shape, number))
            }
            Register::Varying(shape, number) => Operand::Row(
                shape,
                row_of(self.frame.varying, shape, number) * self.frame.places,
            ),
        }
    }

    /// What is held at a place.
    pub fn get(&self, operand: Operand, place: usize) -> Cell
        requires fits { OperandIn self.now operand }
        requires place { place < self.now.frame.now.places }
        ensures { result ≡ cell_at self.now operand place }
    {
        match operand {
            Operand::Row(shape, start) => self.rows.get(shape, start + place),
            Operand::Shared(shape, at) => self.shared.get(shape, at),
        }
    }

    /// What is computed at a place.
    pub fn value(&self, work: &Work, place: usize) -> Cell
        requires fits { WorkIn self.now work.now }
        requires place { place < self.now.frame.now.places }
        ensures { value_of (texts_of self.now) result ≡ work_at self.now work.now place }
    {
        let setting = &self.frame.setting;
        match work {
            Work::Constant(cell) => *cell,
            Work::Copy(q) => self.get(*q, place),
            Work::Into(shape, q) => setting.as_shape(*shape, &self.get(*q, place)),
            Work::One(op, p) => setting.of_one(*op, &self.get(*p, place)),
            Work::Two(op, p, q) => setting.of_two(*op, &self.get(*p, place), &self.get(*q, place)),
            Work::Three(op, p, q, t) => setting.of_three(
                *op,
                &self.get(*p, place),
                &self.get(*q, place),
                &self.get(*t, place),
            ),
        }
    }
}
