// Instructions and differences written into registers under a mask.
ghost use Rattle.std.specs.Prelude.{◌≡◌, ℕ, true, false};
ghost use Rattle.sl_ast.specs.declared.typed.Value.{Value as AnyValue};
ghost use Rattle.builtins.specs.Differences.{difference as difference_of};
ghost use Rattle.grid_code.specs.Masked.{read, result_of};
ghost use Rattle.grid_code.specs.Names.{reg};
ghost use Rattle.grid_code.specs.Shapes.{register_shape, source_shape, difference_shape};
ghost use Rattle.grid_code.specs.Uses.{is_in};
ghost use Rattle.place_rows.specs.Banks.{held};
ghost use Rattle.place_values.specs.Cells.{value_of};
ghost use Rattle.grid_machine.specs.State.{state_of, ground_of, lines_of, texts_of, HasRegister, Whole, Kept, SourceReady};
ghost use Rattle.grid_machine.specs.Writes.{Writes, HoldsRow};
ghost use Rattle.grid_registers.specs.Operands.{reach};

use crate::machine::Machine;
use builtins::Shape;
use grid_code::{Register, Source};
use grid_registers::row_of;
use sl_ast::Difference;

impl Machine<'_> {
    // The first value of the scratch row of a shape into a uniform register, where some place is live.
    fn commit_shared(&mut self, shape: Shape, number: u32)
        requires whole { Whole self.old }
        requires has { is_in self.old.registers.frame.now.uniform.now shape number ≡ true }
        ensures kept { Kept self.old self.new }
        ensures near { (f : ℕ → AnyValue) → value_of (texts_of self.old.registers) (held self.old.scratch shape 0) ≡ f 0 → Writes self.old (reg true shape number) f self.new }
    {
        if self.live.any(self.registers.frame.places) {
            let at = row_of(self.registers.frame.uniform, shape, number);
            let cell = self.scratch.get(shape, 0);
            self.registers.shared.set(at, &cell);
        }
    }

    // The scratch row of a shape into a varying register, at the places that are live.
    fn commit_row(&mut self, shape: Shape, number: u32)
        requires whole { Whole self.old }
        requires has { is_in self.old.registers.frame.now.varying.now shape number ≡ true }
        ensures kept { Kept self.old self.new }
        ensures near { (f : ℕ → AnyValue) → HoldsRow (texts_of self.old.registers) self.old.scratch shape self.old.registers.frame.now.places f → Writes self.old (reg false shape number) f self.new }
    {
        let row = row_of(self.registers.frame.varying, shape, number);
        self.registers
            .rows
            .store(shape, row, &self.live.places, &self.scratch);
    }

    // The scratch row of a register's shape into it.
    pub(crate) fn commit(&mut self, to: Register)
        requires whole { Whole self.old }
        requires has { HasRegister self.old to }
        ensures kept { Kept self.old self.new }
        ensures near { (f : ℕ → AnyValue) → HoldsRow (texts_of self.old.registers) self.old.scratch (register_shape to) (reach to self.old.registers.frame.now.places) f → Writes self.old to f self.new }
    {
        match to {
            Register::Uniform(shape, number) => self.commit_shared(shape, number),
            Register::Varying(shape, number) => self.commit_row(shape, number),
        }
    }

    // How many places of a row go into a register.
    pub(crate) fn reach(&self, to: Register) -> usize
        ensures { result ≡ reach to self.now.registers.frame.now.places }
    {
        match to {
            Register::Uniform(_, _) => 1,
            Register::Varying(_, _) => self.registers.frame.places,
        }
    }

    /// An instruction.
    pub fn put(&mut self, to: Register, source: &Source)
        requires whole { Whole self.old }
        requires has { HasRegister self.old to }
        requires ready { SourceReady self.old.registers.frame.now.varying.now self.old.registers.frame.now.uniform.now (texts_of self.old.registers) source.now }
        requires shape { source_shape source.now ≡ register_shape to }
        ensures kept { Kept self.old self.new }
        ensures near { Writes self.old to (result_of source.now (ground_of self.old.registers.frame.now) (state_of self.old)) self.new }
    {
        let work = self.registers.work(source);
        self.registers.compute(to, &work, &mut self.scratch);
        self.commit(to);
    }

    /// A difference.
    pub fn differ(&mut self, to: Register, difference: Difference, of: Register)
        requires whole { Whole self.old }
        requires has { HasRegister self.old to }
        requires of { HasRegister self.old of }
        requires shape { difference_shape difference (register_shape of) ≡ register_shape to }
        ensures kept { Kept self.old self.new }
        ensures near { let frame = self.old.registers.frame.now in Writes self.old to (difference_of difference (lines_of frame) frame.setting.spaces.now.flip (read (state_of self.old) of)) self.new }
    {
        let operand = self.registers.operand(of);
        let count = self.reach(to);
        self.registers
            .fill_differences(difference, operand, count, &mut self.scratch);
        self.commit(to);
    }
}
