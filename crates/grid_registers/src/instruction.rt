// Instructions computed at the places of a row.
ghost use Rattle.std.specs.Prelude.{◌≡◌, ℕ, ◌≤◌, true};
ghost use Rattle.std.specs.List.{list_all};
ghost use Rattle.builtins.specs.declared.shape.Shape.{Shape as AnyShape};
ghost use Rattle.grid_code.specs.Masked.{read, result_of};
ghost use Rattle.grid_code.specs.Uses.{has};
ghost use Rattle.place_rows.specs.Banks.{size};
ghost use Rattle.grid_registers.specs.Held.{held_by, texts_of, Full, HoldsEach};
ghost use Rattle.grid_registers.specs.Frames.{ground_of};
ghost use Rattle.grid_registers.specs.Sources.{SourceReady};
ghost use Rattle.grid_registers.specs.Operands.{work_at, applied_to, WorkIn};

use crate::operand::Work;
use crate::registers::Registers;
use fixed_math::Num;
use grid_code::{Register, Source};
use place_rows::Bank;
use place_values::Cell;
use sl_ast::ValueOperation;

impl Registers<'_> {
    // An operation on one to three registers.
    fn application(&self, op: ValueOperation, args: &[Register]) -> Work
        requires full { Full self.now }
        requires has { list_all (has self.now.frame.now.varying.now self.now.frame.now.uniform.now) args.now ≡ true }
        ensures fits { WorkIn self.now result }
        ensures same { (i : ℕ) → work_at self.now result i ≡ applied_to op self.now.frame.now.setting.spaces.now (λ r. read (held_by self.now) r i) args.now }
    {
        match args {
            [p] => Work::One(op, self.operand(*p)),
            [p, q] => Work::Two(op, self.operand(*p), self.operand(*q)),
            [p, q, t] => Work::Three(op, self.operand(*p), self.operand(*q), self.operand(*t)),
            _ => Work::Constant(Cell::Number(Num::sat(0))),
        }
    }

    /// An instruction with its operands found.
    #[tactic(auto, using(crate::proofs::Operands::applied_reads))]
    pub fn work(&self, source: &Source) -> Work
        requires full { Full self.now }
        requires ready { SourceReady self.now.frame.now.varying.now self.now.frame.now.uniform.now (texts_of self.now) source.now }
        ensures fits { WorkIn self.now result }
        ensures same { (i : ℕ) → work_at self.now result i ≡ result_of source.now (ground_of self.now.frame.now) (held_by self.now) i }
    {
        match source {
            Source::Constant(value) => Work::Constant(self.frame.setting.cell(value)),
            Source::Copy(q) => Work::Copy(self.operand(*q)),
            Source::Into(shape, q) => Work::Into(*shape, self.operand(*q)),
            Source::Apply(op, args) => self.application(*op, args.as_slice()),
        }
    }

    /// Computes an instruction at the first places of a row.
    pub fn fill(&self, work: &Work, count: usize, row: &mut Bank)
        requires fits { WorkIn self.now work.now }
        requires count { count ≤ self.now.frame.now.places }
        requires room { (s : AnyShape) → count ≤ size row.old s }
        ensures size { (s : AnyShape) → size row.new s ≡ size row.old s }
        ensures each { HoldsEach (texts_of self.now) row.new count (work_at self.now work.now) }
    {
        for place in 0..count {
            row.set(place, &self.value(work, place));
        }
    }
}
