// Differences between the neighbours of a grid.
ghost use Rattle.std.specs.Prelude.{◌≡◌, ◌<◌, ◌≤◌};
ghost use Rattle.builtins.specs.Differences as spec;
ghost use Rattle.builtins.specs.Triples.{negated as negated_of};
ghost use Rattle.builtins.specs.declared.shape.Shape.{Shape as AnyShape};
ghost use Rattle.place_rows.specs.Banks.{size};
ghost use Rattle.place_values.specs.Cells.{value_of};
ghost use Rattle.grid_registers.specs.Held.{texts_of, HoldsEach};
ghost use Rattle.grid_registers.specs.Frames.{lines_of};
ghost use Rattle.grid_registers.specs.Operands.{operand_at, OperandIn};

use crate::operand::Operand;
use crate::registers::Registers;
use builtins::{cross, normalize};
use fixed_math::Vec3;
use place_rows::Bank;
use place_values::Cell;
use sl_ast::Difference;

// The opposite of a direction.
fn negated(v: Vec3) -> Vec3
    ensures { result ≡ negated_of v }
{
    Vec3 {
        x: v.x.neg(),
        y: v.y.neg(),
        z: v.z.neg(),
    }
}

impl Registers<'_> {
    // The difference to the next column over the step of u; in the last column, that of the column before.
    #[tactic(auto, using(place_rows::proofs::Rows::next_in), unfolding(builtins::specs::Differences::along_u))]
    fn along_u(&self, of: Operand, place: usize) -> Cell
        requires fits { OperandIn self.now of }
        requires place { place < self.now.frame.now.places }
        ensures { value_of (texts_of self.now) result ≡ spec.along_u (lines_of self.now.frame.now) (operand_at self.now of) place }
    {
        let (setting, step) = (&self.frame.setting, self.frame.steps.du);
        if place % self.frame.columns + 1 < self.frame.columns {
            setting.slope(step, &self.get(of, place + 1), &self.get(of, place))
        } else {
            setting.slope(step, &self.get(of, place), &self.get(of, place - 1))
        }
    }

    // The same of rows.
    #[tactic(auto, using(place_rows::proofs::Rows::under_in, place_rows::proofs::Rows::over_in), unfolding(builtins::specs::Differences::along_v))]
    fn along_v(&self, of: Operand, place: usize) -> Cell
        requires fits { OperandIn self.now of }
        requires place { place < self.now.frame.now.places }
        ensures { value_of (texts_of self.now) result ≡ spec.along_v (lines_of self.now.frame.now) (operand_at self.now of) place }
    {
        let columns = self.frame.columns;
        let (setting, step) = (&self.frame.setting, self.frame.steps.dv);
        if place / columns + 1 < self.frame.rows {
            setting.slope(step, &self.get(of, place + columns), &self.get(of, place))
        } else {
            setting.slope(step, &self.get(of, place), &self.get(of, place - columns))
        }
    }

    // The unit of the cross product of both, turned over where the primitive is.
    #[tactic(auto, unfolding(builtins::specs::Differences::normal_at))]
    fn normal_at(&self, of: Operand, place: usize) -> Cell
        requires fits { OperandIn self.now of }
        requires place { place < self.now.frame.now.places }
        ensures { value_of (texts_of self.now) result ≡ spec.normal_at (lines_of self.now.frame.now) self.now.frame.now.setting.spaces.now.flip (operand_at self.now of) place }
    {
        let setting = &self.frame.setting;
        let u = setting.triple(&self.along_u(of, place));
        let v = setting.triple(&self.along_v(of, place));
        let n = normalize(cross(u, v));
        if setting.spaces.flip {
            Cell::Triple(negated(n))
        } else {
            Cell::Triple(n)
        }
    }

    fn difference(&self, difference: Difference, of: Operand, place: usize) -> Cell
        requires fits { OperandIn self.now of }
        requires place { place < self.now.frame.now.places }
        ensures { value_of (texts_of self.now) result ≡ spec.difference difference (lines_of self.now.frame.now) self.now.frame.now.setting.spaces.now.flip (operand_at self.now of) place }
    {
        match difference {
            Difference::Du => self.along_u(of, place),
            Difference::Dv => self.along_v(of, place),
            Difference::CalculateNormal => self.normal_at(of, place),
        }
    }

    /// Computes differences at the first places of a row.
    pub fn fill_differences(
        &self,
        difference: Difference,
        of: Operand,
        count: usize,
        row: &mut Bank,
    )
        requires fits { OperandIn self.now of }
        requires count { count ≤ self.now.frame.now.places }
        requires room { (s : AnyShape) → count ≤ size row.old s }
        ensures size { (s : AnyShape) → size row.new s ≡ size row.old s }
        ensures each { HoldsEach (texts_of self.now) row.new count (spec.difference difference (lines_of self.now.frame.now) self.now.frame.now.setting.spaces.now.flip (operand_at self.now of)) }
    {
        for place in 0..count {
            row.set(place, &self.difference(difference, of, place));
        }
    }
}
