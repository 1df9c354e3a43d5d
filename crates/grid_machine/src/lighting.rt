// What code over lights reads of registers, and writes into them.
ghost use Rattle.std.specs.Prelude.{◌≡◌, ℕ, ◌<◌, true, false, get_or};
ghost use Rattle.std.specs.List.{list_all};
ghost use Rattle.sl_ast.specs.declared.kinds.Predefined.TheVariants as names;
ghost use Rattle.sl_ast.specs.declared.typed.Value.TheVariants as values;
ghost use Rattle.builtins.specs.Lights.{is_in_cone};
ghost use Rattle.builtins.specs.Values.{triple_of};
ghost use Rattle.builtins.specs.declared.shape.Shape.TheVariants as shapes;
ghost use Rattle.grid_code.specs.Masked.{read, reads, from_light as direction_of};
ghost use Rattle.grid_code.specs.Names.{name_at, lit_at};
ghost use Rattle.grid_code.specs.Shapes.{register_shape};
ghost use Rattle.grid_code.specs.Uses.{has};
ghost use Rattle.light_rows.specs.Seen.{HasPlanes};
ghost use Rattle.number_rows.specs.Planes.{triple_at, ArePlanes};
ghost use Rattle.grid_machine.specs.State.{state_of, HasRegister, Whole, Kept};
ghost use Rattle.grid_machine.specs.Writes.{aimed_at, Writes, Enters, Kindles};

use crate::held::{cone_of, triples_of};
use crate::machine::Machine;
use crate::rows::{take, take_differences};
use builtins::Shape;
use fixed_math::{Axis, Num};
use grid_code::{Register, named};
use light_rows::View;
use number_rows::Planes;
use place_rows::Mask;
use sl_ast::Value;

impl Machine<'_> {
    /// The scratch row takes the directions from the place of a light to the points.
    pub fn aim(&mut self, place: Register)
        requires whole { Whole self.old }
        requires has { HasRegister self.old place }
        requires points { HasRegister self.old (name_at names.Ps) }
        ensures kept { Kept self.old self.new }
        ensures same { state_of self.new ≡ state_of self.old }
        ensures aimed { (i : ℕ) → i < self.old.registers.frame.now.places → aimed_at self.new i ≡ direction_of (state_of self.old) place i }
    {
        let points = triples_of(&self.registers, named::PS);
        let Planes { x, y, z } = triples_of(&self.registers, place);
        take_differences(&points, &Planes { x, y, z }, &mut self.scratch);
    }

    /// The scratch row takes the triples of a register.
    pub fn aim_along(&mut self, axis: Register)
        requires whole { Whole self.old }
        requires has { HasRegister self.old axis }
        ensures kept { Kept self.old self.new }
        ensures same { state_of self.new ≡ state_of self.old }
        ensures aimed { (i : ℕ) → i < self.old.registers.frame.now.places → aimed_at self.new i ≡ triple_of (read (state_of self.old) axis i) }
    {
        let Planes { x, y, z } = triples_of(&self.registers, axis);
        take(&Planes { x, y, z }, &mut self.scratch);
    }

    // The triples of the scratch row.
    fn aimed(&self) -> Planes<'_>
        requires { Whole self.now }
        ensures planes { ArePlanes self.now.registers.frame.now.places result }
        ensures each { (i : ℕ) → i < self.now.registers.frame.now.places → triple_at result i ≡ aimed_at self.now i }
    {
        let count = self.registers.frame.places;
        Planes {
            x: self.scratch.plane(Shape::Triple, Axis::X, 0, count),
            y: self.scratch.plane(Shape::Triple, Axis::Y, 0, count),
            z: self.scratch.plane(Shape::Triple, Axis::Z, 0, count),
        }
    }

    /// The places whose triples of the scratch row lie in a cone.
    pub fn within(&self, args: &[Register]) -> Mask
        requires whole { Whole self.now }
        requires has { list_all (has self.now.registers.frame.now.varying.now self.now.registers.frame.now.uniform.now) args.now ≡ true }
        ensures { (i : ℕ) → i < self.now.registers.frame.now.places → get_or result.places i false ≡ is_in_cone (reads (state_of self.now) args.now i) (aimed_at self.now i) }
    {
        let Planes { x, y, z } = self.aimed();
        let cone = cone_of(&self.registers, args);
        cone.mask(&Planes { x, y, z }, self.registers.frame.places)
    }

    /// A register takes triples.
    pub(crate) fn set_triples(&mut self, to: Register, triples: &Planes)
        requires whole { Whole self.old }
        requires has { HasRegister self.old to }
        requires triple { shapes.Triple ≡ register_shape to }
        requires planes { ArePlanes self.old.registers.frame.now.places triples.now }
        ensures kept { Kept self.old self.new }
        ensures near { Writes self.old to (λ i. values.Triple (triple_at triples.now i)) self.new }
    {
        take(triples, &mut self.scratch);
        self.commit(to);
    }

    /// L and Cl take the directions to a light and its colours, at places that see it.
    pub fn enter(&mut self, view: &View)
        requires whole { Whole self.old }
        requires direction { HasRegister self.old (name_at names.L) }
        requires colour { HasRegister self.old (name_at names.Cl) }
        requires planes { HasPlanes self.old.registers.frame.now.places view.now }
        ensures kept { Kept self.old self.new }
        ensures near { Enters self.old view.now self.new }
    {
        self.set_triples(named::L, &view.towards);
        self.set_triples(named::CL, &view.colours);
    }

    /// L takes the triples of the scratch row, and the light is lit.
    pub fn kindle(&mut self)
        requires whole { Whole self.old }
        requires direction { HasRegister self.old (name_at names.L) }
        requires lit { HasRegister self.old lit_at }
        ensures kept { Kept self.old self.new }
        ensures near { Kindles self.old self.new }
    {
        self.commit(named::L);
        self.assign(named::LIT, &Value::Number(Num::sat(65536)));
    }
}
