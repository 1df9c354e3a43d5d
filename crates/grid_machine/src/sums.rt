// Sums over lights.
ghost use Rattle.std.specs.Prelude.{◌≡◌, ℕ, ◌<◌, true};
ghost use Rattle.std.specs.List.{list_all};
ghost use Rattle.sl_ast.specs.declared.kinds.Predefined.TheVariants as names;
ghost use Rattle.sl_ast.specs.declared.operations.LightSum.TheVariants as sums;
ghost use Rattle.builtins.specs.Lights as spec;
ghost use Rattle.builtins.specs.Lights.{Light};
ghost use Rattle.builtins.specs.declared.shape.Shape.TheVariants as shapes;
ghost use Rattle.grid_code.specs.Masked.{reads, write, all_answers};
ghost use Rattle.grid_code.specs.Names.{name_at};
ghost use Rattle.grid_code.specs.Shapes.{register_shape};
ghost use Rattle.grid_code.specs.Uses.{has};
ghost use Rattle.light_rows.specs.Seen.{gain, gain_at, IsSum};
ghost use Rattle.grid_machine.specs.State.{held_by, Full, HasRegister, Whole, Kept};
ghost use Rattle.grid_machine.specs.Writes.{Leads};

use crate::held::{numbers_of, triples_of};
use crate::machine::Machine;
use crate::rows::take_totals;
use grid_code::{Register, named};
use grid_registers::Registers;
use light_rows::{Illumination, Sum};
use sl_ast::LightSum;

#[tactic(auto, using(light_rows::proofs::Totals::no_diffuse))]
fn diffuse<'a>(registers: &'a Registers, args: &[Register]) -> Sum<'a>
    requires full { Full registers.now }
    requires has { list_all (has registers.now.frame.now.varying.now registers.now.frame.now.uniform.now) args.now ≡ true }
    ensures sum { IsSum registers.now.frame.now.places result }
    ensures each { (i : ℕ) (l : Light) → i < registers.now.frame.now.places → gain_at result i l ≡ gain sums.Diffuse (reads (held_by registers.now) args.now i) l }
{
    match args {
        [n] => Sum::Diffuse(triples_of(registers, *n)),
        _ => Sum::Nothing,
    }
}

fn specular<'a>(registers: &'a Registers, args: &[Register]) -> Sum<'a>
    requires full { Full registers.now }
    requires has { list_all (has registers.now.frame.now.varying.now registers.now.frame.now.uniform.now) args.now ≡ true }
    ensures sum { IsSum registers.now.frame.now.places result }
    ensures each { (i : ℕ) (l : Light) → i < registers.now.frame.now.places → gain_at result i l ≡ gain sums.Specular (reads (held_by registers.now) args.now i) l }
{
    match args {
        [n, v, r] => Sum::Specular(
            triples_of(registers, *n),
            triples_of(registers, *v),
            numbers_of(registers, *r),
        ),
        _ => Sum::Nothing,
    }
}

// A sum with its arguments at each place.
fn sum_of<'a>(registers: &'a Registers, sum: LightSum, args: &[Register]) -> Sum<'a>
    requires full { Full registers.now }
    requires has { list_all (has registers.now.frame.now.varying.now registers.now.frame.now.uniform.now) args.now ≡ true }
    ensures sum { IsSum registers.now.frame.now.places result }
    ensures each { (i : ℕ) (l : Light) → i < registers.now.frame.now.places → gain_at result i l ≡ gain sum (reads (held_by registers.now) args.now i) l }
{
    match sum {
        LightSum::Ambient => Sum::Ambient,
        LightSum::Diffuse => diffuse(registers, args),
        LightSum::Specular => specular(registers, args),
    }
}

impl Machine<'_> {
    /// A sum over lights at P.
    pub fn sum<L: Illumination>(
        &mut self,
        to: Register,
        sum: LightSum,
        args: &[Register],
        lights: &mut L,
    )
        requires whole { Whole self.old }
        requires to { HasRegister self.old to }
        requires args { list_all (has self.old.registers.frame.now.varying.now self.old.registers.frame.now.uniform.now) args.now ≡ true }
        requires points { HasRegister self.old (name_at names.P) }
        requires shape { shapes.Triple ≡ register_shape to }
        requires places { (L.lighting lights.old).places ≡ self.old.registers.frame.now.places }
        ensures kept { Kept self.old self.new }
        ensures same { L.lighting lights.new ≡ L.lighting lights.old }
        ensures near { Leads self.old (λ g. write self.old.registers.frame.now.places to (λ i. spec.sum_of sum (reads g args.now i) (all_answers (L.lighting lights.old).lights g (name_at names.P) i)) g) self.new }
    {
        let points = triples_of(&self.registers, named::P);
        let of = sum_of(&self.registers, sum, args);
        take_totals(lights, &of, &points, &mut self.scratch);
        self.commit(to);
    }
}
