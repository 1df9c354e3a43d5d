// What registers hold at the places of a grid, as planes and as sets of places.
ghost use Rattle.std.specs.Prelude.{◌≡◌, ℕ, ◌<◌, true, false, get_or};
ghost use Rattle.std.specs.List.{list_all};
ghost use Rattle.fixed_math.specs.declared.vec3.Vec3.{Vec3 as AnyVec3};
ghost use Rattle.builtins.specs.Lights.{is_in_cone};
ghost use Rattle.builtins.specs.Values.{is_nonzero, number_of, triple_of};
ghost use Rattle.grid_code.specs.Masked.{read, reads};
ghost use Rattle.grid_code.specs.Uses.{has};
ghost use Rattle.light_rows.specs.Scopes.{points_at, scope_at};
ghost use Rattle.light_rows.specs.Seen.{cone_at, IsCone};
ghost use Rattle.number_rows.specs.Planes.{plane_at, triple_at, IsPlane, ArePlanes};
ghost use Rattle.grid_machine.specs.State.{held_by, Full};

use crate::rows::nonzero;
use grid_code::Register;
use grid_registers::Registers;
use light_rows::{Cone, Scope};
use number_rows::{Plane, Planes};
use place_rows::Mask;

/// The triples of a register.
pub fn triples_of<'a>(registers: &'a Registers, register: Register) -> Planes<'a>
    requires full { Full registers.now }
    requires has { has registers.now.frame.now.varying.now registers.now.frame.now.uniform.now register ≡ true }
    ensures planes { ArePlanes registers.now.frame.now.places result }
    ensures each { (i : ℕ) → i < registers.now.frame.now.places → triple_at result i ≡ triple_of (read (held_by registers.now) register i) }
{
    registers.triples(registers.operand(register))
}

/// The numbers of a register.
pub fn numbers_of<'a>(registers: &'a Registers, register: Register) -> Plane<'a>
    requires full { Full registers.now }
    requires has { has registers.now.frame.now.varying.now registers.now.frame.now.uniform.now register ≡ true }
    ensures plane { IsPlane registers.now.frame.now.places result }
    ensures each { (i : ℕ) → i < registers.now.frame.now.places → plane_at result i ≡ number_of (read (held_by registers.now) register i) }
{
    registers.numbers(registers.operand(register))
}

/// The places where the number of a register isn't 0.
pub fn nonzero_of(registers: &Registers, register: Register) -> Mask
    requires full { Full registers.now }
    requires has { has registers.now.frame.now.varying.now registers.now.frame.now.uniform.now register ≡ true }
    ensures { (i : ℕ) → i < registers.now.frame.now.places → get_or result.places i false ≡ is_nonzero (number_of (read (held_by registers.now) register i)) }
{
    let Planes { x, y, z } = triples_of(registers, register);
    nonzero(&Planes { x, y, z }, registers.frame.places)
}

/// The cone of a statement over lights, by the registers of its axis and its angle, where there are two.
#[tactic(auto, using(light_rows::proofs::Totals::no_cone))]
pub fn cone_of<'a>(registers: &'a Registers, args: &[Register]) -> Cone<'a>
    requires full { Full registers.now }
    requires has { list_all (has registers.now.frame.now.varying.now registers.now.frame.now.uniform.now) args.now ≡ true }
    ensures cone { IsCone registers.now.frame.now.places result }
    ensures each { (i : ℕ) (l : AnyVec3) → i < registers.now.frame.now.places → cone_at result i l ≡ is_in_cone (reads (held_by registers.now) args.now i) l }
{
    match args {
        [axis, angle] => Cone {
            given: true,
            axis: triples_of(registers, *axis),
            angle: numbers_of(registers, *angle),
        },
        _ => Cone::none(),
    }
}

/// The points and the cones of a statement over lights, kept while its body runs.
pub fn scope_of(registers: &Registers, place: Register, args: &[Register]) -> Scope
    requires full { Full registers.now }
    requires place { has registers.now.frame.now.varying.now registers.now.frame.now.uniform.now place ≡ true }
    requires args { list_all (has registers.now.frame.now.varying.now registers.now.frame.now.uniform.now) args.now ≡ true }
    ensures points { (i : ℕ) → i < registers.now.frame.now.places → points_at result i ≡ triple_of (read (held_by registers.now) place i) }
    ensures cone { (i : ℕ) (l : AnyVec3) → i < registers.now.frame.now.places → scope_at result i l ≡ is_in_cone (reads (held_by registers.now) args.now i) l }
{
    let Planes { x, y, z } = triples_of(registers, place);
    let cone = cone_of(registers, args);
    Scope::of(&Planes { x, y, z }, &cone, registers.frame.places)
}
