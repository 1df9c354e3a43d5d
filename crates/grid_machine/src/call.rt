// The call that runs code.
ghost use Rattle.std.specs.Prelude.{◌≡◌, ℕ, ℤ, ◌+◌, ◌*◌, ◌<◌, ◌≤◌, pos, true, false, length, get_or, map, OnOk};
ghost use Rattle.std.specs.List.{list_all};
ghost use Rattle.fixed_math.specs.Fixed.{IsRaw};
ghost use Rattle.sl_ast.specs.Names.{is_light};
ghost use Rattle.builtins.specs.Shapes.{shape as shape_of_value};
ghost use Rattle.grid_code.specs.Masked.{masked, State as Grid};
ghost use Rattle.grid_code.specs.Shapes.{register_shape};
ghost use Rattle.grid_code.specs.Uses.{has};
ghost use Rattle.grid_code.specs.View.{block_of};
ghost use Rattle.grid_machine.specs.Asked.{IsLight, asked_all};
ghost use Rattle.grid_machine.specs.Ended.{LeavesEnded, ended, ended_under};
ghost use Rattle.grid_machine.specs.Prepared.{IsPrepared, AreInputs};
ghost use Rattle.place_rows.specs.Layout.{row_length};
ghost use Rattle.grid_machine.specs.Run.{rows_of, uniform_inputs, varying_inputs, written_names, lines_given, fresh, begun, Leaves};
ghost use Rattle.grid_machine.specs.State.{state_of, NearIn, Whole};

use crate::inputs::{Inputs, Lights};
use crate::lamps::Lamps;
use crate::leaving::written;
use crate::machine::Machine;
use crate::preparing::{Prepared, prepare};
use crate::unloading::clear;
use bumpalo::Bump;
use fixed_math::NoMemory;
use grid_code::Code;
use grid_registers::Textures;
use light_rows::{Dark, Illumination};
use sl_ast::SlKind;

// The elements of a row that holds so many points.
fn row_of(places: usize) -> usize
    requires { places ≤ 289 }
    ensures { result ≡ row_length places }
{
    (places + 7) / 8 * 8
}

// Runs code on a fresh machine with what was prepared.
fn execute<I: Illumination, T: Textures>(
    machine: &mut Machine,
    lamps: &mut I,
    textures: &mut T,
    prepared: &Prepared,
    code: &Code,
    inputs: &Inputs,
)
    requires whole { Whole machine.old }
    requires fresh { NearIn machine.old fresh (state_of machine.old) }
    requires frame { machine.old.registers.frame.now ≡ prepared.now.frame.now }
    requires lamps { (I.lighting lamps.old).places ≡ prepared.now.frame.now.places }
    requires prepared { IsPrepared prepared.now code.now inputs.now }
    requires inputs { AreInputs code.now inputs.now }
    ensures whole { Whole machine.new }
    ensures same { T.images textures.new ≡ T.images textures.old }
    ensures has { list_all (has machine.new.registers.frame.now.varying.now machine.new.registers.frame.now.uniform.now) (written_names code.now.kind) ≡ true }
    ensures places { machine.new.registers.frame.now.places ≡ inputs.now.columns * inputs.now.rows }
    ensures near { NearIn machine.new (ended_under (I.lighting lamps.old).lights (T.images textures.old) code.now inputs.now) (state_of machine.new) }
{
    machine.execute(
        code,
        lamps,
        textures,
        prepared.uniforms,
        inputs.uniforms,
        prepared.varyings,
        inputs.varyings,
        row_of(prepared.frame.places),
    );
}

// Runs code on a fresh machine with what was prepared, under lights. Without any there is nothing to lay out for them.
fn execute_lit<'a, L: Lights, T: Textures>(
    machine: &mut Machine,
    arena: &'a Bump,
    lights: &'a L,
    textures: &mut T,
    prepared: &Prepared<'a>,
    code: &Code,
    inputs: &Inputs,
) -> Result<(), NoMemory>
    requires whole { Whole machine.old }
    requires fresh { NearIn machine.old fresh (state_of machine.old) }
    requires frame { machine.old.registers.frame.now ≡ prepared.now.frame.now }
    requires lights { (n : ℕ) → n < L.many lights.now → IsLight (L.codes lights.now n) (L.params lights.now n) }
    requires prepared { IsPrepared prepared.now code.now inputs.now }
    requires inputs { AreInputs code.now inputs.now }
    ensures same { T.images textures.new ≡ T.images textures.old }
    ensures whole { OnOk result (Whole machine.new) }
    ensures has { OnOk result (list_all (has machine.new.registers.frame.now.varying.now machine.new.registers.frame.now.uniform.now) (written_names code.now.kind) ≡ true) }
    ensures places { OnOk result (machine.new.registers.frame.now.places ≡ inputs.now.columns * inputs.now.rows) }
    ensures near { let l = lights.now in OnOk result (NearIn machine.new (ended (T.images textures.old) code.now inputs.now (L.many l) (L.places l) (L.codes l) (L.params l)) (state_of machine.new)) }
{
    if lights.count() == 0 {
        let places = prepared.frame.places;
        let mut dark = Dark { places, many: 0 };
        execute(machine, &mut dark, textures, prepared, code, inputs);
    } else {
        let mut lamps = Lamps::new(arena, prepared.frame, lights)?;
        execute(machine, &mut lamps, textures, prepared, code, inputs);
    }
    Ok(())
}

// Writes what a machine holds of the registers that a kind writes into rows of raws.
fn leave(machine: &Machine, kind: SlKind, out: &mut [i64])
    requires whole { Whole machine.now }
    requires kind { is_light kind ≡ false }
    requires has { list_all (has machine.now.registers.frame.now.varying.now machine.now.registers.frame.now.uniform.now) (written_names kind) ≡ true }
    requires out { length out.old ≡ rows_of (written_names kind) * row_length machine.now.registers.frame.now.places }
    requires clear { (k : ℕ) → IsRaw (get_or out.old k (pos 0)) }
    ensures raws { (k : ℕ) → IsRaw (get_or out.new k (pos 0)) }
    ensures values { (g : Grid) → NearIn machine.now g (state_of machine.now) → Leaves kind machine.now.registers.frame.now.places out.new g }
{
    let (first, second) = written(kind);
    let width = row_of(machine.registers.frame.places);
    machine.unload_two(first, second, out, width);
}

// Runs code, and writes what it leaves into rows of raws.
fn unload<'a, L: Lights, T: Textures>(
    code: &'a Code,
    arena: &'a Bump,
    inputs: &Inputs<'a>,
    lights: &'a L,
    textures: &mut T,
    out: &mut [i64],
) -> Result<(), NoMemory>
    requires columns { (2 ≤ inputs.now.columns) × (inputs.now.columns ≤ 17) }
    requires rows { (2 ≤ inputs.now.rows) × (inputs.now.rows ≤ 17) }
    requires kind { is_light code.now.kind ≡ false }
    requires lights { (n : ℕ) → n < L.many lights.now → IsLight (L.codes lights.now n) (L.params lights.now n) }
    requires uniforms { map shape_of_value inputs.now.uniforms.now ≡ map register_shape (uniform_inputs code.now.kind code.now.params) }
    requires raws { (k : ℕ) → IsRaw (get_or inputs.now.varyings.now k (pos 0)) }
    requires varyings { length inputs.now.varyings.now ≡ rows_of (varying_inputs code.now.kind code.now.params) * row_length (inputs.now.columns * inputs.now.rows) }
    requires out { length out.old ≡ rows_of (written_names code.now.kind) * row_length (inputs.now.columns * inputs.now.rows) }
    requires clear { (k : ℕ) → IsRaw (get_or out.old k (pos 0)) }
    ensures same { T.images textures.new ≡ T.images textures.old }
    ensures raws { (k : ℕ) → IsRaw (get_or out.new k (pos 0)) }
    ensures values { let l = lights.now in OnOk result (LeavesEnded (T.images textures.old) code.now inputs.now out.new (L.many l) (L.places l) (L.codes l) (L.params l)) }
{
    let prepared = prepare(code, arena, inputs)?;
    let mut machine = Machine::fresh(arena, prepared.frame)?;
    execute_lit(
        &mut machine,
        arena,
        lights,
        textures,
        &prepared,
        code,
        inputs,
    )?;
    leave(&machine, code.kind, out);
    Ok(())
}

/// Runs the code of a surface, a displacement or a volume on a grid, with whole budgets and all places live. The rows of `out` take the
/// variables that the kind writes, in order; or else memory is wanting, and they hold any raws in range.
///
/// A look-up names a texture by its entry in the inputs, and is black where it names none.
///
/// The lights have one machine in the arena, with room for the code of each. Whenever sums and statements over lights ask a light, its code
/// runs there at all places at once, from registers anew, with whole budgets and no lights.
pub fn run<L: Lights, T: Textures>(
    code: &Code,
    arena: &Bump,
    inputs: &Inputs,
    lights: &L,
    textures: &mut T,
    out: &mut [i64],
) -> Result<(), NoMemory>
    requires columns { (2 ≤ inputs.now.columns) × (inputs.now.columns ≤ 17) }
    requires rows { (2 ≤ inputs.now.rows) × (inputs.now.rows ≤ 17) }
    requires kind { is_light code.now.kind ≡ false }
    requires lights { (n : ℕ) → n < L.many lights.now → IsLight (L.codes lights.now n) (L.params lights.now n) }
    requires uniforms { map shape_of_value inputs.now.uniforms.now ≡ map register_shape (uniform_inputs code.now.kind code.now.params) }
    requires raws { (k : ℕ) → IsRaw (get_or inputs.now.varyings.now k (pos 0)) }
    requires varyings { length inputs.now.varyings.now ≡ rows_of (varying_inputs code.now.kind code.now.params) * row_length (inputs.now.columns * inputs.now.rows) }
    requires out { length out.old ≡ rows_of (written_names code.now.kind) * row_length (inputs.now.columns * inputs.now.rows) }
    ensures same { T.images textures.new ≡ T.images textures.old }
    ensures raws { (k : ℕ) → IsRaw (get_or out.new k (pos 0)) }
    ensures values { let l = lights.now in OnOk result (LeavesEnded (T.images textures.old) code.now inputs.now out.new (L.many l) (L.places l) (L.codes l) (L.params l)) }
{
    clear(out);
    unload(code, arena, inputs, lights, textures, out)
}
