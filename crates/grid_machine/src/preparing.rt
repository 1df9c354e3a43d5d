// What a run needs beside its machine.
ghost use Rattle.std.specs.Prelude.{◌≡◌, ◌+◌, ◌*◌, ◌<◌, ◌≤◌, pos, get_or, IfOk};
ghost use Rattle.sl_ast.specs.declared.typed.Value.TheVariants as values;
ghost use Rattle.builtins.specs.Values.{number_of};
ghost use Rattle.grid_machine.specs.Fits.{OfCode};
ghost use Rattle.grid_machine.specs.Run.{uniform_inputs, varying_inputs, lines_given};
ghost use Rattle.grid_machine.specs.Prepared.{lines_from};
ghost use Rattle.grid_machine.specs.State.{lines_of};

use crate::given::{given, inputs as registers_of, steps as step_names};
use crate::inputs::Inputs;
use crate::leaving::{number_at, places as places_of};
use bumpalo::Bump;
use bumpalo::collections::into_bump_slice;
use fixed_math::NoMemory;
use grid_code::{Code, Register, gather};
use grid_registers::{Frame, Room, Steps};
use place_values::Setting;

/// The frame of a run, and the registers that take its uniform values and its rows.
#[derive(Clone, Copy)]
pub struct Prepared<'a> {
    pub frame: &'a Frame<'a>,
    pub uniforms: &'a [Register],
    pub varyings: &'a [Register],
}

// The frame of a run, whose steps stand at a place of the uniform values.
fn frame_of<'a>(
    arena: &'a Bump,
    code: &'a Code,
    inputs: &Inputs<'a>,
    first_step: usize,
) -> Result<&'a Frame<'a>, NoMemory>
    requires columns { (2 ≤ inputs.now.columns) × (inputs.now.columns ≤ 17) }
    requires rows { (2 ≤ inputs.now.rows) × (inputs.now.rows ≤ 17) }
    requires first { first_step < usize.MAX }
    ensures lines { IfOk result (λ f. lines_of f.now ≡ lines_from inputs.now first_step) }
    ensures code { IfOk result (λ f. OfCode f.now code.now inputs.now.uniforms.now) }
    ensures spaces { IfOk result (λ f. f.now.setting.spaces.now ≡ inputs.now.spaces.now) }
    ensures entries { IfOk result (λ f. f.now.entries.now ≡ inputs.now.look_ups.now) }
{
    let texts = into_bump_slice(gather(arena, inputs.uniforms, code)?);
    let places = places_of(inputs.columns, inputs.rows);
    let frame = Frame {
        columns: inputs.columns,
        rows: inputs.rows,
        places,
        steps: Steps {
            du: number_at(inputs.uniforms, first_step),
            dv: number_at(inputs.uniforms, first_step + 1),
        },
        setting: Setting {
            texts,
            spaces: inputs.spaces,
        },
        varying: &code.varying,
        uniform: &code.uniform,
        look_ups: &code.look_ups,
        entries: inputs.look_ups,
        room: Room::of_code(code, places),
    };
    frame.keep(arena)
}

/// The frame and the registers of a run of code, or want of memory.
pub fn prepare<'a>(
    code: &'a Code,
    arena: &'a Bump,
    inputs: &Inputs<'a>,
) -> Result<Prepared<'a>, NoMemory>
    requires columns { (2 ≤ inputs.now.columns) × (inputs.now.columns ≤ 17) }
    requires rows { (2 ≤ inputs.now.rows) × (inputs.now.rows ≤ 17) }
    ensures lines { IfOk result (λ p. lines_of p.frame.now ≡ lines_given inputs.now.columns inputs.now.rows code.now.params inputs.now.uniforms.now) }
    ensures code { IfOk result (λ p. OfCode p.frame.now code.now inputs.now.uniforms.now) }
    ensures spaces { IfOk result (λ p. p.frame.now.setting.spaces.now ≡ inputs.now.spaces.now) }
    ensures entries { IfOk result (λ p. p.frame.now.entries.now ≡ inputs.now.look_ups.now) }
    ensures uniforms { IfOk result (λ p. p.uniforms.now ≡ uniform_inputs code.now.kind code.now.params) }
    ensures varyings { IfOk result (λ p. p.varyings.now ≡ varying_inputs code.now.kind code.now.params) }
{
    let params = code.params.as_slice();
    let uniforms = registers_of(arena, params, true, step_names(code.kind))?;
    let varyings = registers_of(arena, params, false, given(code.kind))?;
    let first_step = uniforms.len() - step_names(code.kind).len();
    let frame = frame_of(arena, code, inputs, first_step)?;
    Ok(Prepared {
        frame,
        uniforms,
        varyings,
    })
}
