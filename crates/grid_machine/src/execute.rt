// A run from its beginning to its end.
ghost use Rattle.std.specs.Prelude.{◌≡◌, ℕ, ℤ, ◌+◌, ◌*◌, ◌<◌, ◌≤◌, pos, true, length, get_or, map};
ghost use Rattle.std.specs.List.{list_all};
ghost use Rattle.fixed_math.specs.Fixed.{IsRaw};
ghost use Rattle.sl_ast.specs.Variables.{variables};
ghost use Rattle.sl_ast.specs.declared.kinds.Predefined.TheVariants as names;
ghost use Rattle.sl_ast.specs.declared.typed.Value.TheVariants as values;
ghost use Rattle.builtins.specs.Shapes.{shape as shape_of_value};
ghost use Rattle.grid_code.specs.Masked.{read};
ghost use Rattle.grid_code.specs.Names.{name_at};
ghost use Rattle.grid_code.specs.Shapes.{register_shape};
ghost use Rattle.grid_code.specs.Uses.{has, names_at};
ghost use Rattle.grid_code.specs.View.{block_of};
ghost use Rattle.place_rows.specs.Layout.{row_length};
ghost use Rattle.grid_machine.specs.Run.{rows_of, uniform_inputs, varying_inputs, started, fresh};
ghost use Rattle.place_values.specs.Cells.{is_known};
ghost use Rattle.grid_machine.specs.State.{beside, state_of, texts_of, NearIn, HasRegister, ReadyIn, Whole, Kept};
ghost use Rattle.grid_machine.specs.Writes.{Writes, Leads, RunsWhole};

use crate::blocks::run_block;
use crate::machine::Machine;
use fixed_math::Num;
use grid_code::{Code, Register, Source, named};
use grid_registers::Textures;
use light_rows::Illumination;
use sl_ast::{SlKind, Value};

impl Machine<'_> {
    // A register takes what another one of its shape holds.
    fn copy(&mut self, to: Register, from: Register)
        requires whole { Whole self.old }
        requires to { HasRegister self.old to }
        requires from { HasRegister self.old from }
        requires shape { register_shape from ≡ register_shape to }
        ensures kept { Kept self.old self.new }
        ensures near { Writes self.old to (λ i. read (state_of self.old) from i) self.new }
    {
        self.put(to, &Source::Copy(from));
    }

    // The variables that start as other ones.
    fn start(&mut self, kind: SlKind)
        requires whole { Whole self.old }
        requires has { list_all (has self.old.registers.frame.now.varying.now self.old.registers.frame.now.uniform.now) (names_at kind) ≡ true }
        ensures kept { Kept self.old self.new }
        ensures near { Leads self.old (started self.old.registers.frame.now.places (variables kind)) self.new }
    {
        match kind {
            SlKind::Surface => {
                self.copy(named::CI, named::CS);
                self.copy(named::OI, named::OS);
            }
            SlKind::Displacement | SlKind::Light | SlKind::Volume => (),
        }
    }

    /// Runs code on a fresh machine.
    pub fn execute<L: Illumination, T: Textures>(
        &mut self,
        code: &Code,
        lights: &mut L,
        textures: &mut T,
        uniforms: &[Register],
        values: &[Value],
        varyings: &[Register],
        rows: &[i64],
        width: usize,
    )
        requires whole { Whole self.old }
        requires fresh { NearIn self.old fresh (state_of self.old) }
        requires width { width ≡ row_length self.old.registers.frame.now.places }
        requires uniforms { uniforms.now ≡ uniform_inputs code.now.kind code.now.params }
        requires varyings { varyings.now ≡ varying_inputs code.now.kind code.now.params }
        requires has_uniforms { list_all (has self.old.registers.frame.now.varying.now self.old.registers.frame.now.uniform.now) uniforms.now ≡ true }
        requires has_varyings { list_all (has self.old.registers.frame.now.varying.now self.old.registers.frame.now.uniform.now) varyings.now ≡ true }
        requires has_names { list_all (has self.old.registers.frame.now.varying.now self.old.registers.frame.now.uniform.now) (names_at code.now.kind) ≡ true }
        requires known { list_all (is_known (texts_of self.old.registers)) values.now ≡ true }
        requires shapes { map shape_of_value values.now ≡ map register_shape uniforms.now }
        requires raws { (k : ℕ) → IsRaw (get_or rows.now k (pos 0)) }
        requires long { length rows.now ≡ rows_of varyings.now * width }
        requires ready { ReadyIn self.old (block_of code.now.nodes) }
        requires places { (L.lighting lights.old).places ≡ self.old.registers.frame.now.places }
        ensures kept { Kept self.old self.new }
        ensures same { T.images textures.new ≡ T.images textures.old }
        ensures near { RunsWhole (beside (L.lighting lights.old).lights (T.images textures.old)) code.now.kind code.now.params (block_of code.now.nodes) values.now rows.now self.old self.new }
    {
        self.assign_all(uniforms, values);
        self.load_all(varyings, rows, width);
        self.start(code.kind);
        run_block(code.nodes.as_slice(), self, lights, textures, 65536);
    }
}
