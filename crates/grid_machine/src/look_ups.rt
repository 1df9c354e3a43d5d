// Look-ups of textures written into registers under a mask.
ghost use Rattle.std.specs.Prelude.{◌≡◌, true};
ghost use Rattle.std.specs.List.{list_all};
ghost use Rattle.builtins.specs.Textures.{textured};
ghost use Rattle.builtins.specs.declared.shape.Shape.TheVariants as shapes;
ghost use Rattle.grid_code.specs.Masked.{reads};
ghost use Rattle.grid_code.specs.Shapes.{register_shape};
ghost use Rattle.grid_code.specs.Uses.{has};
ghost use Rattle.grid_code.specs.Valid.{are_three};
ghost use Rattle.grid_machine.specs.State.{state_of, lines_of, images_of, HasRegister, Whole, Kept};
ghost use Rattle.grid_machine.specs.Writes.{Writes};

use crate::machine::Machine;
use grid_code::Register;
use grid_registers::{Placed, Textures};

impl Machine<'_> {
    /// A look-up, by the number of its node: the second and the third register have s and t.
    #[tactic(auto, using(crate::proofs::LookUps::three_long))]
    pub fn look_up<T: Textures>(
        &mut self,
        to: Register,
        node: u32,
        args: &[Register],
        textures: &mut T,
    )
        requires whole { Whole self.old }
        requires has { HasRegister self.old to }
        requires args { list_all (has self.old.registers.frame.now.varying.now self.old.registers.frame.now.uniform.now) args.now ≡ true }
        requires three { are_three args.now ≡ true }
        requires shape { shapes.Triple ≡ register_shape to }
        ensures kept { Kept self.old self.new }
        ensures same { T.images textures.new ≡ T.images textures.old }
        ensures near { let frame = self.old.registers.frame.now in Writes self.old to (textured (lines_of frame) (images_of frame (T.images textures.old) node) (reads (state_of self.old) args.now)) self.new }
    {
        let s = self.registers.operand(args[1]);
        let t = self.registers.operand(args[2]);
        let of = Placed { s, t };
        let count = self.reach(to);
        self.registers
            .fill_look_ups(textures, node, of, count, &mut self.scratch);
        self.commit(to);
    }
}
