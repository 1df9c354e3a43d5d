// Lights asked at points.
ghost use Rattle.std.specs.Prelude.{◌≡◌, ℕ, ◌<◌, true, not};
ghost use Rattle.std.specs.List.{list_all};
ghost use Rattle.sl_ast.specs.declared.kinds.Predefined.TheVariants as names;
ghost use Rattle.grid_code.specs.Names.{name_at, lit_at, first_free};
ghost use Rattle.grid_code.specs.Uses.{has, registers_from, kind_registers};
ghost use Rattle.grid_code.specs.View.{block_of};
ghost use Rattle.light_rows.specs.Seen.{HasPlaces, IsAnswer};
ghost use Rattle.number_rows.specs.Planes.{triple_at, ArePlanes};
ghost use Rattle.place_values.specs.Cells.{is_known};
ghost use Rattle.grid_machine.specs.Asked.{IsLight, answer_at};
ghost use Rattle.grid_machine.specs.State.{state_of, texts_of, HasRegister, ReadyIn, Whole, Kept};
ghost use Rattle.grid_machine.specs.Writes.{AnswersAsked};

use crate::blocks::run_block;
use crate::held::{numbers_of, triples_of};
use crate::machine::Machine;
use grid_code::{Code, Register, named};
use grid_registers::NoTextures;
use light_rows::{Answers, Dark};
use number_rows::Planes;
use sl_ast::Value;

impl Machine<'_> {
    // Answers take what a light's code has left at each place.
    fn answer(&self, answers: &mut Answers)
        requires whole { Whole self.now }
        requires direction { HasRegister self.now (name_at names.L) }
        requires colour { HasRegister self.now (name_at names.Cl) }
        requires lit { HasRegister self.now lit_at }
        requires places { HasPlaces self.now.registers.frame.now.places answers.old }
        ensures places { HasPlaces self.now.registers.frame.now.places answers.new }
        ensures ambient { answers.new.ambient ≡ answers.old.ambient }
        ensures each { (i : ℕ) → i < self.now.registers.frame.now.places → IsAnswer answers.new i (answer_at (not answers.old.ambient) (state_of self.now) i) }
    {
        let lit = numbers_of(&self.registers, named::LIT);
        let directions = triples_of(&self.registers, named::L);
        let colours = triples_of(&self.registers, named::CL);
        answers.take(&lit, &directions, &colours);
    }

    /// Runs a light's code at points. Its answers take what it answers there.
    pub fn asked(
        &mut self,
        code: &Code,
        registers: &[Register],
        values: &[Value],
        points: &Planes,
        answers: &mut Answers,
    )
        requires whole { Whole self.old }
        requires light { IsLight code.now values.now }
        requires registers { registers.now ≡ registers_from first_free code.now.params }
        requires has { list_all (has self.old.registers.frame.now.varying.now self.old.registers.frame.now.uniform.now) registers.now ≡ true }
        requires names { list_all (has self.old.registers.frame.now.varying.now self.old.registers.frame.now.uniform.now) (kind_registers code.now.kind) ≡ true }
        requires known { list_all (is_known (texts_of self.old.registers)) values.now ≡ true }
        requires ready { ReadyIn self.old (block_of code.now.nodes) }
        requires points { ArePlanes self.old.registers.frame.now.places points.now }
        requires places { HasPlaces self.old.registers.frame.now.places answers.old }
        requires ambient { answers.old.ambient ≡ code.now.ambient }
        ensures kept { Kept self.old self.new }
        ensures places { HasPlaces self.old.registers.frame.now.places answers.new }
        ensures ambient { answers.new.ambient ≡ answers.old.ambient }
        ensures each { AnswersAsked self.old code.now values.now (triple_at points.now) answers.new }
    {
        self.reset();
        self.assign_all(registers, values);
        self.set_triples(named::PS, points);
        let places = self.registers.frame.places;
        let mut dark = Dark { places, many: 0 };
        run_block(
            code.nodes.as_slice(),
            self,
            &mut dark,
            &mut NoTextures,
            65536,
        );
        self.answer(answers);
    }
}
