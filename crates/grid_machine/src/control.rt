// Tests, turns of loops and their price.
ghost use Rattle.std.specs.Prelude.{◌≡◌, ℕ, ◌-◌, ◌<◌, ◌≤◌, false, cond, length, get_or, nat_lt};
ghost use Rattle.builtins.specs.Values.{is_true as holds};
ghost use Rattle.grid_code.specs.Code.{end, breaks, continues};
ghost use Rattle.grid_code.specs.Masked.{read, budgets, going as going_of};
ghost use Rattle.grid_machine.specs.State.{Beside, state_of, Runs, HasRegister, Whole, Kept};
ghost use Rattle.grid_machine.specs.Writes.{BeginsTurn};

use crate::held::nonzero_of;
use crate::machine::Machine;
use grid_code::Register;
use place_rows::{Mask, both};

// Takes one from the numbers at the places of a mask.
fn spend(own: &mut [u32], mask: &Mask)
    requires { length own.old ≤ 289 }
    ensures long { length own.new ≡ length own.old }
    ensures each { (i : ℕ) → i < length own.old → get_or own.new i 0 ≡ cond (get_or mask.now.places i false) (get_or own.old i 0 - 1) (get_or own.old i 0) }
{
    for place in 0..own.len() {
        own[place] = less_one_if(mask.places[place], own[place]);
    }
}

fn less_one_if(taken: bool, n: u32) -> u32
    ensures { result ≡ cond taken (n - 1) n }
{
    if taken { n.saturating_sub(1) } else { n }
}

fn is_positive(n: u32) -> bool
    ensures { result ≡ nat_lt 0 n }
{
    0 < n
}

impl Machine<'_> {
    /// The places where a register holds.
    pub fn tests(&self, test: Register) -> Mask
        requires whole { Whole self.now }
        requires has { HasRegister self.now test }
        ensures { (i : ℕ) → i < self.now.registers.frame.now.places → get_or result.places i false ≡ holds (read (state_of self.now) test i) }
    {
        nonzero_of(&self.registers, test)
    }

    /// Whether a uniform register holds.
    #[tactic(auto, using(crate::proofs::Shapes::read_held))]
    pub fn holds(&self, test: Register) -> bool
        requires whole { Whole self.now }
        requires has { HasRegister self.now test }
        ensures { result ≡ holds (read (state_of self.now) test 0) }
    {
        let cell = self.registers.get(self.registers.operand(test), 0);
        self.registers.frame.setting.is_true(&cell)
    }

    /// Leaves a loop at the places that are live.
    pub fn leave(&mut self)
        requires whole { Whole self.old }
        ensures kept { Kept self.old self.new }
        ensures masked { (b : Beside) (most : ℕ) → Runs b most (breaks end) self.old self.new }
    {
        self.staying = self
            .staying
            .without(&self.live, self.registers.frame.places);
        self.live = Mask::none();
    }

    /// Waits for the end of a turn at the places that are live.
    pub fn skip(&mut self)
        requires whole { Whole self.old }
        ensures kept { Kept self.old self.new }
        ensures masked { (b : Beside) (most : ℕ) → Runs b most (continues end) self.old self.new }
    {
        self.live = Mask::none();
    }

    // What is left of the budget of a loop.
    fn budget(&self, uniform: bool, place: usize) -> u32
        requires whole { Whole self.now }
        requires place { place < 289 }
        ensures { result ≡ budgets uniform (state_of self.now) place }
    {
        if uniform { self.turns } else { self.own[place] }
    }

    /// The places that take a turn.
    pub fn going(&self, uniform: bool, test: Register) -> Mask
        requires whole { Whole self.now }
        requires has { HasRegister self.now test }
        ensures { (i : ℕ) → i < self.now.registers.frame.now.places → get_or result.places i false ≡ going_of uniform test (state_of self.now) i }
    {
        let set = self.tests(test);
        let mut mask = Mask::none();
        for place in 0..self.registers.frame.places {
            let pays = both(set.places[place], is_positive(self.budget(uniform, place)));
            mask.places[place] = both(self.live.places[place], pays);
        }
        mask
    }

    /// Takes the turn's price, and makes the places that pay it live.
    pub fn begin_turn(&mut self, uniform: bool, going: &Mask)
        requires whole { Whole self.old }
        ensures kept { Kept self.old self.new }
        ensures near { BeginsTurn uniform going.now.places self.old self.new }
    {
        self.live = *going;
        self.staying = *going;
        if uniform {
            self.turns = self.turns.saturating_sub(1);
        } else {
            spend(&mut self.own, going);
        }
    }
}
