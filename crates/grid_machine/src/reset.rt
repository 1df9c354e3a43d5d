// Machines that begin anew.
ghost use Rattle.std.specs.Prelude.{◌≡◌, ℕ, ◌<◌, length, get_or};
ghost use Rattle.grid_machine.specs.Run.{fresh};
ghost use Rattle.grid_machine.specs.State.{state_of, NearIn, Whole, Kept};

use crate::machine::Machine;
use grid_registers::{Frame, counts_of, counts_once};
use place_rows::Mask;

// Makes all budgets whole.
fn refill(own: &mut [u32])
    ensures long { length own.new ≡ length own.old }
    ensures each { (i : ℕ) → i < length own.old → get_or own.new i 0 ≡ 65536 }
{
    for place in 0..own.len() {
        own[place] = 65536;
    }
}

impl<'a> Machine<'a> {
    /// Takes up another frame with as much room.
    pub fn take_up(&mut self, frame: &'a Frame<'a>)
        requires whole { Whole self.old }
        requires room { frame.now.room ≡ self.old.registers.frame.now.room }
        requires places { frame.now.places ≡ self.old.registers.frame.now.places }
        ensures whole { Whole self.new }
        ensures frame { self.new.registers.frame.now ≡ frame.now }
    {
        self.registers.frame = frame;
    }
}

impl Machine<'_> {
    /// Makes registers 0, budgets whole, and all places live.
    pub fn reset(&mut self)
        requires whole { Whole self.old }
        ensures kept { Kept self.old self.new }
        ensures near { NearIn self.old fresh (state_of self.new) }
    {
        let frame = self.registers.frame;
        let rows = counts_of(frame.varying, frame.places);
        self.registers
            .rows
            .clear(rows.numbers, rows.triples, rows.words);
        let shared = counts_once(frame.uniform);
        self.registers
            .shared
            .clear(shared.numbers, shared.triples, shared.words);
        refill(&mut self.own);
        self.turns = 65536;
        self.live = Mask::full();
        self.staying = Mask::full();
    }
}
