// What a run leaves.
ghost use Rattle.std.specs.Prelude.{◌≡◌, ℕ, ℤ, ◌+◌, ◌*◌, ◌<◌, ◌≤◌, pos, false, [], ◌∷◌, length, get_or};
ghost use Rattle.fixed_math.specs.Fixed.{IsRaw};
ghost use Rattle.sl_ast.specs.Names.{is_light};
ghost use Rattle.sl_ast.specs.declared.typed.Value.TheVariants as values;
ghost use Rattle.builtins.specs.Values.{number_of};
ghost use Rattle.builtins.specs.declared.shape.Shape.TheVariants as shapes;
ghost use Rattle.grid_code.specs.Masked.{read};
ghost use Rattle.grid_code.specs.Shapes.{register_shape};
ghost use Rattle.grid_machine.specs.Run.{value_in, written_names};
ghost use Rattle.grid_machine.specs.State.{state_of, HasRegister, Whole};

use crate::machine::Machine;
use builtins::number;
use fixed_math::Num;
use grid_code::{Register, named};
use sl_ast::{SlKind, Value};

/// The two registers of triples that a kind of shader other than a light writes.
pub fn written(kind: SlKind) -> (Register, Register)
    ensures names { is_light kind ≡ false → written_names kind ≡ result.0 ∷ result.1 ∷ [] }
    ensures triples { (register_shape result.0 ≡ shapes.Triple) × (register_shape result.1 ≡ shapes.Triple) }
{
    match kind {
        SlKind::Displacement => (named::P, named::N),
        SlKind::Surface | SlKind::Volume | SlKind::Light => (named::CI, named::OI),
    }
}

/// The number of a place of values; 0 behind them.
pub fn number_at(given: &[Value], n: usize) -> Num
    ensures { result ≡ number_of (get_or given.now n (values.Number (pos 0))) }
{
    if n < given.len() {
        number(&given[n])
    } else {
        Num::sat(0)
    }
}

/// The number of places of a grid.
#[tactic(auto, using(crate::proofs::Places::some_places, crate::proofs::Places::few_places))]
pub fn places(columns: usize, rows: usize) -> usize
    requires columns { (2 ≤ columns) × (columns ≤ 17) }
    requires rows { (2 ≤ rows) × (rows ≤ 17) }
    ensures value { result ≡ columns * rows }
    ensures some { 4 ≤ result }
    ensures few { result ≤ 289 }
{
    columns * rows
}

impl Machine<'_> {
    /// Writes the values of two registers of triples into six rows.
    pub fn unload_two(&self, first: Register, second: Register, rows: &mut [i64], width: usize)
        requires whole { Whole self.now }
        requires first { HasRegister self.now first }
        requires second { HasRegister self.now second }
        requires triples { (register_shape first ≡ shapes.Triple) × (register_shape second ≡ shapes.Triple) }
        requires room { 6 * width ≤ length rows.old }
        requires wide { self.now.registers.frame.now.places ≤ width }
        ensures long { length rows.new ≡ length rows.old }
        ensures first { (i : ℕ) → i < self.now.registers.frame.now.places → value_in shapes.Triple rows.new width (0 + i) ≡ read (state_of self.now) first i }
        ensures second { (i : ℕ) → i < self.now.registers.frame.now.places → value_in shapes.Triple rows.new width (0 + 3 * width + i) ≡ read (state_of self.now) second i }
        ensures raws { ((k : ℕ) → IsRaw (get_or rows.old k (pos 0))) → (k : ℕ) → IsRaw (get_or rows.new k (pos 0)) }
    {
        self.unload(first, rows, width, 0);
        self.unload(second, rows, width, 3 * width);
    }
}
