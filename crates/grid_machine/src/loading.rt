// Registers that take given values.
ghost use Rattle.std.specs.Prelude.{◌≡◌, ℕ, ℤ, ◌+◌, ◌-◌, ◌*◌, ◌<◌, ◌≤◌, pos, true, List, length, get_or, map};
ghost use Rattle.std.specs.Borrow.{Bor};
ghost use Rattle.std.specs.List.{list_all};
ghost use Rattle.fixed_math.specs.Fixed.{IsRaw};
ghost use Rattle.builtins.specs.Shapes.{shape as shape_of_value};
ghost use Rattle.builtins.specs.declared.shape.Shape.{Shape as AnyShape};
ghost use Rattle.builtins.specs.declared.shape.Shape.TheVariants as shapes;
ghost use Rattle.sl_ast.specs.declared.typed.Value.TheVariants as values;
ghost use Rattle.grid_code.specs.Shapes.{register_shape};
ghost use Rattle.place_rows.specs.Banks.{size, held};
ghost use Rattle.place_values.specs.declared.cell.Cell.TheVariants as cells;
ghost use Rattle.number_rows.specs.Planes.{triple_in};
ghost use Rattle.place_values.specs.Cells.{value_of, is_known};
ghost use Rattle.grid_code.specs.Uses.{has};
ghost use Rattle.place_rows.specs.Layout.{height};
ghost use Rattle.grid_machine.specs.Run.{rows_of, value_in, assigned, loaded};
ghost use Rattle.grid_machine.specs.State.{texts_of, HasRegister, Whole, Kept};
ghost use Rattle.grid_machine.specs.Writes.{Writes, Leads};

use crate::machine::Machine;
use builtins::Shape;
use grid_code::Register;
use grid_registers::Work;
use number_rows::take_raws;
use place_rows::Bank;
use place_values::Cell;
use sl_ast::Value;

/// The shape of a register's values.
pub fn shape_of(register: Register) -> Shape
    ensures { result ≡ register_shape register }
{
    match register {
        Register::Uniform(shape, _) => shape,
        Register::Varying(shape, _) => shape,
    }
}

/// How many rows the values of a shape take.
pub fn height_of(shape: Shape) -> usize
    ensures { result ≡ height shape }
{
    match shape {
        Shape::Triple => 3,
        Shape::Number | Shape::Word => 1,
    }
}

// The numbers at the first elements of a row from one on.
fn fill_numbers(rows: &[i64], start: usize, count: usize, row: &mut Bank)
    requires raws { (k : ℕ) → IsRaw (get_or rows.now k (pos 0)) }
    requires room { start + count ≤ length rows.now }
    requires places { (s : AnyShape) → count ≤ size row.old s }
    ensures size { (s : AnyShape) → size row.new s ≡ size row.old s }
    ensures each { (j : ℕ) → j < count → held row.new shapes.Number j ≡ cells.Number (get_or rows.now (start + j) (pos 0)) }
{
    take_raws(rows, start, count, &mut row.numbers);
}

// The triples at the first elements of three rows from one on.
fn fill_triples(rows: &[i64], width: usize, start: usize, count: usize, row: &mut Bank)
    requires raws { (k : ℕ) → IsRaw (get_or rows.now k (pos 0)) }
    requires room { start + 3 * width ≤ length rows.now }
    requires count { count ≤ width }
    requires places { (s : AnyShape) → count ≤ size row.old s }
    ensures size { (s : AnyShape) → size row.new s ≡ size row.old s }
    ensures each { (j : ℕ) → j < count → values.Triple (triple_in row.new.xs.items row.new.ys.items row.new.zs.items j) ≡ value_in shapes.Triple rows.now width (start + j) }
{
    take_raws(rows, start, count, &mut row.xs);
    take_raws(rows, start + width, count, &mut row.ys);
    take_raws(rows, start + 2 * width, count, &mut row.zs);
}

// The values of a shape at the first elements of rows from one on. None is a text, and so they are the same among all lists of texts.
fn fill(shape: Shape, rows: &[i64], width: usize, start: usize, count: usize, row: &mut Bank)
    requires raws { (k : ℕ) → IsRaw (get_or rows.now k (pos 0)) }
    requires room { start + height shape * width ≤ length rows.now }
    requires count { count ≤ width }
    requires places { (s : AnyShape) → count ≤ size row.old s }
    ensures size { (s : AnyShape) → size row.new s ≡ size row.old s }
    ensures each { (ts : List (Bor (List ℕ))) (j : ℕ) → j < count → value_of ts (held row.new (shape_of_value (value_in shape rows.now width (start + j))) j) ≡ value_in shape rows.now width (start + j) }
{
    match shape {
        Shape::Number => fill_numbers(rows, start, count, row),
        Shape::Triple => fill_triples(rows, width, start, count, row),
        Shape::Word => row.fill(&Cell::Word(0)),
    }
}

impl Machine<'_> {
    /// A register takes one value.
    pub fn assign(&mut self, to: Register, value: &Value)
        requires whole { Whole self.old }
        requires has { HasRegister self.old to }
        requires known { is_known (texts_of self.old.registers) value.now ≡ true }
        requires shape { shape_of_value value.now ≡ register_shape to }
        ensures kept { Kept self.old self.new }
        ensures near { Writes self.old to (λ i. value.now) self.new }
    {
        let work = Work::Constant(self.registers.frame.setting.cell(value));
        self.registers.compute(to, &work, &mut self.scratch);
        self.commit(to);
    }

    /// A register takes the values of rows from an element on.
    pub fn load(&mut self, to: Register, rows: &[i64], width: usize, start: usize)
        requires whole { Whole self.old }
        requires has { HasRegister self.old to }
        requires raws { (k : ℕ) → IsRaw (get_or rows.now k (pos 0)) }
        requires room { start + height (register_shape to) * width ≤ length rows.now }
        requires wide { self.old.registers.frame.now.places ≤ width }
        ensures kept { Kept self.old self.new }
        ensures near { Writes self.old to (λ i. value_in (register_shape to) rows.now width (start + i)) self.new }
    {
        let count = self.reach(to);
        fill(shape_of(to), rows, width, start, count, &mut self.scratch);
        self.commit(to);
    }

    /// Registers take values, one each.
    pub fn assign_all(&mut self, to: &[Register], values: &[Value])
        requires whole { Whole self.old }
        requires has { list_all (has self.old.registers.frame.now.varying.now self.old.registers.frame.now.uniform.now) to.now ≡ true }
        requires known { list_all (is_known (texts_of self.old.registers)) values.now ≡ true }
        requires shapes { map shape_of_value values.now ≡ map register_shape to.now }
        ensures kept { Kept self.old self.new }
        ensures near { Leads self.old (assigned self.old.registers.frame.now.places to.now values.now) self.new }
    {
        for k in 0..to.len() {
            self.assign(to[k], &values[k]);
        }
    }

    /// Registers take the values of rows, one behind another.
    pub fn load_all(&mut self, to: &[Register], rows: &[i64], width: usize)
        requires whole { Whole self.old }
        requires has { list_all (has self.old.registers.frame.now.varying.now self.old.registers.frame.now.uniform.now) to.now ≡ true }
        requires raws { (k : ℕ) → IsRaw (get_or rows.now k (pos 0)) }
        requires long { length rows.now ≡ rows_of to.now * width }
        requires wide { self.old.registers.frame.now.places ≤ width }
        ensures kept { Kept self.old self.new }
        ensures near { Leads self.old (loaded self.old.registers.frame.now.places width rows.now to.now 0) self.new }
    {
        let mut start = 0;
        for k in 0..to.len() {
            self.load(to[k], rows, width, start);
            start += height_of(shape_of(to[k])) * width;
        }
    }
}
