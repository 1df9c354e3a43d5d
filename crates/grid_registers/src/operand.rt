// Where the operands of instructions stand.
use builtins::Shape;
use place_values::Cell;
use sl_ast::ValueOperation;

/// The row of a shape that begins at a place of the varying values, or a place of the uniform values.
#[derive(Clone, Copy)]
pub enum Operand {
    Row(Shape, usize),
    Shared(Shape, usize),
}

/// What an instruction computes at a place.
#[derive(Clone, Copy)]
pub enum Work {
    Constant(Cell),
    Copy(Operand),
    Into(Shape, Operand),
    One(ValueOperation, Operand),
    Two(ValueOperation, Operand, Operand),
    Three(ValueOperation, Operand, Operand, Operand),
}
