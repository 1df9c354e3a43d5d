// Registers by class and shape.
ghost use Rattle.std.specs.Prelude.{◌≡◌};
ghost use Rattle.builtins.specs.Shapes as shapes;
ghost use Rattle.grid_code.specs.Shapes as of_registers;
ghost use Rattle.core_codegen.specs.Registers as spec;

use builtins::{Shape, shape_applied};
use grid_code::{Register, register};
use sl_ast::{Difference, ValueOperation};

pub(crate) fn is_uniform(register: Register) -> bool
    ensures { result ≡ of_registers.register_class register }
{
    match register {
        Register::Uniform(_, _) => true,
        Register::Varying(_, _) => false,
    }
}

fn shape(register: Register) -> Shape
    ensures { result ≡ of_registers.register_shape register }
{
    match register {
        Register::Uniform(shape, _) | Register::Varying(shape, _) => shape,
    }
}

pub(crate) fn are_uniform(registers: &[Register]) -> bool
    ensures { result ≡ of_registers.are_uniform_registers registers.now }
{
    for register in registers {
        if !is_uniform(*register) {
            return false;
        }
    }
    true
}

fn applied_shape(op: ValueOperation, operands: &[Register]) -> Shape
    ensures { result ≡ shapes.shape_applied op (of_registers.register_shapes operands.now) }
{
    match operands {
        [a] => shape_applied(op, &[shape(*a)]),
        [a, b] => shape_applied(op, &[shape(*a), shape(*b)]),
        [a, b, c] => shape_applied(op, &[shape(*a), shape(*b), shape(*c)]),
        _ => Shape::Number,
    }
}

// A register of the class and shape of another.
pub(crate) fn like(from: Register, number: u32) -> Register
    ensures { result ≡ spec.like from number }
{
    register(is_uniform(from), shape(from), number)
}

// The register of an operation's value.
pub(crate) fn applied(op: ValueOperation, operands: &[Register], number: u32) -> Register
    ensures { result ≡ spec.applied_at op operands.now number }
{
    register(are_uniform(operands), applied_shape(op, operands), number)
}

// The register of a look-up's colour.
pub(crate) fn looked(operands: &[Register], number: u32) -> Register
    ensures { result ≡ spec.looked_at operands.now number }
{
    register(are_uniform(operands), Shape::Triple, number)
}

// The register of a difference.
pub(crate) fn differed(difference: Difference, of: Register, number: u32) -> Register
    ensures { result ≡ spec.differed_at difference of number }
{
    let shape = match (difference, shape(of)) {
        (Difference::CalculateNormal, _) => Shape::Triple,
        (_, Shape::Number) => Shape::Number,
        (_, _) => Shape::Triple,
    };
    register(false, shape, number)
}
