// The operations that are formulas of numbers, as families.
ghost use Rattle.std.specs.Prelude.{◌≡◌};
ghost use Rattle.builtins.specs.Formulas as spec;

use crate::numbers::{
    abs, ceil, clamp, degrees, exp, floor, inversesqrt, log, max, min, mix, modulo, radians, round,
    sign, tan,
};
use fixed_math::Num;
use sl_ast::ValueOperation as Op;

/// One part of a value, by an operation that goes part by part.
pub fn part(op: Op, x: Num) -> Num
    ensures { result ≡ spec.part op x }
{
    match op {
        Op::Negate => x.neg(),
        Op::Abs => abs(x),
        Op::Sign => sign(x),
        Op::Floor => floor(x),
        Op::Ceil => ceil(x),
        Op::Round => round(x),
        _ => x,
    }
}

/// One part of two values, by an operation that goes part by part.
pub fn parts(op: Op, x: Num, y: Num) -> Num
    ensures { result ≡ spec.parts op x y }
{
    match op {
        Op::Add => x.add(y),
        Op::Subtract => x.sub(y),
        Op::Multiply => x.mul(y),
        Op::Divide => x.div(y),
        Op::Min => min(x, y),
        Op::Max => max(x, y),
        Op::Mod => modulo(x, y),
        _ => x,
    }
}

/// One part of three values, by an operation that goes part by part.
pub fn three_parts(op: Op, x: Num, y: Num, z: Num) -> Num
    ensures { result ≡ spec.three_parts op x y z }
{
    match op {
        Op::Clamp => clamp(x, y, z),
        Op::Mix => mix(x, y, z),
        _ => x,
    }
}

/// A number of a number, by an operation that is a formula of one.
pub fn number_formula(op: Op, x: Num) -> Num
    ensures { result ≡ spec.number op x }
{
    match op {
        Op::Sin => x.sin(),
        Op::Cos => x.cos(),
        Op::Tan => tan(x),
        Op::Sqrt => x.sqrt(),
        Op::InverseSqrt => inversesqrt(x),
        Op::Exp => exp(x),
        Op::Log => log(x),
        Op::Radians => radians(x),
        Op::Degrees => degrees(x),
        _ => x,
    }
}

/// Whether two numbers stand in the order of a comparison.
pub fn order(op: Op, x: Num, y: Num) -> bool
    ensures { result ≡ spec.order op x y }
{
    match op {
        Op::Less => x.raw() < y.raw(),
        Op::LessEqual => x.raw() <= y.raw(),
        Op::Greater => y.raw() < x.raw(),
        Op::GreaterEqual => y.raw() <= x.raw(),
        _ => false,
    }
}
