// The shape of an operation's value, by those of its operands.
ghost use Rattle.std.specs.Prelude.{◌≡◌};
ghost use Rattle.builtins.specs.Values as values;
ghost use Rattle.builtins.specs.Shapes as spec;

use crate::shape::Shape;
use sl_ast::{SlType, Value, ValueOperation};

impl Shape {
    /// The shape of a value.
    pub fn of(value: &Value) -> Shape
        ensures { result ≡ spec.shape value.now }
    {
        match value {
            Value::Number(_) => Shape::Number,
            Value::Triple(_) => Shape::Triple,
            Value::Word(_) => Shape::Word,
        }
    }
}

/// The shape of the values of a type.
pub fn shape_of(kind: SlType) -> Shape
    ensures { result ≡ values.shape_of kind }
{
    match kind {
        SlType::Float => Shape::Number,
        SlType::Str => Shape::Word,
        SlType::Color | SlType::Point | SlType::Vector | SlType::Normal => Shape::Triple,
    }
}

// A number, or else a triple.
fn part_shape(s: Shape) -> Shape
    ensures { result ≡ spec.part_shape s }
{
    match s {
        Shape::Number => Shape::Number,
        Shape::Triple | Shape::Word => Shape::Triple,
    }
}

fn joined(s: Shape, t: Shape) -> Shape
    ensures { result ≡ spec.joined s t }
{
    match s {
        Shape::Number => part_shape(t),
        Shape::Triple | Shape::Word => Shape::Triple,
    }
}

// Of two values of which one is taken.
fn alike(s: Shape, t: Shape) -> Shape
    ensures { result ≡ spec.alike s t }
{
    match (s, t) {
        (Shape::Number, Shape::Number) => Shape::Number,
        (Shape::Word, Shape::Word) => Shape::Word,
        _ => Shape::Triple,
    }
}

fn shape_of_one(op: ValueOperation, s: Shape) -> Shape
    ensures { result ≡ spec.shape_of_one op s }
{
    use ValueOperation as Op;
    match op {
        Op::Negate | Op::Abs | Op::Sign | Op::Floor | Op::Ceil | Op::Round => part_shape(s),
        Op::Convert(kind, _) => shape_of(kind),
        Op::Not | Op::Sin | Op::Cos | Op::Tan | Op::Sqrt | Op::InverseSqrt => Shape::Number,
        Op::Exp | Op::Log | Op::Radians | Op::Degrees => Shape::Number,
        Op::XComp | Op::YComp | Op::ZComp | Op::Length | Op::Depth | Op::Noise => Shape::Number,
        Op::Normalize => Shape::Triple,
        Op::Transform(_, _) | Op::VTransform(_, _) | Op::NTransform(_, _) => Shape::Triple,
        _ => s,
    }
}

fn shape_of_two(op: ValueOperation, s: Shape, t: Shape) -> Shape
    ensures { result ≡ spec.shape_of_two op s t }
{
    use ValueOperation as Op;
    match op {
        Op::Add | Op::Subtract | Op::Multiply | Op::Divide => joined(s, t),
        Op::Min | Op::Max | Op::Mod => joined(s, t),
        Op::Cross | Op::Reflect => Shape::Triple,
        Op::Or | Op::And | Op::Equal | Op::NotEqual => Shape::Number,
        Op::Less | Op::LessEqual | Op::Greater | Op::GreaterEqual => Shape::Number,
        Op::Dot | Op::Distance | Op::Comp | Op::Noise => Shape::Number,
        Op::Pow | Op::Step => Shape::Number,
        _ => s,
    }
}

fn shape_of_three(op: ValueOperation, r: Shape, s: Shape, t: Shape) -> Shape
    ensures { result ≡ spec.shape_of_three op r s t }
{
    use ValueOperation as Op;
    match op {
        Op::Select => alike(s, t),
        Op::Triple(kind, _) => shape_of(kind),
        Op::Min | Op::Max | Op::Clamp | Op::Mix => joined(joined(r, s), t),
        Op::SmoothStep => Shape::Number,
        Op::FaceForward => Shape::Triple,
        _ => r,
    }
}

/// The shape of an operation's value, by the shapes of its operands.
pub fn shape_applied(op: ValueOperation, operands: &[Shape]) -> Shape
    ensures { result ≡ spec.shape_applied op operands.now }
{
    match operands {
        [s] => shape_of_one(op, *s),
        [s, t] => shape_of_two(op, *s, *t),
        [r, s, t] => shape_of_three(op, *r, *s, *t),
        _ => Shape::Number,
    }
}
