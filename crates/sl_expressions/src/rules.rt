// Operators and built-in functions by what the text calls them.
ghost use Rattle.std.specs.Prelude.{◌≡◌, map};
ghost use Rattle.sl_expressions.specs.Names.{plain};
ghost use Rattle.sl_expressions.specs.Rules as spec;

use crate::entry::Entry;
use sl_ast::{Difference, LightSum, Look, Operation, Operator, Prefix, SpaceName, ValueOperation};

/// What the name of a built-in function stands for: an operation, or one that is left out.
#[derive(Clone, Copy)]
pub enum Builtin {
    Plain(Operation),
    LeftOut,
}

pub fn operation_of(operator: Operator) -> Operation
    ensures { result ≡ spec.operation_of operator }
{
    match operator {
        Operator::Or => Operation::Value(ValueOperation::Or),
        Operator::And => Operation::Value(ValueOperation::And),
        Operator::Equal => Operation::Value(ValueOperation::Equal),
        Operator::NotEqual => Operation::Value(ValueOperation::NotEqual),
        Operator::Less => Operation::Value(ValueOperation::Less),
        Operator::LessEqual => Operation::Value(ValueOperation::LessEqual),
        Operator::Greater => Operation::Value(ValueOperation::Greater),
        Operator::GreaterEqual => Operation::Value(ValueOperation::GreaterEqual),
        Operator::Add => Operation::Value(ValueOperation::Add),
        Operator::Subtract => Operation::Value(ValueOperation::Subtract),
        Operator::Cross => Operation::Value(ValueOperation::Cross),
        Operator::Multiply => Operation::Value(ValueOperation::Multiply),
        Operator::Divide => Operation::Value(ValueOperation::Divide),
        Operator::Dot => Operation::Value(ValueOperation::Dot),
    }
}

pub fn prefix_operation(operator: Prefix) -> Operation
    ensures { result ≡ spec.prefix_operation operator }
{
    match operator {
        Prefix::Negative => Operation::Value(ValueOperation::Negate),
        Prefix::Not => Operation::Value(ValueOperation::Not),
    }
}

pub fn builtin_names() -> &'static [Entry<Builtin>]
    ensures { map plain result.now ≡ spec.builtin_names }
{
    &[
        Entry {
            name: "abs",
            value: Builtin::Plain(Operation::Value(ValueOperation::Abs)),
        },
        Entry {
            name: "sign",
            value: Builtin::Plain(Operation::Value(ValueOperation::Sign)),
        },
        Entry {
            name: "floor",
            value: Builtin::Plain(Operation::Value(ValueOperation::Floor)),
        },
        Entry {
            name: "ceil",
            value: Builtin::Plain(Operation::Value(ValueOperation::Ceil)),
        },
        Entry {
            name: "round",
            value: Builtin::Plain(Operation::Value(ValueOperation::Round)),
        },
        Entry {
            name: "min",
            value: Builtin::Plain(Operation::Value(ValueOperation::Min)),
        },
        Entry {
            name: "max",
            value: Builtin::Plain(Operation::Value(ValueOperation::Max)),
        },
        Entry {
            name: "clamp",
            value: Builtin::Plain(Operation::Value(ValueOperation::Clamp)),
        },
        Entry {
            name: "mod",
            value: Builtin::Plain(Operation::Value(ValueOperation::Mod)),
        },
        Entry {
            name: "mix",
            value: Builtin::Plain(Operation::Value(ValueOperation::Mix)),
        },
        Entry {
            name: "sin",
            value: Builtin::Plain(Operation::Value(ValueOperation::Sin)),
        },
        Entry {
            name: "cos",
            value: Builtin::Plain(Operation::Value(ValueOperation::Cos)),
        },
        Entry {
            name: "tan",
            value: Builtin::Plain(Operation::Value(ValueOperation::Tan)),
        },
        Entry {
            name: "sqrt",
            value: Builtin::Plain(Operation::Value(ValueOperation::Sqrt)),
        },
        Entry {
            name: "inversesqrt",
            value: Builtin::Plain(Operation::Value(ValueOperation::InverseSqrt)),
        },
        Entry {
            name: "pow",
            value: Builtin::Plain(Operation::Value(ValueOperation::Pow)),
        },
        Entry {
            name: "exp",
            value: Builtin::Plain(Operation::Value(ValueOperation::Exp)),
        },
        Entry {
            name: "log",
            value: Builtin::Plain(Operation::Value(ValueOperation::Log)),
        },
        Entry {
            name: "radians",
            value: Builtin::Plain(Operation::Value(ValueOperation::Radians)),
        },
        Entry {
            name: "degrees",
            value: Builtin::Plain(Operation::Value(ValueOperation::Degrees)),
        },
        Entry {
            name: "step",
            value: Builtin::Plain(Operation::Value(ValueOperation::Step)),
        },
        Entry {
            name: "smoothstep",
            value: Builtin::Plain(Operation::Value(ValueOperation::SmoothStep)),
        },
        Entry {
            name: "xcomp",
            value: Builtin::Plain(Operation::Value(ValueOperation::XComp)),
        },
        Entry {
            name: "ycomp",
            value: Builtin::Plain(Operation::Value(ValueOperation::YComp)),
        },
        Entry {
            name: "zcomp",
            value: Builtin::Plain(Operation::Value(ValueOperation::ZComp)),
        },
        Entry {
            name: "comp",
            value: Builtin::Plain(Operation::Value(ValueOperation::Comp)),
        },
        Entry {
            name: "length",
            value: Builtin::Plain(Operation::Value(ValueOperation::Length)),
        },
        Entry {
            name: "distance",
            value: Builtin::Plain(Operation::Value(ValueOperation::Distance)),
        },
        Entry {
            name: "normalize",
            value: Builtin::Plain(Operation::Value(ValueOperation::Normalize)),
        },
        Entry {
            name: "reflect",
            value: Builtin::Plain(Operation::Value(ValueOperation::Reflect)),
        },
        Entry {
            name: "faceforward",
            value: Builtin::Plain(Operation::Value(ValueOperation::FaceForward)),
        },
        Entry {
            name: "transform",
            value: Builtin::Plain(Operation::Value(ValueOperation::Transform(
                SpaceName::Current,
                SpaceName::Current,
            ))),
        },
        Entry {
            name: "vtransform",
            value: Builtin::Plain(Operation::Value(ValueOperation::VTransform(
                SpaceName::Current,
                SpaceName::Current,
            ))),
        },
        Entry {
            name: "ntransform",
            value: Builtin::Plain(Operation::Value(ValueOperation::NTransform(
                SpaceName::Current,
                SpaceName::Current,
            ))),
        },
        Entry {
            name: "depth",
            value: Builtin::Plain(Operation::Value(ValueOperation::Depth)),
        },
        Entry {
            name: "noise",
            value: Builtin::Plain(Operation::Value(ValueOperation::Noise)),
        },
        Entry {
            name: "Du",
            value: Builtin::Plain(Operation::Difference(Difference::Du)),
        },
        Entry {
            name: "Dv",
            value: Builtin::Plain(Operation::Difference(Difference::Dv)),
        },
        Entry {
            name: "calculatenormal",
            value: Builtin::Plain(Operation::Difference(Difference::CalculateNormal)),
        },
        Entry {
            name: "ambient",
            value: Builtin::Plain(Operation::Sum(LightSum::Ambient)),
        },
        Entry {
            name: "diffuse",
            value: Builtin::Plain(Operation::Sum(LightSum::Diffuse)),
        },
        Entry {
            name: "specular",
            value: Builtin::Plain(Operation::Sum(LightSum::Specular)),
        },
        Entry {
            name: "texture",
            value: Builtin::Plain(Operation::Look(Look::At)),
        },
        Entry {
            name: "asin",
            value: Builtin::LeftOut,
        },
        Entry {
            name: "acos",
            value: Builtin::LeftOut,
        },
        Entry {
            name: "atan",
            value: Builtin::LeftOut,
        },
        Entry {
            name: "spline",
            value: Builtin::LeftOut,
        },
        Entry {
            name: "printf",
            value: Builtin::LeftOut,
        },
        Entry {
            name: "bump",
            value: Builtin::LeftOut,
        },
    ]
}
