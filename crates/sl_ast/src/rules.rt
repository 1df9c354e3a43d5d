// The table of operations.
ghost use Rattle.std.specs.Prelude.{◌≡◌};
ghost use Rattle.sl_ast.specs.Rules as spec;

use crate::kinds::{NodeType, SetOperator, SlType};
use crate::operands::Operands;
use crate::operations::{Difference, LightSum, Look, Operation, ValueOperation};
use crate::shapes::{
    channel, components, conversion, difference, equality, first_part, highlight, is_color,
    is_float, is_string, is_triple, lattice, looked_up, no_operands, one_alike, one_float,
    one_string, one_test, one_triple, selection, some_alike, three_alike, three_floats,
    three_triples, through_spaces, two_alike, two_floats, two_tests, two_triples,
};

impl SlType {
    /// The type of an expression of that type.
    pub fn node_type(self) -> NodeType
        ensures { result ≡ spec.node_type self }
    {
        match self {
            SlType::Float => NodeType::Float,
            SlType::Color => NodeType::Color,
            SlType::Point => NodeType::Point,
            SlType::Vector => NodeType::Vector,
            SlType::Normal => NodeType::Normal,
            SlType::Str => NodeType::Str,
        }
    }

    /// Whether a value of that type goes where one of this type is wanted: a float is promoted, and points, vectors and
    /// normals stand for each other.
    pub fn takes(self, kind: NodeType) -> bool
        ensures { result ≡ spec.takes self kind }
    {
        match self {
            SlType::Float => is_float(kind),
            SlType::Color => is_color(kind),
            SlType::Point | SlType::Vector | SlType::Normal => is_triple(kind),
            SlType::Str => is_string(kind),
        }
    }
}

impl ValueOperation {
    /// The type of this operation's value, where it takes these operands (Shading Language, RenderMan Interface 3.2,
    /// sections 11 to 15).
    pub fn rule(self, operands: Operands) -> Option<NodeType>
        ensures { result ≡ spec.value_rule self operands }
    {
        match self {
            Self::Negate | Self::Abs | Self::Sign => one_alike(operands),
            Self::Floor | Self::Ceil | Self::Round => one_alike(operands),
            Self::Add | Self::Subtract | Self::Multiply | Self::Divide | Self::Mod => two_alike(
                operands,
            ),
            Self::Min | Self::Max => some_alike(operands),
            Self::Clamp | Self::Mix => three_alike(operands),
            Self::Not => one_test(operands),
            Self::Or | Self::And => two_tests(operands),
            Self::Equal | Self::NotEqual => equality(operands),
            Self::Less | Self::LessEqual => two_floats(NodeType::Test, operands),
            Self::Greater | Self::GreaterEqual => two_floats(NodeType::Test, operands),
            Self::Select => selection(operands),
            Self::Triple(kind, _) => components(kind, operands),
            Self::Convert(kind, _) => conversion(kind, operands),
            Self::Sin | Self::Cos | Self::Tan | Self::Sqrt => one_float(NodeType::Float, operands),
            Self::InverseSqrt | Self::Exp | Self::Log => one_float(NodeType::Float, operands),
            Self::Radians | Self::Degrees => one_float(NodeType::Float, operands),
            Self::Pow | Self::Step => two_floats(NodeType::Float, operands),
            Self::SmoothStep => three_floats(NodeType::Float, operands),
            Self::XComp | Self::YComp | Self::ZComp => one_triple(NodeType::Float, operands),
            Self::Length | Self::Depth => one_triple(NodeType::Float, operands),
            Self::Dot | Self::Distance => two_triples(NodeType::Float, operands),
            Self::Normalize => one_triple(NodeType::Vector, operands),
            Self::Cross | Self::Reflect => two_triples(NodeType::Vector, operands),
            Self::FaceForward => three_triples(NodeType::Vector, operands),
            Self::Comp => channel(operands),
            Self::Noise => lattice(operands),
            Self::Transform(_, _) => through_spaces(NodeType::Point, operands),
            Self::VTransform(_, _) => through_spaces(NodeType::Vector, operands),
            Self::NTransform(_, _) => through_spaces(NodeType::Normal, operands),
        }
    }
}

impl Difference {
    /// The type of this difference, where it takes these operands.
    pub fn rule(self, operands: Operands) -> Option<NodeType>
        ensures { result ≡ spec.difference_rule self operands }
    {
        match self {
            Self::Du | Self::Dv => difference(operands),
            Self::CalculateNormal => one_triple(NodeType::Normal, operands),
        }
    }
}

impl LightSum {
    /// The type of this sum, where it takes these operands.
    pub fn rule(self, operands: Operands) -> Option<NodeType>
        ensures { result ≡ spec.sum_rule self operands }
    {
        match self {
            Self::Ambient => no_operands(NodeType::Color, operands),
            Self::Diffuse => one_triple(NodeType::Color, operands),
            Self::Specular => highlight(operands),
        }
    }
}

impl Look {
    /// The type of a look-up, or of its first part, where it takes these operands.
    pub fn rule(self, operands: Operands) -> Option<NodeType>
        ensures { result ≡ spec.look_rule self operands }
    {
        match self {
            Self::At => looked_up(operands),
            Self::Here => one_string(NodeType::Color, operands),
            Self::First => first_part(operands),
        }
    }
}

impl Operation {
    /// The type of this operation's value, where it takes these operands.
    pub fn rule(self, operands: Operands) -> Option<NodeType>
        ensures { result ≡ spec.rule self operands }
    {
        match self {
            Self::Value(operation) => operation.rule(operands),
            Self::FaceForwardNg => two_triples(NodeType::Vector, operands),
            Self::Difference(difference) => difference.rule(operands),
            Self::Sum(sum) => sum.rule(operands),
            Self::Look(look) => look.rule(operands),
        }
    }
}

impl SetOperator {
    /// What an assignment puts into a variable of that type, where it takes a value of the second type.
    pub fn rule(self, kind: NodeType, value: NodeType) -> Option<NodeType>
        ensures { result ≡ spec.put_into kind self value }
    {
        match self {
            Self::Set => Some(value),
            Self::Add => ValueOperation::Add.rule(Operands::Two(kind, value)),
            Self::Subtract => ValueOperation::Subtract.rule(Operands::Two(kind, value)),
            Self::Multiply => ValueOperation::Multiply.rule(Operands::Two(kind, value)),
            Self::Divide => ValueOperation::Divide.rule(Operands::Two(kind, value)),
        }
    }
}
