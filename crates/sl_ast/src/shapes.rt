// Operands of operations.
ghost use Rattle.std.specs.Prelude.{◌≡◌, ◌&&◌};
ghost use Rattle.sl_ast.specs.Rules as spec;

use crate::kinds::{NodeType, SlType};
use crate::operands::Operands;

pub fn is_float(kind: NodeType) -> bool
    ensures { result ≡ spec.is_float kind }
{
    matches!(kind, NodeType::Float)
}

pub fn is_test(kind: NodeType) -> bool
    ensures { result ≡ spec.is_test kind }
{
    matches!(kind, NodeType::Test)
}

pub fn is_string(kind: NodeType) -> bool
    ensures { result ≡ spec.is_string kind }
{
    matches!(kind, NodeType::Str)
}

pub fn is_color(kind: NodeType) -> bool
    ensures { result ≡ spec.is_color kind }
{
    matches!(kind, NodeType::Color | NodeType::Float)
}

pub fn is_triple(kind: NodeType) -> bool
    ensures { result ≡ spec.is_triple kind }
{
    matches!(
        kind,
        NodeType::Point | NodeType::Vector | NodeType::Normal | NodeType::Float
    )
}

fn when(holds: bool, kind: NodeType) -> Option<NodeType>
    ensures { result ≡ spec.when holds kind }
{
    if holds { Some(kind) } else { None }
}

fn both(a: bool, b: bool) -> bool
    ensures { result ≡ a && b }
{
    a && b
}

// The type of a float beside that operand.
fn beside_float(kind: NodeType) -> Option<NodeType>
    ensures { result ≡ spec.beside_float kind }
{
    match kind {
        NodeType::Test | NodeType::Str => None,
        _ => Some(kind),
    }
}

// The one type of two numbers, colours or triples.
fn together(first: NodeType, kind: NodeType) -> Option<NodeType>
    ensures { result ≡ spec.together first kind }
{
    match first {
        NodeType::Float => beside_float(kind),
        NodeType::Color => when(is_color(kind), NodeType::Color),
        NodeType::Point => when(is_triple(kind), NodeType::Point),
        NodeType::Vector => when(is_triple(kind), NodeType::Vector),
        NodeType::Normal => when(is_triple(kind), NodeType::Normal),
        NodeType::Str | NodeType::Test => None,
    }
}

fn alike(first: NodeType, kind: NodeType) -> Option<NodeType>
    ensures { result ≡ spec.alike first kind }
{
    match first {
        NodeType::Str => when(is_string(kind), NodeType::Str),
        _ => together(first, kind),
    }
}

fn and_with(kind: NodeType, first: Option<NodeType>) -> Option<NodeType>
    ensures { result ≡ spec.and_with kind first }
{
    match first {
        Some(first) => together(first, kind),
        None => None,
    }
}

fn compared(kind: Option<NodeType>) -> Option<NodeType>
    ensures { result ≡ spec.compared kind }
{
    match kind {
        Some(_) => Some(NodeType::Test),
        None => None,
    }
}

fn and_apart(kind: Option<NodeType>) -> Option<NodeType>
    ensures { result ≡ spec.and_apart kind }
{
    match kind {
        Some(NodeType::Point) => Some(NodeType::Vector),
        _ => kind,
    }
}

pub fn one_float(kind: NodeType, operands: Operands) -> Option<NodeType>
    ensures { result ≡ spec.one_float kind operands }
{
    match operands {
        Operands::One(a) => when(is_float(a), kind),
        _ => None,
    }
}

pub fn two_floats(kind: NodeType, operands: Operands) -> Option<NodeType>
    ensures { result ≡ spec.two_floats kind operands }
{
    match operands {
        Operands::Two(a, b) => when(both(is_float(a), is_float(b)), kind),
        _ => None,
    }
}

pub fn three_floats(kind: NodeType, operands: Operands) -> Option<NodeType>
    ensures { result ≡ spec.three_floats kind operands }
{
    match operands {
        Operands::Three(a, b, c) => when(both(is_float(a), both(is_float(b), is_float(c))), kind),
        _ => None,
    }
}

pub fn one_alike(operands: Operands) -> Option<NodeType>
    ensures { result ≡ spec.one_alike operands }
{
    match operands {
        Operands::One(a) => together(a, a),
        _ => None,
    }
}

pub fn two_alike(operands: Operands) -> Option<NodeType>
    ensures { result ≡ spec.two_alike operands }
{
    match operands {
        Operands::Two(a, b) => together(a, b),
        _ => None,
    }
}

pub fn three_alike(operands: Operands) -> Option<NodeType>
    ensures { result ≡ spec.three_alike operands }
{
    match operands {
        Operands::Three(a, b, c) => and_with(c, together(a, b)),
        _ => None,
    }
}

pub fn some_alike(operands: Operands) -> Option<NodeType>
    ensures { result ≡ spec.some_alike operands }
{
    match operands {
        Operands::Two(a, b) => together(a, b),
        Operands::Three(a, b, c) => and_with(c, together(a, b)),
        _ => None,
    }
}

pub fn one_triple(kind: NodeType, operands: Operands) -> Option<NodeType>
    ensures { result ≡ spec.one_triple kind operands }
{
    match operands {
        Operands::One(a) => when(is_triple(a), kind),
        _ => None,
    }
}

pub fn two_triples(kind: NodeType, operands: Operands) -> Option<NodeType>
    ensures { result ≡ spec.two_triples kind operands }
{
    match operands {
        Operands::Two(a, b) => when(both(is_triple(a), is_triple(b)), kind),
        _ => None,
    }
}

pub fn three_triples(kind: NodeType, operands: Operands) -> Option<NodeType>
    ensures { result ≡ spec.three_triples kind operands }
{
    match operands {
        Operands::Three(a, b, c) => when(
            both(is_triple(a), both(is_triple(b), is_triple(c))),
            kind,
        ),
        _ => None,
    }
}

pub fn one_test(operands: Operands) -> Option<NodeType>
    ensures { result ≡ spec.one_test operands }
{
    match operands {
        Operands::One(a) => when(is_test(a), NodeType::Test),
        _ => None,
    }
}

pub fn two_tests(operands: Operands) -> Option<NodeType>
    ensures { result ≡ spec.two_tests operands }
{
    match operands {
        Operands::Two(a, b) => when(both(is_test(a), is_test(b)), NodeType::Test),
        _ => None,
    }
}

pub fn equality(operands: Operands) -> Option<NodeType>
    ensures { result ≡ spec.equality operands }
{
    match operands {
        Operands::Two(a, b) => compared(alike(a, b)),
        _ => None,
    }
}

pub fn selection(operands: Operands) -> Option<NodeType>
    ensures { result ≡ spec.selection operands }
{
    match operands {
        Operands::Three(test, a, b) => { if is_test(test) { alike(a, b) } else { None } }
        _ => None,
    }
}

pub fn components(kind: SlType, operands: Operands) -> Option<NodeType>
    ensures { result ≡ spec.components kind operands }
{
    match kind {
        SlType::Float | SlType::Str => None,
        _ => three_floats(kind.node_type(), operands),
    }
}

pub fn conversion(kind: SlType, operands: Operands) -> Option<NodeType>
    ensures { result ≡ spec.conversion kind operands }
{
    match (kind, operands) {
        (SlType::Str, _) => None,
        (_, Operands::One(a)) => when(kind.takes(a), kind.node_type()),
        _ => None,
    }
}

pub fn channel(operands: Operands) -> Option<NodeType>
    ensures { result ≡ spec.channel operands }
{
    match operands {
        Operands::Two(a, b) => when(both(is_color(a), is_float(b)), NodeType::Float),
        _ => None,
    }
}

pub fn through_spaces(kind: NodeType, operands: Operands) -> Option<NodeType>
    ensures { result ≡ spec.through_spaces kind operands }
{
    match operands {
        Operands::Two(a, b) => when(both(is_string(a), is_triple(b)), kind),
        Operands::Three(a, b, c) => when(
            both(is_string(a), both(is_string(b), is_triple(c))),
            kind,
        ),
        _ => None,
    }
}

pub fn lattice(operands: Operands) -> Option<NodeType>
    ensures { result ≡ spec.lattice operands }
{
    match operands {
        Operands::One(a) => when(is_triple(a), NodeType::Float),
        Operands::Two(a, b) => when(both(is_float(a), is_float(b)), NodeType::Float),
        _ => None,
    }
}

pub fn difference(operands: Operands) -> Option<NodeType>
    ensures { result ≡ spec.difference operands }
{
    match operands {
        Operands::One(a) => and_apart(together(a, a)),
        _ => None,
    }
}

pub fn no_operands(kind: NodeType, operands: Operands) -> Option<NodeType>
    ensures { result ≡ spec.no_operands kind operands }
{
    match operands {
        Operands::Nothing => Some(kind),
        _ => None,
    }
}

pub fn highlight(operands: Operands) -> Option<NodeType>
    ensures { result ≡ spec.highlight operands }
{
    match operands {
        Operands::Three(a, b, c) => when(
            both(is_triple(a), both(is_triple(b), is_float(c))),
            NodeType::Color,
        ),
        _ => None,
    }
}

pub fn one_string(kind: NodeType, operands: Operands) -> Option<NodeType>
    ensures { result ≡ spec.one_string kind operands }
{
    match operands {
        Operands::One(a) => when(is_string(a), kind),
        _ => None,
    }
}

pub fn looked_up(operands: Operands) -> Option<NodeType>
    ensures { result ≡ spec.looked_up operands }
{
    match operands {
        Operands::Three(a, b, c) => when(
            both(is_string(a), both(is_float(b), is_float(c))),
            NodeType::Color,
        ),
        _ => None,
    }
}

pub fn first_part(operands: Operands) -> Option<NodeType>
    ensures { result ≡ spec.first_part operands }
{
    match operands {
        Operands::One(a) => when(is_color(a), NodeType::Float),
        _ => None,
    }
}
