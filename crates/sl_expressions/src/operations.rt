// Operators, conversions and built-ins on typed operands.
ghost use Rattle.std.specs.Prelude.{Bool, List, ◌≡◌, [], ◌∷◌, map};
ghost use Rattle.std.specs.Str.{bytes_eq};
ghost use Rattle.sl_ast.specs.Rules.{rule};
ghost use Rattle.sl_expressions.specs.Exprs as spec;
ghost use Rattle.sl_expressions.specs.Found.{Found, refuses};
ghost use Rattle.sl_expressions.specs.Typed as T;
ghost use Rattle.sl_expressions.specs.TypedView.{typed_of, tlink_of};
ghost use Rattle.sl_expressions.specs.Views.{Gives, GivesAll, AddsLink, operated, spot_of, chain_of};

use crate::faults::{TypeCode, TypeFault, fault};
use crate::names::is;
use crate::parts::{added, boxed, left, one, push};
use crate::places::Spot;
use crate::predefined::space_named;
use crate::rules::prefix_operation;
use crate::typed::{TypedExpr, TypedLink};
use fixed_math::{List, Text};
use sl_ast::{
    Look, NodeType, Operands, Operation, Prefix, SlType, Space, SpaceName, ValueOperation,
};
use std::alloc::Global;

pub fn kind_of(e: &TypedExpr) -> NodeType
    ensures { result ≡ T.kind_of (typed_of e.now) }
{
    match e {
        TypedExpr::Number { .. } => NodeType::Float,
        TypedExpr::Word { .. } => NodeType::Str,
        TypedExpr::Variable { kind, .. } => *kind,
        TypedExpr::Apply { kind, .. } => *kind,
        TypedExpr::Chain { kind, .. } => *kind,
        TypedExpr::Call { kind, .. } => *kind,
    }
}

// The types of these operands.
#[tactic(auto, using(crate::proofs::Operands::many_operands))]
pub fn operands_of(args: &[TypedExpr]) -> Operands
    ensures { result ≡ spec.operands_of (map typed_of args.now) }
{
    match args {
        [] => Operands::Nothing,
        [a] => Operands::One(kind_of(a)),
        [a, b] => Operands::Two(kind_of(a), kind_of(b)),
        [a, b, c] => Operands::Three(kind_of(a), kind_of(b), kind_of(c)),
        _ => Operands::Many,
    }
}

// Whether no rule fits these operands.
pub fn misfits(operation: Operation, args: &[TypedExpr]) -> bool
    ensures { result ≡ spec.misfits operation (map typed_of args.now) }
{
    operation.rule(operands_of(args)).is_none()
}

#[tactic(auto, using(crate::proofs::Rows::held_typed))]
fn node(operation: Operation, args: Vec<TypedExpr>, kind: NodeType, line: u32) -> TypedExpr
    ensures { typed_of result ≡ T.apply operation (T.exprs (map typed_of args.items)) kind line }
{
    TypedExpr::Apply {
        operation,
        args: List(args),
        kind,
        line,
    }
}

// An operation on its operands.
pub fn applied(
    operation: Operation,
    line: u32,
    args: Vec<TypedExpr>,
) -> Result<TypedExpr, TypeFault>
    ensures { Gives typed_of result (spec.applied operation line (map typed_of args.items)) }
{
    match operation.rule(operands_of(args.as_slice())) {
        None => fault(TypeCode::T2, line),
        Some(kind) => Ok(node(operation, args, kind, line)),
    }
}

/// A prefix operator on its operand.
pub fn prefixed(
    alloc: Global,
    operator: Prefix,
    line: u32,
    operand: Result<TypedExpr, TypeFault>,
) -> Result<TypedExpr, TypeFault>
    ensures { (found : Found T.Expr) → Gives typed_of operand found → Gives typed_of result (spec.prefixed operator line found) }
{
    let args = one(alloc, operand?)?;
    applied(prefix_operation(operator), line, args)
}

// An operator after operands whose type is `before`, with the operand after it.
fn linked(
    operation: Operation,
    line: u32,
    before: NodeType,
    operand: TypedExpr,
) -> Result<TypedLink, TypeFault>
    ensures { (t : T.Expr) → T.kind_of t ≡ before → Gives (λ l. T.linked t (tlink_of l)) result (spec.applied operation line (t ∷ typed_of operand ∷ [])) }
{
    match operation.rule(Operands::Two(before, kind_of(&operand))) {
        None => left(
            operand,
            TypeFault::At {
                code: TypeCode::T2,
                line,
            },
        ),
        Some(kind) => Ok(TypedLink {
            operation,
            operand,
            kind,
            line,
        }),
    }
}

/// An operator after those after a first operand, where `before` is the type of what stands as far as that; the type with it.
pub fn add_link(
    links: &mut Vec<TypedLink>,
    operation: Operation,
    line: u32,
    before: NodeType,
    operand: Result<TypedExpr, TypeFault>,
) -> Result<NodeType, TypeFault>
    ensures { AddsLink (operated operation line) before operand links.old.items links.new.items result }
{
    let link = linked(operation, line, before, operand?)?;
    let kind = link.kind;
    push(links, link)?;
    Ok(kind)
}

// A chain of at least one operator, the last of which stands apart.
#[tactic(auto, using(crate::proofs::Rows::held_chain))]
fn chain_node(
    alloc: Global,
    first: TypedExpr,
    links: Vec<TypedLink>,
    last: TypedLink,
) -> Result<TypedExpr, TypeFault>
    ensures { Gives typed_of result (Ok (T.linked (T.chained (typed_of first) (map tlink_of links.items)) (tlink_of last))) }
{
    match boxed(alloc, first) {
        Err(fault) => left((links, last), fault),
        Ok(first) => match boxed(alloc, last.operand) {
            Err(fault) => left((first, links), fault),
            Ok(operand) => Ok(TypedExpr::Chain {
                first,
                links: List(links),
                operation: last.operation,
                operand,
                kind: last.kind,
                line: last.line,
            }),
        },
    }
}

/// A chain from its first operand and the operators after it.
#[tactic(auto, using(crate::proofs::Chains::chain_parted))]
pub fn chained(
    alloc: Global,
    first: TypedExpr,
    links: Result<Vec<TypedLink>, TypeFault>,
) -> Result<TypedExpr, TypeFault>
    ensures { (found : Found T.Expr) → Gives (chain_of (typed_of first)) links found → Gives typed_of result found }
{
    match links {
        Err(fault) => left(first, fault),
        Ok(mut links) => match links.pop() {
            None => Ok(first),
            Some(last) => chain_node(alloc, first, links, last),
        },
    }
}

/// The three parts of a triple or a choice.
pub fn three(
    alloc: Global,
    x: Result<TypedExpr, TypeFault>,
    y: Result<TypedExpr, TypeFault>,
    z: Result<TypedExpr, TypeFault>,
) -> Result<Vec<TypedExpr>, TypeFault>
    ensures { (a b c : Found T.Expr) → Gives typed_of x a → Gives typed_of y b → Gives typed_of z c → GivesAll typed_of result (spec.three a b c) }
{
    let one = added(Ok(Vec::new(alloc)), x);
    let two = added(one, y);
    added(two, z)
}

/// One of two values by a condition.
pub fn chosen(line: u32, parts: Result<Vec<TypedExpr>, TypeFault>) -> Result<TypedExpr, TypeFault>
    ensures { (found : Found (List T.Expr)) → GivesAll typed_of parts found → Gives typed_of result (spec.chosen line found) }
{
    let parts = parts?;
    applied(Operation::Value(ValueOperation::Select), line, parts)
}

fn space_at(line: u32, space: Option<SpaceName>) -> Result<SpaceName, TypeFault>
    ensures { Gives (λ s. s) result (spec.space_at line space) }
{
    match space {
        None => fault(TypeCode::T11, line),
        Some(space) => Ok(space),
    }
}

// The space before a value of a type.
fn space_of(g: &Spot, kind: SlType, space: &Option<Space>) -> Result<SpaceName, TypeFault>
    ensures { Gives (λ s. s) result (spec.space_of (spot_of g.now) kind space.now) }
{
    let Some(space) = space else {
        return Ok(SpaceName::Current);
    };
    match kind {
        SlType::Color => {
            if is(&space.name, "rgb") {
                Ok(SpaceName::Current)
            } else {
                fault(TypeCode::T11, space.line)
            }
        }
        SlType::Float | SlType::Str => Ok(SpaceName::Current),
        _ => space_at(space.line, space_named(g.kind, g.default, &space.name)),
    }
}

fn refuses_space(kind: SlType, space: &Option<Space>) -> bool
    ensures { result ≡ spec.refuses_space kind space.now }
{
    match kind {
        SlType::Float => space.is_some(),
        _ => false,
    }
}

fn is_look(operation: Operation) -> bool
    ensures { result ≡ spec.is_look operation }
{
    matches!(operation, Operation::Look(_))
}

// Whether a value is a look-up.
fn is_look_up(e: &TypedExpr) -> bool
    ensures { result ≡ spec.is_look_up (typed_of e.now) }
{
    match e {
        TypedExpr::Number { .. } => false,
        TypedExpr::Word { .. } => false,
        TypedExpr::Variable { .. } => false,
        TypedExpr::Apply { operation, .. } => is_look(*operation),
        TypedExpr::Chain { operation, .. } => is_look(*operation),
        TypedExpr::Call { .. } => false,
    }
}

// Whether a type takes the first part of the colour that it stands before.
fn takes_first(kind: SlType, call: bool, e: &TypedExpr) -> bool
    ensures { result ≡ spec.takes_first kind call (typed_of e.now) }
{
    match kind {
        SlType::Float => call && is_look_up(e),
        _ => false,
    }
}

// What a type before a value does.
fn conversion(kind: SlType, space: SpaceName, first_part: bool) -> Operation
    ensures { (call : Bool) (t : T.Expr) → first_part ≡ spec.takes_first kind call t → result ≡ spec.conversion kind space call t }
{
    if first_part {
        Operation::Look(Look::First)
    } else {
        Operation::Value(ValueOperation::Convert(kind, space))
    }
}

// A type before a value, and whether that is a call.
pub fn converted(
    alloc: Global,
    g: &Spot,
    kind: SlType,
    space: &Option<Space>,
    call: bool,
    line: u32,
    part: Result<TypedExpr, TypeFault>,
) -> Result<TypedExpr, TypeFault>
    ensures { (found : Found T.Expr) → Gives typed_of part found → Gives typed_of result (spec.converted (spot_of g.now) kind space.now call line found) }
{
    let space_found = space_of(g, kind, space);
    match part {
        Err(TypeFault::NoMemory) => Err(TypeFault::NoMemory),
        Err(TypeFault::At { code, line }) => match space_found {
            Err(first) => Err(first),
            Ok(_) => fault(code, line),
        },
        Ok(value) => {
            let first_part = takes_first(kind, call, &value);
            let args = one(alloc, value)?;
            if refuses_space(kind, space)
                || misfits(
                    conversion(kind, SpaceName::Current, first_part),
                    args.as_slice(),
                )
            {
                return left(
                    args,
                    TypeFault::At {
                        code: TypeCode::T2,
                        line,
                    },
                );
            }
            match space_found {
                Err(first) => left(args, first),
                Ok(space) => applied(conversion(kind, space, first_part), line, args),
            }
        }
    }
}

// A type before three components.
pub fn tripled(
    g: &Spot,
    kind: SlType,
    space: &Option<Space>,
    line: u32,
    parts: Result<Vec<TypedExpr>, TypeFault>,
) -> Result<TypedExpr, TypeFault>
    ensures { (found : Found (List T.Expr)) → GivesAll typed_of parts found → Gives typed_of result (spec.tripled (spot_of g.now) kind space.now line found) }
{
    match parts {
        Err(TypeFault::NoMemory) => Err(TypeFault::NoMemory),
        Err(TypeFault::At { code, line }) => {
            space_of(g, kind, space)?;
            fault(code, line)
        }
        Ok(args) => {
            if misfits(
                Operation::Value(ValueOperation::Triple(kind, SpaceName::Current)),
                args.as_slice(),
            ) {
                return fault(TypeCode::T2, line);
            }
            let space = space_of(g, kind, space)?;
            applied(
                Operation::Value(ValueOperation::Triple(kind, space)),
                line,
                args,
            )
        }
    }
}
