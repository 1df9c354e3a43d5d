// Calls of functions and of built-ins.
ghost use Rattle.std.specs.Prelude.{List, ◌≡◌, map, option_map, is_some, true};
ghost use Rattle.sl_ast.specs.SyntaxView.{expr_of};
ghost use Rattle.sl_expressions.specs.Exprs as spec;
ghost use Rattle.sl_expressions.specs.Found.{Found};
ghost use Rattle.sl_expressions.specs.Names.{entry_of};
ghost use Rattle.sl_expressions.specs.Scope as scopes;
ghost use Rattle.sl_expressions.specs.Typed as T;
ghost use Rattle.sl_expressions.specs.TypedView.{typed_of};
ghost use Rattle.sl_expressions.specs.Views.{Gives, GivesAll, OfArgs, spot_of, around_of, own_of, callee_of, local_of, found_of, literal_from};

use crate::faults::{TypeCode, TypeFault, fault};
use crate::names::{find, same};
use crate::operations::{applied, kind_of, misfits};
use crate::places::{Args, Around, Body, Faulty, Known, Local, Own, Spot};
use crate::predefined::space_named;
use crate::rules::{Builtin, builtin_names};
use crate::scope::Scope;
use crate::typed::TypedExpr;
use fixed_math::{List, Text};
use sl_ast::{Expr, Look, NodeType, Operation, SlType, SpaceName, ValueOperation};
use std::alloc::Global;

// Whether those values go into those formals.
#[tactic(auto, using(crate::proofs::Operands::fits_unlike, crate::proofs::Operands::fits_split, crate::proofs::Operands::fits_end))]
fn fits(formals: &[Local<'_>], args: &[TypedExpr]) -> bool
    ensures { result ≡ spec.fits (map local_of formals.now) (map typed_of args.now) }
{
    if formals.len() != args.len() {
        return false;
    }
    for i in 0..formals.len() {
        if !formals[i].kind.takes(kind_of(&args[i])) {
            return false;
        }
    }
    true
}

#[tactic(auto, using(crate::proofs::Rows::held_typed))]
fn node(function: usize, args: Vec<TypedExpr>, kind: NodeType, line: u32) -> TypedExpr
    ensures { typed_of result ≡ T.call function (T.exprs (map typed_of args.items)) kind line }
{
    TypedExpr::Call {
        function,
        args: List(args),
        kind,
        line,
    }
}

// A call of a function.
fn called(
    by_default: bool,
    k: usize,
    known: &Known<'_>,
    line: u32,
    args: Result<Vec<TypedExpr>, TypeFault>,
) -> Result<TypedExpr, TypeFault>
    ensures { (found : Found (List T.Expr)) → GivesAll typed_of args found → Gives typed_of result (spec.called by_default k (callee_of known.now) line found) }
{
    let body = if by_default {
        &known.by_default
    } else {
        &known.body
    };
    match args {
        Err(TypeFault::NoMemory) => Err(TypeFault::NoMemory),
        Err(TypeFault::At { code, line }) => match body {
            Err(first) => fault(first.code, first.line),
            Ok(_) => fault(code, line),
        },
        Ok(args) => {
            if !fits(known.formals.as_slice(), args.as_slice()) {
                return fault(TypeCode::T2, line);
            }
            match body {
                Err(first) => fault(first.code, first.line),
                Ok(_) => Ok(node(k, args, known.returns.node_type(), line)),
            }
        }
    }
}

// A string that is written out, with its line.
fn literal_of(e: &Expr) -> Option<(&Text, u32)>
    ensures { literal_from result ≡ spec.literal_of (expr_of e.now) }
{
    match e {
        Expr::Str { text, line } => Some((text, *line)),
        Expr::Paren { inner, .. } => literal_of(inner),
        _ => None,
    }
}

fn literal_space(g: &Spot, line: u32, literal: Option<(&Text, u32)>) -> Result<SpaceName, TypeFault>
    ensures { Gives (λ s. s) result (spec.literal_space (spot_of g.now) line (literal_from literal.entry)) }
{
    let Some((text, at)) = literal else {
        return fault(TypeCode::T11, line);
    };
    match space_named(g.kind, g.default, text) {
        None => fault(TypeCode::T11, at),
        Some(space) => Ok(space),
    }
}

fn space_in(g: &Spot, line: u32, e: &Expr) -> Result<SpaceName, TypeFault>
    ensures { Gives (λ s. s) result (spec.space_in (spot_of g.now) line (expr_of e.now)) }
{
    literal_space(g, line, literal_of(e))
}

fn both_spaces(
    g: &Spot,
    line: u32,
    from: &Expr,
    into: &Expr,
) -> Result<(SpaceName, SpaceName), TypeFault>
    ensures { Gives (λ s. s) result (spec.both_spaces (spot_of g.now) line (expr_of from.now) (expr_of into.now)) }
{
    if literal_of(into).is_none() {
        return fault(TypeCode::T11, line);
    }
    let from = space_in(g, line, from)?;
    let into = space_in(g, line, into)?;
    Ok((from, into))
}

// The spaces from and into which `transform` and its like map.
fn spaces_of(g: &Spot, line: u32, es: &[Expr]) -> Result<(SpaceName, SpaceName), TypeFault>
    ensures { Gives (λ s. s) result (spec.spaces_of (spot_of g.now) line (map expr_of es.now)) }
{
    match es {
        [into, _] => {
            let into = space_in(g, line, into)?;
            Ok((SpaceName::Current, into))
        }
        [from, into, _] => both_spaces(g, line, from, into),
        _ => Ok((SpaceName::Current, SpaceName::Current)),
    }
}

// Whether a variable is a string that isn't a parameter that nothing assigns.
fn is_movable(kind: SlType, fixed: bool) -> bool
    ensures { result ≡ spec.is_movable kind fixed }
{
    matches!(kind, SlType::Str) && !fixed
}

fn named_by(line: u32, at: Option<(usize, Local<'_>)>) -> Result<(), TypeFault>
    ensures { Gives (λ _. true) result (spec.named_by line (option_map found_of at.entry)) }
{
    match at {
        Some((_, local)) if is_movable(local.kind, local.fixed) => fault(TypeCode::T11, line),
        _ => Ok(()),
    }
}

// Refuses what doesn't name a texture. What has a type other than a string's has another fault.
fn texture_named(scope: &Scope<'_>, line: u32, other: bool, e: &Expr) -> Result<(), TypeFault>
    ensures { Gives (λ _. true) result (spec.texture_named (map local_of scope.now) line other (expr_of e.now)) }
{
    match e {
        Expr::Str { .. } => Ok(()),
        Expr::Name { name, line: at } => named_by(*at, scope.level(name)),
        Expr::Paren { inner, .. } => texture_named(scope, line, other, inner),
        _ if other => Ok(()),
        _ => fault(TypeCode::T11, line),
    }
}

fn first_named(scope: &Scope<'_>, line: u32, other: bool, es: &[Expr]) -> Result<(), TypeFault>
    ensures { Gives (λ _. true) result (spec.first_named (map local_of scope.now) line other (map expr_of es.now)) }
{
    match es {
        [] => Ok(()),
        [name, ..] => texture_named(scope, line, other, name),
    }
}

// An operation with the spaces that its arguments name, or the texture.
fn operation_in(
    g: &Spot,
    scope: &Scope<'_>,
    operation: Operation,
    line: u32,
    es: &[Expr],
    other: bool,
) -> Result<Operation, TypeFault>
    ensures { Gives (λ o. o) result (spec.operation_in (spot_of g.now) (map local_of scope.now) operation line (map expr_of es.now) other) }
{
    match operation {
        Operation::Value(ValueOperation::Transform(_, _)) => {
            let (from, into) = spaces_of(g, line, es)?;
            Ok(Operation::Value(ValueOperation::Transform(from, into)))
        }
        Operation::Value(ValueOperation::VTransform(_, _)) => {
            let (from, into) = spaces_of(g, line, es)?;
            Ok(Operation::Value(ValueOperation::VTransform(from, into)))
        }
        Operation::Value(ValueOperation::NTransform(_, _)) => {
            let (from, into) = spaces_of(g, line, es)?;
            Ok(Operation::Value(ValueOperation::NTransform(from, into)))
        }
        Operation::Look(_) => {
            first_named(scope, line, other, es)?;
            Ok(operation)
        }
        _ => Ok(operation),
    }
}

// `faceforward` and `texture` by the number of their arguments.
fn by_count(operation: Operation, args: &[TypedExpr]) -> Operation
    ensures { result ≡ spec.by_count operation (map typed_of args.now) }
{
    match (operation, args) {
        (Operation::Value(ValueOperation::FaceForward), [_, _]) => Operation::FaceForwardNg,
        (Operation::Look(Look::At), [_]) => Operation::Look(Look::Here),
        _ => operation,
    }
}

fn is_barred(g: &Spot, after_type: bool, operation: Operation) -> bool
    ensures { result ≡ spec.is_barred (spot_of g.now) after_type operation }
{
    (after_type && matches!(operation, Operation::Value(ValueOperation::Noise)))
        || (g.default && !operation.is_constant())
}

// Whether an operation may stand there.
fn allowed(g: &Spot, after_type: bool, operation: Operation, line: u32) -> Result<(), TypeFault>
    ensures { Gives (λ _. true) result (spec.allowed (spot_of g.now) after_type operation line) }
{
    if !g.kind.has_operation(operation) {
        return fault(TypeCode::T6, line);
    }
    if is_barred(g, after_type, operation) {
        return fault(TypeCode::T11, line);
    }
    Ok(())
}

fn lacks(g: &Spot, operation: Operation) -> bool
    ensures { result ≡ spec.lacks (spot_of g.now) operation }
{
    match operation {
        Operation::FaceForwardNg => g.default || !g.kind.has_surface(),
        _ => false,
    }
}

fn is_amiss(g: &Spot, operation: Operation, args: &[TypedExpr]) -> bool
    ensures { result ≡ spec.is_amiss (spot_of g.now) operation (map typed_of args.now) }
{
    let operation = by_count(operation, args);
    misfits(operation, args) || lacks(g, operation)
}

// A call of a built-in.
fn operated(
    g: &Spot,
    after_type: bool,
    scope: &Scope<'_>,
    line: u32,
    es: &[Expr],
    args: Args,
    operation: Operation,
) -> Result<TypedExpr, TypeFault>
    ensures { OfArgs args (λ other found. spec.operated (spot_of g.now) after_type (map local_of scope.now) line (map expr_of es.now) other found operation) result }
{
    let Args { typed, other } = args;
    match typed {
        Err(TypeFault::NoMemory) => Err(TypeFault::NoMemory),
        Err(TypeFault::At { code, line: at }) => {
            allowed(g, after_type, operation, line)?;
            operation_in(g, scope, operation, line, es, other)?;
            fault(code, at)
        }
        Ok(args) => {
            if is_amiss(g, operation, args.as_slice()) {
                return fault(TypeCode::T2, line);
            }
            allowed(g, after_type, operation, line)?;
            let operation = operation_in(g, scope, operation, line, es, other)?;
            let operation = by_count(operation, args.as_slice());
            applied(operation, line, args)
        }
    }
}

fn built(
    g: &Spot,
    after_type: bool,
    scope: &Scope<'_>,
    line: u32,
    es: &[Expr],
    args: Args,
    builtin: Option<Builtin>,
) -> Result<TypedExpr, TypeFault>
    ensures { OfArgs args (λ other found. spec.built (spot_of g.now) after_type (map local_of scope.now) line (map expr_of es.now) other found builtin) result }
{
    match builtin {
        None => fault(TypeCode::T1, line),
        Some(Builtin::LeftOut) => fault(TypeCode::T11, line),
        Some(Builtin::Plain(operation)) => operated(
            g, after_type, scope, line, es, args, operation,
        ),
    }
}

// A function that calls itself.
fn calls_itself(
    formals: &[Local<'_>],
    line: u32,
    args: Result<Vec<TypedExpr>, TypeFault>,
) -> Result<TypedExpr, TypeFault>
    ensures { (found : Found (List T.Expr)) → GivesAll typed_of args found → Gives typed_of result (spec.calls_itself (map local_of formals.now) line found) }
{
    match args {
        Err(TypeFault::NoMemory) => Err(TypeFault::NoMemory),
        Err(TypeFault::At { .. }) => fault(TypeCode::T7, line),
        Ok(args) => {
            if fits(formals, args.as_slice()) {
                fault(TypeCode::T7, line)
            } else {
                fault(TypeCode::T2, line)
            }
        }
    }
}

// The formals of the function that the place is in, where it has that name.
fn own_formals<'a, 'b>(name: &Text, own: &Option<Own<'a, 'b>>) -> Option<&'a [Local<'b>]>
    ensures { option_map (λ ls. map local_of ls.now) result ≡ scopes.formals_in name.now (option_map own_of own.now) }
{
    match own {
        Some(own) if same(own.name, name) => Some(own.formals),
        _ => None,
    }
}

fn resolved(
    g: &Around<'_, '_>,
    after_type: bool,
    scope: &Scope<'_>,
    name: &Text,
    line: u32,
    es: &[Expr],
    args: Args,
) -> Result<TypedExpr, TypeFault>
    ensures { OfArgs args (λ other found. spec.resolved (spot_of g.now.at) after_type (map local_of scope.now) name.now line (map expr_of es.now) other found (scopes.callee_named name.now (map callee_of g.now.known.now))) result }
{
    match g.known.find(name) {
        Some((k, known)) => called(g.at.default, k, known, line, args.typed),
        None => {
            let builtin = find(builtin_names(), name);
            built(&g.at, after_type, scope, line, es, args, builtin)
        },
    }
}

/// A call, from what its arguments are.
pub fn call_of(
    g: &Around<'_, '_>,
    after_type: bool,
    scope: &Scope<'_>,
    name: &Text,
    line: u32,
    es: &[Expr],
    args: Args,
) -> Result<TypedExpr, TypeFault>
    ensures { OfArgs args (λ other found. spec.call_of (around_of g.now) after_type (map local_of scope.now) name.now line (map expr_of es.now) other found) result }
{
    match own_formals(name, &g.own) {
        Some(formals) => calls_itself(formals, line, args.typed),
        None => resolved(g, after_type, scope, name, line, es, args),
    }
}
