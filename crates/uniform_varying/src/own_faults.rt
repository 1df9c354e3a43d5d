// Faults at one node.
ghost use Rattle.std.specs.Prelude.{◌≡◌, ◌&&◌, not, map, IfOk, Ok};
ghost use Rattle.sl_ast.specs.declared.kinds.ControlCode.TheVariants.{T3};
ghost use Rattle.sl_ast.specs.Typed.{exprs};
ghost use Rattle.sl_ast.specs.TypedView.{tree_expr};
ghost use Rattle.sl_ast.specs.Settled as spec;
ghost use Rattle.uniform_varying.specs.Gives.{Gives, spot_of};

use crate::fault::{Stop, refuse};
use crate::spot::Spot;
use crate::uniform::is_uniform;
use sl_ast::{
    ControlCode, LightStmt, Look, Operation, SlType, TreeExpr, TreeFormal, ValueOperation,
};
use std::alloc::{AllocError, Global};

// Whether a varying string is declared.
pub fn is_varying_string(uniform: bool, kind: SlType) -> bool
    ensures { result ≡ spec.is_varying_string uniform kind }
{
    !uniform && matches!(kind, SlType::Str)
}

// Whether an operation's value at a point depends on its neighbours.
pub fn asks_neighbours(operation: Operation) -> bool
    ensures { result ≡ spec.asks_neighbours operation }
{
    matches!(
        operation,
        Operation::Difference(_) | Operation::Look(Look::At | Look::Here)
    )
}

pub fn is_component(operation: Operation) -> bool
    ensures { result ≡ spec.is_component operation }
{
    matches!(operation, Operation::Value(ValueOperation::Comp))
}

// Whether a varying value goes into a variable of that class.
pub fn varies_into(
    uniform: bool,
    value: &TreeExpr,
    alloc: Global,
    us: &[bool],
) -> Result<bool, AllocError>
    ensures { IfOk result (λ w. w ≡ spec.varies_into uniform (tree_expr value.now) us.now) }
{
    Ok(uniform && !is_uniform(value, alloc, us)?)
}

// Whether the first operand is varying.
fn first_varies(args: &[TreeExpr], alloc: Global, us: &[bool]) -> Result<bool, AllocError>
    ensures { IfOk result (λ w. w ≡ spec.first_varies (exprs (map tree_expr args.now)) us.now) }
{
    match args.split_first() {
        None => Ok(false),
        Some((e, _)) => Ok(!is_uniform(e, alloc, us)?),
    }
}

// Whether the second operand is varying.
pub fn index_varies(args: &[TreeExpr], alloc: Global, us: &[bool]) -> Result<bool, AllocError>
    ensures { IfOk result (λ w. w ≡ spec.index_varies (exprs (map tree_expr args.now)) us.now) }
{
    match args.split_first() {
        None => Ok(false),
        Some((_, rest)) => first_varies(rest, alloc, us),
    }
}

// Whether a varying argument goes into a uniform formal.
pub fn goes_wrong(
    args: &[TreeExpr],
    formals: &[TreeFormal],
    alloc: Global,
    us: &[bool],
) -> Result<bool, AllocError>
    ensures { IfOk result (λ w. w ≡ spec.goes_wrong (exprs (map tree_expr args.now)) formals.now us.now) }
{
    let mut left = formals;
    for e in args {
        match left.split_first() {
            None => return Ok(false),
            Some((formal, rest)) => {
                if varies_into(formal.uniform, e, alloc, us)? {
                    return Ok(true);
                }
                left = rest;
            }
        }
    }
    Ok(false)
}

// Formals that are varying strings.
pub fn settle_formals(formals: &[TreeFormal], lit: bool) -> Result<bool, Stop>
    ensures { Gives result (spec.settled_formals formals.now lit) }
{
    for formal in formals {
        refuse(
            is_varying_string(formal.uniform, formal.kind),
            ControlCode::T3,
            formal.line,
        )?;
    }
    Ok(lit)
}

// A statement over lights, at its word.
pub fn settle_word(word: LightStmt, line: u32, spot: Spot, lit: bool) -> Result<bool, Stop>
    ensures { Gives result (spec.settled_word word line (spot_of spot) lit) }
{
    match word {
        LightStmt::Illuminance => {
            refuse(spot.inside, ControlCode::T11, line)?;
            Ok(lit)
        }
        LightStmt::Illuminate | LightStmt::Solar => {
            refuse(lit || spot.looped, ControlCode::T9, line)?;
            Ok(true)
        }
    }
}

// An operation, at its name.
pub fn settle_operation(
    operation: Operation,
    args: &[TreeExpr],
    line: u32,
    alloc: Global,
    us: &[bool],
    spot: Spot,
    lit: bool,
) -> Result<bool, Stop>
    ensures { Gives result (spec.settled_operation operation (exprs (map tree_expr args.now)) line us.now (spot_of spot) lit) }
{
    let varies = is_component(operation) && index_varies(args, alloc, us)?;
    refuse(varies, ControlCode::T3, line)?;
    refuse(
        asks_neighbours(operation) && !spot.uniform,
        ControlCode::T5,
        line,
    )?;
    Ok(lit)
}

// An assignment, at the name that is set.
pub fn settle_set(
    uniform: bool,
    value: &TreeExpr,
    line: u32,
    alloc: Global,
    us: &[bool],
    spot: Spot,
    lit: bool,
) -> Result<bool, Stop>
    ensures { Gives result (spec.settled_set uniform (tree_expr value.now) line us.now (spot_of spot) lit) }
{
    refuse(
        varies_into(uniform, value, alloc, us)?,
        ControlCode::T3,
        line,
    )?;
    refuse(uniform && !spot.uniform, ControlCode::T4, line)?;
    Ok(lit)
}

// A declaration, at the name that is declared.
pub fn settle_declare(
    uniform: bool,
    kind: SlType,
    value: &TreeExpr,
    line: u32,
    alloc: Global,
    us: &[bool],
    lit: bool,
) -> Result<bool, Stop>
    ensures { Gives result (spec.settled_declare uniform kind (tree_expr value.now) line us.now lit) }
{
    let wrong = is_varying_string(uniform, kind) || varies_into(uniform, value, alloc, us)?;
    refuse(wrong, ControlCode::T3, line)?;
    Ok(lit)
}

// A declaration without a value, at the name that is declared.
pub fn settle_start(uniform: bool, kind: SlType, line: u32, lit: bool) -> Result<bool, Stop>
    ensures { Gives result (spec.unless (spec.is_varying_string uniform kind) T3 line (Ok lit)) }
{
    refuse(is_varying_string(uniform, kind), ControlCode::T3, line)?;
    Ok(lit)
}
