// The first fault of classes or control.
ghost use Rattle.std.specs.Prelude.{◌≡◌, map, OnOk};
ghost use Rattle.sl_ast.specs.Typed.{exprs, stmts};
ghost use Rattle.sl_ast.specs.TypedView.{tree_expr, tree_stmt, default_of, local_of};
ghost use Rattle.sl_ast.specs.Settled as spec;
ghost use Rattle.uniform_varying.specs.Gives.{Gives, spot_of};
ghost use Rattle.uniform_varying.specs.Nodes.{settled_applied, settled_inside, settled_call, settled_declared, settled_assigned, settled_branch, settled_branches, settled_while, settled_for, settled_lights};

use crate::fault::{Stop, refuse};
use crate::leaving::{in_branch, is_uniform_loop};
use crate::own_faults::{
    goes_wrong, settle_declare, settle_formals, settle_operation, settle_set, settle_start,
    settle_word,
};
use crate::scope::{class_of, enter, enter_all, formal_classes};
use crate::spot::Spot;
use sl_ast::{ControlCode, LightStmt, Operation, SlType, TreeExpr, TreeFormal, TreeStmt};
use std::alloc::Global;

#[cycle(settle)]
pub fn settle_expr(
    e: &TreeExpr,
    alloc: Global,
    us: &[bool],
    spot: Spot,
    lit: bool,
) -> Result<bool, Stop>
    ensures { Gives result (spec.settled_expr (tree_expr e.now) us.now (spot_of spot) lit) }
{
    match e {
        TreeExpr::Number { .. } => Ok(lit),
        TreeExpr::Word { .. } => Ok(lit),
        TreeExpr::Variable { .. } => Ok(lit),
        TreeExpr::Apply {
            operation,
            args,
            place,
            ..
        } => settle_applied(
            *operation,
            args.as_slice(),
            place.line,
            alloc,
            us,
            spot,
            lit,
        ),
        TreeExpr::Call {
            args,
            formals,
            body,
            value,
            place,
            ..
        } => settle_call(
            args.as_slice(),
            formals.as_slice(),
            body.as_slice(),
            value,
            place.line,
            alloc,
            us,
            spot,
            lit,
        ),
    }
}

// An operation and its operands.
#[cycle(settle)]
fn settle_applied(
    operation: Operation,
    args: &[TreeExpr],
    line: u32,
    alloc: Global,
    us: &[bool],
    spot: Spot,
    lit: bool,
) -> Result<bool, Stop>
    ensures { Gives result (settled_applied operation (exprs (map tree_expr args.now)) line us.now (spot_of spot) lit) }
{
    let lit = settle_operation(operation, args, line, alloc, us, spot, lit)?;
    settle_args(args, alloc, us, spot, lit)
}

// A call: its formals, its body and its value, and then its arguments.
#[cycle(settle)]
fn settle_call(
    args: &[TreeExpr],
    formals: &[TreeFormal],
    body: &[TreeStmt],
    value: &TreeExpr,
    line: u32,
    alloc: Global,
    us: &[bool],
    spot: Spot,
    lit: bool,
) -> Result<bool, Stop>
    ensures { Gives result (settled_call (exprs (map tree_expr args.now)) formals.now (stmts (map tree_stmt body.now)) (tree_expr value.now) line us.now (spot_of spot) lit) }
{
    let wrong = goes_wrong(args, formals, alloc, us)?;
    refuse(wrong, ControlCode::T3, line)?;
    let lit = settle_formals(formals, lit)?;
    let lit = settle_inside(formals, body, value, alloc, spot, lit)?;
    settle_args(args, alloc, us, spot, lit)
}

// A call's body and its value, which see its formals alone.
#[cycle(settle)]
fn settle_inside(
    formals: &[TreeFormal],
    body: &[TreeStmt],
    value: &TreeExpr,
    alloc: Global,
    spot: Spot,
    lit: bool,
) -> Result<bool, Stop>
    ensures { Gives result (settled_inside formals.now (stmts (map tree_stmt body.now)) (tree_expr value.now) (spot_of spot) lit) }
{
    let mut inside = formal_classes(alloc, formals)?;
    let lit = settle_stmts(body, alloc, &mut inside, spot, lit)?;
    enter_all(body, &mut inside)?;
    settle_expr(value, alloc, &inside, spot, lit)
}

#[cycle(settle)]
fn settle_args(
    args: &[TreeExpr],
    alloc: Global,
    us: &[bool],
    spot: Spot,
    lit: bool,
) -> Result<bool, Stop>
    ensures { Gives result (spec.settled_args (exprs (map tree_expr args.now)) us.now (spot_of spot) lit) }
{
    let mut lit = lit;
    for e in args {
        lit = settle_expr(e, alloc, us, spot, lit)?;
    }
    Ok(lit)
}

#[cycle(settle)]
#[tactic(auto, using(sl_ast::proofs::TypedShown::block_shown, sl_ast::proofs::TypedShown::group_shown, sl_ast::proofs::TypedShown::lights_shown))]
fn settle_stmt(
    s: &TreeStmt,
    alloc: Global,
    us: &mut Vec<bool>,
    spot: Spot,
    lit: bool,
) -> Result<bool, Stop>
    ensures gives { Gives result (spec.settled_stmt (tree_stmt s.now) us.old.items (spot_of spot) lit) }
    ensures same { OnOk result (us.new.items ≡ us.old.items) }
{
    match s {
        TreeStmt::Empty { .. } => Ok(lit),
        TreeStmt::Break { .. } => Ok(lit),
        TreeStmt::Continue { .. } => Ok(lit),
        TreeStmt::Block { body, .. } => settle_stmts(body.as_slice(), alloc, us, spot, lit),
        TreeStmt::Group { body } => settle_stmts(body.as_slice(), alloc, us, spot, lit),
        TreeStmt::Declare {
            uniform,
            kind,
            value,
            place,
        } => settle_declared(*uniform, *kind, value, place.line, alloc, us, spot, lit),
        TreeStmt::Start {
            uniform,
            kind,
            place,
        } => settle_start(*uniform, *kind, place.line, lit),
        TreeStmt::Set {
            variable,
            value,
            place,
            ..
        } => settle_assigned(
            class_of(*variable, us),
            value,
            place.line,
            alloc,
            us,
            spot,
            lit,
        ),
        TreeStmt::If { test, then, .. } => settle_branch(test, then, alloc, us, spot, lit),
        TreeStmt::IfElse {
            test,
            then,
            otherwise,
            ..
        } => settle_branches(test, then, otherwise, alloc, us, spot, lit),
        TreeStmt::While { test, body, .. } => settle_while(test, body, alloc, us, spot, lit),
        TreeStmt::For {
            first,
            test,
            step,
            body,
            ..
        } => settle_for(
            first.as_slice(),
            test,
            step.as_slice(),
            body,
            alloc,
            us,
            spot,
            lit,
        ),
        TreeStmt::Lights {
            word,
            args,
            body,
            place,
        } => settle_lights(
            *word,
            args.as_slice(),
            body,
            place.line,
            alloc,
            us,
            spot,
            lit,
        ),
    }
}

// A declaration and its value.
#[cycle(settle)]
fn settle_declared(
    uniform: bool,
    kind: SlType,
    value: &TreeExpr,
    line: u32,
    alloc: Global,
    us: &[bool],
    spot: Spot,
    lit: bool,
) -> Result<bool, Stop>
    ensures { Gives result (settled_declared uniform kind (tree_expr value.now) line us.now (spot_of spot) lit) }
{
    let lit = settle_declare(uniform, kind, value, line, alloc, us, lit)?;
    settle_expr(value, alloc, us, spot, lit)
}

// An assignment to a variable of that class, and its value.
#[cycle(settle)]
fn settle_assigned(
    uniform: bool,
    value: &TreeExpr,
    line: u32,
    alloc: Global,
    us: &[bool],
    spot: Spot,
    lit: bool,
) -> Result<bool, Stop>
    ensures { Gives result (settled_assigned uniform (tree_expr value.now) line us.now (spot_of spot) lit) }
{
    let lit = settle_set(uniform, value, line, alloc, us, spot, lit)?;
    settle_expr(value, alloc, us, spot, lit)
}

// A condition and its branch.
#[cycle(settle)]
fn settle_branch(
    test: &TreeExpr,
    then: &TreeStmt,
    alloc: Global,
    us: &mut Vec<bool>,
    spot: Spot,
    lit: bool,
) -> Result<bool, Stop>
    ensures gives { Gives result (settled_branch (tree_expr test.now) (tree_stmt then.now) us.old.items (spot_of spot) lit) }
    ensures same { OnOk result (us.new.items ≡ us.old.items) }
{
    let lit = settle_expr(test, alloc, us, spot, lit)?;
    let inside = spot.in_control(in_branch(test, alloc, us, spot.uniform)?);
    settle_stmt(then, alloc, us, inside, lit)
}

// A condition and its two branches.
#[cycle(settle)]
fn settle_branches(
    test: &TreeExpr,
    then: &TreeStmt,
    otherwise: &TreeStmt,
    alloc: Global,
    us: &mut Vec<bool>,
    spot: Spot,
    lit: bool,
) -> Result<bool, Stop>
    ensures gives { Gives result (settled_branches (tree_expr test.now) (tree_stmt then.now) (tree_stmt otherwise.now) us.old.items (spot_of spot) lit) }
    ensures same { OnOk result (us.new.items ≡ us.old.items) }
{
    let lit = settle_expr(test, alloc, us, spot, lit)?;
    let inside = spot.in_control(in_branch(test, alloc, us, spot.uniform)?);
    let lit = settle_stmt(then, alloc, us, inside, lit)?;
    settle_stmt(otherwise, alloc, us, inside, lit)
}

// The condition and the body of a `while`, in the control of the loop.
#[cycle(settle)]
fn settle_while(
    test: &TreeExpr,
    body: &TreeStmt,
    alloc: Global,
    us: &mut Vec<bool>,
    spot: Spot,
    lit: bool,
) -> Result<bool, Stop>
    ensures gives { Gives result (settled_while (tree_expr test.now) (tree_stmt body.now) us.old.items (spot_of spot) lit) }
    ensures same { OnOk result (us.new.items ≡ us.old.items) }
{
    let inside = spot.in_loop(is_uniform_loop(test, body, alloc, us, spot.uniform)?);
    let lit = settle_expr(test, alloc, us, inside, lit)?;
    settle_stmt(body, alloc, us, inside, lit)
}

// What stands in the parentheses of a `for`, and its body.
#[cycle(settle)]
fn settle_for(
    first: &[TreeStmt],
    test: &TreeExpr,
    step: &[TreeStmt],
    body: &TreeStmt,
    alloc: Global,
    us: &mut Vec<bool>,
    spot: Spot,
    lit: bool,
) -> Result<bool, Stop>
    ensures gives { Gives result (settled_for (stmts (map tree_stmt first.now)) (tree_expr test.now) (stmts (map tree_stmt step.now)) (tree_stmt body.now) us.old.items (spot_of spot) lit) }
    ensures same { OnOk result (us.new.items ≡ us.old.items) }
{
    let lit = settle_stmts(first, alloc, us, spot, lit)?;
    let inside = spot.in_loop(is_uniform_loop(test, body, alloc, us, spot.uniform)?);
    let lit = settle_expr(test, alloc, us, inside, lit)?;
    let lit = settle_stmts(step, alloc, us, inside, lit)?;
    settle_stmt(body, alloc, us, inside, lit)
}

// A statement over lights: its word, its operands and its body.
#[cycle(settle)]
fn settle_lights(
    word: LightStmt,
    args: &[TreeExpr],
    body: &TreeStmt,
    line: u32,
    alloc: Global,
    us: &mut Vec<bool>,
    spot: Spot,
    lit: bool,
) -> Result<bool, Stop>
    ensures gives { Gives result (settled_lights word (exprs (map tree_expr args.now)) (tree_stmt body.now) line us.old.items (spot_of spot) lit) }
    ensures same { OnOk result (us.new.items ≡ us.old.items) }
{
    let lit = settle_word(word, line, spot, lit)?;
    let lit = settle_args(args, alloc, us, spot, lit)?;
    settle_stmt(body, alloc, us, spot.in_lights(word), lit)
}

#[cycle(settle)]
#[tactic(auto, using(crate::proofs::Scopes::after_kept, crate::proofs::Scopes::all_kept))]
pub fn settle_stmts(
    body: &[TreeStmt],
    alloc: Global,
    us: &mut Vec<bool>,
    spot: Spot,
    lit: bool,
) -> Result<bool, Stop>
    ensures gives { Gives result (spec.settled_stmts (stmts (map tree_stmt body.now)) us.old.items (spot_of spot) lit) }
    ensures same { OnOk result (us.new.items ≡ us.old.items) }
{
    let start = us.len();
    let mut lit = lit;
    for s in body {
        lit = settle_stmt(s, alloc, us, spot, lit)?;
        enter(s, us)?;
    }
    us.truncate(start);
    Ok(lit)
}
