// Uniform expressions.
ghost use Rattle.std.specs.Prelude.{◌≡◌, ◌&&◌, map, IfOk, OnOk};
ghost use Rattle.sl_ast.specs.Typed.{exprs, stmts};
ghost use Rattle.sl_ast.specs.TypedView.{tree_expr, tree_stmt};
ghost use Rattle.sl_ast.specs.Classes as spec;
ghost use Rattle.uniform_varying.specs.Nodes as nodes;

use crate::scope::{all_uniform, class_of, enter, enter_all, formal_classes};
use sl_ast::{TreeExpr, TreeStmt};
use std::alloc::{AllocError, Global};

/// Whether an expression is uniform, where the variables in scope have these classes (`true` for uniform): it contains
/// nothing varying, and a call contains its arguments, its formals and its body. The one refusal is want of memory.
#[cycle(uniform)]
#[tactic(auto, using(sl_ast::proofs::TypedShown::apply_shown, sl_ast::proofs::TypedShown::call_shown))]
pub fn is_uniform(e: &TreeExpr, alloc: Global, us: &[bool]) -> Result<bool, AllocError>
    ensures { IfOk result (λ u. u ≡ spec.is_uniform (tree_expr e.now) us.now) }
{
    match e {
        TreeExpr::Number { .. } => Ok(true),
        TreeExpr::Word { .. } => Ok(true),
        TreeExpr::Variable { variable, .. } => Ok(class_of(*variable, us)),
        TreeExpr::Apply {
            operation,
            args,
            ..
        } => {
            if !operation.is_plain() {
                return Ok(false);
            }
            are_uniform(args.as_slice(), alloc, us)
        }
        TreeExpr::Call {
            args,
            formals,
            body,
            value,
            ..
        } => {
            if !are_uniform(args.as_slice(), alloc, us)? {
                return Ok(false);
            }
            let mut inside = formal_classes(alloc, formals.as_slice())?;
            if !all_uniform(&inside) {
                return Ok(false);
            }
            if !stmts_uniform(body.as_slice(), alloc, &mut inside)? {
                return Ok(false);
            }
            enter_all(body.as_slice(), &mut inside)?;
            is_uniform(value, alloc, &inside)
        }
    }
}

#[cycle(uniform)]
fn are_uniform(args: &[TreeExpr], alloc: Global, us: &[bool]) -> Result<bool, AllocError>
    ensures { IfOk result (λ u. u ≡ spec.are_uniform (exprs (map tree_expr args.now)) us.now) }
{
    for e in args {
        if !is_uniform(e, alloc, us)? {
            return Ok(false);
        }
    }
    Ok(true)
}

#[cycle(uniform)]
#[tactic(auto, using(sl_ast::proofs::TypedShown::block_shown, sl_ast::proofs::TypedShown::group_shown, sl_ast::proofs::TypedShown::for_shown, sl_ast::proofs::TypedShown::lights_shown))]
fn stmt_uniform(s: &TreeStmt, alloc: Global, us: &mut Vec<bool>) -> Result<bool, AllocError>
    ensures class { IfOk result (λ u. u ≡ spec.stmt_uniform (tree_stmt s.now) us.old.items) }
    ensures same { OnOk result (us.new.items ≡ us.old.items) }
{
    match s {
        TreeStmt::Empty { .. } => Ok(true),
        TreeStmt::Break { .. } => Ok(true),
        TreeStmt::Continue { .. } => Ok(true),
        TreeStmt::Block { body, .. } => stmts_uniform(body.as_slice(), alloc, us),
        TreeStmt::Group { body } => stmts_uniform(body.as_slice(), alloc, us),
        TreeStmt::Declare { uniform, value, .. } => value_uniform(*uniform, value, alloc, us),
        TreeStmt::Start { uniform, .. } => Ok(*uniform),
        TreeStmt::Set {
            variable,
            value,
            ..
        } => value_uniform(class_of(*variable, us), value, alloc, us),
        TreeStmt::If { test, then, .. } => branch_uniform(test, then, alloc, us),
        TreeStmt::IfElse {
            test,
            then,
            otherwise,
            ..
        } => branches_uniform(test, then, otherwise, alloc, us),
        TreeStmt::While { test, body, .. } => branch_uniform(test, body, alloc, us),
        TreeStmt::For {
            first,
            test,
            step,
            body,
            ..
        } => for_uniform(first.as_slice(), test, step.as_slice(), body, alloc, us),
        TreeStmt::Lights { args, body, .. } => lights_uniform(args.as_slice(), body, alloc, us),
    }
}

// Whether a variable of that class takes a uniform value.
#[cycle(uniform)]
fn value_uniform(
    uniform: bool,
    value: &TreeExpr,
    alloc: Global,
    us: &[bool],
) -> Result<bool, AllocError>
    ensures { IfOk result (λ u. u ≡ (uniform && spec.is_uniform (tree_expr value.now) us.now)) }
{
    Ok(uniform && is_uniform(value, alloc, us)?)
}

// A condition and what stands under it.
#[cycle(uniform)]
fn branch_uniform(
    test: &TreeExpr,
    body: &TreeStmt,
    alloc: Global,
    us: &mut Vec<bool>,
) -> Result<bool, AllocError>
    ensures class { IfOk result (λ u. u ≡ (spec.is_uniform (tree_expr test.now) us.old.items && spec.stmt_uniform (tree_stmt body.now) us.old.items)) }
    ensures same { OnOk result (us.new.items ≡ us.old.items) }
{
    Ok(is_uniform(test, alloc, us)? && stmt_uniform(body, alloc, us)?)
}

// A condition and its two branches.
#[cycle(uniform)]
fn branches_uniform(
    test: &TreeExpr,
    then: &TreeStmt,
    otherwise: &TreeStmt,
    alloc: Global,
    us: &mut Vec<bool>,
) -> Result<bool, AllocError>
    ensures class { IfOk result (λ u. u ≡ nodes.branches_uniform (tree_expr test.now) (tree_stmt then.now) (tree_stmt otherwise.now) us.old.items) }
    ensures same { OnOk result (us.new.items ≡ us.old.items) }
{
    if !is_uniform(test, alloc, us)? {
        return Ok(false);
    }
    Ok(stmt_uniform(then, alloc, us)? && stmt_uniform(otherwise, alloc, us)?)
}

// What stands in the parentheses of a `for`, and its body.
#[cycle(uniform)]
fn for_uniform(
    first: &[TreeStmt],
    test: &TreeExpr,
    step: &[TreeStmt],
    body: &TreeStmt,
    alloc: Global,
    us: &mut Vec<bool>,
) -> Result<bool, AllocError>
    ensures class { IfOk result (λ u. u ≡ nodes.for_uniform (stmts (map tree_stmt first.now)) (tree_expr test.now) (stmts (map tree_stmt step.now)) (tree_stmt body.now) us.old.items) }
    ensures same { OnOk result (us.new.items ≡ us.old.items) }
{
    if !stmts_uniform(first, alloc, us)? || !is_uniform(test, alloc, us)? {
        return Ok(false);
    }
    Ok(stmts_uniform(step, alloc, us)? && stmt_uniform(body, alloc, us)?)
}

// The operands of a statement over lights, and its body.
#[cycle(uniform)]
fn lights_uniform(
    args: &[TreeExpr],
    body: &TreeStmt,
    alloc: Global,
    us: &mut Vec<bool>,
) -> Result<bool, AllocError>
    ensures class { IfOk result (λ u. u ≡ (spec.are_uniform (exprs (map tree_expr args.now)) us.old.items && spec.stmt_uniform (tree_stmt body.now) us.old.items)) }
    ensures same { OnOk result (us.new.items ≡ us.old.items) }
{
    Ok(are_uniform(args, alloc, us)? && stmt_uniform(body, alloc, us)?)
}

#[cycle(uniform)]
#[tactic(auto, using(crate::proofs::Scopes::after_kept, crate::proofs::Scopes::all_kept))]
fn stmts_uniform(body: &[TreeStmt], alloc: Global, us: &mut Vec<bool>) -> Result<bool, AllocError>
    ensures class { IfOk result (λ u. u ≡ spec.stmts_uniform (stmts (map tree_stmt body.now)) us.old.items) }
    ensures same { OnOk result (us.new.items ≡ us.old.items) }
{
    let start = us.len();
    for s in body {
        if !stmt_uniform(s, alloc, us)? {
            us.truncate(start);
            return Ok(false);
        }
        enter(s, us)?;
    }
    us.truncate(start);
    Ok(true)
}
