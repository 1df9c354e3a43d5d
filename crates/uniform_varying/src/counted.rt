// How many rows of registers a tree counts.
ghost use Rattle.std.specs.Prelude.{◌≡◌, ◌+◌, map, IfOk, OnOk};
ghost use Rattle.sl_ast.specs.Typed.{exprs, stmts};
ghost use Rattle.sl_ast.specs.TypedView.{tree_expr, tree_stmt, default_of};
ghost use Rattle.sl_ast.specs.TreeView.{tree_of};
ghost use Rattle.sl_ast.specs.Registers as spec;
ghost use Rattle.uniform_varying.specs.Counts.{counted};

use crate::classes::param_classes;
use crate::scope::{enter, enter_all, formal_classes};
use crate::uniform::is_uniform;
use fixed_math::NoMemory;
use sl_ast::{ParamDefault, SlKind, Tree, TreeExpr, TreeStmt};
use std::alloc::Global;

fn row_unless(uniform: bool) -> u64
    ensures { result ≡ spec.row_unless uniform }
{
    if uniform { 0 } else { 1 }
}

// A sum. What a tree within its limits counts fits 64 bits by far; the sums here ask for no limit, and stay at the last number.
fn plus(a: u64, b: u64) -> u64
    ensures { result ≡ counted (a + b) }
{
    a.saturating_add(b)
}

// A sum of three.
fn plus_both(a: u64, b: u64, c: u64) -> u64
    ensures { result ≡ counted (a + (b + c)) }
{
    plus(a, plus(b, c))
}

// The rows of a `for`, of those of its parts.
fn looped_rows(begun: u64, asked: u64, stepped: u64, turned: u64) -> u64
    ensures { result ≡ counted (begun + (asked + (stepped + turned))) }
{
    plus(begun, plus_both(asked, stepped, turned))
}

// The rows of a call, of those of its parts.
fn called_rows(own: u64, passed: u64, variables: u64, ran: u64, returned: u64) -> u64
    ensures { result ≡ counted (own + (passed + (variables + (ran + returned)))) }
{
    plus_both(own, passed, plus_both(variables, ran, returned))
}

fn rows_of_classes(us: &[bool]) -> u64
    ensures { result ≡ counted (spec.rows_of_classes us.now) }
{
    let mut rows = 0;
    for uniform in us {
        rows = plus(rows, row_unless(*uniform));
    }
    rows
}

// The varying predefined variables of a kind of shader.
fn predefined_rows(kind: SlKind) -> u64
    ensures { result ≡ spec.predefined_rows kind }
{
    match kind {
        SlKind::Surface => 16,
        SlKind::Displacement => 12,
        SlKind::Light => 3,
        SlKind::Volume => 4,
    }
}

#[cycle(counted)]
#[tactic(auto, using(sl_ast::proofs::TypedShown::apply_shown, sl_ast::proofs::TypedShown::call_shown))]
fn rows_expr(e: &TreeExpr, alloc: Global, us: &[bool]) -> Result<u64, NoMemory>
    ensures { IfOk result (λ n. n ≡ counted (spec.rows (tree_expr e.now) us.now)) }
{
    let own = row_unless(is_uniform(e, alloc, us)?);
    match e {
        TreeExpr::Number { .. } | TreeExpr::Word { .. } | TreeExpr::Variable { .. } => Ok(own),
        TreeExpr::Apply { args, .. } => {
            let operands = rows_args(args.as_slice(), alloc, us)?;
            Ok(plus(own, operands))
        }
        TreeExpr::Call {
            args,
            formals,
            body,
            value,
            ..
        } => {
            let passed = rows_args(args.as_slice(), alloc, us)?;
            let mut inside = formal_classes(alloc, formals.as_slice())?;
            let variables = rows_of_classes(&inside);
            let ran = rows_stmts(body.as_slice(), alloc, &mut inside)?;
            enter_all(body.as_slice(), &mut inside)?;
            let returned = rows_expr(value, alloc, &inside)?;
            Ok(called_rows(own, passed, variables, ran, returned))
        }
    }
}

#[cycle(counted)]
fn rows_args(args: &[TreeExpr], alloc: Global, us: &[bool]) -> Result<u64, NoMemory>
    ensures { IfOk result (λ n. n ≡ counted (spec.rows_args (exprs (map tree_expr args.now)) us.now)) }
{
    let mut rows = 0;
    for e in args {
        rows = plus(rows, rows_expr(e, alloc, us)?);
    }
    Ok(rows)
}

#[cycle(counted)]
#[tactic(auto, using(sl_ast::proofs::TypedShown::block_shown, sl_ast::proofs::TypedShown::group_shown, sl_ast::proofs::TypedShown::for_shown, sl_ast::proofs::TypedShown::lights_shown))]
fn rows_stmt(s: &TreeStmt, alloc: Global, us: &mut Vec<bool>) -> Result<u64, NoMemory>
    ensures rows { IfOk result (λ n. n ≡ counted (spec.rows_stmt (tree_stmt s.now) us.old.items)) }
    ensures same { OnOk result (us.new.items ≡ us.old.items) }
{
    match s {
        TreeStmt::Empty { .. } | TreeStmt::Break { .. } | TreeStmt::Continue { .. } => Ok(0),
        TreeStmt::Block { body, .. } => rows_stmts(body.as_slice(), alloc, us),
        TreeStmt::Group { body } => rows_stmts(body.as_slice(), alloc, us),
        TreeStmt::Declare { uniform, value, .. } => {
            let rows = rows_expr(value, alloc, us)?;
            Ok(plus(row_unless(*uniform), rows))
        }
        TreeStmt::Start { uniform, .. } => Ok(row_unless(*uniform)),
        TreeStmt::Set { value, .. } => rows_expr(value, alloc, us),
        TreeStmt::If { test, then, .. } => {
            let asked = rows_expr(test, alloc, us)?;
            let a = rows_stmt(then, alloc, us)?;
            Ok(plus(asked, a))
        }
        TreeStmt::IfElse {
            test,
            then,
            otherwise,
            ..
        } => {
            let asked = rows_expr(test, alloc, us)?;
            let a = rows_stmt(then, alloc, us)?;
            let b = rows_stmt(otherwise, alloc, us)?;
            Ok(plus_both(asked, a, b))
        }
        TreeStmt::While { test, body, .. } => {
            let asked = rows_expr(test, alloc, us)?;
            let turned = rows_stmt(body, alloc, us)?;
            Ok(plus(asked, turned))
        }
        TreeStmt::For {
            first,
            test,
            step,
            body,
            ..
        } => {
            let begun = rows_stmts(first.as_slice(), alloc, us)?;
            let asked = rows_expr(test, alloc, us)?;
            let stepped = rows_stmts(step.as_slice(), alloc, us)?;
            let turned = rows_stmt(body, alloc, us)?;
            Ok(looped_rows(begun, asked, stepped, turned))
        }
        TreeStmt::Lights { args, body, .. } => {
            let operands = rows_args(args.as_slice(), alloc, us)?;
            let lit = rows_stmt(body, alloc, us)?;
            Ok(plus(operands, lit))
        }
    }
}

// The rows of statements, where the variables in scope have these classes.
#[cycle(counted)]
#[tactic(auto, using(crate::proofs::Scopes::after_kept, crate::proofs::Scopes::all_kept))]
fn rows_stmts(body: &[TreeStmt], alloc: Global, us: &mut Vec<bool>) -> Result<u64, NoMemory>
    ensures rows { IfOk result (λ n. n ≡ counted (spec.rows_stmts (stmts (map tree_stmt body.now)) us.old.items)) }
    ensures same { OnOk result (us.new.items ≡ us.old.items) }
{
    let start = us.len();
    let mut rows = 0;
    for s in body {
        rows = plus(rows, rows_stmt(s, alloc, us)?);
        enter(s, us)?;
    }
    us.truncate(start);
    Ok(rows)
}

// The rows of the defaults, which see no variable.
fn rows_defaults(alloc: Global, defaults: &[ParamDefault]) -> Result<u64, NoMemory>
    ensures { IfOk result (λ n. n ≡ counted (spec.rows_defaults (map default_of defaults.now))) }
{
    let mut rows = 0;
    for default in defaults {
        rows = plus(rows, rows_expr(&default.value, alloc, &[])?);
    }
    Ok(rows)
}

/// How many rows of registers a tree counts: one for each varying parameter, local variable and formal of a call, each
/// varying predefined variable of its kind, and each varying expression. A tree within its limits counts few enough for
/// 64 bits. The one refusal is want of memory for the classes of the variables in scope.
pub fn rows(alloc: Global, tree: &Tree) -> Result<u64, NoMemory>
    ensures { IfOk result (λ n. n ≡ spec.rows_of (tree_of tree.now)) }
{
    let mut us = param_classes(alloc, tree.params.as_slice())?;
    let params = rows_of_classes(&us);
    let defaults = rows_defaults(alloc, tree.defaults.as_slice())?;
    let body = rows_stmts(tree.body.as_slice(), alloc, &mut us)?;
    Ok(looped_rows(predefined_rows(tree.kind), params, defaults, body))
}
