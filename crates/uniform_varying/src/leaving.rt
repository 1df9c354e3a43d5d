// Loops that all points leave together.
ghost use Rattle.std.specs.Prelude.{◌≡◌, ◌&&◌, map, IfOk, OnOk, true};
ghost use Rattle.sl_ast.specs.Typed.{stmts};
ghost use Rattle.sl_ast.specs.TypedView.{tree_expr, tree_stmt};
ghost use Rattle.sl_ast.specs.Classes as spec;

use crate::scope::enter;
use crate::uniform::is_uniform;
use sl_ast::{TreeExpr, TreeStmt};
use std::alloc::{AllocError, Global};

/// Whether control is uniform in a branch on that condition, where the `if` stands in uniform control or not and the
/// variables in scope have these classes. The one refusal is want of memory.
pub fn in_branch(
    test: &TreeExpr,
    alloc: Global,
    us: &[bool],
    uniform: bool,
) -> Result<bool, AllocError>
    ensures { IfOk result (λ r. r ≡ (uniform && spec.is_uniform (tree_expr test.now) us.now)) }
{
    Ok(uniform && is_uniform(test, alloc, us)?)
}

/// Whether a loop on that condition over that body is uniform, where it stands in uniform control or not and the variables
/// in scope have these classes: it stands in uniform control, its condition is uniform, and each break and continue that
/// leaves its body stands in uniform control within it. The classes are as they were. The one refusal is want of memory.
pub fn is_uniform_loop(
    test: &TreeExpr,
    body: &TreeStmt,
    alloc: Global,
    us: &mut Vec<bool>,
    uniform: bool,
) -> Result<bool, AllocError>
    ensures class { IfOk result (λ r. r ≡ spec.is_uniform_loop (tree_expr test.now) (tree_stmt body.now) us.old.items uniform) }
    ensures same { OnOk result (us.new.items ≡ us.old.items) }
{
    Ok(uniform && is_uniform(test, alloc, us)? && leaves_together(body, alloc, us, true)?)
}

// Whether each break and continue that leaves the statement stands in uniform control.
#[cycle(leaving)]
fn leaves_together(
    s: &TreeStmt,
    alloc: Global,
    us: &mut Vec<bool>,
    uniform: bool,
) -> Result<bool, AllocError>
    ensures class { IfOk result (λ r. r ≡ spec.leaves_together (tree_stmt s.now) us.old.items uniform) }
    ensures same { OnOk result (us.new.items ≡ us.old.items) }
{
    match s {
        TreeStmt::Empty { .. } => Ok(true),
        TreeStmt::Break { .. } => Ok(uniform),
        TreeStmt::Continue { .. } => Ok(uniform),
        TreeStmt::Block { body, .. } => leave_together(body.as_slice(), alloc, us, uniform),
        TreeStmt::Group { body } => leave_together(body.as_slice(), alloc, us, uniform),
        TreeStmt::Declare { .. } => Ok(true),
        TreeStmt::Start { .. } => Ok(true),
        TreeStmt::Set { .. } => Ok(true),
        TreeStmt::If { test, then, .. } => {
            let inside = in_branch(test, alloc, us, uniform)?;
            leaves_together(then, alloc, us, inside)
        }
        TreeStmt::IfElse {
            test,
            then,
            otherwise,
            ..
        } => {
            let inside = in_branch(test, alloc, us, uniform)?;
            Ok(
                leaves_together(then, alloc, us, inside)?
                    && leaves_together(otherwise, alloc, us, inside)?,
            )
        }
        TreeStmt::While { .. } => Ok(true),
        TreeStmt::For { .. } => Ok(true),
        TreeStmt::Lights { body, .. } => leaves_together(body, alloc, us, false),
    }
}

#[cycle(leaving)]
#[tactic(auto, using(crate::proofs::Scopes::after_kept, crate::proofs::Scopes::all_kept))]
fn leave_together(
    body: &[TreeStmt],
    alloc: Global,
    us: &mut Vec<bool>,
    uniform: bool,
) -> Result<bool, AllocError>
    ensures class { IfOk result (λ r. r ≡ spec.leave_together (stmts (map tree_stmt body.now)) us.old.items uniform) }
    ensures same { OnOk result (us.new.items ≡ us.old.items) }
{
    let start = us.len();
    for s in body {
        if !leaves_together(s, alloc, us, uniform)? {
            us.truncate(start);
            return Ok(false);
        }
        enter(s, us)?;
    }
    us.truncate(start);
    Ok(true)
}
