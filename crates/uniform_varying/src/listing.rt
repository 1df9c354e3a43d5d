// The classes of all nodes.
ghost use Rattle.std.specs.Prelude.{◌≡◌, ◌++◌, map, IfOk, OnOk};
ghost use Rattle.sl_ast.specs.Typed.{exprs, stmts};
ghost use Rattle.sl_ast.specs.TypedView.{tree_expr, tree_stmt, default_of};
ghost use Rattle.sl_ast.specs.Classes as spec;
ghost use Rattle.uniform_varying.specs.Nodes.{node_class, branch_classes, branches_classes, while_classes, for_classes, lights_classes};

use crate::leaving::{in_branch, is_uniform_loop};
use crate::scope::{class_of, enter, enter_all, formal_classes};
use crate::uniform::is_uniform;
use sl_ast::{ParamDefault, TreeExpr, TreeStmt};
use std::alloc::{AllocError, Global};

#[cycle(listing)]
#[tactic(auto, using(sl_ast::proofs::TypedShown::apply_shown, sl_ast::proofs::TypedShown::call_shown, crate::proofs::Scopes::joined))]
fn list_expr(
    e: &TreeExpr,
    alloc: Global,
    us: &[bool],
    uniform: bool,
    list: &mut Vec<bool>,
) -> Result<(), AllocError>
    ensures { OnOk result (list.new.items ≡ list.old.items ++ spec.classes (tree_expr e.now) us.now uniform) }
{
    let class = is_uniform(e, alloc, us)?;
    list.push(class)?;
    match e {
        TreeExpr::Number { .. } => Ok(()),
        TreeExpr::Word { .. } => Ok(()),
        TreeExpr::Variable { .. } => Ok(()),
        TreeExpr::Apply { args, .. } => list_args(args.as_slice(), alloc, us, uniform, list),
        TreeExpr::Call {
            args,
            formals,
            body,
            value,
            ..
        } => {
            list_args(args.as_slice(), alloc, us, uniform, list)?;
            let mut inside = formal_classes(alloc, formals.as_slice())?;
            list_stmts(body.as_slice(), alloc, &mut inside, uniform, list)?;
            list.push(uniform)?;
            enter_all(body.as_slice(), &mut inside)?;
            list_expr(value, alloc, &inside, uniform, list)
        }
    }
}

#[cycle(listing)]
#[tactic(auto, using(crate::proofs::Scopes::joined))]
fn list_args(
    args: &[TreeExpr],
    alloc: Global,
    us: &[bool],
    uniform: bool,
    list: &mut Vec<bool>,
) -> Result<(), AllocError>
    ensures { OnOk result (list.new.items ≡ list.old.items ++ spec.classes_args (exprs (map tree_expr args.now)) us.now uniform) }
{
    for e in args {
        list_expr(e, alloc, us, uniform, list)?;
    }
    Ok(())
}

// Adds the control in which the statement stands, but for a group, which is no node.
fn list_node(s: &TreeStmt, uniform: bool, list: &mut Vec<bool>) -> Result<(), AllocError>
    ensures { OnOk result (list.new.items ≡ list.old.items ++ node_class (tree_stmt s.now) uniform) }
{
    match s {
        TreeStmt::Group { .. } => {}
        _ => list.push(uniform)?,
    }
    Ok(())
}

#[cycle(listing)]
#[tactic(auto, using(sl_ast::proofs::TypedShown::block_shown, sl_ast::proofs::TypedShown::group_shown, sl_ast::proofs::TypedShown::for_shown, sl_ast::proofs::TypedShown::lights_shown, crate::proofs::Scopes::joined))]
fn list_stmt(
    s: &TreeStmt,
    alloc: Global,
    us: &mut Vec<bool>,
    uniform: bool,
    list: &mut Vec<bool>,
) -> Result<(), AllocError>
    ensures list { OnOk result (list.new.items ≡ list.old.items ++ spec.classes_stmt (tree_stmt s.now) us.old.items uniform) }
    ensures same { OnOk result (us.new.items ≡ us.old.items) }
{
    list_node(s, uniform, list)?;
    match s {
        TreeStmt::Empty { .. } => Ok(()),
        TreeStmt::Break { .. } => Ok(()),
        TreeStmt::Continue { .. } => Ok(()),
        TreeStmt::Start { .. } => Ok(()),
        TreeStmt::Block { body, .. } => list_stmts(body.as_slice(), alloc, us, uniform, list),
        TreeStmt::Group { body } => list_stmts(body.as_slice(), alloc, us, uniform, list),
        TreeStmt::Declare { value, .. } => list_expr(value, alloc, us, uniform, list),
        TreeStmt::Set { value, .. } => list_expr(value, alloc, us, uniform, list),
        TreeStmt::If { test, then, .. } => list_branch(test, then, alloc, us, uniform, list),
        TreeStmt::IfElse {
            test,
            then,
            otherwise,
            ..
        } => list_branches(test, then, otherwise, alloc, us, uniform, list),
        TreeStmt::While { test, body, .. } => list_while(test, body, alloc, us, uniform, list),
        TreeStmt::For {
            first,
            test,
            step,
            body,
            ..
        } => list_for(
            first.as_slice(),
            test,
            step.as_slice(),
            body,
            alloc,
            us,
            uniform,
            list,
        ),
        TreeStmt::Lights { args, body, .. } => list_lights(
            args.as_slice(),
            body,
            alloc,
            us,
            uniform,
            list,
        ),
    }
}

// A condition and its branch.
#[cycle(listing)]
#[tactic(auto, using(crate::proofs::Scopes::joined))]
fn list_branch(
    test: &TreeExpr,
    then: &TreeStmt,
    alloc: Global,
    us: &mut Vec<bool>,
    uniform: bool,
    list: &mut Vec<bool>,
) -> Result<(), AllocError>
    ensures list { OnOk result (list.new.items ≡ list.old.items ++ branch_classes (tree_expr test.now) (tree_stmt then.now) us.old.items uniform) }
    ensures same { OnOk result (us.new.items ≡ us.old.items) }
{
    list_expr(test, alloc, us, uniform, list)?;
    let inside = in_branch(test, alloc, us, uniform)?;
    list_stmt(then, alloc, us, inside, list)
}

// A condition and its two branches.
#[cycle(listing)]
#[tactic(auto, using(crate::proofs::Scopes::joined))]
fn list_branches(
    test: &TreeExpr,
    then: &TreeStmt,
    otherwise: &TreeStmt,
    alloc: Global,
    us: &mut Vec<bool>,
    uniform: bool,
    list: &mut Vec<bool>,
) -> Result<(), AllocError>
    ensures list { OnOk result (list.new.items ≡ list.old.items ++ branches_classes (tree_expr test.now) (tree_stmt then.now) (tree_stmt otherwise.now) us.old.items uniform) }
    ensures same { OnOk result (us.new.items ≡ us.old.items) }
{
    list_expr(test, alloc, us, uniform, list)?;
    let inside = in_branch(test, alloc, us, uniform)?;
    list_stmt(then, alloc, us, inside, list)?;
    list_stmt(otherwise, alloc, us, inside, list)
}

// The condition and the body of a `while`.
#[cycle(listing)]
#[tactic(auto, using(crate::proofs::Scopes::joined))]
fn list_while(
    test: &TreeExpr,
    body: &TreeStmt,
    alloc: Global,
    us: &mut Vec<bool>,
    uniform: bool,
    list: &mut Vec<bool>,
) -> Result<(), AllocError>
    ensures list { OnOk result (list.new.items ≡ list.old.items ++ while_classes (tree_expr test.now) (tree_stmt body.now) us.old.items uniform) }
    ensures same { OnOk result (us.new.items ≡ us.old.items) }
{
    let inside = is_uniform_loop(test, body, alloc, us, uniform)?;
    list_expr(test, alloc, us, inside, list)?;
    list_stmt(body, alloc, us, inside, list)
}

// What stands in the parentheses of a `for`, and its body.
#[cycle(listing)]
#[tactic(auto, using(crate::proofs::Scopes::joined))]
fn list_for(
    first: &[TreeStmt],
    test: &TreeExpr,
    step: &[TreeStmt],
    body: &TreeStmt,
    alloc: Global,
    us: &mut Vec<bool>,
    uniform: bool,
    list: &mut Vec<bool>,
) -> Result<(), AllocError>
    ensures list { OnOk result (list.new.items ≡ list.old.items ++ for_classes (stmts (map tree_stmt first.now)) (tree_expr test.now) (stmts (map tree_stmt step.now)) (tree_stmt body.now) us.old.items uniform) }
    ensures same { OnOk result (us.new.items ≡ us.old.items) }
{
    list_stmts(first, alloc, us, uniform, list)?;
    let inside = is_uniform_loop(test, body, alloc, us, uniform)?;
    list_expr(test, alloc, us, inside, list)?;
    list_stmts(step, alloc, us, inside, list)?;
    list_stmt(body, alloc, us, inside, list)
}

// The operands of a statement over lights, and its body in varying control.
#[cycle(listing)]
#[tactic(auto, using(crate::proofs::Scopes::joined))]
fn list_lights(
    args: &[TreeExpr],
    body: &TreeStmt,
    alloc: Global,
    us: &mut Vec<bool>,
    uniform: bool,
    list: &mut Vec<bool>,
) -> Result<(), AllocError>
    ensures list { OnOk result (list.new.items ≡ list.old.items ++ lights_classes (exprs (map tree_expr args.now)) (tree_stmt body.now) us.old.items uniform) }
    ensures same { OnOk result (us.new.items ≡ us.old.items) }
{
    list_args(args, alloc, us, uniform, list)?;
    list_stmt(body, alloc, us, false, list)
}

#[cycle(listing)]
#[tactic(auto, using(crate::proofs::Scopes::after_kept, crate::proofs::Scopes::all_kept, crate::proofs::Scopes::joined))]
pub fn list_stmts(
    body: &[TreeStmt],
    alloc: Global,
    us: &mut Vec<bool>,
    uniform: bool,
    list: &mut Vec<bool>,
) -> Result<(), AllocError>
    ensures list { OnOk result (list.new.items ≡ list.old.items ++ spec.classes_stmts (stmts (map tree_stmt body.now)) us.old.items uniform) }
    ensures same { OnOk result (us.new.items ≡ us.old.items) }
{
    let start = us.len();
    for s in body {
        list_stmt(s, alloc, us, uniform, list)?;
        enter(s, us)?;
    }
    us.truncate(start);
    Ok(())
}

// Each parameter stands in uniform control, and its default sees no variable.
#[tactic(auto, using(crate::proofs::Scopes::joined))]
pub fn list_defaults(
    defaults: &[ParamDefault],
    alloc: Global,
    list: &mut Vec<bool>,
) -> Result<(), AllocError>
    ensures { OnOk result (list.new.items ≡ list.old.items ++ spec.classes_defaults (map default_of defaults.now)) }
{
    for default in defaults {
        list.push(true)?;
        list_expr(&default.value, alloc, &[], true, list)?;
    }
    Ok(())
}
