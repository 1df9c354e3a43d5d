// The look-ups of all nodes.
ghost use Rattle.std.specs.Prelude.{◌≡◌, ◌++◌, ◌∷◌, [], map, IfOk, OnOk};
ghost use Rattle.std.specs.List.Sorted.{IsStrictlyIncreasing};
ghost use Rattle.sl_ast.specs.Textures as spec;
ghost use Rattle.sl_ast.specs.Typed.{exprs, stmts};
ghost use Rattle.sl_ast.specs.TypedView.{tree_expr, tree_stmt};
ghost use Rattle.sl_ast.specs.TreeView.{tree_of};
ghost use Rattle.sl_look_ups.specs.Nodes.{nodes};

use crate::look_up::LookUp;
use fixed_math::NoMemory;
use sl_ast::{Look, Operation, Place, Tree, TreeExpr, TreeStmt};
use std::alloc::Global;

fn list_one<'a>(number: u32, name: &'a TreeExpr, list: &mut Vec<LookUp<'a>>) -> Result<(), NoMemory>
    ensures { OnOk result (nodes list.new.items ≡ nodes list.old.items ++ record { number = number; name = tree_expr name.now } ∷ []) }
{
    list.push(LookUp { number, name })?;
    Ok(())
}

// The look-up that an operation is, where it is one.
fn list_own<'a>(
    operation: Operation,
    place: Place,
    args: &'a [TreeExpr],
    list: &mut Vec<LookUp<'a>>,
) -> Result<(), NoMemory>
    ensures { OnOk result (nodes list.new.items ≡ nodes list.old.items ++ spec.own_look_up operation place (exprs (map tree_expr args.now))) }
{
    match (operation, args.first()) {
        (Operation::Look(Look::At | Look::Here), Some(name)) => list_one(place.number, name, list),
        _ => Ok(()),
    }
}

#[cycle(listing)]
#[tactic(auto, using(sl_ast::proofs::TypedShown::apply_shown, sl_ast::proofs::TypedShown::call_shown, crate::proofs::Joined::joined))]
fn list_expr<'a>(e: &'a TreeExpr, list: &mut Vec<LookUp<'a>>) -> Result<(), NoMemory>
    ensures { OnOk result (nodes list.new.items ≡ nodes list.old.items ++ spec.look_ups (tree_expr e.now)) }
{
    match e {
        TreeExpr::Number { .. } | TreeExpr::Word { .. } | TreeExpr::Variable { .. } => Ok(()),
        TreeExpr::Apply {
            operation,
            args,
            place,
            ..
        } => {
            list_own(*operation, *place, args.as_slice(), list)?;
            list_args(args.as_slice(), list)
        }
        TreeExpr::Call {
            args,
            body,
            value,
            ..
        } => {
            list_args(args.as_slice(), list)?;
            list_stmts(body.as_slice(), list)?;
            list_expr(value, list)
        }
    }
}

#[cycle(listing)]
#[tactic(auto, using(crate::proofs::Joined::joined))]
fn list_args<'a>(args: &'a [TreeExpr], list: &mut Vec<LookUp<'a>>) -> Result<(), NoMemory>
    ensures { OnOk result (nodes list.new.items ≡ nodes list.old.items ++ spec.look_ups_args (exprs (map tree_expr args.now))) }
{
    for e in args {
        list_expr(e, list)?;
    }
    Ok(())
}

#[cycle(listing)]
#[tactic(auto, using(sl_ast::proofs::TypedShown::block_shown, sl_ast::proofs::TypedShown::group_shown, sl_ast::proofs::TypedShown::for_shown, sl_ast::proofs::TypedShown::lights_shown, crate::proofs::Joined::joined))]
fn list_stmt<'a>(s: &'a TreeStmt, list: &mut Vec<LookUp<'a>>) -> Result<(), NoMemory>
    ensures { OnOk result (nodes list.new.items ≡ nodes list.old.items ++ spec.look_ups_stmt (tree_stmt s.now)) }
{
    match s {
        TreeStmt::Empty { .. } | TreeStmt::Break { .. } | TreeStmt::Continue { .. } => Ok(()),
        TreeStmt::Start { .. } => Ok(()),
        TreeStmt::Block { body, .. } => list_stmts(body.as_slice(), list),
        TreeStmt::Group { body } => list_stmts(body.as_slice(), list),
        TreeStmt::Declare { value, .. } => list_expr(value, list),
        TreeStmt::Set { value, .. } => list_expr(value, list),
        TreeStmt::If { test, then, .. } => {
            list_expr(test, list)?;
            list_stmt(then, list)
        }
        TreeStmt::IfElse {
            test,
            then,
            otherwise,
            ..
        } => {
            list_expr(test, list)?;
            list_stmt(then, list)?;
            list_stmt(otherwise, list)
        }
        TreeStmt::While { test, body, .. } => {
            list_expr(test, list)?;
            list_stmt(body, list)
        }
        TreeStmt::For {
            first,
            test,
            step,
            body,
            ..
        } => {
            list_stmts(first.as_slice(), list)?;
            list_expr(test, list)?;
            list_stmts(step.as_slice(), list)?;
            list_stmt(body, list)
        }
        TreeStmt::Lights { args, body, .. } => {
            list_args(args.as_slice(), list)?;
            list_stmt(body, list)
        }
    }
}

#[cycle(listing)]
#[tactic(auto, using(crate::proofs::Joined::joined))]
fn list_stmts<'a>(body: &'a [TreeStmt], list: &mut Vec<LookUp<'a>>) -> Result<(), NoMemory>
    ensures { OnOk result (nodes list.new.items ≡ nodes list.old.items ++ spec.look_ups_stmts (stmts (map tree_stmt body.now))) }
{
    for s in body {
        list_stmt(s, list)?;
    }
    Ok(())
}

/// The look-ups of a tree in the order of the text, in which the numbers of their nodes rise. No default has one. The one refusal is want of memory.
pub fn look_ups(alloc: Global, tree: &Tree) -> Result<Vec<LookUp<'_>>, NoMemory>
    ensures nodes { IfOk result (λ list. nodes list.items ≡ spec.texture_nodes (tree_of tree.now)) }
    ensures rise { IfOk result (λ list. IsStrictlyIncreasing (map (λ n. n.number) (nodes list.items))) }
{
    let mut list = Vec::new(alloc);
    list_stmts(tree.body.as_slice(), &mut list)?;
    Ok(list)
}
