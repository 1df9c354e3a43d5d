// The first fault of a tree.
ghost use Rattle.std.specs.Prelude.{◌≡◌, map, option_map, IfOk, false};
ghost use Rattle.sl_ast.specs.TypedView.{default_of, local_of};
ghost use Rattle.sl_ast.specs.TreeView.{tree_of};
ghost use Rattle.sl_ast.specs.Settled as spec;
ghost use Rattle.uniform_varying.specs.Gives.{Gives, fault_of, spot_of};

use crate::classes::param_classes;
use crate::fault::{ControlFault, Stop, refuse};
use crate::own_faults::is_varying_string;
use crate::settle::{settle_expr, settle_stmts};
use crate::spot::Spot;
use crate::uniform::is_uniform;
use fixed_math::NoMemory;
use sl_ast::{ControlCode, ParamDecl, ParamDefault, Tree};
use std::alloc::Global;

/// The first fault of classes or control in a tree, in order of the text, with each call's body between the called name
/// and the arguments; `None` exactly for a settled tree. The one refusal is want of memory.
pub fn first_fault(alloc: Global, tree: &Tree) -> Result<Option<ControlFault>, NoMemory>
    ensures { IfOk result (λ f. option_map fault_of f ≡ spec.unsettled (tree_of tree.now)) }
{
    match settle_tree(alloc, tree) {
        Ok(_) => Ok(None),
        Err(Stop::At(fault)) => Ok(Some(fault)),
        Err(Stop::NoMemory) => Err(NoMemory),
    }
}

fn settle_tree(alloc: Global, tree: &Tree) -> Result<bool, Stop>
    ensures { Gives result (spec.settles (tree_of tree.now)) }
{
    let lit = settle_defaults(tree.defaults.as_slice(), tree.params.as_slice(), alloc)?;
    let mut us = param_classes(alloc, tree.params.as_slice())?;
    settle_stmts(tree.body.as_slice(), alloc, &mut us, Spot::outermost(), lit)
}

fn settle_defaults(
    defaults: &[ParamDefault],
    params: &[ParamDecl],
    alloc: Global,
) -> Result<bool, Stop>
    ensures { Gives result (spec.settled_defaults (map default_of defaults.now) (map local_of params.now) false) }
{
    let mut lit = false;
    let mut left = params;
    for default in defaults {
        match left.split_first() {
            None => return Ok(lit),
            Some((param, rest)) => {
                lit = settle_default(default, param, alloc, lit)?;
                left = rest;
            }
        }
    }
    Ok(lit)
}

fn settle_default(
    default: &ParamDefault,
    param: &ParamDecl,
    alloc: Global,
    lit: bool,
) -> Result<bool, Stop>
    ensures { Gives result (spec.settled_default (local_of param.now) (default_of default.now) lit) }
{
    let wrong = is_varying_string(param.uniform, param.kind)
        || !is_uniform(&default.value, alloc, &[])?;
    refuse(wrong, ControlCode::T3, default.place.line)?;
    settle_expr(&default.value, alloc, &[], Spot::outermost(), lit)
}
