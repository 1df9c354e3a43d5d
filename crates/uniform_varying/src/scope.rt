// The classes of the variables in scope.
ghost use Rattle.std.specs.Prelude.{◌≡◌, map, IfOk, OnOk};
ghost use Rattle.sl_ast.specs.Typed.{stmts};
ghost use Rattle.sl_ast.specs.TypedView.{tree_stmt};
ghost use Rattle.sl_ast.specs.Classes as spec;

use sl_ast::{TreeFormal, TreeStmt, Variable};
use std::alloc::{AllocError, Global};

/// The class of a variable, `true` for uniform, where the variables in scope have these classes.
pub fn class_of(variable: Variable, us: &[bool]) -> bool
    ensures { result ≡ spec.class_of variable us.now }
{
    match variable {
        Variable::Predefined(name) => name.is_uniform(),
        Variable::Level(level) => us.get(level as usize).copied().unwrap_or(false),
    }
}

// Whether all are uniform.
pub fn all_uniform(us: &[bool]) -> bool
    ensures { result ≡ spec.all_uniform us.now }
{
    for u in us {
        if !*u {
            return false;
        }
    }
    true
}

/// The classes of the formals of a call, the first variables in the scope of its body. The one refusal is want of memory.
pub fn formal_classes(alloc: Global, formals: &[TreeFormal]) -> Result<Vec<bool>, AllocError>
    ensures { IfOk result (λ v. v.items ≡ spec.formal_classes formals.now) }
{
    let mut us = Vec::new(alloc);
    for formal in formals {
        us.push(formal.uniform)?;
    }
    Ok(us)
}

/// Adds the classes of what the statement declares to those of the variables in scope. The one refusal is want of memory;
/// the classes are then of no use.
pub fn enter(s: &TreeStmt, us: &mut Vec<bool>) -> Result<(), AllocError>
    ensures { OnOk result (us.new.items ≡ spec.after (tree_stmt s.now) us.old.items) }
{
    match s {
        TreeStmt::Declare { uniform, .. } => us.push(*uniform)?,
        TreeStmt::Start { uniform, .. } => us.push(*uniform)?,
        _ => {}
    }
    Ok(())
}

/// Adds the classes of what the statements declare to those of the variables in scope. The one refusal is want of memory;
/// the classes are then of no use.
pub fn enter_all(body: &[TreeStmt], us: &mut Vec<bool>) -> Result<(), AllocError>
    ensures { OnOk result (us.new.items ≡ spec.after_all (stmts (map tree_stmt body.now)) us.old.items) }
{
    for s in body {
        enter(s, us)?;
    }
    Ok(())
}
