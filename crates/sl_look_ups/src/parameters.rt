// Which parameters name textures.
ghost use Rattle.std.specs.Prelude.{◌≡◌, IfOk, map, slice_set, true};
ghost use Rattle.sl_ast.specs.TreeView.{tree_of};
ghost use Rattle.sl_ast.specs.TypedView.{local_of, tree_expr};
ghost use Rattle.sl_look_ups.specs.Naming as spec;

use crate::listing::look_ups;
use fixed_math::{NoMemory, Text};
use sl_ast::{ParamDecl, Tree, TreeExpr, Variable};
use std::alloc::Global;

// Notes the parameter with that index, where there is one.
fn note_at(named: &mut [bool], index: u32)
    ensures { named.new ≡ slice_set named.old index true }
{
    let k = index as usize;
    if k < named.len() {
        named[k] = true;
    }
}

// Notes the parameter that an expression is, where it is one.
fn note(named: &mut [bool], name: &TreeExpr)
    ensures { named.new ≡ spec.noted (tree_expr name.now) 0 named.old }
{
    match name {
        TreeExpr::Variable { variable, .. } => match variable {
            Variable::Level(level) => note_at(named, *level),
            Variable::Predefined(_) => {}
        },
        TreeExpr::Number { .. } => {}
        TreeExpr::Word { .. } => {}
        TreeExpr::Apply { .. } => {}
        TreeExpr::Call { .. } => {}
    }
}

// For each parameter of a tree, whether it names a texture: to such a one no variable of a primitive binds.
fn naming(alloc: Global, tree: &Tree) -> Result<Vec<bool>, NoMemory>
    ensures { IfOk result (λ named. named.items ≡ spec.naming (tree_of tree.now)) }
{
    let mut named = vec![in alloc; false; tree.params.len()]?;
    let found = look_ups(alloc, tree)?;
    for look_up in &found {
        note(&mut named, look_up.name);
    }
    Ok(named)
}

// A parameter as variables of primitives bind to it.
fn bindable(alloc: Global, naming: bool, param: &ParamDecl) -> Result<ParamDecl, NoMemory>
    ensures { IfOk result (λ p. local_of p ≡ spec.bindable naming (local_of param.now)) }
{
    let name = if naming {
        Text::from_bytes(alloc, b"s")?
    } else {
        param.name.copied(alloc)?
    };
    Ok(ParamDecl {
        name,
        kind: param.kind,
        uniform: param.uniform,
    })
}

/// The parameters of a tree as variables of primitives bind to them: one that names a texture has the name of a predefined variable here, since to
/// these none binds. The one refusal is want of memory.
pub fn binding_params(alloc: Global, tree: &Tree) -> Result<Vec<ParamDecl>, NoMemory>
    ensures { IfOk result (λ ps. map local_of ps.items ≡ spec.binding_params (tree_of tree.now)) }
{
    let named = naming(alloc, tree)?;
    let mut made = Vec::new(alloc);
    for (k, param) in tree.params.as_slice().iter().enumerate() {
        made.push(bindable(alloc, named[k], param)?)?;
    }
    Ok(made)
}
