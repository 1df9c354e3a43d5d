// Control classes of a tree.
ghost use Rattle.std.specs.Prelude.{◌≡◌, ◌<◌, length, get_or, map, IfOk, false};
ghost use Rattle.sl_ast.specs.TypedView.{local_of};
ghost use Rattle.sl_ast.specs.TreeView.{tree_of};
ghost use Rattle.sl_ast.specs.Classes.{classes_tree, local_classes};

use crate::listing::{list_defaults, list_stmts};
use fixed_math::NoMemory;
use sl_ast::{ParamDecl, Tree};
use std::alloc::{AllocError, Global};
use std::marker::Model;

/// The classes of a tree's nodes by their numbers: whether an expression is uniform, and whether a statement stands in
/// uniform control. The shader and its parameters stand in uniform control.
#[derive(Drop)]
pub struct Classes {
    list: Vec<bool>,
}

impl Model for Classes {
    ghost use Rattle.std.specs.Prelude.{List, Bool};

    ghost Value = { List Bool };

    ghost view = { λ c. c.list.items };
}

impl Classes {
    /// Whether the expression with that number is uniform, or the statement with that number stands in uniform control.
    /// The number is below the count of the tree's nodes.
    pub fn uniform(&self, node: u32) -> bool
        requires { node < length self.now }
        ensures { result ≡ get_or self.now node false }
    {
        self.list[node as usize]
    }
}

/// The classes of a tree's nodes (Shading Language, RenderMan Interface 3.2, section 11).
///
/// An expression is uniform where it contains nothing varying: no varying variable, no `Du`, `Dv`, `calculatenormal`,
/// `ambient`, `diffuse` or `specular`, and no call with something varying among its arguments, formals or body. Control
/// is uniform but in an `if` on a varying condition, in a statement over lights and in a loop that isn't uniform. The
/// one refusal is want of memory.
pub fn control(alloc: Global, tree: &Tree) -> Result<Classes, NoMemory>
    ensures classes { IfOk result (λ c. c ≡ classes_tree (tree_of tree.now)) }
    ensures counted { IfOk result (λ c. length c ≡ tree.now.nodes) }
{
    let list = list_tree(alloc, tree)?;
    Ok(Classes { list })
}

#[tactic(auto, using(crate::proofs::Scopes::joined))]
fn list_tree(alloc: Global, tree: &Tree) -> Result<Vec<bool>, AllocError>
    ensures { IfOk result (λ v. v.items ≡ classes_tree (tree_of tree.now)) }
{
    let mut list = Vec::new(alloc);
    list.push(true)?;
    list_defaults(tree.defaults.as_slice(), alloc, &mut list)?;
    let mut us = param_classes(alloc, tree.params.as_slice())?;
    list_stmts(tree.body.as_slice(), alloc, &mut us, true, &mut list)?;
    Ok(list)
}

/// The classes of parameters, the first variables of a shader's scope. The one refusal is want of memory.
pub fn param_classes(alloc: Global, params: &[ParamDecl]) -> Result<Vec<bool>, AllocError>
    ensures { IfOk result (λ v. v.items ≡ local_classes (map local_of params.now)) }
{
    let mut us = Vec::new(alloc);
    for param in params {
        us.push(param.uniform)?;
    }
    Ok(us)
}
