// The look-ups of a tree.
ghost use Rattle.std.specs.Prelude.{◌≡◌, IfOk};
ghost use Rattle.sl_ast.specs.TreeView.{tree_of};
ghost use Rattle.mask_codegen.specs.Compiled.{look_up_numbers};

use fixed_math::{List, NoMemory};
use grid_code::LookUpSet;
use sl_ast::Tree;
use sl_look_ups::look_ups;
use std::alloc::Global;

/// The numbers of the look-ups of a tree. The one refusal is want of memory.
pub(crate) fn look_up_set(alloc: Global, tree: &Tree) -> Result<LookUpSet, NoMemory>
    ensures { IfOk result (λ set. set.nodes ≡ look_up_numbers (tree_of tree.now)) }
{
    let found = look_ups(alloc, tree)?;
    let mut nodes = Vec::new(alloc);
    for look_up in &found {
        nodes.push(look_up.number)?;
    }
    Ok(LookUpSet { nodes: List(nodes) })
}
