// The typed tree of a shader.
ghost use Rattle.std.specs.Prelude.{◌≡◌, ◌≤◌, length, true};
ghost use Rattle.sl_ast.specs.Typed.{numbers_tree, depth_tree, counts_up};
ghost use Rattle.sl_ast.specs.TypedView.{tree_with};
ghost use Rattle.sl_ast.specs.WellTyped.{well_typed};

use crate::kinds::SlKind;
use crate::typed::{ParamDecl, ParamDefault, Place, TreeStmt};
use fixed_math::List;

/// The typed tree of one shader, in which each call holds the body of its function.
///
/// The default of each parameter stands at the parameter's index. The nodes are numbered from 0 in the order of the
/// text, a node before its parts; there are at most 65,536 of them, at most 256 one in another, and `nodes` is their
/// number. The tree is well typed: no fault of names, types, kinds of shaders or places stands in it.
#[derive(Drop)]
pub struct Tree {
    pub kind: SlKind,
    pub params: List<ParamDecl>,
    pub defaults: List<ParamDefault>,
    pub body: List<TreeStmt>,
    pub place: Place,
    pub nodes: u32,
    pub ghost numbered: { counts_up 0 (numbers_tree (tree_with kind params defaults body place)) ≡ true },
    pub ghost counted: { nodes ≡ length (numbers_tree (tree_with kind params defaults body place)) },
    pub ghost few: { nodes ≤ 65536 },
    pub ghost shallow: { depth_tree (tree_with kind params defaults body place) ≤ 256 },
    pub ghost typed: { well_typed (tree_with kind params defaults body place) ≡ true },
}
