// A shader that is read.
ghost use Rattle.std.specs.Prelude.{◌≡◌, map, true};
ghost use Rattle.sl_ast.specs.TreeView.{tree_of};
ghost use Rattle.sl_ast.specs.TypedView.{local_of};
ghost use Rattle.sl_look_ups.specs.Naming.{binding_params};
ghost use Rattle.sl_types.specs.Distinct.{are_distinct};
ghost use Rattle.acceptance.specs.RequestFit.{declared_names};
ghost use Rattle.acceptance.specs.Shaders.{IsCompilable};

use fixed_math::{List, Text};
use sl_ast::{ParamDecl, Tree};

/// A shader that is read: its name, its typed tree, which can be compiled and declares no name twice, and its parameters as variables of
/// primitives bind to them.
#[derive(Drop)]
pub struct ReadShader {
    pub name: Text,
    pub tree: Tree,
    pub binding: List<ParamDecl>,
    pub ghost compilable: { IsCompilable (tree_of tree) },
    pub ghost distinct: { are_distinct (declared_names (tree_of tree)) ≡ true },
    pub ghost bound: { map local_of binding ≡ binding_params (tree_of tree) },
}
