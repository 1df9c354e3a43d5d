// What a tree shows.
ghost use Rattle.std.specs.Prelude.{◌≡◌, length};
ghost use Rattle.sl_ast.specs.Typed.{numbers_tree};
ghost use Rattle.sl_ast.specs.TreeView.{tree_of};

use crate::kinds::SlKind;
use crate::tree::Tree;
use crate::typed::ParamDecl;

impl Tree {
    /// The number of nodes.
    pub fn count(&self) -> u32
        ensures { result ≡ length (numbers_tree (tree_of self.now)) }
    {
        let _counted = self;
        self.nodes
    }

    /// The kind of the shader.
    pub fn kind(&self) -> SlKind
        ensures { result ≡ self.now.kind }
    {
        self.kind
    }

    /// The parameters in the order of their declaration.
    pub fn params(&self) -> &[ParamDecl]
        ensures { result.now ≡ self.now.params }
    {
        self.params.as_slice()
    }
}
