// A look-up.

use sl_ast::TreeExpr;

/// A look-up of a typed tree: the number of its node, and the operand that names its texture.
#[derive(Clone, Copy)]
pub struct LookUp<'a> {
    pub number: u32,
    pub name: &'a TreeExpr,
}
