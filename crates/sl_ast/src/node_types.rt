// The types of nodes.
ghost use Rattle.std.specs.Prelude.{◌≡◌, map};
ghost use Rattle.sl_ast.specs.Typed.{exprs};
ghost use Rattle.sl_ast.specs.TypedView.{tree_expr};
ghost use Rattle.sl_ast.specs.WellTyped as spec;

use crate::kinds::NodeType;
use crate::operands::Operands;
use crate::typed::TreeExpr;

impl TreeExpr {
    /// The type of the node.
    pub fn kind(&self) -> NodeType
        ensures { result ≡ spec.kind_of (tree_expr self.now) }
    {
        match self {
            Self::Number { .. } => NodeType::Float,
            Self::Word { .. } => NodeType::Str,
            Self::Variable { kind, .. } => *kind,
            Self::Apply { kind, .. } => *kind,
            Self::Call { kind, .. } => *kind,
        }
    }
}

impl Operands {
    /// The types of these operands.
    pub fn of(args: &[TreeExpr]) -> Operands
        ensures { result ≡ spec.operands (exprs (map tree_expr args.now)) }
    {
        match args {
            [] => Operands::Nothing,
            [a] => Operands::One(a.kind()),
            [a, b] => Operands::Two(a.kind(), b.kind()),
            [a, b, c] => Operands::Three(a.kind(), b.kind(), c.kind()),
            _ => Operands::Many,
        }
    }
}
