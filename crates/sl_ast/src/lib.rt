//! The two trees of a shader: the untyped tree of one file's text, and the typed tree in which each called
//! function's body stands in its call's place.
#![tactic(auto)]

mod kinds;
mod names;
mod node_types;
mod operands;
mod operations;
mod reading;
mod rules;
mod shader;
mod shapes;
mod syntax;
mod tree;
mod typed;

pub use kinds::{
    Class, ControlCode, LightStmt, NodeType, Operator, Predefined, Prefix, Row, SetOperator,
    SlKind, SlType, SpaceName,
};
pub use operands::Operands;
pub use operations::{Difference, LightSum, Look, Operation, ValueOperation};
pub use shader::Shader;
pub use syntax::{Assignment, Cone, Declared, Expr, Function, Group, LightWord, Link, Space, Stmt};
pub use tree::Tree;
pub use typed::{ParamDecl, ParamDefault, Place, TreeExpr, TreeFormal, TreeStmt, Value, Variable};
