//! What a shader means at a point and on a grid; and its core tree, a form of the compiler, which means the same.
#![tactic(auto)]

mod core_tree;

pub use core_tree::{Argument, CoreExpr, CoreLoop, CoreStmt};
