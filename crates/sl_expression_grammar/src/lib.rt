//! The grammar of expressions of the Shading Language: the untyped tree of the tokens at the front, or the first fault; and
//! what readers of statements need with it.
#![tactic(auto)]

mod boxes;
mod expression_nodes;
mod expressions;
mod fault;
mod heads;
mod reading;

pub use boxes::{boxed, push, push_boxed};
pub use expressions::expr;
pub use fault::SlCode;
pub use reading::{Stop, closed, code_at, past, rest_after};
