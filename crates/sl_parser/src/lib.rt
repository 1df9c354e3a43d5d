//! The grammar of the Shading Language: the untyped tree of a shader's text, or its first fault.
#![tactic(auto)]

mod declarations;
mod fault;
mod files;
mod for_steps;
mod nodes;
mod parser;
mod statement_heads;
mod statements;

pub use fault::SlFault;
pub use parser::parse;
pub use sl_expression_grammar::SlCode;
