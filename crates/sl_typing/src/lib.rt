//! The typed functions, parameters and body of a shader's file, with types, kinds and places checked; a call holds the
//! number of its function.
#![tactic(auto)]

mod assigned;
mod compound;
mod file;
mod functions;
mod gives;
mod params;
mod sets;
mod stmts;

pub use file::{Param, Program};
pub use params::program;
pub use sl_expressions::{
    Body, Faulty, Functions, Known, Local, TypeCode, TypeFault, TypedExpr, TypedLink, TypedStmt,
};
