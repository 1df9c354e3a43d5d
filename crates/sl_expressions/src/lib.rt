//! The typed trees of expressions, with names, types, kinds and places checked: of a name its last variable or function, of an
//! operation the type that the rules give, of a text that breaks one the first fault.
#![tactic(auto)]

mod calls;
mod entry;
mod exprs;
mod faults;
mod names;
mod operations;
mod parts;
mod places;
mod predefined;
mod rules;
mod scope;
mod typed;

pub use entry::Entry;
pub use exprs::expr;
pub use faults::{TypeCode, TypeFault, fault};
pub use names::find;
pub use operations::{kind_of, operands_of, three};
pub use parts::{added, boxed, left, one, push};
pub use places::{Around, Body, Faulty, Known, Local, Own, Spot};
pub use predefined::{is_own, is_written, predefined_names};
pub use scope::{Functions, Scope, place_of};
pub use typed::{TypedExpr, TypedLink, TypedStmt};
