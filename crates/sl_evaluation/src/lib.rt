//! The value of a parameter's default.
#![tactic(auto)]

mod defaults;
mod evaluate;
mod scope;
mod signal;
mod variables;

pub use defaults::default_value;
