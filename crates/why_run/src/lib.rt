//! The account of a pixel as one call: words and files in, a line of JSON out.
#![tactic(auto)]

mod explained;
mod notes;
mod program;
mod stop;

pub use program::run;
