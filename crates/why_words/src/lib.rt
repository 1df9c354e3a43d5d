//! The words of the command `why`, as `clap` reads them.
#![tactic(auto)]

mod question;

pub use question::{Question, question_in};
