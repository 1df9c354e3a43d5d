//! The tokens of a shader's text, each with the line on which it begins.
#![tactic(auto)]

mod bytes;
mod finding;
mod found;
mod lexer;
mod numbers;
mod signs;
mod strings;
mod token;
mod words;

pub use lexer::{line_feeds, tokens};
pub use token::{Mark, Token, TokenKind, Word};
