//! The tokens of a scene's text, by the lexical rules of the ASCII RIB binding (RenderMan Interface 3.2, appendix C.2).
//!
//! A text becomes a list of names, strings, numbers and brackets with their lines, or the first lexical fault with its
//! line: exactly those that the definition in `specs/Tokens` gives.
#![tactic(auto)]

mod bytes;
mod found;
mod laws;
mod lex;
mod number;
mod strings;
mod token;

pub use laws::{texts_join, tokens_spell};
pub use lex::tokens;
pub use token::{LexCode, LexFault, Token, TokenKind};
