// What stands at the front of bytes.
use crate::token::TokenKind;

/// Blank bytes, a token, or no token, and how many bytes it takes.
#[derive(Drop)]
pub enum Found {
    Blank(usize),
    Whole(TokenKind, usize),
    Bad,
}
