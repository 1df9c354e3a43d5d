// The tokens of a text.
ghost use Rattle.std.specs.Prelude.{◌≡◌, ◌≤◌, ◌==◌, ◌++◌, [], ◌∷◌, IfOk, length, count_by};
ghost use Rattle.sl_lexer.specs.Tokens.{tokens_of};

use crate::finding::find;
use crate::found::Found;
use crate::token::{Token, TokenKind};
use fixed_math::NoMemory;
use std::alloc::Global;

/// How many line feeds there are.
pub fn line_feeds(bytes: &[u8]) -> u32
    requires { length bytes.now ≤ 1048576 }
    ensures count { result ≡ count_by (λ b. b == 10) bytes.now }
    ensures within { result ≤ length bytes.now }
{
    bytes.iter().filter(|b| **b == b'\n').count() as u32
}

// One token more.
fn push(tokens: &mut Vec<Token>, token: Token) -> Result<(), NoMemory>
    ensures { IfOk result (λ _. tokens.new.items ≡ tokens.old.items ++ token ∷ []) }
{
    tokens.push(token)?;
    Ok(())
}

/// The tokens of a text with their lines; the last is bad where the text goes on and no token begins.
pub fn tokens(alloc: Global, bytes: &[u8]) -> Result<Vec<Token>, NoMemory>
    requires { length bytes.now ≤ 1048576 }
    ensures { IfOk result (λ ts. ts.items ≡ tokens_of bytes.now) }
{
    let mut tokens = Vec::new(alloc);
    let mut line = 1u32;
    let mut rest = bytes;
    while !rest.is_empty() {
        let len = match find(alloc, rest)? {
            Found::Blank(len) => len,
            Found::Whole(kind, len) => {
                push(&mut tokens, Token { kind, line })?;
                len
            }
            Found::Bad => {
                let bad = TokenKind::Bad;
                push(&mut tokens, Token { kind: bad, line })?;
                return Ok(tokens);
            }
        };
        let (passed, left) = rest.split_at(len);
        line += line_feeds(passed);
        rest = left;
    }
    Ok(tokens)
}
