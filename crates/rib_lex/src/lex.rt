// The tokens of a text.
ghost use Rattle.std.specs.Prelude.{◌≤◌, length};
ghost use Rattle.rib_lex.specs.Tokens.{tokens_of, Gives};

use crate::bytes::line_feed_count;
use crate::found::{Found, find};
use crate::token::{LexFault, Token};
use std::alloc::Global;

/// The tokens of a text of at most 16,777,216 bytes with their lines, by the lexical rules of the ASCII RIB binding
/// (RenderMan Interface 3.2, appendix C.2), or its first fault with the line on which the faulty token begins. Where memory
/// runs out the answer is `NoMemory`.
///
/// It takes time that is linear in the text: a turn reads only the bytes of what it finds, a fixed number of times, and
/// goes on behind them. Runs of white space and comments are one turn, all strings are put together in one buffer, and a
/// name or string takes one allocation.
pub fn tokens(alloc: Global, bytes: &[u8]) -> Result<Vec<Token>, LexFault>
    requires { length bytes.now ≤ 16777216 }
    ensures { Gives result (tokens_of bytes.now) }
{
    let mut tokens = Vec::new(alloc);
    let mut buffer = Vec::new(alloc);
    let mut line = 1u32;
    let mut rest = bytes;
    while !rest.is_empty() {
        let len = match find(alloc, &mut buffer, rest)? {
            Found::Blank(len) => len,
            Found::Whole(kind, len) => {
                tokens.push(Token { kind, line })?;
                len
            }
            Found::Fault(code) => return Err(LexFault::At { code, line }),
        };
        let (passed, left) = rest.split_at(len);
        line += line_feed_count(passed);
        rest = left;
    }
    Ok(tokens)
}
