// The tree of a shader's text.
ghost use Rattle.std.specs.Prelude.{◌≡◌, ◌≤◌, IfOk, length};
ghost use Rattle.sl_ast.specs.ShaderView.{shader_of};
ghost use Rattle.sl_lexer.specs.Tokens.{tokens_of};
ghost use Rattle.sl_parser.specs.Parsed.{GivesShader};
ghost use Rattle.sl_parser.specs.Files.{parsed};
ghost use Rattle.sl_parser.specs.Spelled.{kinds_of, spelled_shader};

use crate::fault::SlFault;
use crate::files::file;
use sl_ast::Shader;
use sl_expression_grammar::Stop;
use sl_lexer::{line_feeds, tokens};
use std::alloc::Global;

// How many levels may be open at once.
const LEVELS: u32 = 64;

/// The tree of a shader's text by the grammar of the Shading Language (RenderMan Interface 3.2), or its first fault.
///
/// P1 stands where no token begins, P2 where no text of the grammar goes on with the next token or ends, and P3 at the
/// first token of the 65th open level. The line is that on which the faulty token begins, or that after the last
/// line feed where the text ends.
pub fn parse(alloc: Global, bytes: &[u8]) -> Result<Shader, SlFault>
    requires { length bytes.now ≤ 1048576 }
    ensures gives { GivesShader result (parsed bytes.now) }
    ensures spells { IfOk result (λ s. spelled_shader (shader_of s) ≡ kinds_of (tokens_of bytes.now)) }
{
    let tokens = tokens(alloc, bytes)?;
    match file(alloc, LEVELS, &tokens) {
        Ok((shader, _)) => Ok(shader),
        Err(Stop::NoMemory) => Err(SlFault::NoMemory),
        Err(Stop::At(code, rest)) => {
            let line = match rest {
                [first, ..] => first.line,
                [] => 1 + line_feeds(bytes),
            };
            Err(SlFault::At { code, line })
        }
    }
}
