// What stands at the front of a text.
ghost use Rattle.std.specs.Prelude.{◌≡◌, ◌≤◌, ◌<◌, ◌+◌, IfOk, length, false};
ghost use Rattle.std.specs.List.{prefix_len, take_while};
ghost use Rattle.rib_lex.specs.Bytes.{is_name};
ghost use Rattle.rib_lex.specs.Strings.{string_in};
ghost use Rattle.rib_lex.specs.Numbers.{number_at};
ghost use Rattle.rib_lex.specs.Found.{found_in, found_string, found_number, IsWithin};
ghost use Rattle.rib_lex.specs.declared.found.Found.TheVariants.{Whole};
ghost use Rattle.rib_lex.specs.declared.token.TokenKind.TheVariants.{Name};

use crate::bytes::{letter, line_len, name_len, numeric, white, white_len};
use crate::number::number;
use crate::strings::{StringFault, string};
use crate::token::{LexCode, TokenKind};
use fixed_math::{NoMemory, Text};
use std::alloc::Global;

/// White space or a comment, or a token, and how many bytes it takes; or a fault.
#[derive(Drop)]
pub enum Found {
    Blank(usize),
    Whole(TokenKind, usize),
    Fault(LexCode),
}

// The name at the front.
#[tactic(auto, using(crate::proofs::Texts::name_is_ascii))]
fn name(alloc: Global, bytes: &[u8]) -> Result<Found, NoMemory>
    ensures { IfOk result (λ f. f ≡ Whole (Name (take_while is_name bytes.now)) (prefix_len is_name bytes.now)) }
{
    let len = name_len(bytes);
    let text = Text::from_bytes(alloc, bytes.split_at(len).0)?;
    Ok(Found::Whole(TokenKind::Name(text), len))
}

// The string behind an opening quote.
fn quoted(alloc: Global, buffer: &mut Vec<u8>, bytes: &[u8]) -> Result<Found, NoMemory>
    ensures found { IfOk result (λ f. f ≡ found_string (string_in false bytes.now)) }
    ensures within { IfOk result (λ f. IsWithin f (length bytes.now + 1)) }
{
    match string(alloc, buffer, bytes) {
        Ok((text, len)) => Ok(Found::Whole(TokenKind::Str(text), len + 1)),
        Err(StringFault::Code(code)) => Ok(Found::Fault(code)),
        Err(StringFault::NoMemory) => Err(NoMemory),
    }
}

// The number at the front.
fn numbered(bytes: &[u8]) -> Found
    ensures found { result ≡ found_number (length bytes.now) (number_at bytes.now) }
    ensures within { IsWithin result (length bytes.now) }
{
    match number(bytes) {
        Ok((decimal, rest)) => Found::Whole(TokenKind::Number(decimal), bytes.len() - rest.len()),
        Err(code) => Found::Fault(code),
    }
}

/// What stands at the front of bytes of which there are some.
pub fn find(alloc: Global, buffer: &mut Vec<u8>, bytes: &[u8]) -> Result<Found, NoMemory>
    requires some { 0 < length bytes.now }
    requires size { length bytes.now ≤ 16777216 }
    ensures found { IfOk result (λ f. f ≡ found_in bytes.now) }
    ensures within { IfOk result (λ f. IsWithin f (length bytes.now)) }
{
    let [first, rest @ ..] = bytes else {
        unreachable!()
    };
    match *first {
        b if white(b) => Ok(Found::Blank(white_len(bytes))),
        b'#' => Ok(Found::Blank(line_len(bytes))),
        b'[' => Ok(Found::Whole(TokenKind::Open, 1)),
        b']' => Ok(Found::Whole(TokenKind::Close, 1)),
        b'"' => quoted(alloc, buffer, rest),
        b if letter(b) => name(alloc, bytes),
        b if numeric(b) => Ok(numbered(bytes)),
        _ => Ok(Found::Fault(LexCode::L1)),
    }
}
