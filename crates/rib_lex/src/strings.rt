// The string at the front of a text.
ghost use Rattle.std.specs.Prelude.{◌≡◌, ◌≤◌, IfOk, length, [], false};
ghost use Rattle.std.specs.Str.{IsAscii};
ghost use Rattle.rib_lex.specs.Strings.{string_in};
ghost use Rattle.rib_lex.specs.StringAnswers.{GivesLen, GivesString};
ghost use Rattle.rib_lex.specs.declared.strings.StringFault.TheVariants.{NoMemory as OutOfMemory};

use crate::bytes::plain;
use crate::token::LexCode;
use fixed_math::{NoMemory, Text};
use std::alloc::{AllocError, AllocFailed, Global};

/// Why there is no string.
#[derive(Debug, Clone, Copy, PartialEq, Eq)]
pub enum StringFault {
    Code(LexCode),
    NoMemory,
}

impl From<NoMemory> for StringFault {
    ghost from_gives = { λ _ e. e ≡ OutOfMemory };

    fn from(_: NoMemory) -> StringFault {
        StringFault::NoMemory
    }
}

impl From<AllocError> for StringFault {
    ghost from_gives = { λ _ e. e ≡ OutOfMemory };

    fn from(_: AllocError) -> StringFault {
        StringFault::NoMemory
    }
}

impl<T: Drop> From<AllocFailed<T>> for StringFault {
    ghost from_gives = { λ _ e. e ≡ OutOfMemory };

    fn from(_: AllocFailed<T>) -> StringFault {
        StringFault::NoMemory
    }
}

// Puts the text of the string that goes on with these bytes behind `text`, and gives how many bytes it takes.
fn unescaped(text: &mut Vec<u8>, bytes: &[u8]) -> Result<usize, StringFault>
    requires { text.old.items ≡ [] }
    ensures gives { GivesLen result text.new.items (string_in false bytes.now) }
    ensures ascii { IfOk result (λ n. IsAscii text.new.items) }
    ensures within { IfOk result (λ n. n ≤ length bytes.now) }
{
    let mut behind = false;
    for (at, byte) in bytes.iter().enumerate() {
        if behind {
            match *byte {
                b'"' => text.push(b'"')?,
                b'\\' => text.push(b'\\')?,
                b'n' => text.push(b'\n')?,
                b't' => text.push(b'\t')?,
                b'\n' => {}
                _ => return Err(StringFault::Code(LexCode::L3)),
            }
            behind = false;
        } else if *byte == b'"' {
            return Ok(at + 1);
        } else if *byte == b'\\' {
            behind = true;
        } else if plain(*byte) {
            text.push(*byte)?;
        } else {
            return Err(StringFault::Code(LexCode::L1));
        }
    }
    Err(StringFault::Code(LexCode::L2))
}

/// The text of the string whose opening quote stands before these bytes, and how many of them it takes with its closing
/// quote. `buffer` is room that all strings share, so that a string takes one allocation.
pub fn string(
    alloc: Global,
    buffer: &mut Vec<u8>,
    bytes: &[u8],
) -> Result<(Text, usize), StringFault>
    ensures gives { GivesString result (string_in false bytes.now) }
    ensures within { IfOk result (λ s. s.1 ≤ length bytes.now) }
{
    buffer.clear();
    let len = unescaped(buffer, bytes)?;
    Ok((Text::from_bytes(alloc, buffer)?, len))
}
