// Strings and comments.
ghost use Rattle.std.specs.Prelude.{◌≡◌, ◌≤◌, ◌<◌, ◌∷◌, ℕ, List, All, Some, IfOk, IfSome, length, true, false};
ghost use Rattle.sl_lexer.specs.Found.{string_in, comment_in};
ghost use Rattle.sl_lexer.specs.StringBytes.{string_after, IsAsciiByte};

use crate::bytes::plain;
use fixed_math::{NoMemory, Text};
use std::alloc::Global;

/// What a byte of a string is there.
enum StringByte {
    End,
    Backslash,
    Byte(u8),
    Skipped,
    Bad,
}

// A byte after a backslash.
fn escaped(byte: u8) -> StringByte
    ensures goes { (bs : List ℕ) → string_in true (byte ∷ bs) ≡ string_after result (string_in true bs) (string_in false bs) }
    ensures ascii { IsAsciiByte result }
{
    match byte {
        b'"' => StringByte::Byte(b'"'),
        b'\\' => StringByte::Byte(b'\\'),
        b'n' => StringByte::Byte(b'\n'),
        b't' => StringByte::Byte(b'\t'),
        b'\n' => StringByte::Skipped,
        _ => StringByte::Bad,
    }
}

// A byte that no backslash stands before.
fn unescaped(byte: u8) -> StringByte
    ensures goes { (bs : List ℕ) → string_in false (byte ∷ bs) ≡ string_after result (string_in true bs) (string_in false bs) }
    ensures ascii { IsAsciiByte result }
{
    match byte {
        b'"' => StringByte::End,
        b'\\' => StringByte::Backslash,
        _ if plain(byte) => StringByte::Byte(byte),
        _ => StringByte::Bad,
    }
}

fn byte_at(after_backslash: bool, byte: u8) -> StringByte
    ensures goes { (bs : List ℕ) → string_in after_backslash (byte ∷ bs) ≡ string_after result (string_in true bs) (string_in false bs) }
    ensures ascii { IsAsciiByte result }
{
    if after_backslash {
        escaped(byte)
    } else {
        unescaped(byte)
    }
}

// The text of these bytes of ASCII, which ends after so many bytes.
fn ended(alloc: Global, text: &[u8], len: usize) -> Result<Option<(Text, usize)>, NoMemory>
    requires { All (λ b. b < 128) text.now }
    ensures { IfOk result (λ s. s ≡ Some (text.now, len)) }
{
    Ok(Some((Text::from_bytes(alloc, text)?, len)))
}

// A string's text after its opening quote, and how many bytes it takes with its closing one.
pub fn read_string(alloc: Global, bytes: &[u8]) -> Result<Option<(Text, usize)>, NoMemory>
    ensures found { IfOk result (λ s. s ≡ string_in false bytes.now) }
    ensures within { IfOk result (λ s. IfSome s (λ p. p.1 ≤ length bytes.now)) }
{
    let mut text = Vec::new(alloc);
    let mut after_backslash = false;
    for (at, byte) in bytes.iter().enumerate() {
        match byte_at(after_backslash, *byte) {
            StringByte::End => return ended(alloc, &text, at + 1),
            StringByte::Bad => return Ok(None),
            StringByte::Backslash => after_backslash = true,
            StringByte::Skipped => after_backslash = false,
            StringByte::Byte(byte) => {
                text.push(byte)?;
                after_backslash = false;
            }
        }
    }
    Ok(None)
}

// How many bytes there are up to the end of a comment.
pub fn comment_len(bytes: &[u8]) -> Option<usize>
    ensures within { IfSome result (λ n. n ≤ length bytes.now) }
    ensures len { result ≡ comment_in false bytes.now }
{
    let mut star = false;
    for (at, byte) in bytes.iter().enumerate() {
        if star && *byte == b'/' {
            return Some(at + 1);
        }
        star = *byte == b'*';
    }
    None
}
