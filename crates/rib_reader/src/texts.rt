// Texts compared with words.
ghost use Rattle.std.specs.Prelude.{◌≡◌};
ghost use Rattle.std.specs.Str.{bytes_eq};

use fixed_math::Text;

/// Whether the text is this word.
pub fn is_word(text: &Text, word: &str) -> bool
    ensures { result ≡ bytes_eq text.now word.now }
{
    text.as_str().as_bytes() == word.as_bytes()
}
