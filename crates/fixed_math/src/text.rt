// Texts of ASCII bytes.
ghost use Rattle.std.specs.Prelude.{◌≡◌, ◌↔◌, IfOk, IsTrue, List, ℕ};
ghost use Rattle.std.specs.Str.{IsAscii};
ghost use Rattle.std.specs.String.{string_bytes};

use crate::memory::NoMemory;
use std::alloc::Global;
use std::marker::Model;

/// A text of ASCII bytes. Contracts see it as the list of its bytes.
#[derive(Drop)]
pub struct Text {
    text: String,
}

impl Model for Text {
    ghost Value = { List ℕ };

    ghost view = { λ t. string_bytes t.text };

    ghost invariant = { λ t. IsAscii (string_bytes t.text) };
}

impl Text {
    /// The text of these bytes, or want of memory.
    #[tactic(auto, using(crate::proofs::Texts::ascii_is_utf8))]
    pub fn from_bytes(alloc: Global, b: &[u8]) -> Result<Text, NoMemory>
        requires { IsAscii b.now }
        ensures { IfOk result (λ t. t ≡ b.now) }
    {
        match str::from_utf8(b) {
            Ok(s) => Ok(Text {
                text: String::from_str(alloc, s)?,
            }),
            Err(_) => unreachable!(),
        }
    }

    /// The same text in memory of its own, or want of memory.
    pub fn copied(&self, alloc: Global) -> Result<Text, NoMemory>
        ensures { IfOk result (λ t. t ≡ self.now) }
    {
        let text = String::from_str(alloc, self.text.as_str())?;
        Ok(Text { text })
    }

    /// Whether the two are the same text.
    pub fn is(&self, other: &Text) -> bool
        ensures { IsTrue result ↔ (self.now ≡ other.now) }
    {
        self.text == other.text
    }

    /// The text.
    pub fn as_str(&self) -> &str
        ensures value { result.now ≡ self.now }
        ensures ascii { IsAscii result.now }
    {
        self.text.as_str()
    }
}
