// Names found among entries.
ghost use Rattle.std.specs.Prelude.{◌≡◌, map};
ghost use Rattle.std.specs.Str.{bytes_eq};
ghost use Rattle.sl_expressions.specs.Names.{entry_of, plain};

use crate::entry::Entry;
use fixed_math::Text;

// What the name stands for in this table.
pub fn find<T: Copy>(entries: &[Entry<T>], name: &Text) -> Option<T>
    ensures { result ≡ entry_of (map plain entries.now) name.now }
{
    for entry in entries {
        if entry.name.as_bytes() == name.as_str().as_bytes() {
            return Some(entry.value);
        }
    }
    None
}

// Whether two names are one.
pub fn same(a: &Text, b: &Text) -> bool
    ensures { result ≡ bytes_eq a.now b.now }
{
    a.as_str().as_bytes() == b.as_str().as_bytes()
}

// Whether a name is that word.
pub fn is(name: &Text, word: &str) -> bool
    ensures { result ≡ bytes_eq name.now word.now }
{
    name.as_str().as_bytes() == word.as_bytes()
}
