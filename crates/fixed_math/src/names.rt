// Names in the order of their declaration, found by a look-up.
ghost use Rattle.std.specs.Prelude.{◌≡◌, ℕ, List, Option, IsSome};
ghost use Rattle.std.specs.Map.{update};
ghost use Rattle.std.specs.Str.{bytes_eq};
ghost use Rattle.fixed_math.specs.NameTable.{place_in};

use crate::memory::NoMemory;
use crate::text::Text;
use std::alloc::Global;
use std::collections::BTreeMap;
use std::marker::Model;

#[derive(Clone, Copy)]
struct Name<'a> {
    text: &'a str,
    // the last place of the same text before this one
    before: Option<usize>,
}

/// Names in the order of their declaration, the last of a name found by a look-up. Seen as the list of the names' bytes.
///
/// A push, a look-up and the dropping of one name each take logarithmic time.
#[derive(Drop)]
pub struct Names<'a> {
    names: Vec<Name<'a>>,
    last: BTreeMap<&'a str, usize>,
}

impl<'a> Model for Names<'a> {
    ghost use Rattle.std.specs.Prelude.{ℕ, List};
    ghost use Rattle.fixed_math.specs.NameTable.{texts_in, IsTable};

    ghost Value = { List (List ℕ) };

    ghost view = { texts_in };

    ghost invariant = { IsTable };
}

// Gives a text that has a place the place that it had before, or none.
fn restore<'a>(last: &mut BTreeMap<&'a str, usize>, text: &'a str, before: Option<usize>)
    requires { IsSome (place_in last.old text.now) }
    ensures { (q : List ℕ) → place_in last.new q ≡ update bytes_eq (place_in last.old) text.now before q }
{
    match before {
        None => {
            last.remove(text);
        }
        Some(place) => {
            let Ok(_) = last.insert(text, place) else {
                unreachable!()
            };
        }
    }
}

impl<'a> Names<'a> {
    ghost use Rattle.std.specs.Prelude.{◌≡◌, ◌-◌, ◌++◌, ◌∷◌, [], length, take, OnOk, OnErr};
    ghost use Rattle.fixed_math.specs.Names.{last_place};

    /// No names yet.
    pub fn new(alloc: Global) -> Names<'a>
        ensures { result ≡ [] }
    {
        Names {
            names: Vec::new(alloc),
            last: BTreeMap::new(alloc),
        }
    }

    /// The number of names.
    pub fn len(&self) -> usize
        ensures { result ≡ length self.now }
    {
        self.names.len()
    }

    /// Declares a name after the others. Want of memory changes nothing.
    pub fn push(&mut self, name: &'a Text) -> Result<(), NoMemory>
        ensures ok { OnOk result (self.new ≡ self.old ++ name.now ∷ []) }
        ensures err { OnErr result (self.new ≡ self.old) }
    {
        let text = name.as_str();
        self.names.reserve(1)?;
        let before = self.last.insert(text, self.names.len())?;
        self.names.push_reserved(Name { text, before });
        Ok(())
    }

    // Takes the last name back, if there is one.
    fn drop_last(&mut self)
        ensures { self.new ≡ take (length self.old - 1) self.old }
    {
        if let Some(name) = self.names.pop() {
            restore(&mut self.last, name.text, name.before);
        }
    }

    /// Takes back all names after the first `count`.
    pub fn truncate(&mut self, count: usize)
        ensures { self.new ≡ take count self.old }
    {
        while self.len() > count {
            self.drop_last();
        }
    }

    /// The place of the last of this name.
    pub fn place_of(&self, name: &Text) -> Option<usize>
        ensures { result ≡ last_place name.now self.now }
    {
        self.last.get(name.as_str()).copied()
    }
}
