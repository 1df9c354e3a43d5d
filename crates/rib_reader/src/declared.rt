// The names that were declared so far.
ghost use Rattle.std.specs.Prelude.{◌≡◌};
ghost use Rattle.rib_reader.specs.Declarations.{type_at};

use fixed_math::{Names, NoMemory, Text};
use scene::{Class, Kind};
use std::alloc::Global;
use std::marker::Model;

/// A name with its class and kind.
#[derive(Drop)]
pub struct Declared {
    pub name: Text,
    pub class: Class,
    pub kind: Kind,
}

/// The names that were declared so far. Contracts see the declarations in order.
#[derive(Drop)]
pub struct Declarations<'a> {
    names: Names<'a>,
    types: Vec<(Class, Kind)>,
}

impl<'a> Model for Declarations<'a> {
    ghost use Rattle.std.specs.Prelude.{◌≡◌, List as Items, length};
    ghost use Rattle.rib_reader.specs.Declarations.{declared_in};
    ghost use Rattle.rib_reader.specs.declared.declared.Declared.{Declared as ADeclared};

    ghost Value = { Items ADeclared };

    ghost view = { λ d. declared_in d.names d.types.items };

    ghost invariant = { λ d. length d.names ≡ length d.types.items };
}

fn type_at(types: &[(Class, Kind)], place: Option<usize>) -> Option<(Class, Kind)>
    ensures { result ≡ type_at types.now place }
{
    types.get(place?).copied()
}

impl<'a> Declarations<'a> {
    ghost use Rattle.std.specs.Prelude.{◌≡◌, ◌++◌, ◌∷◌, [], OnOk};
    ghost use Rattle.rib_reader.specs.Words.{with_type, last_type};

    /// No names.
    pub fn new(alloc: Global) -> Declarations<'a>
        ensures { result ≡ [] }
    {
        Declarations {
            names: Names::new(alloc),
            types: Vec::new(alloc),
        }
    }

    /// A declaration more.
    #[tactic(auto, using(crate::proofs::Dictionary::one_more))]
    pub fn push(&mut self, name: &'a Text, class: Class, kind: Kind) -> Result<(), NoMemory>
        ensures { OnOk result (self.new ≡ self.old ++ with_type name.now (class, kind) ∷ []) }
    {
        self.types.reserve(1)?;
        self.names.push(name)?;
        self.types.push_reserved((class, kind));
        Ok(())
    }

    /// The class and kind of the last declaration of a name.
    #[tactic(auto, using(crate::proofs::Dictionary::last_is))]
    pub fn type_of(&self, name: &Text) -> Option<(Class, Kind)>
        ensures { result ≡ last_type self.now name.now }
    {
        type_at(&self.types, self.names.place_of(name))
    }
}
