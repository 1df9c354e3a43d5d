// Variables in scope, and the functions that are known, found by their names.
ghost use Rattle.std.specs.Prelude.{◌≡◌, Ok, map, option_map};
ghost use Rattle.sl_expressions.specs.Scope as spec;
ghost use Rattle.sl_expressions.specs.Views.{Gives, local_of, found_of, callee_of};

use crate::faults::TypeFault;
use crate::places::{Known, Local};
use fixed_math::{Names, NoMemory, Text};
use std::alloc::Global;
use std::marker::Model;

/// Parameters, formals and locals in the order of their declaration. Seen as the list of them.
#[derive(Drop)]
pub struct Scope<'a> {
    locals: Vec<Local<'a>>,
    names: Names<'a>,
}

impl<'a> Model for Scope<'a> {
    ghost use Rattle.std.specs.Prelude.{◌≡◌, List, map};
    ghost use Rattle.sl_expressions.specs.declared.places.Local.{Local};

    ghost Value = { List Local };

    ghost view = { λ s. s.locals.items };

    ghost invariant = { λ s. s.names ≡ map (λ l. l.name.now) s.locals.items };
}

impl<'a> Scope<'a> {
    ghost use Rattle.std.specs.Prelude.{◌++◌, ◌∷◌, [], length, take, OnErr, OnOk};

    /// No variables yet.
    pub fn new(alloc: Global) -> Scope<'a>
        ensures { result ≡ [] }
    {
        Scope {
            locals: Vec::new(alloc),
            names: Names::new(alloc),
        }
    }

    /// The number of variables.
    pub fn len(&self) -> usize
        ensures { result ≡ length self.now }
    {
        self.locals.len()
    }

    /// Declares a variable after the others. Want of memory changes nothing.
    pub fn push(&mut self, local: Local<'a>) -> Result<(), NoMemory>
        ensures ok { OnOk result (self.new ≡ self.old ++ local.entry ∷ []) }
        ensures err { OnErr result (self.new ≡ self.old) }
    {
        self.locals.reserve(1)?;
        self.names.push(local.name)?;
        self.locals.push_reserved(local);
        Ok(())
    }

    /// Leaves the variables after the first `count`.
    pub fn truncate(&mut self, count: usize)
        ensures { self.new ≡ take count self.old }
    {
        self.locals.truncate(count);
        self.names.truncate(count);
    }

    /// The last variable of that name, with its level.
    pub fn level(&self, name: &Text) -> Option<(usize, Local<'a>)>
        ensures { option_map found_of result ≡ spec.level_of name.now (map local_of self.now) }
    {
        let locals = self.locals.as_slice();
        match self.names.place_of(name) {
            None => None,
            Some(place) => Some((place, locals[place])),
        }
    }
}

/// The functions whose text stands before, in their order. Seen as the list of them.
#[derive(Drop)]
pub struct Functions<'a> {
    known: Vec<Known<'a>>,
    names: Names<'a>,
}

impl<'a> Model for Functions<'a> {
    ghost use Rattle.std.specs.Prelude.{◌≡◌, List, map};
    ghost use Rattle.sl_expressions.specs.declared.places.Known.{Known};
    ghost use Rattle.std.specs.Coded.{codes};
    ghost use Rattle.sl_expressions.specs.contracts.typed.TypedExpr as e;
    ghost use Rattle.sl_expressions.specs.contracts.typed.TypedStmt as s;

    ghost Value = { List Known };

    ghost coded = { Prim.hlevel (codes, e.the_row.coded, s.the_row.coded) };

    ghost view = { λ f. f.known.items };

    ghost invariant = { λ f. f.names ≡ map (λ k. k.name.now) f.known.items };
}

impl<'a> Functions<'a> {
    ghost use Rattle.std.specs.Prelude.{◌++◌, ◌∷◌, [], OnOk};

    /// No functions yet.
    pub fn new(alloc: Global) -> Functions<'a>
        ensures { result ≡ [] }
    {
        Functions {
            known: Vec::new(alloc),
            names: Names::new(alloc),
        }
    }

    /// Adds a function after the others.
    pub fn push(&mut self, function: Known<'a>) -> Result<(), NoMemory>
        ensures { OnOk result (self.new ≡ self.old ++ function.entry ∷ []) }
    {
        let count = self.known.len();
        let name = function.name;
        self.known.push(function)?;
        if let Err(want) = self.names.push(name) {
            self.known.truncate(count);
            return Err(want);
        }
        Ok(())
    }

    /// The function of that name, and how many stand before it.
    pub fn find(&self, name: &Text) -> Option<(usize, &Known<'a>)>
        ensures { option_map (λ o. (o.0, callee_of o.1.now)) result ≡ spec.callee_named name.now (map callee_of self.now) }
    {
        let known = self.known.as_slice();
        match self.names.place_of(name) {
            None => None,
            Some(place) => Some((place, &known[place])),
        }
    }

    /// The functions.
    pub fn as_slice(&self) -> &[Known<'a>]
        ensures value { result.now ≡ self.now }
    {
        self.known.as_slice()
    }
}

/// A level as trees hold it: no scope that memory holds is longer.
pub fn place_of(level: usize) -> Result<u32, TypeFault>
    ensures { Gives (λ n. n) result (Ok level) }
{
    if level > u32::MAX as usize {
        return Err(TypeFault::NoMemory);
    }
    Ok(level as u32)
}
