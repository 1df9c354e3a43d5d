// The values of a request while they are read.
ghost use Rattle.std.specs.Prelude.{◌≡◌, ◌||◌, false, [], IfOk, OnOk};

use crate::args::Arg;
use fixed_math::{Decimal, List, NoMemory, Text};
use rib_lex::TokenKind;
use std::alloc::Global;
use std::mem;

/// What the tokens so far give.
#[derive(Drop)]
pub struct Scan {
    pub values: List<Arg>,
    /// The numbers of the array that is begun.
    pub numbers: List<Decimal>,
    /// The strings of the array that is begun.
    pub strings: List<Text>,
    pub inside: bool,
    pub broken: bool,
}

impl Scan {
    ghost use Rattle.rib_reader.specs.Values.{start, array_in, is_mixed, with_array, scanned, ended};

    pub fn new(alloc: Global) -> Self
        ensures { result ≡ start }
    {
        Scan {
            values: List(Vec::new(alloc)),
            numbers: List(Vec::new(alloc)),
            strings: List(Vec::new(alloc)),
            inside: false,
            broken: false,
        }
    }

    // Takes the array that was begun.
    fn take_array(&mut self, alloc: Global) -> Arg
        ensures array { result ≡ array_in self.old }
        ensures taken { self.new ≡ record self.old { numbers = []; strings = []; inside = false; broken = self.old.broken || is_mixed self.old } }
    {
        let numbers = mem::replace(&mut self.numbers, List(Vec::new(alloc)));
        let strings = mem::replace(&mut self.strings, List(Vec::new(alloc)));
        self.inside = false;
        if strings.0.is_empty() {
            return Arg::Numbers(numbers);
        }
        self.broken = self.broken || !numbers.0.is_empty();
        Arg::Strings(strings)
    }

    // The array that was begun is a value.
    fn close(&mut self, alloc: Global) -> Result<(), NoMemory>
        ensures { OnOk result (self.new ≡ with_array self.old) }
    {
        let array = self.take_array(alloc);
        self.values.0.push(array)?;
        Ok(())
    }

    /// One token more.
    pub fn scan(&mut self, alloc: Global, kind: &TokenKind) -> Result<(), NoMemory>
        ensures { OnOk result (self.new ≡ scanned self.old kind.now) }
    {
        match kind {
            TokenKind::Name(_) => self.broken = true,
            TokenKind::Str(text) => {
                let text = text.copied(alloc)?;
                if self.inside {
                    self.strings.0.push(text)?;
                } else {
                    self.values.0.push(Arg::Str(text))?;
                }
            }
            TokenKind::Number(number) => {
                if self.inside {
                    self.numbers.0.push(*number)?;
                } else {
                    self.values.0.push(Arg::Number(*number))?;
                }
            }
            TokenKind::Open => {
                if self.inside {
                    self.broken = true;
                }
                self.inside = true;
            }
            TokenKind::Close => {
                if self.inside {
                    self.close(alloc)?;
                } else {
                    self.broken = true;
                }
            }
        }
        Ok(())
    }

    /// No token more.
    pub fn end(&mut self, alloc: Global) -> Result<(), NoMemory>
        ensures { OnOk result (self.new ≡ ended self.old) }
    {
        if self.inside {
            self.close(alloc)?;
            self.broken = true;
        }
        Ok(())
    }
}
