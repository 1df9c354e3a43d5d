// Where files come from.
ghost use Rattle.std.specs.Prelude.{◌≡◌, ◌≤◌, ℕ, List, Option};
ghost use Rattle.outside.specs.Causes.{Rose};
ghost use Rattle.outside.specs.Library.{Files, Asks, Fetches};
ghost use Rattle.outside.specs.declared.library.Fetch.TheVariants.{Failed as FetchFailed};

use std::error::Error;
use std::fmt;

/// A fault of the outside, which the count of faults of its object tells.
#[derive(Clone, Copy, Debug, PartialEq, Eq)]
pub struct Failed;

impl fmt::Display for Failed {
    fn fmt<W: fmt::Write>(&self, f: &mut fmt::Formatter<W>) -> fmt::Result {
        write!(f, "what lies outside failed")
    }
}

impl Error for Failed {}

/// What came of a fetch.
#[derive(Clone, Copy, Debug, PartialEq, Eq)]
pub enum Fetch {
    /// The whole file was appended.
    Whole,
    /// Nothing is held under the name, and nothing was appended.
    Missing,
    /// The file is longer than the limit; limit + 1 of its bytes were appended.
    TooLong,
    /// The library failed, and its count of faults rose. A front of the file may have been appended.
    Failed,
    /// Memory ran out. A front of the file may have been appended.
    NoMemory,
}

/// A library of files.
///
/// It may tell what it holds, which no fetch changes, and the names of its fetches in order. Its count of faults
/// never falls.
pub trait Library {
    /// What is held under each name, where the library tells it.
    ghost held: { Self → Option Files };

    /// The names of the fetches so far, where the library tells them.
    ghost asked: { Self → Option (List (List ℕ)) };

    /// How often the library has failed.
    ghost faults: { Self → ℕ };

    /// Appends what is held under the name to `into`, where that is at most `limit` bytes.
    ///
    /// `into` grows by its own allocator. The answer says what was appended, as `Fetch` has it.
    fn fetch(&mut self, name: &str, limit: u64, into: &mut Vec<u8>) -> Fetch
        ensures held { held self.new ≡ held self.old }
        ensures asked { Asks result name.now (asked self.old) (asked self.new) }
        ensures bytes { Fetches result limit (held self.old) name.now into.old.items into.new.items }
        ensures later { faults self.old ≤ faults self.new }
        ensures failed { result ≡ FetchFailed → Rose (faults self.old) (faults self.new) };
}
