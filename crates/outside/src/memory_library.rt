// A library in memory.
ghost use Rattle.std.specs.Prelude.{◌≡◌, ◌++◌, ◌∷◌, [], OnOk, OnErr, option_map};
ghost use Rattle.std.specs.FinMap as finite;
ghost use Rattle.outside.specs.Shelf.{empty_shelf, with_file, naming_fetch, Appended};
ghost use Rattle.outside.specs.FilesFrom.{files_from, names_of};

use crate::calls::Calls;
use crate::{Fetch, Library, NoMemory};
use std::alloc::Global;
use std::collections::VecDeque;
use std::marker::Model;

#[derive(Drop)]
struct File {
    name: String,
    bytes: Vec<u8>,
}

/// A library in memory, which keeps and tells the names of its fetches. One of its fetches may be named to fail.
#[derive(Drop)]
pub struct MemoryLibrary {
    // the newest first
    files: VecDeque<File>,
    asked: Vec<String>,
    calls: Calls,
    alloc: Global,
}

impl Model for MemoryLibrary {
    ghost use Rattle.outside.specs.HeldFiles.{HeldFiles, held_files_code};

    ghost Value = { HeldFiles };

    ghost coded = { held_files_code };

    ghost use Rattle.outside.specs.FilesOf.{held_in};

    ghost view = { held_in };
}

impl MemoryLibrary {
    /// A library that holds nothing. It keeps `alloc` for what it will hold.
    pub fn new(alloc: Global) -> Self
        ensures { result ≡ empty_shelf }
    {
        MemoryLibrary {
            files: VecDeque::new(alloc),
            asked: Vec::new(alloc),
            calls: Calls::new(),
            alloc,
        }
    }

    /// Holds these bytes under the name, in the place of earlier ones. Want of memory changes nothing.
    pub fn add(&mut self, name: &str, bytes: &[u8]) -> Result<(), NoMemory>
        ensures ok { OnOk result (self.new ≡ with_file name.now bytes.now self.old) }
        ensures err { OnErr result (self.new ≡ self.old) }
    {
        let name = String::from_str(self.alloc, name)?;
        let bytes = Vec::from_slice(self.alloc, bytes)?;
        self.files.push_front(File { name, bytes })?;
        Ok(())
    }

    /// Names the nth fetch since the library was made to fail, counted from 1, in the place of an earlier such name.
    pub fn fail_call(&mut self, n: u64)
        ensures { self.new ≡ naming_fetch n self.old }
    {
        self.calls.fail_call(n);
    }
}

// Appends a file's bytes as far as the limit goes, and one more where there are more.
fn append(bytes: &[u8], limit: u64, into: &mut Vec<u8>) -> Fetch
    ensures { Appended result limit bytes.now into.old.items into.new.items }
{
    let whole = bytes.len() as u64 <= limit;
    let front = if whole {
        bytes
    } else {
        &bytes[..limit as usize + 1]
    };
    match into.extend_from_slice(front) {
        Err(_) => Fetch::NoMemory,
        Ok(()) if whole => Fetch::Whole,
        Ok(()) => Fetch::TooLong,
    }
}

// The newest file of this name.
fn find<'a>(files: &'a VecDeque<File>, name: &str) -> Option<&'a File>
    ensures { option_map (λ f. f.now.bytes.items) result ≡ finite.get (files_from files.now.items) name.now }
{
    for file in files {
        if file.name.as_str() == name {
            return Some(file);
        }
    }
    None
}

// Keeps a name. Want of memory keeps nothing.
fn keep(alloc: Global, names: &mut Vec<String>, name: &str) -> Result<(), NoMemory>
    ensures ok { OnOk result (names_of names.new.items ≡ names_of names.old.items ++ name.now ∷ []) }
    ensures err { OnErr result (names.new.items ≡ names.old.items) }
{
    let name = String::from_str(alloc, name)?;
    names.push(name)?;
    Ok(())
}

impl Library for MemoryLibrary {
    ghost use Rattle.std.specs.Prelude.{Some, ◌≤◌, ◌++◌};
    ghost use Rattle.outside.specs.Causes.{Rose};
    ghost use Rattle.outside.specs.Library.{Asks, Fetches, held_as};
    ghost use Rattle.outside.specs.Shelf.{bytes_of, IsAnswer, after_fetch};
    ghost use Rattle.outside.specs.declared.library.Fetch.TheVariants.{Failed as FetchFailed};

    ghost held = { λ m. Some m.files };

    ghost asked = { λ m. Some m.asked };

    ghost faults = { λ m. m.log.faults };

    /// The answer is exactly `Failed` where the call was named to fail, else what is held, but for want of memory.
    fn fetch(&mut self, name: &str, limit: u64, into: &mut Vec<u8>) -> Fetch
        ensures held { Some self.new.files ≡ Some self.old.files }
        ensures asked { Asks result name.now (Some self.old.asked) (Some self.new.asked) }
        ensures bytes { Fetches result limit (Some self.old.files) name.now into.old.items into.new.items }
        ensures later { self.old.log.faults ≤ self.new.log.faults }
        ensures failed { result ≡ FetchFailed → Rose self.old.log.faults self.new.log.faults }
        ensures exact { IsAnswer result limit name.now self.old }
        ensures appended { into.new.items ≡ into.old.items ++ bytes_of result limit (held_as self.old.files name.now) }
        ensures after { self.new ≡ after_fetch result self.new.asked self.old }
    {
        let failing = self.calls.is_failing();
        if keep(self.alloc, &mut self.asked, name).is_err() {
            return Fetch::NoMemory;
        }
        if failing {
            let _ = self.calls.fail();
            return Fetch::Failed;
        }
        match find(&self.files, name) {
            None => Fetch::Missing,
            Some(file) => append(&file.bytes, limit, into),
        }
    }
}
