// A library of real files. It tells nothing of what they hold.
ghost use Rattle.std.specs.Prelude.{◌≡◌};
ghost use Rattle.outside.specs.Library.{AppendsAtMost};

use crate::{Fetch, Library};
use std::fs;
use std::io::{ErrorKind, Read};
use std::marker::Model;
use std::rt::Files;

/// A library of the real files of these names. It tells nothing of what they hold.
///
/// A file that isn't there is `Missing`; any other failure to open or read is a fault.
#[derive(Drop)]
pub struct FileLibrary<'r, R: Files> {
    rt: &'r R,
    faults: u64,
}

impl<'r, R: Files> Model for FileLibrary<'r, R> {
    ghost use Rattle.std.specs.Prelude.{ℕ};

    ghost Value = { ℕ };

    ghost view = { λ l. l.faults };
}

impl<'r, R: Files> FileLibrary<'r, R> {
    /// A library over this runtime's files. Contracts see it as its count of faults.
    pub fn new(rt: &'r R) -> Self
        ensures { result ≡ 0 }
    {
        FileLibrary { rt, faults: 0 }
    }
}

// Appends what the file has, up to the limit and one byte more.
fn read_up_to<F: Read>(file: &mut F, limit: u64, into: &mut Vec<u8>) -> Fetch
    ensures { AppendsAtMost result limit into.old.items into.new.items }
{
    let mut buffer = [0u8; 4096];
    let mut taken = 0u64;
    loop {
        let count = match file.read(&mut buffer) {
            Ok(0) => return Fetch::Whole,
            Ok(count) => count,
            Err(_) => return Fetch::Failed,
        };
        let left = limit - taken;
        if count as u64 > left {
            return match into.extend_from_slice(&buffer[..left as usize + 1]) {
                Ok(()) => Fetch::TooLong,
                Err(_) => Fetch::NoMemory,
            };
        }
        if into.extend_from_slice(&buffer[..count]).is_err() {
            return Fetch::NoMemory;
        }
        taken += count as u64;
    }
}

impl<'r, R: Files> Library for FileLibrary<'r, R> {
    ghost use Rattle.std.specs.Prelude.{None};

    ghost held = { λ l. None };

    ghost asked = { λ l. None };

    ghost faults = { λ l. l };

    fn fetch(&mut self, name: &str, limit: u64, into: &mut Vec<u8>) -> Fetch {
        let mut file = match fs::open(self.rt, name) {
            Ok(file) => file,
            Err(error) => {
                if error.kind() == ErrorKind::NotFound {
                    return Fetch::Missing;
                }
                self.faults = self.faults.saturating_add(1);
                return Fetch::Failed;
            }
        };
        let fetch = read_up_to(&mut file, limit, into);
        if fetch == Fetch::Failed {
            self.faults = self.faults.saturating_add(1);
        }
        fetch
    }
}
