// Notes to a writer. They tell nothing of what they wrote.
ghost use Rattle.std.specs.Prelude.{◌≡◌};

use crate::{Failed, Notes};
use std::io::Write;
use std::marker::Model;

/// Notes to a writer, as standard error. They tell nothing of what they wrote.
#[derive(Drop)]
pub struct StderrNotes<W: Write + Drop> {
    out: W,
    faults: u64,
}

impl<W: Write + Drop> Model for StderrNotes<W> {
    ghost use Rattle.std.specs.Prelude.{ℕ};

    ghost Value = { ℕ };

    ghost view = { λ n. n.faults };
}

impl<W: Write + Drop> StderrNotes<W> {
    /// Notes to this writer. Contracts see them as their count of faults.
    pub fn new(out: W) -> Self
        ensures { result ≡ 0 }
    {
        StderrNotes { out, faults: 0 }
    }
}

impl<W: Write + Drop> Notes for StderrNotes<W> {
    ghost use Rattle.std.specs.Prelude.{None};

    ghost lines = { λ n. None };

    ghost faults = { λ n. n };

    fn line(&mut self, text: &[u8]) -> Result<(), Failed> {
        let mut at = 0;
        while at < text.len() {
            match self.out.write(&text[at..]) {
                Ok(count) if count > 0 => at += count,
                _ => {
                    self.faults = self.faults.saturating_add(1);
                    return Err(Failed);
                }
            }
        }
        Ok(())
    }
}
