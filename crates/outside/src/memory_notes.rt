// Notes in memory, whose room is reserved when they are made.
ghost use Rattle.std.specs.Prelude.{◌≡◌, IfOk};
ghost use Rattle.std.specs.List.{concat};
ghost use Rattle.outside.specs.HeldLines.{no_lines, naming_line};

use crate::calls::Calls;
use crate::{Failed, NoMemory, Notes};
use std::alloc::Global;
use std::marker::Model;

// Where a line that isn't empty lies in the store: how many empty lines stand before it, and its length.
#[derive(Clone, Copy)]
struct Mark {
    blank: usize,
    length: usize,
}

/// Notes in memory, which tell their lines. One of their lines may be named to fail.
///
/// A line uses its bytes of the room. `line` takes no memory.
#[derive(Drop)]
pub struct MemoryNotes {
    store: Vec<u8>,
    marks: Vec<Mark>,
    // how many empty lines stand behind the last mark
    blank: usize,
    // how many lines there are
    count: usize,
    left: usize,
    calls: Calls,
}

impl Model for MemoryNotes {
    ghost use Rattle.outside.specs.HeldLines.{HeldLines};

    ghost Value = { HeldLines };

    ghost use Rattle.outside.specs.LinesOf.{lines_of, IsKept};

    ghost view = { lines_of };

    ghost invariant = { IsKept };
}

impl MemoryNotes {
    /// Notes with no line, with `room` bytes reserved for their lines.
    pub fn new(alloc: Global, room: usize) -> Result<Self, NoMemory>
        ensures { IfOk result (λ n. n ≡ no_lines room) }
    {
        let store = Vec::with_capacity(alloc, room)?;
        let marks = Vec::with_capacity(alloc, room)?;
        Ok(MemoryNotes {
            store,
            marks,
            blank: 0,
            count: 0,
            left: room,
            calls: Calls::new(),
        })
    }

    /// Names the nth line since the notes were made to fail, counted from 1, in the place of an earlier such name.
    pub fn fail_call(&mut self, n: u64)
        ensures { self.new ≡ naming_line n self.old }
    {
        self.calls.fail_call(n);
    }

    /// All lines, one after another.
    pub fn text(&self) -> &[u8]
        ensures { result.now ≡ concat self.now.lines }
    {
        &self.store
    }
}

impl Notes for MemoryNotes {
    ghost use Rattle.std.specs.Prelude.{Some, ◌++◌, ◌∷◌, [], is_ok};
    ghost use Rattle.outside.specs.Sink.{Changes};
    ghost use Rattle.outside.specs.Causes.{HasCause};
    ghost use Rattle.outside.specs.HeldLines.{can_say, after_line};

    ghost lines = { λ n. Some n.lines };

    ghost faults = { λ n. n.log.faults };

    /// Fails exactly where the call was named to, or the line doesn't fit.
    fn line(&mut self, text: &[u8]) -> Result<(), Failed>
        ensures lines { Changes (λ ls. ls ++ text.now ∷ []) result (Some self.old.lines) (Some self.new.lines) }
        ensures cause { HasCause self.old.log.faults self.new.log.faults result }
        ensures exact { is_ok result ≡ can_say text.now self.old }
        ensures after { self.new ≡ after_line text.now (is_ok result) self.old }
    {
        if self.calls.is_failing() {
            return Err(self.calls.fail());
        }
        if text.len() > self.left || self.count == usize::MAX {
            return Err(self.calls.fail());
        }
        self.count += 1;
        if text.is_empty() {
            self.blank += 1;
            return Ok(());
        }
        let Ok(()) = self.store.extend_from_slice(text) else {
            unreachable!()
        };
        let mark = Mark {
            blank: self.blank,
            length: text.len(),
        };
        let Ok(()) = self.marks.push(mark) else {
            unreachable!()
        };
        self.blank = 0;
        self.left -= text.len();
        Ok(())
    }
}
