// How many values a machine has room for.
ghost use Rattle.std.specs.Prelude.{◌≡◌, ◌*◌, ◌≤◌, length};
ghost use Rattle.builtins.specs.declared.shape.Shape.{Shape as AnyShape};
ghost use Rattle.grid_code.specs.Uses.{rows_in, numbers_of};
ghost use Rattle.grid_registers.specs.Rooms.{counted, HasRoom, IsNoLess};

use grid_code::{Code, RegisterSet};

/// Numbers of values by their shape.
#[derive(Clone, Copy)]
pub struct Counts {
    pub numbers: usize,
    pub triples: usize,
    pub words: usize,
}

/// How many values of varying and of uniform registers there is room for.
#[derive(Clone, Copy)]
pub struct Room {
    pub rows: Counts,
    pub shared: Counts,
}

/// How many values registers take that have one at each of so many places.
pub fn counts_of(set: &RegisterSet, places: usize) -> Counts
    requires small { rows_in set.now ≤ 65536 }
    requires few { places ≤ 289 }
    ensures { (s : AnyShape) → counted result s ≡ length (numbers_of set.now s) * places }
{
    Counts {
        numbers: set.numbers.len() * places,
        triples: set.triples.len() * places,
        words: set.words.len() * places,
    }
}

/// How many values registers take that have one each.
pub fn counts_once(set: &RegisterSet) -> Counts
    ensures { (s : AnyShape) → counted result s ≡ length (numbers_of set.now s) }
{
    Counts {
        numbers: set.numbers.len(),
        triples: set.triples.len(),
        words: set.words.len(),
    }
}

// The greater number of each shape.
fn greater(a: Counts, b: Counts) -> Counts
    ensures first { (s : AnyShape) → counted a s ≤ counted result s }
    ensures second { (s : AnyShape) → counted b s ≤ counted result s }
{
    Counts {
        numbers: a.numbers.max(b.numbers),
        triples: a.triples.max(b.triples),
        words: a.words.max(b.words),
    }
}

impl Room {
    /// The room that code takes at so many places.
    pub fn of_code(code: &Code, places: usize) -> Room
        requires { places ≤ 289 }
        ensures { HasRoom code.now.varying code.now.uniform places result }
    {
        Room {
            rows: counts_of(&code.varying, places),
            shared: counts_once(&code.uniform),
        }
    }

    /// Room for whatever has room in one of these.
    pub fn greater(a: Room, b: Room) -> Room
        ensures first { IsNoLess a result }
        ensures second { IsNoLess b result }
    {
        Room {
            rows: greater(a.rows, b.rows),
            shared: greater(a.shared, b.shared),
        }
    }
}
