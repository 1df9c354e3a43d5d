// Values at one place, without memory of their own.
ghost use Rattle.std.specs.Prelude.{◌≡◌};
ghost use Rattle.builtins.specs.Values as spec;
ghost use Rattle.place_values.specs.Cells.{value_of, text_at, text_or_empty};

use builtins::Shape;
use fixed_math::{Num, Text, Vec3};
use transforms::Spaces;

/// A value at one place: a number, a triple or a text. Text 0 is the empty one, and text n + 1 is number n of the run's list.
#[derive(Clone, Copy)]
pub enum Cell {
    Number(Num),
    Triple(Vec3),
    Word(usize),
}

/// What the values of a run stand in: the list of its texts, and the spaces of its shader.
#[derive(Clone, Copy)]
pub struct Setting<'a> {
    pub texts: &'a [&'a Text],
    pub spaces: &'a Spaces,
}

impl<'a> Setting<'a> {
    /// The number of a value; of a triple its first part, and 0 of a text.
    pub fn number(&self, cell: &Cell) -> Num
        ensures { result ≡ spec.number_of (value_of self.now.texts.now cell.now) }
    {
        match cell {
            Cell::Number(x) => *x,
            Cell::Triple(t) => t.x,
            Cell::Word(_) => Num::sat(0),
        }
    }

    /// The triple of a value: a number stands for three equal parts, and a text for three zeros.
    pub fn triple(&self, cell: &Cell) -> Vec3
        ensures { result ≡ spec.triple_of (value_of self.now.texts.now cell.now) }
    {
        match cell {
            Cell::Number(x) => Vec3 {
                x: *x,
                y: *x,
                z: *x,
            },
            Cell::Triple(t) => *t,
            Cell::Word(_) => Vec3 {
                x: Num::sat(0),
                y: Num::sat(0),
                z: Num::sat(0),
            },
        }
    }

    /// The text of a value, or the empty one.
    pub(crate) fn word(&self, cell: &Cell) -> usize
        ensures { text_at self.now.texts.now result ≡ spec.word_of (value_of self.now.texts.now cell.now) }
    {
        match cell {
            Cell::Word(w) => *w,
            Cell::Number(_) | Cell::Triple(_) => 0,
        }
    }

    /// The text of that place; none is the empty one.
    pub(crate) fn text(&self, place: usize) -> Option<&Text>
        ensures { text_or_empty result ≡ text_at self.now.texts.now place }
    {
        if place == 0 {
            return None;
        }
        self.texts.get(place - 1).copied()
    }

    /// A value where one of that shape is wanted: a number stands for three equal parts.
    pub fn as_shape(&self, shape: Shape, cell: &Cell) -> Cell
        ensures { value_of self.now.texts.now result ≡ spec.as_shape shape (value_of self.now.texts.now cell.now) }
    {
        match shape {
            Shape::Number => Cell::Number(self.number(cell)),
            Shape::Triple => Cell::Triple(self.triple(cell)),
            Shape::Word => Cell::Word(self.word(cell)),
        }
    }

    /// A truth as a value: 1 or 0.
    pub(crate) fn truth(&self, holds: bool) -> Cell
        ensures { value_of self.now.texts.now result ≡ spec.truth holds }
    {
        if holds {
            Cell::Number(Num::sat(65536))
        } else {
            Cell::Number(Num::sat(0))
        }
    }

    /// Whether a value is a truth that holds: its number isn't 0.
    pub fn is_true(&self, cell: &Cell) -> bool
        ensures { result ≡ spec.is_true (value_of self.now.texts.now cell.now) }
    {
        self.number(cell).raw() != 0
    }
}
