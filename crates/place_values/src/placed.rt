// Triples from one space to another, and texts compared.
ghost use Rattle.std.specs.Prelude.{◌≡◌, []};
ghost use Rattle.std.specs.Str.{bytes_eq};
ghost use Rattle.builtins.specs.Table as spec;
ghost use Rattle.builtins.specs.Values as values;
ghost use Rattle.sl_ast.specs.declared.typed.Value.TheVariants as variants;
ghost use Rattle.place_values.specs.Cells.{value_of, text_at};

use crate::cell::{Cell, Setting};
use builtins::{from_space, into_space, same_triple};
use fixed_math::{Text, Vec3};
use sl_ast::{SlType, SpaceName};

// Whether two texts are the same, of which none is the empty one.
#[tactic(auto, using(crate::proofs::Texts::same_bytes))]
fn same_text(a: &Text, b: &Text) -> bool
    ensures { result ≡ bytes_eq a.now b.now }
{
    a.is(b)
}

#[tactic(auto, using(crate::proofs::Texts::nothing_left))]
fn is_empty(a: &Text) -> bool
    ensures { result ≡ bytes_eq a.now [] }
{
    a.as_str().is_empty()
}

#[tactic(auto, using(crate::proofs::Texts::nothing_right))]
fn is_nothing(a: &Text) -> bool
    ensures { result ≡ bytes_eq [] a.now }
{
    a.as_str().is_empty()
}

impl Setting<'_> {
    /// A triple from the first space to the second.
    pub(crate) fn through(&self, kind: SlType, from: SpaceName, into: SpaceName, v: &Cell) -> Cell
        ensures { value_of self.now.texts.now result ≡ spec.through kind self.now.spaces.now from into (value_of self.now.texts.now v.now) }
    {
        let here = from_space(kind, self.spaces, from, self.triple(v));
        Cell::Triple(into_space(kind, self.spaces, into, here))
    }

    /// A value of that type whose triple was given in that space.
    pub(crate) fn placed(&self, kind: SlType, from: SpaceName, v: &Cell) -> Cell
        ensures { value_of self.now.texts.now result ≡ spec.placed kind self.now.spaces.now from (value_of self.now.texts.now v.now) }
    {
        match kind {
            SlType::Float => Cell::Number(self.number(v)),
            SlType::Str => Cell::Word(self.word(v)),
            SlType::Color | SlType::Point | SlType::Vector | SlType::Normal => {
                Cell::Triple(from_space(kind, self.spaces, from, self.triple(v)))
            }
        }
    }

    /// A value of that type of three components in that space.
    pub(crate) fn composed(&self, kind: SlType, from: SpaceName, parts: Vec3) -> Cell
        ensures { value_of self.now.texts.now result ≡ spec.placed kind self.now.spaces.now from (variants.Triple parts) }
    {
        self.placed(kind, from, &Cell::Triple(parts))
    }

    fn same_word(&self, a: usize, b: usize) -> bool
        ensures { result ≡ bytes_eq (text_at self.now.texts.now a) (text_at self.now.texts.now b) }
    {
        match (self.text(a), self.text(b)) {
            (Some(a), Some(b)) => same_text(a, b),
            (Some(a), None) => is_empty(a),
            (None, Some(b)) => is_nothing(b),
            (None, None) => true,
        }
    }

    fn same_parts(&self, v: &Cell, w: &Cell) -> bool
        ensures { result ≡ values.same_triple (values.triple_of (value_of self.now.texts.now v.now)) (values.triple_of (value_of self.now.texts.now w.now)) }
    {
        same_triple(self.triple(v), self.triple(w))
    }

    /// Whether two values of one type are the same, a number promoted beside a triple.
    pub(crate) fn is_same(&self, v: &Cell, w: &Cell) -> bool
        ensures { result ≡ values.is_same (value_of self.now.texts.now v.now) (value_of self.now.texts.now w.now) }
    {
        match (v, w) {
            (Cell::Number(x), Cell::Number(y)) => x.raw() == y.raw(),
            (Cell::Word(a), Cell::Word(b)) => self.same_word(*a, *b),
            _ => self.same_parts(v, w),
        }
    }

    // `w` beside `v`: a triple where the two are of different shapes.
    fn beside(&self, v: &Cell, w: &Cell) -> Cell
        ensures { value_of self.now.texts.now result ≡ values.beside (value_of self.now.texts.now v.now) (value_of self.now.texts.now w.now) }
    {
        match (v, w) {
            (Cell::Number(_), Cell::Number(y)) => Cell::Number(*y),
            (Cell::Word(_), Cell::Word(b)) => Cell::Word(*b),
            _ => Cell::Triple(self.triple(w)),
        }
    }

    /// The first of two values where the condition holds, else the second; a number promoted beside a triple.
    pub(crate) fn chosen(&self, holds: bool, v: &Cell, w: &Cell) -> Cell
        ensures { value_of self.now.texts.now result ≡ values.chosen holds (value_of self.now.texts.now v.now) (value_of self.now.texts.now w.now) }
    {
        if holds {
            self.beside(w, v)
        } else {
            self.beside(v, w)
        }
    }
}
