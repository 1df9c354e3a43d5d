// Texts and values found among those of a run.
ghost use Rattle.std.specs.Prelude.{◌≡◌, true, ◌<◌, ◌^◌, length};
ghost use Rattle.std.specs.List.{list_any};
ghost use Rattle.std.specs.Str.{bytes_eq};
ghost use Rattle.place_values.specs.Cells.{text_at, value_of, is_known};

use crate::cell::{Cell, Setting};
use fixed_math::Text;
use sl_ast::Value;

impl Setting<'_> {
    /// The place of a text in the run's list.
    pub(crate) fn place_of(&self, text: &Text) -> usize
        requires { list_any (λ t. bytes_eq t.now text.now) self.now.texts.now ≡ true }
        ensures { text_at self.now.texts.now result ≡ text.now }
    {
        for n in 0..self.texts.len() {
            if self.texts[n].is(text) {
                return n + 1;
            }
        }
        0
    }

    /// The cell of a value; its text is one of the run's.
    pub fn cell(&self, value: &Value) -> Cell
        requires { is_known self.now.texts.now value.now ≡ true }
        ensures { value_of self.now.texts.now result ≡ value.now }
    {
        match value {
            Value::Number(x) => Cell::Number(*x),
            Value::Triple(t) => Cell::Triple(*t),
            Value::Word(w) => Cell::Word(self.place_of(w)),
        }
    }
}
