// Finding registers, and counting rows.
ghost use Rattle.std.specs.Prelude.{◌≡◌, ◌<◌, ◌^◌, false, length, slice_index, MatchOption};
ghost use Rattle.grid_code.specs.Uses as spec;

use crate::register_set::RegisterSet;
use builtins::Shape;

impl RegisterSet {
    // The numbers of the registers of that shape.
    fn of_shape(&self, shape: Shape) -> &[u32]
        ensures { result.now ≡ spec.numbers_of self.now shape }
    {
        match shape {
            Shape::Number => self.numbers.as_slice(),
            Shape::Triple => self.triples.as_slice(),
            Shape::Word => self.words.as_slice(),
        }
    }

    /// The place of a register among those of its shape, if it is one of them.
    pub fn index(&self, shape: Shape, number: u32) -> Option<usize>
        ensures { MatchOption result (spec.is_in self.now shape number ≡ false) (λ i. (i < length (spec.numbers_of self.now shape)) × (slice_index (spec.numbers_of self.now shape) i ≡ number)) }
    {
        self.of_shape(shape).binary_search(&number).ok()
    }

    /// How many rows of numbers the registers take: three for each triple.
    pub fn rows(&self) -> u32
        requires { spec.rows_in self.now < 2 ^ 32 }
        ensures { result ≡ spec.rows_in self.now }
    {
        (self.numbers.len() + 3 * self.triples.len() + self.words.len()) as u32
    }
}
