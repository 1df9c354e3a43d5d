// Rows of a bank as planes of numbers.
ghost use Rattle.std.specs.Prelude.{◌≡◌, ℕ, ◌+◌, ◌<◌, ◌≤◌, List, pos, length, get_or};
ghost use Rattle.std.specs.Borrow.{Bor};
ghost use Rattle.fixed_math.specs.Axes.{part_of};
ghost use Rattle.builtins.specs.Values.{triple_of};
ghost use Rattle.number_rows.specs.Planes.{plane_at, IsPlane};
ghost use Rattle.place_values.specs.Cells.{value_of};
ghost use Rattle.place_rows.specs.Banks.{size, held};

use crate::bank::Bank;
use builtins::Shape;
use fixed_math::Axis;
use number_rows::{Plane, Raw};

// So many numbers from one on.
fn numbers_from(row: &[Raw], start: usize, count: usize) -> Plane<'_>
    requires { start + count ≤ length row.now }
    ensures plane { IsPlane count result }
    ensures each { (i : ℕ) → i < count → plane_at result i ≡ get_or row.now (start + i) (pos 0) }
{
    Plane::Row(&row[start..start + count])
}

impl Bank<'_> {
    /// A part of so many values of a shape from one on, of each as a triple.
    pub fn plane(&self, shape: Shape, axis: Axis, start: usize, count: usize) -> Plane<'_>
        requires { start + count ≤ size self.now shape }
        ensures plane { IsPlane count result }
        ensures each { (ts : List (Bor (List ℕ))) (i : ℕ) → i < count → plane_at result i ≡ part_of axis (triple_of (value_of ts (held self.now shape (start + i)))) }
    {
        match (shape, axis) {
            (Shape::Number, _) => numbers_from(&self.numbers, start, count),
            (Shape::Triple, Axis::X) => numbers_from(&self.xs, start, count),
            (Shape::Triple, Axis::Y) => numbers_from(&self.ys, start, count),
            (Shape::Triple, Axis::Z) => numbers_from(&self.zs, start, count),
            (Shape::Word, _) => Plane::Value(Raw::zero()),
        }
    }

    /// A part of a value of a shape, as a triple.
    pub fn value(&self, shape: Shape, axis: Axis, at: usize) -> Raw
        requires { at < size self.now shape }
        ensures { (ts : List (Bor (List ℕ))) → result ≡ part_of axis (triple_of (value_of ts (held self.now shape at))) }
    {
        match (shape, axis) {
            (Shape::Number, _) => self.numbers[at],
            (Shape::Triple, Axis::X) => self.xs[at],
            (Shape::Triple, Axis::Y) => self.ys[at],
            (Shape::Triple, Axis::Z) => self.zs[at],
            (Shape::Word, _) => Raw::zero(),
        }
    }
}
