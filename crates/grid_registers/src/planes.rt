// Operands as planes of numbers.
ghost use Rattle.std.specs.Prelude.{◌≡◌, ℕ, ◌<◌};
ghost use Rattle.fixed_math.specs.Axes.{part_of};
ghost use Rattle.builtins.specs.Values.{number_of, triple_of};
ghost use Rattle.number_rows.specs.Planes.{plane_at, triple_at, IsPlane, ArePlanes};
ghost use Rattle.grid_registers.specs.Operands.{operand_at, shape_at, OperandIn};

use crate::operand::Operand;
use crate::registers::Registers;
use builtins::Shape;
use fixed_math::Axis;
use number_rows::{Plane, Planes};

/// The shape of an operand's values.
pub fn shape_at(operand: Operand) -> Shape
    ensures { result ≡ shape_at operand }
{
    match operand {
        Operand::Row(shape, _) => shape,
        Operand::Shared(shape, _) => shape,
    }
}

impl Registers<'_> {
    /// A part of an operand's values, of each as a triple.
    pub fn plane(&self, operand: Operand, axis: Axis) -> Plane<'_>
        requires fits { OperandIn self.now operand }
        ensures plane { IsPlane self.now.frame.now.places result }
        ensures each { (i : ℕ) → i < self.now.frame.now.places → plane_at result i ≡ part_of axis (triple_of (operand_at self.now operand i)) }
    {
        match operand {
            Operand::Row(shape, start) => self.rows.plane(shape, axis, start, self.frame.places),
            Operand::Shared(shape, at) => Plane::Value(self.shared.value(shape, axis, at)),
        }
    }

    /// An operand's values as numbers.
    #[tactic(auto, using(crate::proofs::Parts::first_part))]
    pub fn numbers(&self, operand: Operand) -> Plane<'_>
        requires fits { OperandIn self.now operand }
        ensures plane { IsPlane self.now.frame.now.places result }
        ensures each { (i : ℕ) → i < self.now.frame.now.places → plane_at result i ≡ number_of (operand_at self.now operand i) }
    {
        self.plane(operand, Axis::X)
    }

    /// An operand's values as triples.
    pub fn triples(&self, operand: Operand) -> Planes<'_>
        requires fits { OperandIn self.now operand }
        ensures planes { ArePlanes self.now.frame.now.places result }
        ensures each { (i : ℕ) → i < self.now.frame.now.places → triple_at result i ≡ triple_of (operand_at self.now operand i) }
    {
        Planes {
            x: self.plane(operand, Axis::X),
            y: self.plane(operand, Axis::Y),
            z: self.plane(operand, Axis::Z),
        }
    }
}
