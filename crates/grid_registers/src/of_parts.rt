// Instructions that go part by part, on numbers or on triples, one loop a row.
ghost use Rattle.std.specs.Prelude.{◌≡◌, ℕ, ◌<◌, true, false};
ghost use Rattle.builtins.specs.declared.shape.Shape.{Shape as AnyShape};
ghost use Rattle.builtins.specs.Formulas as formulas;
ghost use Rattle.builtins.specs.Values as spec;
ghost use Rattle.place_rows.specs.Banks.{size};
ghost use Rattle.grid_registers.specs.Operands.{operand_at, two_numbers, three_numbers, is_number_at, AreGrey, OperandIn, Fills};

use crate::operand::Operand;
use crate::registers::Registers;
use builtins::Shape;
use fixed_math::Axis;
use number_rows::{Plane, copy, part_row, parts_rows, three_parts_rows};
use place_rows::Bank;
use sl_ast::ValueOperation as Op;

/// Whether an operand's values are numbers.
pub fn is_number(p: Operand) -> bool
    ensures { result ≡ is_number_at p }
{
    match p {
        Operand::Row(Shape::Number, _) | Operand::Shared(Shape::Number, _) => true,
        Operand::Row(_, _) | Operand::Shared(_, _) => false,
    }
}

/// Whether those of two are.
pub fn two_numbers(p: Operand, q: Operand) -> bool
    ensures { result ≡ two_numbers p q }
{
    is_number(p) && is_number(q)
}

fn three_numbers(p: Operand, q: Operand, t: Operand) -> bool
    ensures { result ≡ three_numbers p q t }
{
    is_number(p) && two_numbers(q, t)
}

impl Registers<'_> {
    // On numbers.
    fn part_of_numbers(&self, op: Op, p: Operand, row: &mut Bank)
        requires p { OperandIn self.now p }
        requires numbers { is_number_at p ≡ true }
        requires room { (s : AnyShape) → size row.old s ≡ self.now.frame.now.places }
        ensures size { (s : AnyShape) → size row.new s ≡ size row.old s }
        ensures each { Fills self.now row.new (λ i. spec.by_part (formulas.part op) (operand_at self.now p i)) }
    {
        part_row(op, &self.numbers(p), &mut row.numbers);
    }

    // On triples.
    fn part_of_triples(&self, op: Op, p: Operand, row: &mut Bank)
        requires p { OperandIn self.now p }
        requires others { is_number_at p ≡ false }
        requires room { (s : AnyShape) → size row.old s ≡ self.now.frame.now.places }
        ensures size { (s : AnyShape) → size row.new s ≡ size row.old s }
        ensures each { Fills self.now row.new (λ i. spec.by_part (formulas.part op) (operand_at self.now p i)) }
    {
        let a = self.triples(p);
        part_row(op, &a.x, &mut row.xs);
        part_row(op, &a.y, &mut row.ys);
        part_row(op, &a.z, &mut row.zs);
    }

    /// An operation that goes part by part.
    pub fn by_part(&self, op: Op, p: Operand, row: &mut Bank)
        requires p { OperandIn self.now p }
        requires room { (s : AnyShape) → size row.old s ≡ self.now.frame.now.places }
        ensures size { (s : AnyShape) → size row.new s ≡ size row.old s }
        ensures each { Fills self.now row.new (λ i. spec.by_part (formulas.part op) (operand_at self.now p i)) }
    {
        if is_number(p) {
            self.part_of_numbers(op, p, row);
        } else {
            self.part_of_triples(op, p, row);
        }
    }

    // On numbers.
    fn parts_of_numbers(&self, op: Op, p: Operand, q: Operand, row: &mut Bank)
        requires p { OperandIn self.now p }
        requires q { OperandIn self.now q }
        requires numbers { two_numbers p q ≡ true }
        requires room { (s : AnyShape) → size row.old s ≡ self.now.frame.now.places }
        ensures size { (s : AnyShape) → size row.new s ≡ size row.old s }
        ensures each { Fills self.now row.new (λ i. spec.by_parts (formulas.parts op) (operand_at self.now p i) (operand_at self.now q i)) }
    {
        parts_rows(op, &self.numbers(p), &self.numbers(q), &mut row.numbers);
    }

    // On triples, each part of which is worked out.
    fn all_parts_of_triples(&self, op: Op, p: Operand, q: Operand, row: &mut Bank)
        requires p { OperandIn self.now p }
        requires q { OperandIn self.now q }
        requires others { two_numbers p q ≡ false }
        requires room { (s : AnyShape) → size row.old s ≡ self.now.frame.now.places }
        ensures size { (s : AnyShape) → size row.new s ≡ size row.old s }
        ensures each { Fills self.now row.new (λ i. spec.by_parts (formulas.parts op) (operand_at self.now p i) (operand_at self.now q i)) }
    {
        let (a, b) = (self.triples(p), self.triples(q));
        parts_rows(op, &a.x, &b.x, &mut row.xs);
        parts_rows(op, &a.y, &b.y, &mut row.ys);
        parts_rows(op, &a.z, &b.z, &mut row.zs);
    }

    // On triples whose three parts are the same, which are worked out once.
    fn same_parts_of_triples(&self, op: Op, p: Operand, q: Operand, row: &mut Bank)
        requires p { OperandIn self.now p }
        requires q { OperandIn self.now q }
        requires others { two_numbers p q ≡ false }
        requires same_p { AreGrey self.now p }
        requires same_q { AreGrey self.now q }
        requires room { (s : AnyShape) → size row.old s ≡ self.now.frame.now.places }
        ensures size { (s : AnyShape) → size row.new s ≡ size row.old s }
        ensures each { Fills self.now row.new (λ i. spec.by_parts (formulas.parts op) (operand_at self.now p i) (operand_at self.now q i)) }
    {
        let (a, b) = (self.triples(p), self.triples(q));
        parts_rows(op, &a.x, &b.x, &mut row.xs);
        copy(&Plane::Row(&row.xs), &mut row.ys);
        copy(&Plane::Row(&row.xs), &mut row.zs);
    }

    // Whether the three parts of an operand's values are the same, as those of numbers are, and of a grey that is the same at all places.
    fn is_grey(&self, p: Operand) -> bool
        requires { OperandIn self.now p }
        ensures { result ≡ true → AreGrey self.now p }
    {
        match p {
            Operand::Row(Shape::Triple, _) => false,
            Operand::Row(Shape::Number, _) | Operand::Row(Shape::Word, _) => true,
            Operand::Shared(shape, at) => {
                let x = self.shared.value(shape, Axis::X, at);
                let y = self.shared.value(shape, Axis::Y, at);
                let z = self.shared.value(shape, Axis::Z, at);
                x.raw() == y.raw() && x.raw() == z.raw()
            }
        }
    }

    // On triples.
    fn parts_of_triples(&self, op: Op, p: Operand, q: Operand, row: &mut Bank)
        requires p { OperandIn self.now p }
        requires q { OperandIn self.now q }
        requires others { two_numbers p q ≡ false }
        requires room { (s : AnyShape) → size row.old s ≡ self.now.frame.now.places }
        ensures size { (s : AnyShape) → size row.new s ≡ size row.old s }
        ensures each { Fills self.now row.new (λ i. spec.by_parts (formulas.parts op) (operand_at self.now p i) (operand_at self.now q i)) }
    {
        if self.is_grey(p) && self.is_grey(q) {
            self.same_parts_of_triples(op, p, q, row);
        } else {
            self.all_parts_of_triples(op, p, q, row);
        }
    }

    /// An operation that goes part by part.
    pub fn by_parts(&self, op: Op, p: Operand, q: Operand, row: &mut Bank)
        requires p { OperandIn self.now p }
        requires q { OperandIn self.now q }
        requires room { (s : AnyShape) → size row.old s ≡ self.now.frame.now.places }
        ensures size { (s : AnyShape) → size row.new s ≡ size row.old s }
        ensures each { Fills self.now row.new (λ i. spec.by_parts (formulas.parts op) (operand_at self.now p i) (operand_at self.now q i)) }
    {
        if two_numbers(p, q) {
            self.parts_of_numbers(op, p, q, row);
        } else {
            self.parts_of_triples(op, p, q, row);
        }
    }

    // On numbers.
    fn three_parts_of_numbers(&self, op: Op, p: Operand, q: Operand, t: Operand, row: &mut Bank)
        requires p { OperandIn self.now p }
        requires q { OperandIn self.now q }
        requires t { OperandIn self.now t }
        requires numbers { three_numbers p q t ≡ true }
        requires room { (s : AnyShape) → size row.old s ≡ self.now.frame.now.places }
        ensures size { (s : AnyShape) → size row.new s ≡ size row.old s }
        ensures each { Fills self.now row.new (λ i. spec.by_three_parts (formulas.three_parts op) (operand_at self.now p i) (operand_at self.now q i) (operand_at self.now t i)) }
    {
        three_parts_rows(
            op,
            &self.numbers(p),
            &self.numbers(q),
            &self.numbers(t),
            &mut row.numbers,
        );
    }

    // On triples.
    fn three_parts_of_triples(&self, op: Op, p: Operand, q: Operand, t: Operand, row: &mut Bank)
        requires p { OperandIn self.now p }
        requires q { OperandIn self.now q }
        requires t { OperandIn self.now t }
        requires others { three_numbers p q t ≡ false }
        requires room { (s : AnyShape) → size row.old s ≡ self.now.frame.now.places }
        ensures size { (s : AnyShape) → size row.new s ≡ size row.old s }
        ensures each { Fills self.now row.new (λ i. spec.by_three_parts (formulas.three_parts op) (operand_at self.now p i) (operand_at self.now q i) (operand_at self.now t i)) }
    {
        let (a, b, c) = (self.triples(p), self.triples(q), self.triples(t));
        three_parts_rows(op, &a.x, &b.x, &c.x, &mut row.xs);
        three_parts_rows(op, &a.y, &b.y, &c.y, &mut row.ys);
        three_parts_rows(op, &a.z, &b.z, &c.z, &mut row.zs);
    }

    /// An operation that goes part by part.
    pub fn by_three_parts(&self, op: Op, p: Operand, q: Operand, t: Operand, row: &mut Bank)
        requires p { OperandIn self.now p }
        requires q { OperandIn self.now q }
        requires t { OperandIn self.now t }
        requires room { (s : AnyShape) → size row.old s ≡ self.now.frame.now.places }
        ensures size { (s : AnyShape) → size row.new s ≡ size row.old s }
        ensures each { Fills self.now row.new (λ i. spec.by_three_parts (formulas.three_parts op) (operand_at self.now p i) (operand_at self.now q i) (operand_at self.now t i)) }
    {
        if three_numbers(p, q, t) {
            self.three_parts_of_numbers(op, p, q, t, row);
        } else {
            self.three_parts_of_triples(op, p, q, t, row);
        }
    }
}
