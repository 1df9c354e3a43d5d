// Instructions that give numbers, or copy values, one loop a row.
ghost use Rattle.std.specs.Prelude.{◌≡◌, ℕ, ◌<◌};
ghost use Rattle.fixed_math.specs.Axes.{part_of};
ghost use Rattle.builtins.specs.declared.shape.Shape.{Shape as AnyShape};
ghost use Rattle.builtins.specs.Formulas as formulas;
ghost use Rattle.sl_ast.specs.declared.typed.Value.TheVariants as values;
ghost use Rattle.number_rows.specs.Truths.{truth};
ghost use Rattle.place_rows.specs.Banks.{size};
ghost use Rattle.grid_registers.specs.Operands.{operand_number, operand_triple, OperandIn, Fills};

use crate::operand::Operand;
use crate::registers::Registers;
use fixed_math::Axis;
use number_rows::{
    OfTriple, OfTriples, One, Three, Two, copy, number_of_triple, number_of_triples, number_row,
    one_plane, order_rows, three_planes, two_planes,
};
use place_rows::Bank;
use sl_ast::ValueOperation as Op;

impl Registers<'_> {
    /// Numbers.
    pub fn copy_numbers(&self, p: Operand, row: &mut Bank)
        requires p { OperandIn self.now p }
        requires room { (s : AnyShape) → size row.old s ≡ self.now.frame.now.places }
        ensures size { (s : AnyShape) → size row.new s ≡ size row.old s }
        ensures each { Fills self.now row.new (λ i. values.Number (operand_number self.now p i)) }
    {
        copy(&self.numbers(p), &mut row.numbers);
    }

    /// Triples.
    pub fn copy_triples(&self, p: Operand, row: &mut Bank)
        requires p { OperandIn self.now p }
        requires room { (s : AnyShape) → size row.old s ≡ self.now.frame.now.places }
        ensures size { (s : AnyShape) → size row.new s ≡ size row.old s }
        ensures each { Fills self.now row.new (λ i. values.Triple (operand_triple self.now p i)) }
    {
        let a = self.triples(p);
        copy(&a.x, &mut row.xs);
        copy(&a.y, &mut row.ys);
        copy(&a.z, &mut row.zs);
    }

    /// A formula of numbers.
    pub fn number_of_one<K: One>(&self, p: Operand, row: &mut Bank)
        requires p { OperandIn self.now p }
        requires room { (s : AnyShape) → size row.old s ≡ self.now.frame.now.places }
        ensures size { (s : AnyShape) → size row.new s ≡ size row.old s }
        ensures each { Fills self.now row.new (λ i. values.Number (K.formula (operand_number self.now p i))) }
    {
        one_plane::<K>(&self.numbers(p), &mut row.numbers);
    }

    /// A formula of two numbers.
    pub fn number_of_two<K: Two>(&self, p: Operand, q: Operand, row: &mut Bank)
        requires p { OperandIn self.now p }
        requires q { OperandIn self.now q }
        requires room { (s : AnyShape) → size row.old s ≡ self.now.frame.now.places }
        ensures size { (s : AnyShape) → size row.new s ≡ size row.old s }
        ensures each { Fills self.now row.new (λ i. values.Number (K.formula (operand_number self.now p i) (operand_number self.now q i))) }
    {
        two_planes::<K>(&self.numbers(p), &self.numbers(q), &mut row.numbers);
    }

    /// A formula of three numbers.
    pub fn number_of_three<K: Three>(&self, p: Operand, q: Operand, t: Operand, row: &mut Bank)
        requires p { OperandIn self.now p }
        requires q { OperandIn self.now q }
        requires t { OperandIn self.now t }
        requires room { (s : AnyShape) → size row.old s ≡ self.now.frame.now.places }
        ensures size { (s : AnyShape) → size row.new s ≡ size row.old s }
        ensures each { Fills self.now row.new (λ i. values.Number (K.formula (operand_number self.now p i) (operand_number self.now q i) (operand_number self.now t i))) }
    {
        let (a, b, c) = (self.numbers(p), self.numbers(q), self.numbers(t));
        three_planes::<K>(&a, &b, &c, &mut row.numbers);
    }

    /// One part of triples.
    pub fn component(&self, axis: Axis, p: Operand, row: &mut Bank)
        requires p { OperandIn self.now p }
        requires room { (s : AnyShape) → size row.old s ≡ self.now.frame.now.places }
        ensures size { (s : AnyShape) → size row.new s ≡ size row.old s }
        ensures each { Fills self.now row.new (λ i. values.Number (part_of axis (operand_triple self.now p i))) }
    {
        copy(&self.plane(p, axis), &mut row.numbers);
    }

    /// An operation that is a formula of one number.
    pub fn number_by(&self, op: Op, p: Operand, row: &mut Bank)
        requires p { OperandIn self.now p }
        requires room { (s : AnyShape) → size row.old s ≡ self.now.frame.now.places }
        ensures size { (s : AnyShape) → size row.new s ≡ size row.old s }
        ensures each { Fills self.now row.new (λ i. values.Number (formulas.number op (operand_number self.now p i))) }
    {
        number_row(op, &self.numbers(p), &mut row.numbers);
    }

    /// A comparison of two numbers.
    pub fn order(&self, op: Op, p: Operand, q: Operand, row: &mut Bank)
        requires p { OperandIn self.now p }
        requires q { OperandIn self.now q }
        requires room { (s : AnyShape) → size row.old s ≡ self.now.frame.now.places }
        ensures size { (s : AnyShape) → size row.new s ≡ size row.old s }
        ensures each { Fills self.now row.new (λ i. values.Number (truth (formulas.order op (operand_number self.now p i) (operand_number self.now q i)))) }
    {
        order_rows(op, &self.numbers(p), &self.numbers(q), &mut row.numbers);
    }

    /// A number of triples.
    pub fn number_of_triple<K: OfTriple>(&self, p: Operand, row: &mut Bank)
        requires p { OperandIn self.now p }
        requires room { (s : AnyShape) → size row.old s ≡ self.now.frame.now.places }
        ensures size { (s : AnyShape) → size row.new s ≡ size row.old s }
        ensures each { Fills self.now row.new (λ i. values.Number (K.formula (operand_triple self.now p i))) }
    {
        number_of_triple::<K>(&self.triples(p), &mut row.numbers);
    }

    /// A number of two triples.
    pub fn number_of_triples<K: OfTriples>(&self, p: Operand, q: Operand, row: &mut Bank)
        requires p { OperandIn self.now p }
        requires q { OperandIn self.now q }
        requires room { (s : AnyShape) → size row.old s ≡ self.now.frame.now.places }
        ensures size { (s : AnyShape) → size row.new s ≡ size row.old s }
        ensures each { Fills self.now row.new (λ i. values.Number (K.formula (operand_triple self.now p i) (operand_triple self.now q i))) }
    {
        number_of_triples::<K>(&self.triples(p), &self.triples(q), &mut row.numbers);
    }
}
