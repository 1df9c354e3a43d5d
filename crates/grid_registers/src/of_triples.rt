// Instructions that give triples, and choices, one loop a row.
ghost use Rattle.std.specs.Prelude.{◌≡◌, ℕ, ◌<◌, true, false};
ghost use Rattle.builtins.specs.declared.shape.Shape.{Shape as AnyShape};
ghost use Rattle.builtins.specs.Values as spec;
ghost use Rattle.sl_ast.specs.declared.typed.Value.TheVariants as values;
ghost use Rattle.place_rows.specs.Banks.{size};
ghost use Rattle.grid_registers.specs.Operands.{operand_at, operand_number, operand_triple, two_numbers, has_triple, OperandIn, Fills};

use crate::operand::Operand;
use crate::registers::Registers;
use number_rows::{
    Chosen, ToTriple, ToTripleOfThree, ToTriples, copy, three_planes, triple_of_three,
    triple_of_triple, triple_of_triples,
};
use place_rows::Bank;

impl Registers<'_> {
    /// A formula of triples.
    pub fn triple_of_one<K: ToTriple>(&self, p: Operand, row: &mut Bank)
        requires p { OperandIn self.now p }
        requires room { (s : AnyShape) → size row.old s ≡ self.now.frame.now.places }
        ensures size { (s : AnyShape) → size row.new s ≡ size row.old s }
        ensures each { Fills self.now row.new (λ i. values.Triple (K.formula (operand_triple self.now p i))) }
    {
        triple_of_triple::<K>(&self.triples(p), &mut row.xs, &mut row.ys, &mut row.zs);
    }

    /// A formula of two triples.
    pub fn triple_of_two<K: ToTriples>(&self, p: Operand, q: Operand, row: &mut Bank)
        requires p { OperandIn self.now p }
        requires q { OperandIn self.now q }
        requires room { (s : AnyShape) → size row.old s ≡ self.now.frame.now.places }
        ensures size { (s : AnyShape) → size row.new s ≡ size row.old s }
        ensures each { Fills self.now row.new (λ i. values.Triple (K.formula (operand_triple self.now p i) (operand_triple self.now q i))) }
    {
        let (a, b) = (self.triples(p), self.triples(q));
        triple_of_triples::<K>(&a, &b, &mut row.xs, &mut row.ys, &mut row.zs);
    }

    /// A formula of three triples.
    pub fn triple_of_three<K: ToTripleOfThree>(
        &self,
        p: Operand,
        q: Operand,
        t: Operand,
        row: &mut Bank,
    )
        requires p { OperandIn self.now p }
        requires q { OperandIn self.now q }
        requires t { OperandIn self.now t }
        requires room { (s : AnyShape) → size row.old s ≡ self.now.frame.now.places }
        ensures size { (s : AnyShape) → size row.new s ≡ size row.old s }
        ensures each { Fills self.now row.new (λ i. values.Triple (K.formula (operand_triple self.now p i) (operand_triple self.now q i) (operand_triple self.now t i))) }
    {
        let (a, b, c) = (self.triples(p), self.triples(q), self.triples(t));
        triple_of_three::<K>(&a, &b, &c, &mut row.xs, &mut row.ys, &mut row.zs);
    }

    /// Triples of three numbers.
    pub fn composed(&self, p: Operand, q: Operand, t: Operand, row: &mut Bank)
        requires p { OperandIn self.now p }
        requires q { OperandIn self.now q }
        requires t { OperandIn self.now t }
        requires room { (s : AnyShape) → size row.old s ≡ self.now.frame.now.places }
        ensures size { (s : AnyShape) → size row.new s ≡ size row.old s }
        ensures each { Fills self.now row.new (λ i. values.Triple (record { x = operand_number self.now p i; y = operand_number self.now q i; z = operand_number self.now t i })) }
    {
        copy(&self.numbers(p), &mut row.xs);
        copy(&self.numbers(q), &mut row.ys);
        copy(&self.numbers(t), &mut row.zs);
    }

    /// A choice of two numbers.
    pub fn chosen_numbers(&self, p: Operand, q: Operand, t: Operand, row: &mut Bank)
        requires p { OperandIn self.now p }
        requires q { OperandIn self.now q }
        requires t { OperandIn self.now t }
        requires numbers { two_numbers q t ≡ true }
        requires room { (s : AnyShape) → size row.old s ≡ self.now.frame.now.places }
        ensures size { (s : AnyShape) → size row.new s ≡ size row.old s }
        ensures each { Fills self.now row.new (λ i. spec.chosen (spec.is_true (operand_at self.now p i)) (operand_at self.now q i) (operand_at self.now t i)) }
    {
        let (a, b, c) = (self.numbers(p), self.numbers(q), self.numbers(t));
        three_planes::<Chosen>(&a, &b, &c, &mut row.numbers);
    }

    /// A choice of two values of which one is a triple.
    pub fn chosen_triples(&self, p: Operand, q: Operand, t: Operand, row: &mut Bank)
        requires p { OperandIn self.now p }
        requires q { OperandIn self.now q }
        requires t { OperandIn self.now t }
        requires triple { has_triple q t ≡ true }
        requires room { (s : AnyShape) → size row.old s ≡ self.now.frame.now.places }
        ensures size { (s : AnyShape) → size row.new s ≡ size row.old s }
        ensures each { Fills self.now row.new (λ i. spec.chosen (spec.is_true (operand_at self.now p i)) (operand_at self.now q i) (operand_at self.now t i)) }
    {
        let (a, b, c) = (self.numbers(p), self.triples(q), self.triples(t));
        three_planes::<Chosen>(&a, &b.x, &c.x, &mut row.xs);
        three_planes::<Chosen>(&a, &b.y, &c.y, &mut row.ys);
        three_planes::<Chosen>(&a, &b.z, &c.z, &mut row.zs);
    }
}
