// Instructions computed a row at a time: the operation is chosen once.
ghost use Rattle.std.specs.Prelude.{◌≡◌, ℕ};
ghost use Rattle.builtins.specs.declared.shape.Shape.{Shape as AnyShape};
ghost use Rattle.sl_ast.specs.declared.kinds.SpaceName.TheVariants as spaces;
ghost use Rattle.sl_ast.specs.declared.operations.ValueOperation.TheVariants as ops;
ghost use Rattle.place_rows.specs.Banks.{size};
ghost use Rattle.grid_registers.specs.declared.operand.Work.TheVariants as works;
ghost use Rattle.grid_registers.specs.Held.{texts_of, HoldsEach};
ghost use Rattle.grid_registers.specs.Operands.{work_at, has_triple, is_triple, shape_at, reach, OperandIn, WorkIn};

use crate::of_parts::two_numbers;
use crate::operand::{Operand, Work};
use crate::planes::shape_at;
use crate::registers::Registers;
use builtins::{Shape, shape_of};
use fixed_math::Axis;
use grid_code::Register;
use number_rows::{
    And, Cross, Distance, Dot, FaceForward, Length, Noise, Normalize, Not, Or, Power, Reflect,
    SmoothStep, Step,
};
use place_rows::Bank;
use sl_ast::{SlType, SpaceName, ValueOperation as Op};

// Whether one of two operands gives triples.
fn has_triple(p: Operand, q: Operand) -> bool
    ensures { result ≡ has_triple p q }
{
    is_triple(p) || is_triple(q)
}

fn is_triple(p: Operand) -> bool
    ensures { result ≡ is_triple (shape_at p) }
{
    match p {
        Operand::Row(Shape::Triple, _) | Operand::Shared(Shape::Triple, _) => true,
        Operand::Row(_, _) | Operand::Shared(_, _) => false,
    }
}

impl Registers<'_> {
    // An operand's values as those of a shape.
    fn into_shape(&self, shape: Shape, p: Operand, row: &mut Bank)
        requires p { OperandIn self.now p }
        requires room { (s : AnyShape) → size row.old s ≡ self.now.frame.now.places }
        ensures size { (s : AnyShape) → size row.new s ≡ size row.old s }
        ensures each { HoldsEach (texts_of self.now) row.new self.now.frame.now.places (work_at self.now (works.Into shape p)) }
    {
        match shape {
            Shape::Number => self.copy_numbers(p, row),
            Shape::Triple => self.copy_triples(p, row),
            Shape::Word => self.fill(&Work::Into(shape, p), self.frame.places, row),
        }
    }

    // An operand's values.
    fn copied(&self, p: Operand, row: &mut Bank)
        requires p { OperandIn self.now p }
        requires room { (s : AnyShape) → size row.old s ≡ self.now.frame.now.places }
        ensures size { (s : AnyShape) → size row.new s ≡ size row.old s }
        ensures each { HoldsEach (texts_of self.now) row.new self.now.frame.now.places (work_at self.now (works.Copy p)) }
    {
        match shape_at(p) {
            Shape::Number => self.copy_numbers(p, row),
            Shape::Triple => self.copy_triples(p, row),
            Shape::Word => self.fill(&Work::Copy(p), self.frame.places, row),
        }
    }

    // A value of a type that was given in a space.
    fn converted(&self, kind: SlType, from: SpaceName, p: Operand, row: &mut Bank)
        requires p { OperandIn self.now p }
        requires room { (s : AnyShape) → size row.old s ≡ self.now.frame.now.places }
        ensures size { (s : AnyShape) → size row.new s ≡ size row.old s }
        ensures each { HoldsEach (texts_of self.now) row.new self.now.frame.now.places (work_at self.now (works.One (ops.Convert kind from) p)) }
    {
        match from {
            SpaceName::Current => self.into_shape(shape_of(kind), p, row),
            _ => self.fill(
                &Work::One(Op::Convert(kind, from), p),
                self.frame.places,
                row,
            ),
        }
    }

    // Noise at the points or numbers of an operand.
    fn noise(&self, p: Operand, row: &mut Bank)
        requires p { OperandIn self.now p }
        requires room { (s : AnyShape) → size row.old s ≡ self.now.frame.now.places }
        ensures size { (s : AnyShape) → size row.new s ≡ size row.old s }
        ensures each { HoldsEach (texts_of self.now) row.new self.now.frame.now.places (work_at self.now (works.One ops.Noise p)) }
    {
        match shape_at(p) {
            Shape::Triple => self.number_of_triple::<Noise>(p, row),
            Shape::Number | Shape::Word => {
                self.fill(&Work::One(Op::Noise, p), self.frame.places, row)
            }
        }
    }

    // A type before three components in camera space.
    fn joined_here(&self, kind: SlType, p: Operand, q: Operand, t: Operand, row: &mut Bank)
        requires p { OperandIn self.now p }
        requires q { OperandIn self.now q }
        requires t { OperandIn self.now t }
        requires room { (s : AnyShape) → size row.old s ≡ self.now.frame.now.places }
        ensures size { (s : AnyShape) → size row.new s ≡ size row.old s }
        ensures each { HoldsEach (texts_of self.now) row.new self.now.frame.now.places (work_at self.now (works.Three (ops.Triple kind spaces.Current) p q t)) }
    {
        match shape_of(kind) {
            Shape::Triple => self.composed(p, q, t, row),
            _ => self.fill(
                &Work::Three(Op::Triple(kind, SpaceName::Current), p, q, t),
                self.frame.places,
                row,
            ),
        }
    }

    // A type before three components in a space.
    fn joined(
        &self,
        kind: SlType,
        from: SpaceName,
        p: Operand,
        q: Operand,
        t: Operand,
        row: &mut Bank,
    )
        requires p { OperandIn self.now p }
        requires q { OperandIn self.now q }
        requires t { OperandIn self.now t }
        requires room { (s : AnyShape) → size row.old s ≡ self.now.frame.now.places }
        ensures size { (s : AnyShape) → size row.new s ≡ size row.old s }
        ensures each { HoldsEach (texts_of self.now) row.new self.now.frame.now.places (work_at self.now (works.Three (ops.Triple kind from) p q t)) }
    {
        match from {
            SpaceName::Current => self.joined_here(kind, p, q, t, row),
            _ => self.fill(
                &Work::Three(Op::Triple(kind, from), p, q, t),
                self.frame.places,
                row,
            ),
        }
    }

    // A choice of two values.
    fn select(&self, p: Operand, q: Operand, t: Operand, row: &mut Bank)
        requires p { OperandIn self.now p }
        requires q { OperandIn self.now q }
        requires t { OperandIn self.now t }
        requires room { (s : AnyShape) → size row.old s ≡ self.now.frame.now.places }
        ensures size { (s : AnyShape) → size row.new s ≡ size row.old s }
        ensures each { HoldsEach (texts_of self.now) row.new self.now.frame.now.places (work_at self.now (works.Three ops.Select p q t)) }
    {
        if two_numbers(q, t) {
            self.chosen_numbers(p, q, t, row);
        } else if has_triple(q, t) {
            self.chosen_triples(p, q, t, row);
        } else {
            self.fill(&Work::Three(Op::Select, p, q, t), self.frame.places, row);
        }
    }

    // An operation on one value.
    fn one(&self, op: Op, p: Operand, row: &mut Bank)
        requires p { OperandIn self.now p }
        requires room { (s : AnyShape) → size row.old s ≡ self.now.frame.now.places }
        ensures size { (s : AnyShape) → size row.new s ≡ size row.old s }
        ensures each { HoldsEach (texts_of self.now) row.new self.now.frame.now.places (work_at self.now (works.One op p)) }
    {
        match op {
            Op::Negate => self.by_part(op, p, row),
            Op::Abs => self.by_part(op, p, row),
            Op::Sign => self.by_part(op, p, row),
            Op::Floor => self.by_part(op, p, row),
            Op::Ceil => self.by_part(op, p, row),
            Op::Round => self.by_part(op, p, row),
            Op::Sin => self.number_by(op, p, row),
            Op::Cos => self.number_by(op, p, row),
            Op::Tan => self.number_by(op, p, row),
            Op::Sqrt => self.number_by(op, p, row),
            Op::InverseSqrt => self.number_by(op, p, row),
            Op::Exp => self.number_by(op, p, row),
            Op::Log => self.number_by(op, p, row),
            Op::Radians => self.number_by(op, p, row),
            Op::Degrees => self.number_by(op, p, row),
            Op::Not => self.number_of_one::<Not>(p, row),
            Op::Convert(kind, from) => self.converted(kind, from, p, row),
            Op::XComp => self.component(Axis::X, p, row),
            Op::YComp => self.component(Axis::Y, p, row),
            Op::ZComp => self.component(Axis::Z, p, row),
            Op::Length => self.number_of_triple::<Length>(p, row),
            Op::Normalize => self.triple_of_one::<Normalize>(p, row),
            Op::Noise => self.noise(p, row),
            Op::Transform(from, into) => { self.transformed(op, SlType::Point, from, into, p, row) }
            Op::VTransform(from, into) => {
                self.transformed(op, SlType::Vector, from, into, p, row)
            }
            Op::NTransform(from, into) => {
                self.transformed(op, SlType::Normal, from, into, p, row)
            }
            _ => self.fill(&Work::One(op, p), self.frame.places, row),
        }
    }

    // An operation on two values.
    fn two(&self, op: Op, p: Operand, q: Operand, row: &mut Bank)
        requires p { OperandIn self.now p }
        requires q { OperandIn self.now q }
        requires room { (s : AnyShape) → size row.old s ≡ self.now.frame.now.places }
        ensures size { (s : AnyShape) → size row.new s ≡ size row.old s }
        ensures each { HoldsEach (texts_of self.now) row.new self.now.frame.now.places (work_at self.now (works.Two op p q)) }
    {
        match op {
            Op::Less => self.order(op, p, q, row),
            Op::LessEqual => self.order(op, p, q, row),
            Op::Greater => self.order(op, p, q, row),
            Op::GreaterEqual => self.order(op, p, q, row),
            Op::Add => self.by_parts(op, p, q, row),
            Op::Subtract => self.by_parts(op, p, q, row),
            Op::Multiply => self.by_parts(op, p, q, row),
            Op::Divide => self.by_parts(op, p, q, row),
            Op::Min => self.by_parts(op, p, q, row),
            Op::Max => self.by_parts(op, p, q, row),
            Op::Mod => self.by_parts(op, p, q, row),
            Op::Or => self.number_of_two::<Or>(p, q, row),
            Op::And => self.number_of_two::<And>(p, q, row),
            Op::Pow => self.number_of_two::<Power>(p, q, row),
            Op::Step => self.number_of_two::<Step>(p, q, row),
            Op::Dot => self.number_of_triples::<Dot>(p, q, row),
            Op::Distance => self.number_of_triples::<Distance>(p, q, row),
            Op::Cross => self.triple_of_two::<Cross>(p, q, row),
            Op::Reflect => self.triple_of_two::<Reflect>(p, q, row),
            _ => self.fill(&Work::Two(op, p, q), self.frame.places, row),
        }
    }

    // An operation on three values.
    fn three(&self, op: Op, p: Operand, q: Operand, t: Operand, row: &mut Bank)
        requires p { OperandIn self.now p }
        requires q { OperandIn self.now q }
        requires t { OperandIn self.now t }
        requires room { (s : AnyShape) → size row.old s ≡ self.now.frame.now.places }
        ensures size { (s : AnyShape) → size row.new s ≡ size row.old s }
        ensures each { HoldsEach (texts_of self.now) row.new self.now.frame.now.places (work_at self.now (works.Three op p q t)) }
    {
        match op {
            Op::Clamp => self.by_three_parts(op, p, q, t, row),
            Op::Mix => self.by_three_parts(op, p, q, t, row),
            Op::SmoothStep => self.number_of_three::<SmoothStep>(p, q, t, row),
            Op::FaceForward => self.triple_of_three::<FaceForward>(p, q, t, row),
            Op::Select => self.select(p, q, t, row),
            Op::Triple(kind, from) => self.joined(kind, from, p, q, t, row),
            _ => self.fill(&Work::Three(op, p, q, t), self.frame.places, row),
        }
    }

    // Computes an instruction at all places of a row.
    fn fill_row(&self, work: &Work, row: &mut Bank)
        requires fits { WorkIn self.now work.now }
        requires room { (s : AnyShape) → size row.old s ≡ self.now.frame.now.places }
        ensures size { (s : AnyShape) → size row.new s ≡ size row.old s }
        ensures each { HoldsEach (texts_of self.now) row.new self.now.frame.now.places (work_at self.now work.now) }
    {
        match work {
            Work::Constant(cell) => row.fill(cell),
            Work::Copy(p) => self.copied(*p, row),
            Work::Into(shape, p) => self.into_shape(*shape, *p, row),
            Work::One(op, p) => self.one(*op, *p, row),
            Work::Two(op, p, q) => self.two(*op, *p, *q, row),
            Work::Three(op, p, q, t) => self.three(*op, *p, *q, *t, row),
        }
    }

    /// Computes an instruction at the places of a row that go into a register.
    pub fn compute(&self, to: Register, work: &Work, row: &mut Bank)
        requires fits { WorkIn self.now work.now }
        requires room { (s : AnyShape) → size row.old s ≡ self.now.frame.now.places }
        ensures size { (s : AnyShape) → size row.new s ≡ size row.old s }
        ensures each { HoldsEach (texts_of self.now) row.new (reach to self.now.frame.now.places) (work_at self.now work.now) }
    {
        match to {
            Register::Uniform(_, _) => self.fill(work, 1, row),
            Register::Varying(_, _) => self.fill_row(work, row),
        }
    }
}
