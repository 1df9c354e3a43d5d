// Triples from one space to another, one loop a row.
ghost use Rattle.std.specs.Prelude.{◌≡◌, ℕ, ◌≤◌, List};
ghost use Rattle.std.specs.Borrow.{Bor};
ghost use Rattle.builtins.specs.declared.shape.Shape.{Shape as AnyShape};
ghost use Rattle.builtins.specs.Table as table;
ghost use Rattle.sl_ast.specs.declared.typed.Value.TheVariants as values;
ghost use Rattle.number_rows.specs.Planes.{triple_at, ArePlanes};
ghost use Rattle.place_rows.specs.Banks.{size};
ghost use Rattle.grid_registers.specs.declared.operand.Work.TheVariants as works;
ghost use Rattle.grid_registers.specs.Held.{texts_of, HoldsEach};
ghost use Rattle.grid_registers.specs.Operands.{operand_at, operand_triple, work_at, OperandIn, Fills};

use crate::operand::{Operand, Work};
use crate::registers::Registers;
use builtins::image;
use number_rows::Planes;
use place_rows::Bank;
use place_values::Cell;
use sl_ast::{SlType, SpaceName, ValueOperation as Op};
use transforms::Affine;

// Points, vectors or normals through a map, into the triples of a row.
#[tactic(auto, using(number_rows::proofs::Shorter::all_shorter))]
fn image_row(kind: SlType, map: &Affine, triples: &Planes, count: usize, row: &mut Bank)
    requires triples { ArePlanes count triples.now }
    requires room { (s : AnyShape) → count ≤ size row.old s }
    ensures size { (s : AnyShape) → size row.new s ≡ size row.old s }
    ensures each { (ts : List (Bor (List ℕ))) → HoldsEach ts row.new count (λ i. values.Triple (table.image kind map.now (triple_at triples.now i))) }
{
    for place in 0..count {
        row.set(place, &Cell::Triple(image(kind, map, triples.at(place))));
    }
}

impl Registers<'_> {
    // An operand's triples through a map.
    fn images(&self, kind: SlType, map: &Affine, p: Operand, row: &mut Bank)
        requires p { OperandIn self.now p }
        requires room { (s : AnyShape) → size row.old s ≡ self.now.frame.now.places }
        ensures size { (s : AnyShape) → size row.new s ≡ size row.old s }
        ensures each { Fills self.now row.new (λ i. values.Triple (table.image kind map.now (operand_triple self.now p i))) }
    {
        let Planes { x, y, z } = self.triples(p);
        image_row(kind, map, &Planes { x, y, z }, self.frame.places, row);
    }

    // Triples of camera space in another space, whose map is made once.
    fn into_space(&self, kind: SlType, into: SpaceName, p: Operand, row: &mut Bank)
        requires p { OperandIn self.now p }
        requires room { (s : AnyShape) → size row.old s ≡ self.now.frame.now.places }
        ensures size { (s : AnyShape) → size row.new s ≡ size row.old s }
        ensures each { Fills self.now row.new (λ i. values.Triple (table.into_space kind self.now.frame.now.setting.spaces.now into (operand_triple self.now p i))) }
    {
        let frame = self.frame;
        let spaces = frame.setting.spaces;
        match into {
            SpaceName::Current => self.copy_triples(p, row),
            SpaceName::World => self.images(kind, &spaces.world.inverse(), p, row),
            SpaceName::Object => self.images(kind, &spaces.object.inverse(), p, row),
            SpaceName::Shader => self.images(kind, &spaces.shader.inverse(), p, row),
        }
    }

    /// An operation that brings points, vectors or normals from one space to another: mostly from camera space.
    pub fn transformed(
        &self,
        op: Op,
        kind: SlType,
        from: SpaceName,
        into: SpaceName,
        p: Operand,
        row: &mut Bank,
    )
        requires op { (i : ℕ) → work_at self.now (works.One op p) i ≡ table.through kind self.now.frame.now.setting.spaces.now from into (operand_at self.now p i) }
        requires p { OperandIn self.now p }
        requires room { (s : AnyShape) → size row.old s ≡ self.now.frame.now.places }
        ensures size { (s : AnyShape) → size row.new s ≡ size row.old s }
        ensures each { HoldsEach (texts_of self.now) row.new self.now.frame.now.places (work_at self.now (works.One op p)) }
    {
        match from {
            SpaceName::Current => self.into_space(kind, into, p, row),
            _ => self.fill(&Work::One(op, p), self.frame.places, row),
        }
    }
}
