// Rows that take triples or give them.
ghost use Rattle.std.specs.Prelude.{◌≡◌, ℕ, ◌+◌, ◌*◌, ◌<◌, ◌≤◌, pos, false, length, get_or};
ghost use Rattle.fixed_math.specs.Fixed.{IsRaw, sub};
ghost use Rattle.sl_ast.specs.declared.typed.Value.TheVariants as values;
ghost use Rattle.builtins.specs.Values.{is_nonzero};
ghost use Rattle.builtins.specs.Triples.{each_two};
ghost use Rattle.builtins.specs.declared.shape.Shape.{Shape as AnyShape};
ghost use Rattle.builtins.specs.declared.shape.Shape.TheVariants as shapes;
ghost use Rattle.light_rows.specs.Seen.{IsSum, IsSumOf};
ghost use Rattle.number_rows.specs.Planes.{plane_at, triple_at, ArePlanes};
ghost use Rattle.place_rows.specs.Banks.{size};
ghost use Rattle.grid_machine.specs.Run.{value_in};
ghost use Rattle.grid_machine.specs.Writes.{row_at};

use light_rows::{Illumination, Sum};
use number_rows::{Planes, copy, give_raws, nonzero_places, parts_rows};
use place_rows::{Bank, Mask};
use sl_ast::ValueOperation;

/// A row takes triples.
pub fn take(triples: &Planes, row: &mut Bank)
    requires { ArePlanes (size row.old shapes.Triple) triples.now }
    ensures size { (s : AnyShape) → size row.new s ≡ size row.old s }
    ensures each { (i : ℕ) → i < size row.old shapes.Triple → row_at row.new i ≡ triple_at triples.now i }
{
    copy(&triples.x, &mut row.xs);
    copy(&triples.y, &mut row.ys);
    copy(&triples.z, &mut row.zs);
}

/// Rows of raws take triples, from an element on.
pub fn give(triples: &Planes, rows: &mut [i64], width: usize, start: usize, count: usize)
    requires triples { ArePlanes count triples.now }
    requires count { count ≤ width }
    requires room { start + 3 * width ≤ length rows.old }
    ensures long { length rows.new ≡ length rows.old }
    ensures each { (i : ℕ) → i < count → value_in shapes.Triple rows.new width (start + i) ≡ values.Triple (triple_at triples.now i) }
    ensures before { (k : ℕ) → k < start → get_or rows.new k (pos 0) ≡ get_or rows.old k (pos 0) }
    ensures raws { ((k : ℕ) → IsRaw (get_or rows.old k (pos 0))) → (k : ℕ) → IsRaw (get_or rows.new k (pos 0)) }
{
    give_raws(&triples.x, rows, start, count);
    give_raws(&triples.y, rows, start + width, count);
    give_raws(&triples.z, rows, start + 2 * width, count);
}

/// The first places where the first parts of triples aren't 0. The first part of a number as a triple is the number.
pub fn nonzero(triples: &Planes, count: usize) -> Mask
    requires triples { ArePlanes count triples.now }
    requires count { count ≤ 289 }
    ensures { (i : ℕ) → i < count → get_or result.places i false ≡ is_nonzero (plane_at triples.now.x i) }
{
    let mut mask = Mask::none();
    nonzero_places(&triples.x, count, &mut mask.places);
    mask
}

/// A row takes the differences of triples to others.
pub fn take_differences(triples: &Planes, others: &Planes, row: &mut Bank)
    requires triples { ArePlanes (size row.old shapes.Triple) triples.now }
    requires others { ArePlanes (size row.old shapes.Triple) others.now }
    ensures size { (s : AnyShape) → size row.new s ≡ size row.old s }
    ensures each { (i : ℕ) → i < size row.old shapes.Triple → row_at row.new i ≡ each_two sub (triple_at triples.now i) (triple_at others.now i) }
{
    let difference = ValueOperation::Subtract;
    parts_rows(difference, &triples.x, &others.x, &mut row.xs);
    parts_rows(difference, &triples.y, &others.y, &mut row.ys);
    parts_rows(difference, &triples.z, &others.z, &mut row.zs);
}

/// A row takes the sums over lights at points.
pub fn take_totals<L: Illumination>(lights: &mut L, sum: &Sum, points: &Planes, row: &mut Bank)
    requires points { ArePlanes (L.lighting lights.old).places points.now }
    requires sum { IsSum (L.lighting lights.old).places sum.now }
    requires room { size row.old shapes.Triple ≡ (L.lighting lights.old).places }
    ensures same { L.lighting lights.new ≡ L.lighting lights.old }
    ensures size { (s : AnyShape) → size row.new s ≡ size row.old s }
    ensures each { IsSumOf sum.now (L.lighting lights.old) (triple_at points.now) (row_at row.new) }
{
    lights.totals(sum, points, &mut row.xs, &mut row.ys, &mut row.zs);
}
