// Samples are given to the sums of the pixels for which they count.
ghost use Rattle.std.specs.Prelude.{ℕ, ◌≡◌, ◌≤◌, ◌<◌, ◌+◌, ◌-◌, ◌*◌, ◌-ℤ◌, ◌≤ℤ◌, ◌⊎◌, pos, length, get_or, true, false, unsigned_abs, List};
ghost use Rattle.fixed_math.specs.declared.vec3.Vec3.{Vec3};
ghost use Rattle.scene.specs.Settings.{OptionValues, AreOptions};
ghost use Rattle.hider.specs.declared.fragment.Fragment.{Fragment};
ghost use Rattle.hider.specs.declared.sample.Sample.{Sample};
ghost use Rattle.hider.specs.Composite.{composite};
ghost use Rattle.hider.specs.Tiles.{Shows, IsSampleGrid, sample_count};
ghost use Rattle.filter_ppm.specs.Weight.{counts, weight_at};
ghost use Rattle.filter_ppm.specs.Tables.{part};
ghost use Rattle.filter_ppm.specs.Bells.{IsRowOf};
ghost use Rattle.filter_ppm.specs.Sums.{none, with_weighed, row_start, total_at, IsRect, IsOver, HasTotals, AddsInRow, AddsSample, AreOver, AreTotals};

use crate::rect::Rect;
use crate::sampling::sample_at;
use crate::shown::ShownSample;
use crate::span::{Span, span_of};
use crate::tables::{RowWeights, WeightTables};
use crate::total::{Total, with_weighed};
use fixed_math::Num;
use hider::Tile;

/// The place of the pixel `x` of the row `y` among a rectangle's pixels.
fn place_of(r: &Rect, x: usize, y: usize) -> usize
    requires rect { IsRect r.now }
    requires left { r.now.left ≤ x }
    requires right { x < r.now.right }
    requires top { r.now.top ≤ y }
    requires bottom { y < r.now.bottom }
    ensures value { result ≡ row_start r.now y + (x - r.now.left) }
    ensures inside { result < (r.now.bottom - r.now.top) * (r.now.right - r.now.left) }
{
    (y - r.top) * r.width() + (x - r.left)
}

/// The weight of a sample for a pixel of a row for which it counts.
fn weight_of(
    weights: &WeightTables<'_>,
    row: &RowWeights<'_>,
    sample: &ShownSample,
    x: usize,
    y: usize,
) -> Num
    requires options { AreOptions weights.now }
    requires x { x < 4096 }
    requires across { counts weights.now.wx (sample.now.place.x -ℤ pos (256 * x + 128)) ≡ true }
    requires down { counts weights.now.wy (sample.now.place.y -ℤ pos (256 * y + 128)) ≡ true }
    requires row { IsRowOf weights.now (part weights.now.filter weights.now.wy (sample.now.place.y -ℤ pos (256 * y + 128))) row.now }
    ensures value { result ≡ weight_at weights.now x y sample.now.place }
    ensures low { pos 0 ≤ℤ result }
{
    row.weight(sample.place.x(), x)
}

/// The columns of a rectangle's pixels for which a sample counts.
fn columns_of(weights: &WeightTables<'_>, r: &Rect, sample: &ShownSample) -> Span
    requires options { AreOptions weights.now }
    requires rect { IsRect r.now }
    ensures low { r.now.left ≤ result.first }
    ensures order { result.first ≤ result.end }
    ensures high { result.end ≤ r.now.right }
    ensures inside { (x : ℕ) → result.first ≤ x → x < result.end → counts weights.now.wx (sample.now.place.x -ℤ pos (256 * x + 128)) ≡ true }
    ensures outside { (x : ℕ) → r.now.left ≤ x → x < r.now.right → (x < result.first) ⊎ (result.end ≤ x) → counts weights.now.wx (sample.now.place.x -ℤ pos (256 * x + 128)) ≡ false }
{
    span_of(weights.across_width(), sample.place.x(), r.left, r.right)
}

/// Their rows.
fn rows_of(weights: &WeightTables<'_>, r: &Rect, sample: &ShownSample) -> Span
    requires options { AreOptions weights.now }
    requires rect { IsRect r.now }
    ensures low { r.now.top ≤ result.first }
    ensures order { result.first ≤ result.end }
    ensures high { result.end ≤ r.now.bottom }
    ensures inside { (y : ℕ) → result.first ≤ y → y < result.end → counts weights.now.wy (sample.now.place.y -ℤ pos (256 * y + 128)) ≡ true }
    ensures outside { (y : ℕ) → r.now.top ≤ y → y < r.now.bottom → (y < result.first) ⊎ (result.end ≤ y) → counts weights.now.wy (sample.now.place.y -ℤ pos (256 * y + 128)) ≡ false }
{
    span_of(weights.down_width(), sample.place.y(), r.top, r.bottom)
}

/// Adds a sample to the pixels of a rectangle's row `y` for which it counts.
fn add_to_row(
    totals: &mut [Total],
    weights: &WeightTables<'_>,
    r: &Rect,
    columns: Span,
    y: usize,
    sample: &ShownSample,
    n: usize,
)
    requires options { AreOptions weights.now }
    requires rect { IsRect r.now }
    requires totals { HasTotals r.now totals.old }
    requires top { r.now.top ≤ y }
    requires bottom { y < r.now.bottom }
    requires left { r.now.left ≤ columns.first }
    requires order { columns.first ≤ columns.end }
    requires right { columns.end ≤ r.now.right }
    requires counts { counts weights.now.wy (sample.now.place.y -ℤ pos (256 * y + 128)) ≡ true }
    requires inside { (x : ℕ) → columns.first ≤ x → x < columns.end → counts weights.now.wx (sample.now.place.x -ℤ pos (256 * x + 128)) ≡ true }
    requires outside { (x : ℕ) → r.now.left ≤ x → x < r.now.right → (x < columns.first) ⊎ (columns.end ≤ x) → counts weights.now.wx (sample.now.place.x -ℤ pos (256 * x + 128)) ≡ false }
    requires n { n < 4294967296 }
    requires over { (x : ℕ) → r.now.left ≤ x → x < r.now.right → IsOver n (total_at r.now totals.old x y) }
    ensures long { length totals.new ≡ length totals.old }
    ensures row { AddsInRow weights.now sample.now r.now y totals.old totals.new }
    ensures over { (x : ℕ) → r.now.left ≤ x → x < r.now.right → IsOver (n + 1) (total_at r.now totals.new x y) }
    ensures others { (p : ℕ) → (p < row_start r.now y) ⊎ (row_start r.now y + (r.now.right - r.now.left) ≤ p) → get_or totals.new p none ≡ get_or totals.old p none }
{
    let row = weights.row(sample.place.y(), y);
    for x in columns.first..columns.end {
        let p = place_of(r, x, y);
        let w = weight_of(weights, &row, sample, x, y);
        totals[p] = with_weighed(&totals[p], w, &sample.colour, n);
    }
}

/// Adds a sample to the pixels of a rectangle for which it counts.
fn add_sample(
    totals: &mut [Total],
    weights: &WeightTables<'_>,
    r: &Rect,
    sample: &ShownSample,
    n: usize,
)
    requires options { AreOptions weights.now }
    requires rect { IsRect r.now }
    requires totals { HasTotals r.now totals.old }
    requires n { n < 4294967296 }
    requires over { AreOver n r.now totals.old }
    ensures long { length totals.new ≡ length totals.old }
    ensures sample { AddsSample weights.now sample.now r.now totals.old totals.new }
    ensures over { AreOver (n + 1) r.now totals.new }
{
    let columns = columns_of(weights, r, sample);
    let rows = rows_of(weights, r, sample);
    for y in rows.first..rows.end {
        add_to_row(totals, weights, r, columns, y, sample, n);
    }
}

/// Adds all samples of a tile to the pixels of a rectangle, whose sums are over nothing.
pub(crate) fn add_tile(totals: &mut [Total], weights: &WeightTables<'_>, r: &Rect, tile: &Tile)
    requires options { AreOptions weights.now }
    requires rect { IsRect r.now }
    requires totals { HasTotals r.now totals.old }
    requires empty { (p : ℕ) → get_or totals.old p none ≡ none }
    requires grid { IsSampleGrid tile.now.grid }
    ensures over { AreOver (sample_count tile.now.grid) r.now totals.new }
    ensures totals { (f : Sample → List Fragment) → Shows tile.now f → AreTotals weights.now (λ s. composite (f s)) tile.now.grid (sample_count tile.now.grid) r.now totals.new }
{
    // of its own, so that it isn't read anew after each sum that is written
    let rect = *r;
    for n in 0..tile.samples() {
        add_sample(totals, weights, &rect, &sample_at(tile, n), n);
    }
}
