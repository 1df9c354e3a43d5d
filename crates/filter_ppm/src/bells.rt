// The weights of a gaussian for pairs of offsets.
ghost use Rattle.std.specs.Prelude.{ℕ, ◌≡◌, ◌≢◌, ◌≤◌, ◌<◌, ◌+◌, ◌-◌, ◌*◌, ◌/◌, ℤ, pos, IsTrue, IfOk, List, length, get_or};
ghost use Rattle.scene.specs.declared.filter.Filter.{Filter};
ghost use Rattle.scene.specs.declared.filter.Filter.TheVariants.{Gaussian};
ghost use Rattle.filter_ppm.specs.Tables.{power, joined, IsTable};
ghost use Rattle.filter_ppm.specs.Bells.{number, IsSide, IsBell, AreFirstBells, AreBells, IsBellRow};

use crate::weights::bell_of;
use fixed_math::{NoMemory, Num};
use std::alloc::Global;

/// How the places of a table of that width are folded: for those from `count` on the opposite ones serve, which have the same numbers.
#[derive(Clone, Copy)]
pub(crate) struct Side {
    width: u16,
    count: u16,
}

impl Side {
    /// The place that serves for a place.
    fn fold(self, place: usize) -> usize
        ensures near { place < self.count → result ≡ place }
        ensures far { self.count ≤ place → result ≡ self.width - place }
        ensures small { result ≤ 65535 }
    {
        if place < self.count as usize {
            place
        } else {
            (self.width as usize).saturating_sub(place)
        }
    }
}

/// The weights of a gaussian for pairs of an offset across and an offset down, by rows of those across, each by the place that serves
/// for its place in its table. A weight that doesn't fit isn't kept: 0 stands for it.
#[derive(Drop)]
pub(crate) struct Bells {
    pub(crate) across: Side,
    pub(crate) down: Side,
    pub(crate) weights: Vec<u16>,
}

/// Whether a table has the same numbers on both sides of its middle.
fn is_even(table: &[Num]) -> bool
    requires { length table.now ≤ 4096 }
    ensures { IsTrue result → (k : ℕ) → length table.now / 2 + 1 ≤ k → k < length table.now → get_or table.now (length table.now - k) (pos 0) ≡ get_or table.now k (pos 0) }
{
    let width = table.len();
    for place in width / 2 + 1..width {
        if table[width - place].raw() != table[place].raw() {
            return false;
        }
    }
    true
}

/// How the places of a table are folded.
fn side_of(table: &[Num]) -> Side
    requires some { 1 ≤ length table.now }
    requires most { length table.now ≤ 4096 }
    ensures some { 1 ≤ result.count }
    ensures most { result.count ≤ length table.now }
    ensures side { (f : Filter) (w : ℕ) → IsTable f w table.now → IsSide f w result }
{
    let width = table.len();
    if is_even(table) {
        return Side {
            width: width as u16,
            count: (width / 2 + 1) as u16,
        };
    }
    Side {
        width: width as u16,
        count: width as u16,
    }
}

/// A weight in 16 bits, and 0 in place of one that doesn't fit.
fn short_of(weight: Num) -> u16
    ensures { result ≢ 0 → pos result ≡ weight }
{
    let raw = weight.raw();
    if raw < 0 {
        return 0;
    }
    if raw > 65535 {
        return 0;
    }
    raw as u16
}

/// The weight of the place `k` of rows of so many columns.
fn weight_of(across: &[Num], down: &[Num], columns: usize, k: usize) -> u16
    requires some { 1 ≤ columns }
    requires across { columns ≤ length across.now }
    requires down { k < length down.now * columns }
    ensures { IsBell across.now down.now columns k result }
{
    short_of(bell_of(across[k % columns].add(down[k / columns])))
}

/// Whether two tables have the same numbers.
fn are_same(a: &[Num], b: &[Num]) -> bool
    ensures { IsTrue result → (k : ℕ) → k < length a.now → get_or a.now k (pos 0) ≡ get_or b.now k (pos 0) }
{
    if b.len() < a.len() {
        return false;
    }
    for k in 0..a.len() {
        if a[k].raw() != b[k].raw() {
            return false;
        }
    }
    true
}

/// The weight of the place `k`, behind the first ones: where both tables are the same, that of a pair is that of the pair turned
/// round, which may be there.
fn next_weight(
    across: &[Num],
    down: &[Num],
    columns: usize,
    same: bool,
    k: usize,
    weights: &[u16],
) -> u16
    requires some { 1 ≤ columns }
    requires across { columns ≤ length across.now }
    requires down { k < length down.now * columns }
    requires next { length weights.now ≡ k }
    requires same { IsTrue same → (k : ℕ) → k < length across.now → get_or across.now k (pos 0) ≡ get_or down.now k (pos 0) }
    requires each { AreFirstBells across.now down.now columns weights.now }
    ensures { IsBell across.now down.now columns k result }
{
    let column = k % columns;
    let row = k / columns;
    if same && column < row && row < columns {
        return weights[column * columns + row];
    }
    weight_of(across, down, columns, k)
}

/// The first weights, by rows of so many columns.
fn weights(
    alloc: Global,
    across: &[Num],
    down: &[Num],
    columns: usize,
    count: usize,
) -> Result<Vec<u16>, NoMemory>
    requires some { 1 ≤ columns }
    requires across { columns ≤ length across.now }
    requires down { count ≤ length down.now * columns }
    ensures each { IfOk result (λ w. AreFirstBells across.now down.now columns w.items) }
    ensures long { IfOk result (λ w. length w.items ≡ count) }
{
    let same = are_same(across, down);
    let mut weights = Vec::with_capacity(alloc, count)?;
    for k in 0..count {
        let next = next_weight(across, down, columns, same, k, weights.as_slice());
        weights.push(next)?;
    }
    Ok(weights)
}

/// Where a row of so many columns begins.
fn start_of(row: usize, columns: u16) -> u32
    requires { row ≤ 65535 }
    ensures { result ≡ row * columns }
{
    (row * columns as usize) as u32
}

impl Bells {
    /// No weight is kept.
    pub(crate) fn none(alloc: Global) -> Bells
        ensures { (f : Filter) (wx wy : ℕ) → AreBells f wx wy result.across result.down result.weights.items }
    {
        let nowhere = Side { width: 0, count: 0 };
        Bells {
            across: nowhere,
            down: nowhere,
            weights: Vec::new(alloc),
        }
    }

    /// Whether some are.
    pub(crate) fn are_some(&self) -> bool {
        self.weights.len() > 0
    }

    /// The weights of all pairs of squares from two tables, where these aren't too many.
    pub(crate) fn new(alloc: Global, across: &[Num], down: &[Num]) -> Result<Bells, NoMemory>
        requires across_some { 1 ≤ length across.now }
        requires across_most { length across.now ≤ 4096 }
        requires down_some { 1 ≤ length down.now }
        requires down_most { length down.now ≤ 4096 }
        ensures { IfOk result (λ b. (wx wy : ℕ) → IsTable Gaussian wx across.now → IsTable Gaussian wy down.now → AreBells Gaussian wx wy b.across b.down b.weights.items) }
    {
        let columns = side_of(across);
        let rows = side_of(down);
        let count = rows.count as usize * columns.count as usize;
        if count > 131072 {
            return Ok(Bells::none(alloc));
        }
        Ok(Bells {
            across: columns,
            down: rows,
            weights: weights(alloc, across, down, columns.count as usize, count)?,
        })
    }
}

/// Where the row of an offset down begins, by its place in its table.
pub(crate) fn row_start(across: Side, down: Side, place: usize) -> u32
    ensures { (f : Filter) (wx wy : ℕ) (ws : List ℕ) → AreBells f wx wy across down ws → place < wy → IsBellRow f wx (number f wy place) across result ws }
{
    start_of(down.fold(place), across.count)
}

/// The weight of an offset across, by its place in its table, in a row of them that begins at `start`; 0 where it isn't kept.
pub(crate) fn weight_in(across: Side, start: u32, weights: &[u16], place: usize) -> u16
    ensures { (f : Filter) (wx : ℕ) (q : ℤ) → IsBellRow f wx q across start weights.now → place < wx → result ≢ 0 → pos result ≡ joined f (number f wx place) q }
{
    let k = start as usize + across.fold(place);
    if k >= weights.len() {
        return 0;
    }
    weights[k]
}
