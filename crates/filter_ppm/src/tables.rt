// The filter's weights as tables over offsets.
ghost use Rattle.std.specs.Prelude.{ℕ, ◌≡◌, ◌≤◌, ◌<◌, ◌+◌, ◌/◌, ◌*◌, ◌+ℤ◌, ◌-ℤ◌, pos, true, IfOk, unsigned_abs, List, length};
ghost use Rattle.scene.specs.Settings.{OptionValues};
ghost use Rattle.filter_ppm.specs.Weight.{counts};
ghost use Rattle.scene.specs.declared.filter.Filter.{Filter};
ghost use Rattle.filter_ppm.specs.Tables.{part, joined, power, IsTable, ArePowers};
ghost use Rattle.filter_ppm.specs.Bells.{AreBells, IsBellRow, IsRowOf};
ghost use Rattle.fixed_math.specs.Fixed.{IsRaw};

use crate::bells::{Bells, Side, row_start, weight_in};
use crate::weights::{across_at, bell_of, slope_at};
use fixed_math::{NoMemory, Num};
use scene::{Filter, Options};
use std::alloc::Global;
use std::marker::Model;

/// The weights of a filter: for each direction a table over the offsets from a pixel's middle.
#[derive(Drop)]
pub(crate) struct Weights {
    options: Options,
    across: Vec<Num>,
    down: Vec<Num>,
    powers: Vec<i32>,
    bells: Bells,
}

impl Model for Weights {
    ghost Value = { OptionValues };

    ghost view = { λ w. w.options };

    ghost invariant = { λ w. IsTable w.options.filter w.options.wx w.across.items × IsTable w.options.filter w.options.wy w.down.items × ArePowers w.powers.items × AreBells w.options.filter w.options.wx w.options.wy w.bells.across w.bells.down w.bells.weights.items };
}

/// The number of the offset `d` in one direction.
#[tactic(auto, unfolding(crate::specs::Tables::part))]
fn part_at(filter: Filter, width: u32, d: i64) -> Num
    requires some { 1 ≤ width }
    requires within { counts width d ≡ true }
    ensures { result ≡ part filter width d }
{
    match filter {
        Filter::Box => Num::sat(65536),
        Filter::Triangle => slope_at(width, d),
        Filter::Gaussian => {
            let place = across_at(width, d);
            place.mul(place)
        }
    }
}

/// The number of the offset `k` less half of the width.
#[tactic(auto, using(crate::proofs::Joins::counts_at))]
fn part_from(filter: Filter, width: u32, k: usize) -> Num
    requires some { 1 ≤ width }
    requires most { width ≤ 4096 }
    requires inside { k < width }
    ensures { result ≡ part filter width (pos k -ℤ pos (width / 2)) }
{
    part_at(filter, width, k as i64 - (width / 2) as i64)
}

/// The numbers of all offsets that count.
fn table(alloc: Global, filter: Filter, width: u32) -> Result<Vec<Num>, NoMemory>
    requires some { 1 ≤ width }
    requires most { width ≤ 4096 }
    ensures { IfOk result (λ table. IsTable filter width table.items) }
{
    let count = width as usize;
    let mut table = Vec::with_capacity(alloc, count)?;
    for k in 0..count {
        table.push(part_from(filter, width, k))?;
    }
    Ok(table)
}

/// The place of an offset that counts in its table.
fn index_of(width: u32, d: i64) -> usize
    requires most { width ≤ 4096 }
    requires within { counts width d ≡ true }
    ensures value { pos result ≡ d +ℤ pos (width / 2) }
    ensures inside { result < width }
{
    (d + (width / 2) as i64) as usize
}

/// The number of an offset that counts, by its table.
#[tactic(auto, using(crate::proofs::Joins::entry_is))]
fn part_in(filter: Filter, width: u32, table: &[Num], d: i64) -> Num
    requires most { width ≤ 4096 }
    requires table { IsTable filter width table.now }
    requires within { counts width d ≡ true }
    ensures { result ≡ part filter width d }
{
    table[index_of(width, d)]
}

/// The raw value of a number.
fn raw_of(v: Num) -> i32
    ensures value { result ≡ v }
    ensures raw { IsRaw result }
{
    v.raw() as i32
}

/// The number of a raw value.
fn num_of(raw: i32) -> Num
    requires { IsRaw raw }
    ensures { result ≡ raw }
{
    Num::sat(raw as i128)
}

/// The power of the sum `k` of squares.
fn power_from(k: usize) -> i32
    requires { k < 131073 }
    ensures value { result ≡ power (pos k) }
    ensures raw { IsRaw result }
{
    raw_of(bell_of(Num::sat(k as i128)))
}

/// The powers of the first sums of squares.
fn powers(alloc: Global, count: usize) -> Result<Vec<i32>, NoMemory>
    requires { count ≤ 131073 }
    ensures { IfOk result (λ powers. ArePowers powers.items) }
{
    let mut powers = Vec::with_capacity(alloc, count)?;
    for k in 0..count {
        powers.push(power_from(k))?;
    }
    Ok(powers)
}

/// How many powers are kept for a frame of so many pixels: all that a gaussian can want, unless it looks up fewer than that or has its
/// weights in a table of their own.
fn kept(filter: Filter, pixels: usize, has_bells: bool) -> usize
    ensures { result ≤ 131073 }
{
    match filter {
        Filter::Gaussian if pixels >= 8192 && !has_bells => 131073,
        _ => 0,
    }
}

/// The weights of a gaussian for pairs of offsets, for a frame of so many pixels, where they are few and not fewer are looked up; else
/// none.
fn bells_for(
    alloc: Global,
    filter: Filter,
    pixels: usize,
    across: &[Num],
    down: &[Num],
) -> Result<Bells, NoMemory>
    requires across_some { 1 ≤ length across.now }
    requires across_most { length across.now ≤ 4096 }
    requires down_some { 1 ≤ length down.now }
    requires down_most { length down.now ≤ 4096 }
    ensures { IfOk result (λ b. (wx wy : ℕ) → IsTable filter wx across.now → IsTable filter wy down.now → AreBells filter wx wy b.across b.down b.weights.items) }
{
    match filter {
        Filter::Gaussian if pixels >= 8192 => Bells::new(alloc, across, down),
        _ => Ok(Bells::none(alloc)),
    }
}

/// The power of a sum of squares: kept, or computed anew.
fn power_in(powers: &[i32], square: Num) -> Num
    requires { ArePowers powers.now }
    ensures { result ≡ power square }
{
    let sum = square.raw();
    if sum < 0 {
        return bell_of(square);
    }
    let k = sum as usize;
    if k < powers.len() {
        num_of(powers[k])
    } else {
        bell_of(square)
    }
}

/// The weight of two numbers of offsets.
#[tactic(auto, unfolding(crate::specs::Tables::joined))]
fn joined(filter: Filter, powers: &[i32], p: Num, q: Num) -> Num
    requires { ArePowers powers.now }
    ensures { result ≡ joined filter p q }
{
    match filter {
        Filter::Box => Num::sat(65536),
        Filter::Triangle => p.mul(q),
        Filter::Gaussian => power_in(powers, p.add(q)),
    }
}

/// A place less the middle of a pixel.
fn from_middle(place: i64, pixel: usize) -> i64
    requires place { unsigned_abs place ≤ 268435456 }
    requires pixel { pixel < 4096 }
    ensures { result ≡ place -ℤ pos (256 * pixel + 128) }
{
    place - (256 * pixel + 128) as i64
}

impl Weights {
    /// The weights of the filter that the options have, for a frame of so many pixels.
    pub(crate) fn new(alloc: Global, options: &Options, pixels: usize) -> Result<Weights, NoMemory>
        ensures { IfOk result (λ weights. weights ≡ options.now) }
    {
        let o = *options;
        let across = table(alloc, o.filter, o.wx)?;
        let down = table(alloc, o.filter, o.wy)?;
        let bells = bells_for(alloc, o.filter, pixels, across.as_slice(), down.as_slice())?;
        let powers = powers(alloc, kept(o.filter, pixels, bells.are_some()))?;
        Ok(Weights {
            options: o,
            across,
            down,
            powers,
            bells,
        })
    }

    /// Each table at hand.
    pub(crate) fn at_hand(&self) -> WeightTables<'_>
        ensures { result ≡ self.now }
    {
        WeightTables {
            options: self.options,
            across: self.across.as_slice(),
            down: self.down.as_slice(),
            powers: self.powers.as_slice(),
            columns: self.bells.across,
            rows: self.bells.down,
            bells: self.bells.weights.as_slice(),
        }
    }
}

/// Where the row of an offset down that counts begins among a gaussian's weights.
fn start_in(across: Side, down: Side, width: u32, d: i64) -> u32
    requires most { width ≤ 4096 }
    requires within { counts width d ≡ true }
    ensures { (f : Filter) (wx : ℕ) (ws : List ℕ) → AreBells f wx width across down ws → IsBellRow f wx (part f width d) across result ws }
{
    row_start(across, down, index_of(width, d))
}

/// What the weights of a filter are read from, each table at hand for a loop over samples: through a reference each would be read anew
/// for each row of pixels, since the sums that are written might be the same memory. Contracts see it as the weights.
#[derive(Drop)]
pub(crate) struct WeightTables<'a> {
    options: Options,
    across: &'a [Num],
    down: &'a [Num],
    powers: &'a [i32],
    // how the gaussian's weights for pairs of offsets are folded, and these weights
    columns: Side,
    rows: Side,
    bells: &'a [u16],
}

impl<'a> Model for WeightTables<'a> {
    ghost Value = { OptionValues };

    ghost view = { λ w. w.options };

    ghost invariant = { λ w. IsTable w.options.filter w.options.wx w.across.now × IsTable w.options.filter w.options.wy w.down.now × ArePowers w.powers.now × AreBells w.options.filter w.options.wx w.options.wy w.columns w.rows w.bells.now };
}

impl<'a> WeightTables<'a> {
    /// The width of the filter across.
    pub(crate) fn across_width(&self) -> u32
        ensures { result ≡ self.now.wx }
    {
        self.options.wx
    }

    /// Its width down.
    pub(crate) fn down_width(&self) -> u32
        ensures { result ≡ self.now.wy }
    {
        self.options.wy
    }

    /// The number of the row `y` for a place that counts for it.
    fn down(&self, place: i64, y: usize) -> Num
        requires place { unsigned_abs place ≤ 268435456 }
        requires pixel { y < 4096 }
        requires counts { counts self.now.wy (place -ℤ pos (256 * y + 128)) ≡ true }
        ensures { result ≡ part self.now.filter self.now.wy (place -ℤ pos (256 * y + 128)) }
    {
        part_in(
            self.options.filter,
            self.options.wy,
            self.down,
            from_middle(place, y),
        )
    }

    /// The weights of the row `y` of pixels for a place that counts for it.
    pub(crate) fn row(&self, place: i64, y: usize) -> RowWeights<'a>
        requires place { unsigned_abs place ≤ 268435456 }
        requires pixel { y < 4096 }
        requires counts { counts self.now.wy (place -ℤ pos (256 * y + 128)) ≡ true }
        ensures { IsRowOf self.now (part self.now.filter self.now.wy (place -ℤ pos (256 * y + 128))) result }
    {
        RowWeights {
            options: self.options,
            across: self.across,
            powers: self.powers,
            down: self.down(place, y),
            side: self.columns,
            start: start_in(
                self.columns,
                self.rows,
                self.options.wy,
                from_middle(place, y),
            ),
            weights: self.bells,
        }
    }
}

/// A weight of 16 bits.
fn num_of_short(weight: u16) -> Num
    ensures { result ≡ pos weight }
{
    Num::sat(weight as i128)
}

/// The weights of a row of pixels for the samples of one height: what they are read from, each at hand for a loop over pixels.
#[derive(Clone, Copy)]
pub(crate) struct RowWeights<'a> {
    pub(crate) options: Options,
    across: &'a [Num],
    powers: &'a [i32],
    down: Num,
    // the gaussian's weights for pairs of offsets, and where those of the row begin
    side: Side,
    start: u32,
    weights: &'a [u16],
}

impl RowWeights<'_> {
    /// The weight of a place that counts for the pixel `x` of the row.
    pub(crate) fn weight(&self, place: i64, x: usize) -> Num
        requires place { unsigned_abs place ≤ 268435456 }
        requires pixel { x < 4096 }
        requires row { IsRowOf self.now.options self.now.down self.now }
        requires counts { counts self.now.options.wx (place -ℤ pos (256 * x + 128)) ≡ true }
        ensures { result ≡ joined self.now.options.filter (part self.now.options.filter self.now.options.wx (place -ℤ pos (256 * x + 128))) self.now.down }
    {
        let offset = from_middle(place, x);
        let index = index_of(self.options.wx, offset);
        let kept = weight_in(self.side, self.start, self.weights, index);
        if kept != 0 {
            return num_of_short(kept);
        }
        let across = part_in(self.options.filter, self.options.wx, self.across, offset);
        joined(self.options.filter, self.powers, across, self.down)
    }
}
