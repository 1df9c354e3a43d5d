// Look-ups of textures at the places of a grid.
ghost use Rattle.std.specs.Prelude.{◌≡◌, ℕ, ◌+◌, ◌-◌, ◌/◌, ◌<◌, ◌≤◌, ◌≤ℤ◌, ◌-ℤ◌, ◌^◌, List, None, max, pos, unsigned_abs, length, get_or};
ghost use Rattle.std.specs.Borrow.{Bor};
ghost use Rattle.fixed_math.specs.Axes.{origin};
ghost use Rattle.fixed_math.specs.Fixed.{IsRaw};
ghost use Rattle.sl_ast.specs.declared.typed.Value.TheVariants as values;
ghost use Rattle.builtins.specs.Textures as spec;
ghost use Rattle.builtins.specs.declared.shape.Shape.{Shape as AnyShape};
ghost use Rattle.place_rows.specs.Banks.{size};
ghost use Rattle.grid_registers.specs.Held.{texts_of, HoldsEach};
ghost use Rattle.grid_registers.specs.Frames.{lines_of, look_up_of};
ghost use Rattle.grid_registers.specs.Operands.{operand_number, OperandIn};
ghost use Rattle.grid_registers.specs.LookUps.{PlacedIn, AreLong, IsAlike, IsWay, AreWays, IsStep, AreSteps, AreStepped, IsLooked, numbered_look};

use crate::frame::Frame;
use crate::operand::Operand;
use crate::registers::Registers;
use crate::sides::Sides;
use crate::textures::Textures;
use fixed_math::{Num, Vec3};
use number_rows::{Raw, copy};
use place_rows::Bank;
use place_values::Cell;

/// Where s and t of a look-up stand.
#[derive(Clone, Copy)]
pub struct Placed {
    pub s: Operand,
    pub t: Operand,
}

/// s and t of a look-up at the places of a grid.
#[derive(Clone, Copy)]
pub(crate) struct Coordinates<'a> {
    pub(crate) s: &'a [Raw],
    pub(crate) t: &'a [Raw],
}

/// The same with the steps at the places, as far as they choose levels of a texture of these sides.
#[derive(Clone, Copy)]
pub(crate) struct Stepped<'a> {
    pub(crate) sides: Sides,
    pub(crate) at: Coordinates<'a>,
    pub(crate) steps: &'a [u32],
}

// The entry at a place, if there is one.
fn entry_at(entries: &[Option<u32>], place: usize) -> Option<u32>
    ensures { result ≡ get_or entries.now place None }
{
    if place < entries.len() {
        entries[place]
    } else {
        None
    }
}

impl Frame<'_> {
    /// The number of the texture that the look-up of a node names, if it names one.
    #[tactic(auto, using(crate::proofs::Entries::entry_found, crate::proofs::Entries::entry_missing))]
    pub fn entry(&self, node: u32) -> Option<u32>
        ensures { result ≡ spec.entry_of self.now.look_ups.now.nodes self.now.entries.now node }
    {
        match self.look_ups.index(node) {
            Some(place) => entry_at(self.entries, place),
            None => None,
        }
    }

    // Of the two places whose difference `Du` takes, the earlier one: the later one is the next.
    #[tactic(auto, using(place_rows::proofs::Rows::next_in), unfolding(builtins::specs::Textures::earlier_u, builtins::specs::Textures::later_u))]
    fn earlier_u(&self, place: usize) -> usize
        requires { place < self.now.places }
        ensures value { result ≡ spec.earlier_u (lines_of self.now) place }
        ensures later { result + 1 ≡ spec.later_u (lines_of self.now) place }
        ensures inside { result + 1 < self.now.places }
    {
        if place % self.columns + 1 < self.columns {
            place
        } else {
            place - 1
        }
    }

    // The same of `Dv`, where the later one is a row further.
    #[tactic(auto, using(place_rows::proofs::Rows::under_in, place_rows::proofs::Rows::over_in), unfolding(builtins::specs::Textures::earlier_v, builtins::specs::Textures::later_v))]
    fn earlier_v(&self, place: usize) -> usize
        requires { place < self.now.places }
        ensures value { result ≡ spec.earlier_v (lines_of self.now) place }
        ensures later { result + self.now.columns ≡ spec.later_v (lines_of self.now) place }
        ensures inside { result + self.now.columns < self.now.places }
    {
        if place / self.columns + 1 < self.rows {
            place
        } else {
            place - self.columns
        }
    }
}

// A number in 32 bits.
#[inline(always)]
fn bits_of(x: Raw) -> i32
    ensures value { result ≡ x }
    ensures raw { IsRaw result }
{
    x.raw() as i32
}

// How far two numbers lie apart.
#[inline(always)]
fn apart(x: Raw, y: Raw) -> u32
    ensures { result ≡ unsigned_abs (x -ℤ y) }
{
    bits_of(x).abs_diff(bits_of(y))
}

// How many 65536ths of a sample's side two numbers lie apart, across so many samples, cut where it surely reads the last level.
#[inline(always)]
fn ways(side: u32, far: u32, x: Raw, y: Raw) -> u32
    requires side { side ≤ 2048 }
    requires far { far ≡ 134217728 / max side 1 + 1 }
    ensures value { IsAlike result (spec.ways side x y) }
    ensures bound { result ≤ 2 ^ 28 }
{
    apart(x, y).min(far) * side
}

impl Coordinates<'_> {
    // How far s and t go from a place to another, in a texture of these sides: the greater of both.
    #[inline(always)]
    fn way(&self, sides: Sides, later: usize, earlier: usize) -> u32
        requires later { AreLong (later + 1) self.now }
        requires earlier { AreLong (earlier + 1) self.now }
        ensures { IsWay sides self.now later earlier result }
    {
        let across = ways(sides.width, sides.across, self.s[later], self.s[earlier]);
        let up = ways(sides.height, sides.up, self.t[later], self.t[earlier]);
        across.max(up)
    }

    // How far they go from each of so many places to the one so many on.
    fn ways_on(&self, sides: Sides, count: usize, on: usize, ways: &mut [u32])
        requires long { AreLong (count + on) self.now }
        requires room { count ≤ length ways.old }
        requires few { count + on ≤ 289 }
        ensures room { length ways.new ≡ length ways.old }
        ensures each { AreWays sides self.now count on ways.new }
    {
        for place in 0..count {
            ways[place] = self.way(sides, place + on, place);
        }
    }
}

// The number at a place of a row.
#[inline(always)]
fn number_at(row: &[Raw], place: usize) -> Num
    requires { place < length row.now }
    ensures { result ≡ get_or row.now place (pos 0) }
{
    row[place].number()
}

impl Stepped<'_> {
    // The step at a place.
    #[inline(always)]
    fn step(&self, place: usize) -> i64
        requires { place < length self.now.steps.now }
        ensures value { result ≡ pos (get_or self.now.steps.now place 0) }
        ensures some { pos 0 ≤ℤ result }
        ensures most { result ≤ℤ pos 4294967295 }
    {
        self.steps[place] as i64
    }
}

impl Frame<'_> {
    // The steps of a look-up at all places, in a texture of these sides.
    fn steps(&self, sides: Sides, at: &Coordinates, steps: &mut [u32])
        requires long { AreLong self.now.places at.now }
        requires room { self.now.places ≤ length steps.old }
        ensures room { length steps.new ≡ length steps.old }
        ensures each { AreSteps self.now sides at.now self.now.places steps.new }
    {
        let (columns, places) = (self.columns, self.places);
        let (mut u, mut v) = ([0; 289], [0; 289]);
        at.ways_on(sides, places - 1, 1, &mut u);
        at.ways_on(sides, places - columns, columns, &mut v);
        for place in 0..places {
            steps[place] = self.step(sides, at, &u, &v, place);
        }
    }

    // The step at a place, by the ways from each place to the next and to the one a row further.
    #[inline(always)]
    fn step(&self, sides: Sides, at: &Coordinates, u: &[u32], v: &[u32], place: usize) -> u32
        requires u { AreWays sides at.now (self.now.places - 1) 1 u.now }
        requires v { AreWays sides at.now (self.now.places - self.now.columns) self.now.columns v.now }
        requires u_long { self.now.places ≤ length u.now }
        requires v_long { self.now.places ≤ length v.now }
        requires place { place < self.now.places }
        ensures { IsStep self.now sides at.now place result }
    {
        u[self.earlier_u(place)].max(v[self.earlier_v(place)])
    }

    // A look-up at a place in a texture that is there.
    #[inline(always)]
    fn look<T: Textures>(&self, textures: &mut T, which: u32, of: &Stepped, place: usize) -> Vec3
        requires there { which < length (T.images textures.old) }
        requires stepped { AreStepped self.now of.now }
        requires place { place < self.now.places }
        ensures value { IsLooked self.now (T.images textures.old) which of.now place result }
        ensures same { T.images textures.new ≡ T.images textures.old }
    {
        let step = of.step(place);
        let s = number_at(of.at.s, place);
        let t = number_at(of.at.t, place);
        textures.colour(which, step, s, t)
    }
}

// Black at the first places of a row.
fn blacken(count: usize, row: &mut Bank)
    requires { (s : AnyShape) → count ≤ size row.old s }
    ensures size { (s : AnyShape) → size row.new s ≡ size row.old s }
    ensures each { (ts : List (Bor (List ℕ))) → HoldsEach ts row.new count (λ i. values.Triple origin) }
{
    for place in 0..count {
        row.set(place, &Cell::Triple(Vec3::default()));
    }
}

impl Registers<'_> {
    // An operand's numbers at the places of the grid.
    fn spread(&self, of: Operand, row: &mut [Raw])
        requires fits { OperandIn self.now of }
        requires room { self.now.frame.now.places ≤ length row.old }
        ensures room { length row.new ≡ length row.old }
        ensures each { (i : ℕ) → i < self.now.frame.now.places → get_or row.new i (pos 0) ≡ operand_number self.now of i }
    {
        copy(&self.numbers(of), &mut row[..self.frame.places]);
    }

    // Looks a texture that is there up at the first places of a row.
    fn fill_looks<T: Textures>(
        &self,
        textures: &mut T,
        which: u32,
        of: Placed,
        count: usize,
        row: &mut Bank,
    )
        requires there { which < length (T.images textures.old) }
        requires fits { PlacedIn self.now of }
        requires count { count ≤ self.now.frame.now.places }
        requires room { (s : AnyShape) → count ≤ size row.old s }
        ensures size { (s : AnyShape) → size row.new s ≡ size row.old s }
        ensures each { HoldsEach (texts_of self.now) row.new count (numbered_look self.now.frame.now (T.images textures.old) which (operand_number self.now of.s) (operand_number self.now of.t)) }
        ensures same { T.images textures.new ≡ T.images textures.old }
    {
        let sides = Sides::new(textures.width(which), textures.height(which));
        let zeros = [Raw::zero(); 289];
        let (mut s, mut t, mut steps) = (zeros, zeros, [0; 289]);
        self.spread(of.s, &mut s);
        self.spread(of.t, &mut t);
        let at = Coordinates { s: &s, t: &t };
        self.frame.steps(sides, &at, &mut steps);
        let of = Stepped {
            sides,
            at,
            steps: &steps,
        };
        for place in 0..count {
            let colour = self.frame.look(textures, which, &of, place);
            row.set(place, &Cell::Triple(colour));
        }
    }

    // The same, or black where there is no texture of that number.
    fn fill_named<T: Textures>(
        &self,
        textures: &mut T,
        which: u32,
        of: Placed,
        count: usize,
        row: &mut Bank,
    )
        requires fits { PlacedIn self.now of }
        requires count { count ≤ self.now.frame.now.places }
        requires room { (s : AnyShape) → count ≤ size row.old s }
        ensures size { (s : AnyShape) → size row.new s ≡ size row.old s }
        ensures each { HoldsEach (texts_of self.now) row.new count (numbered_look self.now.frame.now (T.images textures.old) which (operand_number self.now of.s) (operand_number self.now of.t)) }
        ensures same { T.images textures.new ≡ T.images textures.old }
    {
        if (which as usize) < textures.count() {
            self.fill_looks(textures, which, of, count, row);
        } else {
            blacken(count, row);
        }
    }

    /// Looks up the texture that a node names at the first places of a row.
    pub fn fill_look_ups<T: Textures>(
        &self,
        textures: &mut T,
        node: u32,
        of: Placed,
        count: usize,
        row: &mut Bank,
    )
        requires fits { PlacedIn self.now of }
        requires count { count ≤ self.now.frame.now.places }
        requires room { (s : AnyShape) → count ≤ size row.old s }
        ensures size { (s : AnyShape) → size row.new s ≡ size row.old s }
        ensures each { HoldsEach (texts_of self.now) row.new count (look_up_of self.now.frame.now (T.images textures.old) node (operand_number self.now of.s) (operand_number self.now of.t)) }
        ensures same { T.images textures.new ≡ T.images textures.old }
    {
        match self.frame.entry(node) {
            Some(which) => self.fill_named(textures, which, of, count, row),
            None => blacken(count, row),
        }
    }
}
