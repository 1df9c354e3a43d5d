// Values of registers by shape, read and stored.
ghost use Rattle.std.specs.Prelude.{◌≡◌, ℕ, ◌+◌, ◌*◌, ◌&&◌, ◌==◌, ◌<◌, ◌≤◌, ℤ, cond, true, false, pos, length, get_or, IfOk};
ghost use Rattle.builtins.specs.declared.shape.Shape.{Shape as AnyShape};
ghost use Rattle.builtins.specs.declared.shape.Shape.TheVariants as shapes;
ghost use Rattle.grid_code.specs.Masked.{same_shape};
ghost use Rattle.place_rows.specs.Banks.{size, held, of_shape, shape_of_cell, zero_cell, IsStored, IsRowStored};

use crate::bank::Bank;
use crate::mask::both;
use builtins::Shape;
use bumpalo::Bump;
use fixed_math::{NoMemory, Vec3};
use number_rows::{Raw, blend as blend_numbers, fill};
use place_values::Cell;

fn chosen<T: Copy>(taken: bool, a: T, b: T) -> T
    ensures { result ≡ cond taken a b }
{
    if taken { a } else { b }
}

// A row takes another one's elements at the places that are live.
fn blend<T: Copy>(target: &mut [T], live: &[bool], row: &[T])
    requires live { length row.now ≤ length live.now }
    requires long { length target.old ≡ length row.now }
    ensures long { length target.new ≡ length target.old }
    ensures each { (d : T) (j : ℕ) → j < length row.now → get_or target.new j d ≡ cond (get_or live.now j false) (get_or row.now j d) (get_or target.old j d) }
{
    for i in 0..row.len() {
        target[i] = chosen(live[i], row[i], target[i]);
    }
}

// The same where all places may be known to be live.
fn store_in<T: Copy>(target: &mut [T], all: bool, live: &[bool], row: &[T])
    requires live { length row.now ≤ length live.now }
    requires all { all ≡ true → (i : ℕ) → i < length row.now → get_or live.now i false ≡ true }
    requires long { length target.old ≡ length row.now }
    ensures long { length target.new ≡ length target.old }
    ensures each { (d : T) (j : ℕ) → j < length row.now → get_or target.new j d ≡ cond (get_or live.now j false) (get_or row.now j d) (get_or target.old j d) }
{
    if all {
        target.copy_from_slice(row);
    } else {
        blend(target, live, row);
    }
}

// Writes a row into the row of a register, at the places that are live, all of which may be known to be.
fn store_row<T: Copy>(rows: &mut [T], register: usize, all: bool, live: &[bool], row: &[T])
    requires live { length row.now ≤ length live.now }
    requires all { all ≡ true → (i : ℕ) → i < length row.now → get_or live.now i false ≡ true }
    requires fits { register * length row.now + length row.now ≤ length rows.old }
    ensures long { length rows.new ≡ length rows.old }
    ensures each { IsRowStored T register live.now row.now rows.old rows.new }
{
    let start = register * row.len();
    store_in(&mut rows[start..start + row.len()], all, live, row);
}

// A row of numbers takes another one's at the places that are live, all of which may be known to be.
fn store_numbers_in(target: &mut [Raw], all: bool, live: &[bool], row: &[Raw])
    requires live { length row.now ≤ length live.now }
    requires all { all ≡ true → (i : ℕ) → i < length row.now → get_or live.now i false ≡ true }
    requires long { length target.old ≡ length row.now }
    ensures long { length target.new ≡ length target.old }
    ensures each { (d : ℤ) (j : ℕ) → j < length row.now → get_or target.new j d ≡ cond (get_or live.now j false) (get_or row.now j d) (get_or target.old j d) }
{
    if all {
        target.copy_from_slice(row);
    } else {
        blend_numbers(live, row, target);
    }
}

// Writes a row of numbers into the row of a register, at the places that are live, all of which may be known to be.
fn store_numbers(rows: &mut [Raw], register: usize, all: bool, live: &[bool], row: &[Raw])
    requires live { length row.now ≤ length live.now }
    requires all { all ≡ true → (i : ℕ) → i < length row.now → get_or live.now i false ≡ true }
    requires fits { register * length row.now + length row.now ≤ length rows.old }
    ensures long { length rows.new ≡ length rows.old }
    ensures each { IsRowStored ℤ register live.now row.now rows.old rows.new }
{
    let start = register * row.len();
    store_numbers_in(&mut rows[start..start + row.len()], all, live, row);
}

// Whether the first places are all live.
fn are_live(live: &[bool], count: usize) -> bool
    requires { count ≤ length live.now }
    ensures { result ≡ true → (i : ℕ) → i < count → get_or live.now i false ≡ true }
{
    let mut all = true;
    for i in 0..count {
        all = both(all, live[i]);
    }
    all
}

// How many values of a shape a bank has.
fn length_of(row: &Bank, shape: Shape) -> usize
    ensures { result ≡ size row.now shape }
{
    match shape {
        Shape::Number => row.numbers.len(),
        Shape::Triple => row.xs.len(),
        Shape::Word => row.words.len(),
    }
}

// Makes the elements from one to below another that one.
fn make_between<T: Copy>(row: &mut [T], from: usize, to: usize, value: T)
    requires order { from ≤ to }
    requires within { to ≤ length row.old }
    ensures long { length row.new ≡ length row.old }
    ensures before { (d : T) (i : ℕ) → i < from → get_or row.new i d ≡ get_or row.old i d }
    ensures each { (d : T) (i : ℕ) → from ≤ i → i < to → get_or row.new i d ≡ value }
{
    for n in from..to {
        row[n] = value;
    }
}

// Makes the first elements that one, a kilobyte at a time: what fills longer memory in one go takes some time to begin.
fn make_first<T: Copy>(row: &mut [T], count: usize, value: T)
    requires { count ≤ length row.old }
    ensures long { length row.new ≡ length row.old }
    ensures each { (d : T) (i : ℕ) → i < count → get_or row.new i d ≡ value }
{
    let mut from = 0;
    while from < count {
        let to = from + (count - from).min(256);
        make_between(row, from, to, value);
        from = to;
    }
}

fn fill_words(word: usize, words: &mut [usize])
    ensures long { length words.new ≡ length words.old }
    ensures each { (k : ℕ) → k < length words.old → get_or words.new k 0 ≡ word }
{
    for k in 0..words.len() {
        words[k] = word;
    }
}

// So many zeros. They are put a kilobyte at a time, for which no instruction has to go through memory byte by byte.
fn zero_row<'a>(arena: &'a Bump, count: usize) -> Result<Vec<Raw, &'a Bump>, NoMemory>
    ensures long { IfOk result (λ v. length v.items ≡ count) }
    ensures zero { IfOk result (λ v. (k : ℕ) → get_or v.items k (pos 0) ≡ pos 0) }
{
    let zeros = [Raw::zero(); 256];
    let mut row = Vec::with_capacity(arena, count)?;
    for _ in 0..count / 256 {
        row.extend_from_slice(&zeros)?;
    }
    row.extend_from_slice(&zeros[..count % 256])?;
    Ok(row)
}

// So many empty texts.
fn zero_words<'a>(arena: &'a Bump, count: usize) -> Result<Vec<usize, &'a Bump>, NoMemory>
    ensures long { IfOk result (λ v. length v.items ≡ count) }
    ensures zero { IfOk result (λ v. (k : ℕ) → get_or v.items k 0 ≡ 0) }
{
    let zeros = [0; 128];
    let mut row = Vec::with_capacity(arena, count)?;
    for _ in 0..count / 128 {
        row.extend_from_slice(&zeros)?;
    }
    row.extend_from_slice(&zeros[..count % 128])?;
    Ok(row)
}

impl<'a> Bank<'a> {
    /// A bank of that many values of each shape, or want of memory.
    pub fn zeros(
        arena: &'a Bump,
        numbers: usize,
        triples: usize,
        words: usize,
    ) -> Result<Bank<'a>, NoMemory>
        ensures numbers { IfOk result (λ b. size b shapes.Number ≡ numbers) }
        ensures triples { IfOk result (λ b. size b shapes.Triple ≡ triples) }
        ensures words { IfOk result (λ b. size b shapes.Word ≡ words) }
        ensures zero { IfOk result (λ b. (shape : AnyShape) (k : ℕ) → held b shape k ≡ zero_cell shape) }
    {
        Ok(Bank {
            numbers: zero_row(arena, numbers)?,
            xs: zero_row(arena, triples)?,
            ys: zero_row(arena, triples)?,
            zs: zero_row(arena, triples)?,
            words: zero_words(arena, words)?,
        })
    }
}

impl Bank<'_> {
    /// The value at a place.
    pub fn get(&self, shape: Shape, at: usize) -> Cell
        requires { at < size self.now shape }
        ensures { result ≡ held self.now shape at }
    {
        match shape {
            Shape::Number => Cell::Number(self.numbers[at].number()),
            Shape::Triple => Cell::Triple(Vec3 {
                x: self.xs[at].number(),
                y: self.ys[at].number(),
                z: self.zs[at].number(),
            }),
            Shape::Word => Cell::Word(self.words[at]),
        }
    }

    /// Sets the value at a place to one of its shape.
    pub fn set(&mut self, at: usize, cell: &Cell)
        requires at { at < size self.old (shape_of_cell cell.now) }
        ensures size { (t : AnyShape) → size self.new t ≡ size self.old t }
        ensures value { (t : AnyShape) (k : ℕ) → held self.new t k ≡ cond (same_shape t (shape_of_cell cell.now) && k == at) cell.now (held self.old t k) }
    {
        match cell {
            Cell::Number(x) => self.numbers[at] = Raw::of(*x),
            Cell::Triple(t) => {
                self.xs[at] = Raw::of(t.x);
                self.ys[at] = Raw::of(t.y);
                self.zs[at] = Raw::of(t.z);
            }
            Cell::Word(w) => self.words[at] = *w,
        }
    }

    /// Makes all values of a cell's shape that cell.
    pub fn fill(&mut self, cell: &Cell)
        ensures size { (t : AnyShape) → size self.new t ≡ size self.old t }
        ensures value { (k : ℕ) → k < size self.old (shape_of_cell cell.now) → held self.new (shape_of_cell cell.now) k ≡ cell.now }
    {
        match cell {
            Cell::Number(x) => fill(Raw::of(*x), &mut self.numbers),
            Cell::Triple(t) => {
                fill(Raw::of(t.x), &mut self.xs);
                fill(Raw::of(t.y), &mut self.ys);
                fill(Raw::of(t.z), &mut self.zs);
            }
            Cell::Word(w) => fill_words(*w, &mut self.words),
        }
    }

    /// Writes the row of that shape into the row of a register, at the places that are live.
    pub fn store(&mut self, shape: Shape, register: usize, live: &[bool], row: &Bank)
        requires live { size row.now shape ≤ length live.now }
        requires fits { register * size row.now shape + size row.now shape ≤ size self.old shape }
        ensures size { (t : AnyShape) → size self.new t ≡ size self.old t }
        ensures value { IsStored (size row.now shape) shape register live.now row.now self.old self.new }
    {
        let all = are_live(live, length_of(row, shape));
        match shape {
            Shape::Number => store_numbers(&mut self.numbers, register, all, live, &row.numbers),
            Shape::Triple => {
                store_numbers(&mut self.xs, register, all, live, &row.xs);
                store_numbers(&mut self.ys, register, all, live, &row.ys);
                store_numbers(&mut self.zs, register, all, live, &row.zs);
            }
            Shape::Word => store_row(&mut self.words, register, all, live, &row.words),
        }
    }

    /// Makes that many first values of each shape 0.
    pub fn clear(&mut self, numbers: usize, triples: usize, words: usize)
        requires numbers { numbers ≤ size self.old shapes.Number }
        requires triples { triples ≤ size self.old shapes.Triple }
        requires words { words ≤ size self.old shapes.Word }
        ensures size { (s : AnyShape) → size self.new s ≡ size self.old s }
        ensures zero { (s : AnyShape) (k : ℕ) → k < of_shape numbers triples words s → held self.new s k ≡ zero_cell s }
    {
        make_first(&mut self.numbers, numbers, Raw::zero());
        make_first(&mut self.xs, triples, Raw::zero());
        make_first(&mut self.ys, triples, Raw::zero());
        make_first(&mut self.zs, triples, Raw::zero());
        make_first(&mut self.words, words, 0);
    }
}
