// Rows of raws, as code takes them.
ghost use Rattle.std.specs.Prelude.{◌≡◌, ℕ, ◌≤◌, ◌<◌, ◌++◌, [], pos, length, get_or, take, map, replicate, IfOk};
ghost use Rattle.fixed_math.specs.declared.vec3.Axis.TheVariants as axes;
ghost use Rattle.fixed_math.specs.Axes.{part_of};
ghost use Rattle.sl_ast.specs.declared.typed.Value.TheVariants as values;
ghost use Rattle.place_rows.specs.Layout.{row_length};
ghost use Rattle.grid_rows.specs.Rows.{row_of, triple_rows, value_rows, AreRaws, IsRoom, BeginsWith};

use bumpalo::Bump;
use bumpalo::collections::into_bump_slice;
use fixed_math::{NoMemory, Num, Vec3};
use sl_ast::Value;
use std::marker::Model;

/// Rows of raws in an arena, one behind another, and room in which three of them are written. Contracts see them as the list of the raws.
#[derive(Drop)]
pub(crate) struct Rows<'a> {
    raws: Vec<i64, &'a Bump>,
    zeros: Vec<i64, &'a Bump>,
    x: Vec<i64, &'a Bump>,
    y: Vec<i64, &'a Bump>,
    z: Vec<i64, &'a Bump>,
}

impl<'a> Model for Rows<'a> {
    ghost use Rattle.std.specs.Prelude.{ℤ, List, replicate, pos, ◌≡◌};
    ghost use Rattle.grid_rows.specs.Rows.{AreRaws, IsRoom};

    ghost Value = { List ℤ };

    ghost view = { λ r. r.raws.items };

    ghost invariant = { λ r. AreRaws r.raws.items × r.zeros.items ≡ replicate 296 (pos 0) × IsRoom r.x.items × IsRoom r.y.items × IsRoom r.z.items };
}

/// Room for a row. It is cleared in two halves, for which no instruction has to go through memory byte by byte.
fn room<'a>(arena: &'a Bump) -> Result<Vec<i64, &'a Bump>, NoMemory>
    ensures { IfOk result (λ row. row.items ≡ replicate 296 (pos 0)) }
{
    let zeros = [0; 148];
    let mut row = Vec::with_capacity(arena, 296)?;
    row.extend_from_slice(&zeros)?;
    row.extend_from_slice(&zeros)?;
    Ok(row)
}

impl<'a> Rows<'a> {
    /// No rows, with room for so many numbers.
    pub(crate) fn new(arena: &'a Bump, count: usize) -> Result<Rows<'a>, NoMemory>
        ensures { IfOk result (λ rows. rows ≡ []) }
    {
        let raws = Vec::with_capacity(arena, count)?;
        let zeros = room(arena)?;
        let x = room(arena)?;
        let y = room(arena)?;
        let z = room(arena)?;
        Ok(Rows {
            raws,
            zeros,
            x,
            y,
            z,
        })
    }

    /// The raws, which stay in the arena.
    pub(crate) fn kept(self) -> &'a [i64]
        ensures value { result.now ≡ self.entry }
        ensures small { AreRaws result.now }
    {
        into_bump_slice(self.raws)
    }
}

/// How many elements a row of `points` numbers takes: the least multiple of eight.
pub fn length_of_row(points: usize) -> usize
    requires { points ≤ 289 }
    ensures value { result ≡ row_length points }
    ensures from { points ≤ result }
    ensures to { result ≤ 296 }
{
    points.div_ceil(8) * 8
}

// Clears what follows `points` numbers in their row.
fn clear_rest(points: usize, row: &mut [i64])
    requires few { points ≤ 289 }
    requires room { IsRoom row.old }
    ensures zero { (k : ℕ) → points ≤ k → k < row_length points → get_or row.new k (pos 0) ≡ pos 0 }
    ensures room { IsRoom row.new }
{
    for k in points..length_of_row(points) {
        row[k] = 0;
    }
}

// Writes a row of numbers.
fn write_numbers(numbers: &[Num], row: &mut [i64])
    requires few { length numbers.now ≤ 289 }
    requires room { IsRoom row.old }
    ensures row { BeginsWith row.new numbers.now }
    ensures room { IsRoom row.new }
{
    clear_rest(numbers.len(), row);
    for k in 0..numbers.len() {
        row[k] = numbers[k].raw();
    }
}

// Writes a row of the first coordinate of triples.
fn write_firsts(triples: &[Vec3], row: &mut [i64])
    requires few { length triples.now ≤ 289 }
    requires room { IsRoom row.old }
    ensures row { BeginsWith row.new (map (part_of axes.X) triples.now) }
    ensures room { IsRoom row.new }
{
    clear_rest(triples.len(), row);
    for k in 0..triples.len() {
        row[k] = triples[k].x.raw();
    }
}

// Writes the three rows of triples.
fn write_triples(triples: &[Vec3], x: &mut [i64], y: &mut [i64], z: &mut [i64])
    requires few { length triples.now ≤ 289 }
    requires x { IsRoom x.old }
    requires y { IsRoom y.old }
    requires z { IsRoom z.old }
    ensures x { BeginsWith x.new (map (part_of axes.X) triples.now) }
    ensures y { BeginsWith y.new (map (part_of axes.Y) triples.now) }
    ensures z { BeginsWith z.new (map (part_of axes.Z) triples.now) }
    ensures room_x { IsRoom x.new }
    ensures room_y { IsRoom y.new }
    ensures room_z { IsRoom z.new }
{
    clear_rest(triples.len(), x);
    clear_rest(triples.len(), y);
    clear_rest(triples.len(), z);
    for k in 0..triples.len() {
        let triple = triples[k];
        x[k] = triple.x.raw();
        y[k] = triple.y.raw();
        z[k] = triple.z.raw();
    }
}

// Writes a row of one number so many times.
fn write_same(number: Num, points: usize, row: &mut [i64])
    requires few { points ≤ 289 }
    requires room { IsRoom row.old }
    ensures row { BeginsWith row.new (replicate points number) }
    ensures room { IsRoom row.new }
{
    clear_rest(points, row);
    for k in 0..points {
        row[k] = number.raw();
    }
}

// Appends the row of so many numbers.
fn append(raws: &mut Vec<i64, &Bump>, row: &[i64], points: usize) -> Result<(), NoMemory>
    requires few { points ≤ 289 }
    requires raws { AreRaws raws.old.items }
    requires row { IsRoom row.now }
    ensures value { IfOk result (λ _. raws.new.items ≡ raws.old.items ++ take (row_length points) row.now) }
    ensures small { AreRaws raws.new.items }
{
    raws.extend_from_slice(&row[..length_of_row(points)])?;
    Ok(())
}

/// Appends a row of numbers, one for each point.
pub(crate) fn push_numbers(rows: &mut Rows, numbers: &[Num]) -> Result<(), NoMemory>
    requires { length numbers.now ≤ 289 }
    ensures { IfOk result (λ _. rows.new ≡ rows.old ++ row_of numbers.now) }
{
    write_numbers(numbers, &mut rows.x);
    append(&mut rows.raws, &rows.x, numbers.len())
}

/// Appends a row of the first coordinate of triples.
pub(crate) fn push_firsts(rows: &mut Rows, triples: &[Vec3]) -> Result<(), NoMemory>
    requires { length triples.now ≤ 289 }
    ensures { IfOk result (λ _. rows.new ≡ rows.old ++ row_of (map (part_of axes.X) triples.now)) }
{
    write_firsts(triples, &mut rows.x);
    append(&mut rows.raws, &rows.x, triples.len())
}

/// Appends the three rows of triples, one for each point.
pub(crate) fn push_triples(rows: &mut Rows, triples: &[Vec3]) -> Result<(), NoMemory>
    requires { length triples.now ≤ 289 }
    ensures { IfOk result (λ _. rows.new ≡ rows.old ++ triple_rows triples.now) }
{
    write_triples(triples, &mut rows.x, &mut rows.y, &mut rows.z);
    append(&mut rows.raws, &rows.x, triples.len())?;
    append(&mut rows.raws, &rows.y, triples.len())?;
    append(&mut rows.raws, &rows.z, triples.len())
}

/// Appends a row of zeros for so many points.
fn push_zero_row(rows: &mut Rows, points: usize) -> Result<(), NoMemory>
    requires { points ≤ 289 }
    ensures { IfOk result (λ _. rows.new ≡ rows.old ++ row_of (replicate points (pos 0))) }
{
    append(&mut rows.raws, &rows.zeros, points)
}

/// Appends a row of one number at all points.
fn push_same(rows: &mut Rows, number: Num, points: usize) -> Result<(), NoMemory>
    requires { points ≤ 289 }
    ensures { IfOk result (λ _. rows.new ≡ rows.old ++ row_of (replicate points number)) }
{
    if number.raw() == 0 {
        return push_zero_row(rows, points);
    }
    write_same(number, points, &mut rows.x);
    append(&mut rows.raws, &rows.x, points)
}

/// Appends the three rows of one triple at all points.
pub(crate) fn push_triple(rows: &mut Rows, triple: &Vec3, points: usize) -> Result<(), NoMemory>
    requires { points ≤ 289 }
    ensures { IfOk result (λ _. rows.new ≡ rows.old ++ value_rows points (values.Triple triple.now)) }
{
    push_same(rows, triple.x, points)?;
    push_same(rows, triple.y, points)?;
    push_same(rows, triple.z, points)
}

/// Appends the rows of a number or triple that is the same at all points.
pub(crate) fn push_value(rows: &mut Rows, value: &Value, points: usize) -> Result<(), NoMemory>
    requires { points ≤ 289 }
    ensures { IfOk result (λ _. rows.new ≡ rows.old ++ value_rows points value.now) }
{
    match value {
        Value::Number(number) => push_same(rows, *number, points),
        Value::Triple(triple) => push_triple(rows, triple, points),
        Value::Word(_) => Ok(()),
    }
}
