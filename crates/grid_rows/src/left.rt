// What runs of shaders leave.
ghost use Rattle.std.specs.Prelude.{◌≡◌, ◌≤◌, ◌<◌, ◌+◌, ◌*◌, pos, length, get_or, IfOk};
ghost use Rattle.place_rows.specs.Layout.{row_length};
ghost use Rattle.grid_rows.specs.Rows.{AreRaws, triple_in};
ghost use Rattle.grid_variables.specs.Places.{point_count, over};

use crate::rows::length_of_row;
use bumpalo::Bump;
use bumpalo::collections::into_bump_slice;
use fixed_math::{NoMemory, Num, Vec3};
use grid_variables::Leaf;
use number_rows::Raw;

/// The number at place `k` of rows.
fn number_at(rows: &[i64], k: usize) -> Num
    requires there { k < length rows.now }
    requires small { AreRaws rows.now }
    ensures { result ≡ get_or rows.now k (pos 0) }
{
    Raw::of_raw(rows[k]).number()
}

/// The triple at place `i` in three rows of `width` elements, from row `first` on.
fn triple_at(rows: &[i64], width: usize, first: usize, i: usize) -> Vec3
    requires first { first ≤ 3 }
    requires wide { width ≤ 296 }
    requires place { i < width }
    requires there { (first + 3) * width ≤ length rows.now }
    requires small { AreRaws rows.now }
    ensures { result ≡ triple_in rows.now width first i }
{
    Vec3 {
        x: number_at(rows, first * width + i),
        y: number_at(rows, (first + 1) * width + i),
        z: number_at(rows, (first + 2) * width + i),
    }
}

/// The triples of `points` points in three rows, from row `first` on.
fn triples_from<'a>(
    arena: &'a Bump,
    rows: &[i64],
    first: usize,
    points: usize,
) -> Result<&'a [Vec3], NoMemory>
    requires first { first ≤ 3 }
    requires few { points ≤ 289 }
    requires there { (first + 3) * row_length points ≤ length rows.now }
    requires small { AreRaws rows.now }
    ensures { IfOk result (λ ts. ts.now ≡ over points (triple_in rows.now (row_length points) first)) }
{
    let width = length_of_row(points);
    let mut triples = Vec::with_capacity(arena, points)?;
    for i in 0..points {
        triples.push(triple_at(rows, width, first, i))?;
    }
    Ok(into_bump_slice(triples))
}

/// The triples that a run leaves for the points of a leaf, in three rows from row `first` on.
pub fn triples_left<'a>(
    arena: &'a Bump,
    leaf: &Leaf,
    rows: &[i64],
    first: usize,
) -> Result<&'a [Vec3], NoMemory>
    requires first { first ≤ 3 }
    requires long { length rows.now ≡ 6 * row_length (point_count leaf.now) }
    requires small { AreRaws rows.now }
    ensures { IfOk result (λ ts. ts.now ≡ over (point_count leaf.now) (triple_in rows.now (row_length (point_count leaf.now)) first)) }
{
    triples_from(arena, rows, first, leaf.point_count())
}
