//! Matrices of an affine map: rows act from the left, so a row is the image of an axis.
ghost use Rattle.std.specs.Prelude.{◌≡◌, ◌≤◌, ◌^◌, ℤ, pos, ◌+ℤ◌, ◌*ℤ◌, unsigned_abs, cond, Ok, Err, true};
ghost use Rattle.fixed_math.specs.Whole.{floor_by};
ghost use Rattle.transforms.specs.Matrix.{dot, fitted_entry, fitted_row, fitted, row_product, shift_product, product, widened, is_row, is_matrix};

use crate::fault::FormFault;
use fixed_math::{Num, Wide, floor_by, plus, times};

/// Three entries.
#[derive(Clone, Copy)]
pub struct Row {
    pub x: Wide,
    pub y: Wide,
    pub z: Wide,
}

/// The images of the three axes, and what is added to each point.
#[derive(Clone, Copy)]
pub struct Matrix {
    pub x: Row,
    pub y: Row,
    pub z: Row,
    pub shift: Row,
}

/// A raw at 24 fraction bits.
pub fn widened(x: Num) -> Wide
    ensures value { result ≡ widened x }
    ensures small { unsigned_abs x ≤ 2147483647 }
{
    Wide::from_raw(x.raw() * 256)
}

/// The exact product of two entries.
fn times_entry(a: Wide, b: Wide) -> i128
    ensures value { result ≡ a *ℤ b }
    ensures bound { unsigned_abs result ≤ 2 ^ 94 }
{
    times::<47, 47>(a.raw() as i128, b.raw() as i128)
}

/// The exact sum of three products of entries.
pub fn dot(a: &Row, x: Wide, y: Wide, z: Wide) -> i128
    ensures value { result ≡ dot a.now.x a.now.y a.now.z x y z }
    ensures bound { unsigned_abs result ≤ 2 ^ 96 }
{
    plus(
        plus(times_entry(a.x, x), times_entry(a.y, y)),
        times_entry(a.z, z),
    )
}

/// The entry of an exact number, where it is in range.
fn fitted_entry(x: i128) -> Result<Wide, FormFault>
    ensures { result ≡ fitted_entry x }
{
    const LIMIT: i128 = 1 << 47;
    if x < -LIMIT || LIMIT < x {
        return Err(FormFault::G2);
    }
    Ok(Wide::from_raw(x as i64))
}

/// The row of three exact numbers, where they are in range.
pub fn fitted_row(x: i128, y: i128, z: i128) -> Result<Row, FormFault>
    ensures { result ≡ fitted_row (record { x = x; y = y; z = z }) }
{
    Ok(Row {
        x: fitted_entry(x)?,
        y: fitted_entry(y)?,
        z: fitted_entry(z)?,
    })
}

/// An entry of a product.
fn part(a: &Row, x: Wide, y: Wide, z: Wide) -> i128
    ensures value { result ≡ floor_by (dot a.now.x a.now.y a.now.z x y z) 16777216 }
    ensures bound { unsigned_abs result ≤ 2 ^ 96 }
{
    floor_by(dot(a, x, y, z), 1 << 24)
}

/// An entry of a product's shift.
fn moved(a: &Row, x: Wide, y: Wide, z: Wide, shift: Wide) -> i128
    ensures { result ≡ floor_by (dot a.now.x a.now.y a.now.z x y z) 16777216 +ℤ shift }
{
    plus(part(a, x, y, z), shift.raw() as i128)
}

#[tactic(auto, unfolding(crate::specs::Matrix::row_product))]
fn row_product(a: &Row, b: &Matrix) -> Result<Row, FormFault>
    ensures { result ≡ fitted_row (row_product a.now b.now) }
{
    fitted_row(
        part(a, b.x.x, b.y.x, b.z.x),
        part(a, b.x.y, b.y.y, b.z.y),
        part(a, b.x.z, b.y.z, b.z.z),
    )
}

#[tactic(auto, unfolding(crate::specs::Matrix::shift_product))]
fn shift_product(a: &Row, b: &Matrix) -> Result<Row, FormFault>
    ensures { result ≡ fitted_row (shift_product a.now b.now) }
{
    fitted_row(
        moved(a, b.x.x, b.y.x, b.z.x, b.shift.x),
        moved(a, b.x.y, b.y.y, b.z.y, b.shift.y),
        moved(a, b.x.z, b.y.z, b.z.z, b.shift.z),
    )
}

impl Row {
    /// Does nothing: a call tells a proof that the row's entries are in range.
    fn recall(&self)
        ensures { is_row self.now ≡ true }
    {
        let _entries = (self.x.raw(), self.y.raw(), self.z.raw());
    }
}

impl Matrix {
    /// Does nothing: a call tells a proof that the entries are in range.
    pub fn recall(&self)
        ensures { is_matrix self.now ≡ true }
    {
        self.x.recall();
        self.y.recall();
        self.z.recall();
        self.shift.recall();
    }

    /// The map that does `self` and then `next`, where its entries are in range.
    pub fn then(&self, next: &Matrix) -> Result<Matrix, FormFault>
        ensures { result ≡ fitted (product self.now next.now) }
    {
        Ok(Matrix {
            x: row_product(&self.x, next)?,
            y: row_product(&self.y, next)?,
            z: row_product(&self.z, next)?,
            shift: shift_product(&self.shift, next)?,
        })
    }
}
