//! The inverse of a matrix of raws, by its adjugate.
ghost use Rattle.std.specs.Prelude.{◌≡◌, ◌≢◌, ◌≤◌, ◌<◌, ◌^◌, ◌*◌, ℕ, ℤ, pos, neg_ℤ, ◌-ℤ◌, ◌*ℤ◌, unsigned_abs};
ghost use Rattle.fixed_math.specs.Whole.{floor_by};
ghost use Rattle.transforms.specs.Matrix.{dot, fitted_row, fitted};
ghost use Rattle.transforms.specs.Concat.{cross, determinant, divided, inverse_row, undone, inverted, number_at, triple, is_affine};

use crate::fault::FormFault;
use crate::matrix::{Matrix, Row, dot, fitted_row};
use fixed_math::{Num, Vec3, Wide, floor_by, floor_div, minus, plus, times};

/// Three exact numbers: the cross product of two rows of raws.
#[derive(Clone, Copy)]
struct Minors {
    x: i128,
    y: i128,
    z: i128,
    ghost x_small: { unsigned_abs x ≤ 2 ^ 63 },
    ghost y_small: { unsigned_abs y ≤ 2 ^ 63 },
    ghost z_small: { unsigned_abs z ≤ 2 ^ 63 },
}

/// The exact number `a * d - b * c`.
fn minor(a: Num, d: Num, b: Num, c: Num) -> i128
    ensures value { result ≡ a *ℤ d -ℤ b *ℤ c }
    ensures bound { unsigned_abs result ≤ 2 ^ 63 }
{
    minus(
        times::<31, 31>(a.raw() as i128, d.raw() as i128),
        times::<31, 31>(b.raw() as i128, c.raw() as i128),
    )
}

#[tactic(auto, unfolding(crate::specs::Concat::cross))]
fn cross(a: &Vec3, b: &Vec3) -> Minors
    ensures x { result.x ≡ (cross a.now b.now).x }
    ensures y { result.y ≡ (cross a.now b.now).y }
    ensures z { result.z ≡ (cross a.now b.now).z }
{
    Minors {
        x: minor(a.y, b.z, a.z, b.y),
        y: minor(a.z, b.x, a.x, b.z),
        z: minor(a.x, b.y, a.y, b.x),
    }
}

/// The exact product of a raw and a minor.
fn term(a: Num, m: i128) -> i128
    requires { unsigned_abs m ≤ 2 ^ 63 }
    ensures value { result ≡ a *ℤ m }
    ensures bound { unsigned_abs result ≤ 2 ^ 94 }
{
    times::<31, 63>(a.raw() as i128, m)
}

/// The exact determinant of three rows of raws.
#[tactic(auto, unfolding(crate::specs::Concat::determinant))]
pub fn determinant(a: &Vec3, b: &Vec3, c: &Vec3) -> i128
    ensures value { result ≡ determinant a.now b.now c.now }
    ensures bound { unsigned_abs result ≤ 2 ^ 96 }
{
    let n = cross(b, c);
    plus(plus(term(a.x, n.x), term(a.y, n.y)), term(a.z, n.z))
}

/// An entry of the inverse, from one of the adjugate.
#[tactic(auto, unfolding(crate::specs::Concat::divided))]
fn divided(n: i128, d: i128) -> i128
    requires entry { unsigned_abs n ≤ 2 ^ 63 }
    requires nonzero { d ≢ pos 0 }
    requires determinant { unsigned_abs d ≤ 2 ^ 96 }
    ensures { result ≡ divided n d }
{
    floor_div(times::<63, 40>(n, 1 << 40), d)
}

/// A row of the inverse, from one of the adjugate, where it is in range.
#[tactic(auto, unfolding(crate::specs::Concat::inverse_row))]
fn inverse_row(a: i128, b: i128, c: i128, d: i128) -> Result<Row, FormFault>
    requires a { unsigned_abs a ≤ 2 ^ 63 }
    requires b { unsigned_abs b ≤ 2 ^ 63 }
    requires c { unsigned_abs c ≤ 2 ^ 63 }
    requires nonzero { d ≢ pos 0 }
    requires determinant { unsigned_abs d ≤ 2 ^ 96 }
    ensures { result ≡ fitted_row (inverse_row a b c d) }
{
    fitted_row(divided(a, d), divided(b, d), divided(c, d))
}

/// The part of a shift that undoes another, along one axis.
fn undone(t: &Row, x: Wide, y: Wide, z: Wide) -> i128
    ensures { result ≡ floor_by (neg_ℤ (dot t.now.x t.now.y t.now.z x y z)) 16777216 }
{
    floor_by(-dot(t, x, y, z), 1 << 24)
}

/// The shift that undoes `t` under three rows, where it is in range.
#[tactic(auto, unfolding(crate::specs::Concat::undone))]
fn shift_back(t: &Row, x: &Row, y: &Row, z: &Row) -> Result<Row, FormFault>
    ensures { result ≡ fitted_row (undone t.now x.now y.now z.now) }
{
    fitted_row(
        undone(t, x.x, y.x, z.x),
        undone(t, x.y, y.y, z.y),
        undone(t, x.z, y.z, z.z),
    )
}

/// The inverse of the rows `a`, `b`, `c` and the shift `t`, where it is in range. Its rows are looked at before its
/// shift is made, so that the shift is made of entries in range.
#[tactic(auto, unfolding(crate::specs::Concat::inverted))]
pub fn inverted(a: &Vec3, b: &Vec3, c: &Vec3, t: &Row) -> Result<Matrix, FormFault>
    requires { determinant a.now b.now c.now ≢ pos 0 }
    ensures { result ≡ fitted (inverted a.now b.now c.now t.now) }
{
    let d = determinant(a, b, c);
    let p = cross(b, c);
    let q = cross(c, a);
    let r = cross(a, b);
    let x = inverse_row(p.x, q.x, r.x, d)?;
    let y = inverse_row(p.y, q.y, r.y, d)?;
    let z = inverse_row(p.z, q.z, r.z, d)?;
    let shift = shift_back(t, &x, &y, &z)?;
    Ok(Matrix { x, y, z, shift })
}

/// The number of a row and a column.
fn number_at(m: &[Num; 16], row: usize, column: usize) -> Num
    requires row { row < 4 }
    requires column { column < 4 }
    ensures { result ≡ number_at m.now row column }
{
    m[4 * row + column]
}

/// The first three numbers of a row.
pub fn triple(m: &[Num; 16], row: usize) -> Vec3
    requires { row < 4 }
    ensures { result ≡ triple m.now row }
{
    Vec3 {
        x: number_at(m, row, 0),
        y: number_at(m, row, 1),
        z: number_at(m, row, 2),
    }
}

/// Whether the fourth column is 0, 0, 0, 1.
pub fn is_affine(m: &[Num; 16]) -> bool
    ensures { result ≡ is_affine m.now }
{
    number_at(m, 0, 3).raw() == 0
        && number_at(m, 1, 3).raw() == 0
        && number_at(m, 2, 3).raw() == 0
        && number_at(m, 3, 3).raw() == 65536
}
