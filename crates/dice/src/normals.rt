// The normals of a diced grid.
ghost use Rattle.std.specs.Prelude.{◌≡◌, ◌≤◌, ◌<◌, ◌*◌, ◌+◌, ◌^◌, ℕ, pos, true, ◌*ℤ◌, ◌-ℤ◌, List, ◌++◌, length, map, unsigned_abs, slice_index_or, IfOk, IfSome};
ghost use Rattle.std.specs.List.{range_with_len};
ghost use Rattle.fixed_math.specs.Fixed.{IsRaw};
ghost use Rattle.patches.specs.Curves.{IsCurve};
ghost use Rattle.patches.specs.Slopes.{AreBelow};
ghost use Rattle.dice.specs.Grids.{line_count, line_at, lines, row_points, diced_points};
ghost use Rattle.dice.specs.Normals.{item, cross as cross_of, direction, normal, AreShort, AreNarrow};

use crate::grid::{line_at, lines_along};
use fixed_math::{NoMemory, Num, Vec3, minus, times, unit};
use lanes::direction::unit as unit_narrow;
use lanes::wide::unit_wide;
use patches::{Curve, Dyadic, Piece, Surface};
use std::alloc::Allocator;

/// One number of a cross product: `a * d - b * c`.
fn minor(a: i64, b: i64, c: i64, d: i64) -> i128
    requires small_a { unsigned_abs a ≤ 2 ^ 40 }
    requires small_b { unsigned_abs b ≤ 2 ^ 40 }
    requires small_c { unsigned_abs c ≤ 2 ^ 40 }
    requires small_d { unsigned_abs d ≤ 2 ^ 40 }
    ensures value { result ≡ a *ℤ d -ℤ b *ℤ c }
    ensures bound { unsigned_abs result ≤ 2 ^ 81 }
{
    let first = times::<40, 40>(a as i128, d as i128);
    let second = times::<40, 40>(b as i128, c as i128);
    minus(first, second)
}

/// The exact cross product.
fn cross(a: [i64; 3], b: [i64; 3]) -> [i128; 3]
    requires small_a { AreBelow (2 ^ 40) a }
    requires small_b { AreBelow (2 ^ 40) b }
    ensures value { result ≡ cross_of a b }
    ensures small { (i : ℕ) → i < 3 → unsigned_abs (slice_index_or result i (pos 0)) < 2 ^ 100 }
{
    let x = minor(a[1], a[2], b[1], b[2]);
    let y = minor(a[2], a[0], b[2], b[0]);
    let z = minor(a[0], a[1], b[0], b[1]);
    [x, y, z]
}

/// The same number of a cross product of short vectors.
fn short_minor(a: i64, b: i64, c: i64, d: i64) -> i64
    requires small_a { unsigned_abs a ≤ 2 ^ 22 }
    requires small_b { unsigned_abs b ≤ 2 ^ 22 }
    requires small_c { unsigned_abs c ≤ 2 ^ 22 }
    requires small_d { unsigned_abs d ≤ 2 ^ 22 }
    ensures value { result ≡ a *ℤ d -ℤ b *ℤ c }
    ensures bound { unsigned_abs result < 2 ^ 46 }
{
    a * d - b * c
}

/// The exact cross product of short vectors.
fn short_cross(a: [i64; 3], b: [i64; 3]) -> [i64; 3]
    requires short_a { AreShort a }
    requires short_b { AreShort b }
    ensures value { result ≡ cross_of a b }
    ensures small { (i : ℕ) → i < 3 → unsigned_abs (item result i) < 2 ^ 46 }
{
    let x = short_minor(a[1], a[2], b[1], b[2]);
    let y = short_minor(a[2], a[0], b[2], b[0]);
    let z = short_minor(a[0], a[1], b[0], b[1]);
    [x, y, z]
}

fn number(x: i32) -> Num
    requires { IsRaw x }
    ensures { result ≡ x }
{
    Num::sat(x as i128)
}

/// The unit vector in the direction of three numbers of 31 bits.
fn narrow_unit(c: [i64; 3]) -> Vec3
    requires { AreNarrow c }
    ensures { result ≡ direction c }
{
    let u = unit_narrow(c[0] as i32, c[1] as i32, c[2] as i32);
    Vec3 {
        x: number(u.x),
        y: number(u.y),
        z: number(u.z),
    }
}

/// The unit vector in the direction of three numbers of 46 bits.
fn long_unit(c: [i64; 3]) -> Vec3
    requires { (i : ℕ) → i < 3 → unsigned_abs (item c i) < 2 ^ 46 }
    ensures { result ≡ direction c }
{
    let u = unit_wide(c[0], c[1], c[2]);
    Vec3 {
        x: number(u.x),
        y: number(u.y),
        z: number(u.z),
    }
}

/// Whether each number of a vector has less than 32 bits.
fn is_narrow(a: [i64; 3]) -> bool
    ensures { result ≡ true → AreNarrow a }
{
    a[0].unsigned_abs() < 2147483648
        && a[1].unsigned_abs() < 2147483648
        && a[2].unsigned_abs() < 2147483648
}

/// The unit vector in the direction of three numbers of 46 bits: those of small patches have 31.
fn short_unit(c: [i64; 3]) -> Vec3
    requires { (i : ℕ) → i < 3 → unsigned_abs (item c i) < 2 ^ 46 }
    ensures { result ≡ direction c }
{
    if is_narrow(c) {
        return narrow_unit(c);
    }
    long_unit(c)
}

/// Whether each number of a vector has at most 22 bits.
fn is_short(a: [i64; 3]) -> bool
    ensures { result ≡ true → AreShort a }
{
    a[0].unsigned_abs() <= 4194304
        && a[1].unsigned_abs() <= 4194304
        && a[2].unsigned_abs() <= 4194304
}

/// The unit vector in the direction of the cross product: of short vectors, as most are, without numbers of 128 bits.
fn cross_direction(a: [i64; 3], b: [i64; 3]) -> Vec3
    requires small_a { AreBelow (2 ^ 40) a }
    requires small_b { AreBelow (2 ^ 40) b }
    ensures { result ≡ direction (cross_of a b) }
{
    if !is_short(a) {
        return wide_unit(cross(a, b));
    }
    if !is_short(b) {
        return wide_unit(cross(a, b));
    }
    short_unit(short_cross(a, b))
}

/// The unit vector in the direction of three numbers.
fn wide_unit(c: [i128; 3]) -> Vec3
    requires { (i : ℕ) → i < 3 → unsigned_abs (slice_index_or c i (pos 0)) < 2 ^ 100 }
    ensures { result ≡ direction c }
{
    unit(c)
}

/// The unit normal of the surface at `u` and `v` by its derivatives, those along the curve at `v` where there is one.
fn normal_on<S: Surface>(curve: &Option<Curve>, s: &S, u: Dyadic, v: Dyadic) -> Vec3
    requires { IfSome curve.now (λ curve. IsCurve curve (λ u. S.point_of s.now u v) (λ u. S.du_of s.now u v) (λ u. S.dv_of s.now u v)) }
    ensures { result ≡ normal (S.du_of s.now) (S.dv_of s.now) u v }
{
    let (across, up) = match curve {
        Some(curve) => (curve.du(u), curve.dv(u)),
        None => (s.du_at(u, v), s.dv_at(u, v)),
    };
    cross_direction(across, up)
}

/// Appends the normals of the row of the grid at `v`.
fn push_normals<S: Surface, A: Allocator>(
    normals: &mut Vec<Vec3, A>,
    s: &S,
    piece: &Piece,
    p: u8,
    v: Dyadic,
) -> Result<(), NoMemory>
    requires cells { p ≤ 4 }
    ensures { IfOk result (λ _. normals.new.items ≡ normals.old.items ++ row_points (normal (S.du_of s.now) (S.dv_of s.now)) v (lines piece.now.a piece.now.i p)) }
{
    let curve = s.curve_at(v);
    let cells: u16 = 1 << p;
    for k in 0..cells + 1 {
        let u = line_at(piece.a, piece.i, p, k);
        normals.push(normal_on(&curve, s, u, v))?;
    }
    Ok(())
}

/// The normals of a diced grid, by rows.
pub(crate) fn collect_normals<S: Surface, A: Allocator>(
    alloc: A,
    s: &S,
    piece: &Piece,
    p: u8,
    q: u8,
) -> Result<Vec<Vec3, A>, NoMemory>
    requires columns { p ≤ 4 }
    requires rows { q ≤ 4 }
    ensures value { IfOk result (λ normals. normals.items ≡ diced_points (normal (S.du_of s.now) (S.dv_of s.now)) piece.now p q) }
    ensures count { IfOk result (λ normals. length normals.items ≡ line_count p * line_count q) }
{
    let mut normals = Vec::with_capacity(alloc, lines_along(p) * lines_along(q))?;
    let cells: u16 = 1 << q;
    for l in 0..cells + 1 {
        let v = line_at(piece.b, piece.j, q, l);
        push_normals(&mut normals, s, piece, p, v)?;
    }
    Ok(normals)
}
