// The lines of a diced grid and the points on them.
ghost use Rattle.std.specs.Prelude.{◌≡◌, ◌≤◌, ◌<◌, ◌*◌, ◌+◌, ◌^◌, ℕ, List, ◌++◌, length, map, IfOk, IfSome};
ghost use Rattle.std.specs.List.{range_with_len};
ghost use Rattle.patches.specs.Boxes.{IsWithin};
ghost use Rattle.patches.specs.Curves.{IsCurve};
ghost use Rattle.patches.specs.Lists.{Each};
ghost use Rattle.dice.specs.Grids.{line_count, line_at, lines, row_points, diced_points};

use fixed_math::{NoMemory, Vec3};
use patches::{Curve, Dyadic, Piece, Surface};
use std::alloc::{Allocator, Global};

/// The parameter of line `k`, of the lines that cut the part `i` of 2^`a` into 2^`p` cells. It is that of column `k` of a diced
/// grid with a piece's `a` and `i`, and that of row `k` with `b` and `j`.
pub fn line_at(a: u8, i: u16, p: u8, k: u16) -> Dyadic
    requires depth { a ≤ 8 }
    requires place { i < 2 ^ a }
    requires cells { p ≤ 4 }
    requires line { k ≤ 2 ^ p }
    ensures { result ≡ line_at a i p k }
{
    let cells: u16 = 1 << p;
    let step: u16 = 1 << (12 - (a + p));
    Dyadic::new((i * cells + k) * step)
}

/// The number of lines that bound 2^`p` cells.
pub(crate) fn lines_along(p: u8) -> usize
    requires { p ≤ 4 }
    ensures value { result ≡ line_count p }
    ensures from { 2 ≤ result }
    ensures to { result ≤ 17 }
{
    (1 << p) + 1
}

/// The point at `u` and `v`, by the curve at `v` where there is one.
fn point_on<S: Surface>(curve: &Option<Curve>, s: &S, u: Dyadic, v: Dyadic) -> Vec3
    requires { IfSome curve.now (λ curve. IsCurve curve (λ u. S.point_of s.now u v) (λ u. S.du_of s.now u v) (λ u. S.dv_of s.now u v)) }
    ensures value { result ≡ S.point_of s.now u v }
    ensures small { IsWithin (2 ^ 30) result }
{
    match curve {
        Some(curve) => curve.point(u),
        None => s.point(u, v),
    }
}

/// Appends the row of the grid at `v`.
fn push_row<S: Surface, A: Allocator>(
    points: &mut Vec<Vec3, A>,
    s: &S,
    piece: &Piece,
    p: u8,
    v: Dyadic,
) -> Result<(), NoMemory>
    requires cells { p ≤ 4 }
    requires small { Each (IsWithin (2 ^ 30)) points.old.items }
    ensures value { IfOk result (λ _. points.new.items ≡ points.old.items ++ row_points (S.point_of s.now) v (lines piece.now.a piece.now.i p)) }
    ensures small { IfOk result (λ _. Each (IsWithin (2 ^ 30)) points.new.items) }
{
    let curve = s.curve_at(v);
    let cells: u16 = 1 << p;
    for k in 0..cells + 1 {
        let u = line_at(piece.a, piece.i, p, k);
        points.push(point_on(&curve, s, u, v))?;
    }
    Ok(())
}

/// The points of a diced grid, by rows.
pub(crate) fn collect_points<S: Surface, A: Allocator>(
    alloc: A,
    s: &S,
    piece: &Piece,
    p: u8,
    q: u8,
) -> Result<Vec<Vec3, A>, NoMemory>
    requires columns { p ≤ 4 }
    requires rows { q ≤ 4 }
    ensures value { IfOk result (λ points. points.items ≡ diced_points (S.point_of s.now) piece.now p q) }
    ensures count { IfOk result (λ points. length points.items ≡ line_count p * line_count q) }
    ensures small { IfOk result (λ points. Each (IsWithin (2 ^ 30)) points.items) }
{
    let mut points = Vec::with_capacity(alloc, lines_along(p) * lines_along(q))?;
    let cells: u16 = 1 << q;
    for l in 0..cells + 1 {
        let v = line_at(piece.b, piece.j, q, l);
        push_row(&mut points, s, piece, p, v)?;
    }
    Ok(points)
}

/// The points of the diced grid of a leaf: 2^`p` + 1 columns by 2^`q` + 1 rows, by rows, u fastest. Coordinates are raw and
/// have a magnitude of at most 2^30. `p` and `q` are at most 4.
pub fn positions<S: Surface>(
    alloc: Global,
    s: &S,
    piece: &Piece,
    p: u8,
    q: u8,
) -> Result<Vec<Vec3>, NoMemory>
    requires columns { p ≤ 4 }
    requires rows { q ≤ 4 }
    ensures value { IfOk result (λ points. points.items ≡ diced_points (S.point_of s.now) piece.now p q) }
    ensures count { IfOk result (λ points. length points.items ≡ line_count p * line_count q) }
    ensures small { IfOk result (λ points. Each (IsWithin (2 ^ 30)) points.items) }
{
    collect_points(alloc, s, piece, p, q)
}
