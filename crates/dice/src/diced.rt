// Grids in an arena: diced ones, and shaded ones.
ghost use Rattle.std.specs.Prelude.{◌≡◌, ◌≤◌, ◌*◌, ◌+◌, ◌^◌, ℕ, List, length, IfOk};
ghost use Rattle.std.specs.Option.{ForSome};
ghost use Rattle.patches.specs.Boxes.{IsWithin};
ghost use Rattle.patches.specs.Lists.{Each};
ghost use Rattle.dice.specs.Grids.{line_count, diced_points};
ghost use Rattle.dice.specs.Normals.{normal};

use crate::grid::{collect_points, lines_along};
use crate::normals::collect_normals;
use bumpalo::Bump;
use bumpalo::collections::into_bump_slice;
use fixed_math::{NoMemory, Vec3};
use patches::{Piece, Surface};

/// A shaded grid in an arena: points, colours and opacities, each by rows, u fastest, and where the points are when their motion
/// ends, if they move. Columns and rows are 2 to 17, and each slice has one item for each point of the grid.
#[derive(Clone, Copy)]
pub struct GridRef<'a> {
    pub columns: usize,
    pub rows: usize,
    pub p: &'a [Vec3],
    pub ci: &'a [Vec3],
    pub oi: &'a [Vec3],
    pub closing: Option<&'a [Vec3]>,
    pub ghost columns_from: { 2 ≤ columns },
    pub ghost columns_to: { columns ≤ 17 },
    pub ghost rows_from: { 2 ≤ rows },
    pub ghost rows_to: { rows ≤ 17 },
    pub ghost points: { length p.now ≡ columns * rows },
    pub ghost colours: { length ci.now ≡ columns * rows },
    pub ghost opacities: { length oi.now ≡ columns * rows },
    pub ghost closing_places: { ForSome closing (λ q. length q.now ≡ columns * rows) },
}

/// A diced grid in an arena, as a displacement or surface shader finds it: points and unit normals, each by rows, u fastest.
/// Columns and rows are 2 to 17, and each slice has one item for each point of the grid.
#[derive(Clone, Copy)]
pub struct Diced<'a> {
    pub columns: usize,
    pub rows: usize,
    pub p: &'a [Vec3],
    pub n: &'a [Vec3],
    pub ghost columns_from: { 2 ≤ columns },
    pub ghost columns_to: { columns ≤ 17 },
    pub ghost rows_from: { 2 ≤ rows },
    pub ghost rows_to: { rows ≤ 17 },
    pub ghost points: { length p.now ≡ columns * rows },
    pub ghost normals: { length n.now ≡ columns * rows },
}

/// The diced grid of a leaf in `arena`: 2^`p` + 1 columns by 2^`q` + 1 rows of points, of coordinates with a raw magnitude of at
/// most 2^30, and the surface's unit normals there, by its derivatives. `p` and `q` are at most 4. What the arena took before
/// memory ran out stays taken until it is reset.
pub fn points<'a, S: Surface>(
    arena: &'a Bump,
    s: &S,
    piece: &Piece,
    p: u8,
    q: u8,
) -> Result<Diced<'a>, NoMemory>
    requires columns { p ≤ 4 }
    requires rows { q ≤ 4 }
    ensures columns { IfOk result (λ grid. grid.columns ≡ line_count p) }
    ensures rows { IfOk result (λ grid. grid.rows ≡ line_count q) }
    ensures points { IfOk result (λ grid. grid.p.now ≡ diced_points (S.point_of s.now) piece.now p q) }
    ensures small { IfOk result (λ grid. Each (IsWithin (2 ^ 30)) grid.p.now) }
    ensures normals { IfOk result (λ grid. grid.n.now ≡ diced_points (normal (S.du_of s.now) (S.dv_of s.now)) piece.now p q) }
{
    let points = collect_points(arena, s, piece, p, q)?;
    let normals = collect_normals(arena, s, piece, p, q)?;
    let columns = lines_along(p);
    let rows = lines_along(q);
    Ok(Diced {
        columns,
        rows,
        p: into_bump_slice(points),
        n: into_bump_slice(normals),
    })
}

/// The points of the diced grid of a leaf alone in `arena`, by rows, u fastest.
pub fn points_alone<'a, S: Surface>(
    arena: &'a Bump,
    s: &S,
    piece: &Piece,
    p: u8,
    q: u8,
) -> Result<&'a [Vec3], NoMemory>
    requires columns { p ≤ 4 }
    requires rows { q ≤ 4 }
    ensures { IfOk result (λ points. points.now ≡ diced_points (S.point_of s.now) piece.now p q) }
{
    let points = collect_points(arena, s, piece, p, q)?;
    Ok(into_bump_slice(points))
}

/// The unit normals of the diced grid of a leaf alone in `arena`, by rows, u fastest.
pub fn normals_alone<'a, S: Surface>(
    arena: &'a Bump,
    s: &S,
    piece: &Piece,
    p: u8,
    q: u8,
) -> Result<&'a [Vec3], NoMemory>
    requires columns { p ≤ 4 }
    requires rows { q ≤ 4 }
    ensures { IfOk result (λ normals. normals.now ≡ diced_points (normal (S.du_of s.now) (S.dv_of s.now)) piece.now p q) }
{
    let normals = collect_normals(arena, s, piece, p, q)?;
    Ok(into_bump_slice(normals))
}
