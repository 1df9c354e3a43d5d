// Where the points of a grid are when their motion ends.
ghost use Rattle.std.specs.Prelude.{◌≡◌, length, get_or, IfOk};
ghost use Rattle.fixed_math.specs.Axes.{origin};
ghost use Rattle.quadrics.specs.AnyPatches.{patch_point};
ghost use Rattle.dice.specs.Grids.{diced_points};
ghost use Rattle.moving.specs.Closing.{closing_place as place_of};
ghost use Rattle.grid_variables.specs.Places.{point_count, over};
ghost use Rattle.grid_variables.specs.Closings.{closing_of, places_in};

use crate::leaf::Leaf;
use bumpalo::Bump;
use bumpalo::collections::into_bump_slice;
use dice::{GridRef, points_alone};
use fixed_math::{NoMemory, Vec3};
use moving::closing_place;

/// The closing places of points: those on the closing surface, and moved from there as displacement moved the points.
fn closing_places<'a>(
    arena: &'a Bump,
    last: &[Vec3],
    before: &[Vec3],
    after: &[Vec3],
) -> Result<&'a [Vec3], NoMemory>
    requires before { length before.now ≡ length last.now }
    requires after { length after.now ≡ length last.now }
    ensures { IfOk result (λ q. q.now ≡ over (length last.now) (λ i. place_of (get_or last.now i origin) (get_or before.now i origin) (get_or after.now i origin))) }
{
    let mut places = Vec::with_capacity(arena, last.len())?;
    for i in 0..last.len() {
        places.push(closing_place(last[i], before[i], after[i]))?;
    }
    Ok(into_bump_slice(places))
}

/// The closing places of a leaf's grid in the arena, if its primitive moves; what is made on the way lies in another one. The grid's
/// points before any shader ran are `before`, and those behind all of them `after`.
fn closing_in<'a>(
    work: &Bump,
    arena: &'a Bump,
    leaf: &Leaf,
    before: &[Vec3],
    after: &[Vec3],
) -> Result<Option<&'a [Vec3]>, NoMemory>
    requires before { before.now ≡ diced_points (patch_point leaf.now.prim.patch) leaf.now.part leaf.now.p leaf.now.q }
    requires after { length after.now ≡ point_count leaf.now }
    ensures { IfOk result (λ q. places_in q ≡ closing_of leaf.now after.now) }
{
    let prim = leaf.prim;
    match &prim.closing {
        None => Ok(None),
        Some(closing) => {
            let last = points_alone(work, closing, leaf.piece, leaf.p, leaf.q)?;
            Ok(Some(closing_places(arena, last, before, after)?))
        }
    }
}

/// The grid with the closing places of its points, if its leaf's primitive moves.
pub fn moving_grid<'a>(
    work: &Bump,
    arena: &'a Bump,
    leaf: &Leaf,
    before: &[Vec3],
    grid: GridRef<'a>,
) -> Result<GridRef<'a>, NoMemory>
    requires before { before.now ≡ diced_points (patch_point leaf.now.prim.patch) leaf.now.part leaf.now.p leaf.now.q }
    requires after { length grid.p.now ≡ point_count leaf.now }
    ensures closing { IfOk result (λ g. places_in g.closing ≡ closing_of leaf.now grid.entry.p.now) }
    ensures columns { IfOk result (λ g. g.columns ≡ grid.entry.columns) }
    ensures rows { IfOk result (λ g. g.rows ≡ grid.entry.rows) }
    ensures points { IfOk result (λ g. g.p.now ≡ grid.entry.p.now) }
    ensures colours { IfOk result (λ g. g.ci.now ≡ grid.entry.ci.now) }
    ensures opacities { IfOk result (λ g. g.oi.now ≡ grid.entry.oi.now) }
{
    let closing = closing_in(work, arena, leaf, before, grid.p)?;
    Ok(GridRef {
        columns: grid.columns,
        rows: grid.rows,
        p: grid.p,
        ci: grid.ci,
        oi: grid.oi,
        closing,
    })
}
