// The points of a leaf before any shader runs, and its grid behind all of them.
ghost use Rattle.std.specs.Prelude.{◌≡◌, [], None, length, map, IfOk};
ghost use Rattle.quadrics.specs.AnyPatches.{patch_point, patch_du, patch_dv};
ghost use Rattle.dice.specs.Grids.{diced_points};
ghost use Rattle.dice.specs.Normals.{normal};
ghost use Rattle.grid_variables.specs.Points.{columns as column_count, rows as row_count, normal_of, sight};
ghost use Rattle.grid_variables.specs.Kept.{opacity};
ghost use Rattle.grid_variables.specs.Places.{point_count, over};

use crate::kept::kept_opacities;
use crate::leaf::Leaf;
use crate::moves::{all_turned, same, sights, turned};
use crate::variables::Variables;
use bumpalo::Bump;
use dice::{GridRef, normals_alone, points_alone};
use fixed_math::{NoMemory, Vec3};

/// The points of a leaf's grid.
fn diced<'a>(arena: &'a Bump, leaf: &Leaf) -> Result<&'a [Vec3], NoMemory>
    ensures { IfOk result (λ points. points.now ≡ diced_points (patch_point leaf.now.prim.patch) leaf.now.part leaf.now.p leaf.now.q) }
{
    let prim = leaf.prim;
    points_alone(arena, &prim.patch, leaf.piece, leaf.p, leaf.q)
}

/// The unit normals of a leaf's patch.
fn units<'a>(arena: &'a Bump, leaf: &Leaf) -> Result<&'a [Vec3], NoMemory>
    ensures { IfOk result (λ units. units.now ≡ diced_points (normal (patch_du leaf.now.prim.patch) (patch_dv leaf.now.prim.patch)) leaf.now.part leaf.now.p leaf.now.q) }
{
    let prim = leaf.prim;
    normals_alone(arena, &prim.patch, leaf.piece, leaf.p, leaf.q)
}

/// The geometric normals at all points of a leaf.
pub fn geometric_normals<'a>(arena: &'a Bump, leaf: &Leaf) -> Result<&'a [Vec3], NoMemory>
    ensures { IfOk result (λ ns. ns.now ≡ over (point_count leaf.now) (normal_of leaf.now)) }
{
    match leaf.flat() {
        Some(flat) => same(arena, leaf.point_count(), &turned(leaf.flip(), flat)),
        None => all_turned(arena, leaf.flip(), units(arena, leaf)?),
    }
}

/// The variables of the points of a leaf before any shader runs.
pub fn begun<'a>(arena: &'a Bump, leaf: &Leaf) -> Result<Variables<'a>, NoMemory>
    ensures points { IfOk result (λ d. d.points.now ≡ diced_points (patch_point leaf.now.prim.patch) leaf.now.part leaf.now.p leaf.now.q) }
    ensures normals { IfOk result (λ d. d.normals ≡ None) }
    ensures sights { IfOk result (λ d. d.sights.now ≡ map (sight leaf.now.camera) (diced_points (patch_point leaf.now.prim.patch) leaf.now.part leaf.now.p leaf.now.q)) }
    ensures colours { IfOk result (λ d. d.colours.now ≡ []) }
    ensures opacities { IfOk result (λ d. d.opacities.now ≡ []) }
{
    let camera = leaf.camera;
    let points = diced(arena, leaf)?;
    let directions = sights(arena, camera.view(), points)?;
    Ok(Variables {
        points,
        normals: None,
        sights: directions,
        colours: &[],
        opacities: &[],
    })
}

/// The triples in the arena.
fn copied<'a>(arena: &'a Bump, triples: &[Vec3]) -> Result<&'a [Vec3], NoMemory>
    ensures { IfOk result (λ copy. copy.now ≡ triples.now) }
{
    let copy = arena.try_alloc_slice_copy(triples)?;
    Ok(copy)
}

/// The grid of a leaf behind all shaders in the arena: its opacities are put into 0 to 1.
pub fn grid_of<'a>(
    arena: &'a Bump,
    leaf: &Leaf,
    variables: &Variables,
) -> Result<GridRef<'a>, NoMemory>
    requires points { length variables.now.points.now ≡ point_count leaf.now }
    requires colours { length variables.now.colours.now ≡ point_count leaf.now }
    requires opacities { length variables.now.opacities.now ≡ point_count leaf.now }
    ensures columns { IfOk result (λ grid. grid.columns ≡ column_count leaf.now) }
    ensures rows { IfOk result (λ grid. grid.rows ≡ row_count leaf.now) }
    ensures points { IfOk result (λ grid. grid.p.now ≡ variables.now.points.now) }
    ensures colours { IfOk result (λ grid. grid.ci.now ≡ variables.now.colours.now) }
    ensures opacities { IfOk result (λ grid. grid.oi.now ≡ map opacity variables.now.opacities.now) }
    ensures closing { IfOk result (λ grid. grid.closing ≡ None) }
{
    let p = copied(arena, variables.points)?;
    let ci = copied(arena, variables.colours)?;
    let oi = kept_opacities(arena, variables.opacities)?;
    let columns = leaf.columns();
    let rows = leaf.rows();
    Ok(GridRef {
        columns,
        rows,
        p,
        ci,
        oi,
        closing: None,
    })
}
