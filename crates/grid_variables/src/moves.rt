// Normals turned over, and the directions in which points are seen.
ghost use Rattle.std.specs.Prelude.{◌≡◌, None, map, IfOk};
ghost use Rattle.fixed_math.specs.declared.vec3.Vec3.{Vec3 as AnyVec3};
ghost use Rattle.builtins.specs.Triples.{negated as negated_of};
ghost use Rattle.grid_variables.specs.Points.{turned as turned_by, sight_by, sight as sight_of};
ghost use Rattle.grid_variables.specs.Places.{over};

use bumpalo::Bump;
use bumpalo::collections::into_bump_slice;
use fixed_math::{NoMemory, Num, Vec3};
use transforms::View;

fn negated(v: &Vec3) -> Vec3
    ensures { result ≡ negated_of v.now }
{
    Vec3 {
        x: v.x.neg(),
        y: v.y.neg(),
        z: v.z.neg(),
    }
}

pub(crate) fn turned(flip: bool, normal: &Vec3) -> Vec3
    ensures { result ≡ turned_by flip normal.now }
{
    if flip { negated(normal) } else { *normal }
}

/// Normals turned over where that is asked.
pub(crate) fn all_turned<'a>(
    arena: &'a Bump,
    flip: bool,
    normals: &'a [Vec3],
) -> Result<&'a [Vec3], NoMemory>
    ensures { IfOk result (λ ns. ns.now ≡ map (λ n. turned_by flip n) normals.now) }
{
    if !flip {
        return Ok(normals);
    }
    let mut turning = Vec::with_capacity(arena, normals.len())?;
    for normal in normals {
        turning.push(turned(flip, normal))?;
    }
    Ok(into_bump_slice(turning))
}

/// One triple at all points.
pub(crate) fn same<'a>(
    arena: &'a Bump,
    points: usize,
    triple: &Vec3,
) -> Result<&'a [Vec3], NoMemory>
    ensures { IfOk result (λ ts. ts.now ≡ over points (λ _. triple.now)) }
{
    let mut triples = Vec::with_capacity(arena, points)?;
    for _point in 0..points {
        triples.push(*triple)?;
    }
    Ok(into_bump_slice(triples))
}

/// The direction in which a camera without perspective sees all points.
fn ahead() -> Vec3
    ensures { (p : AnyVec3) → result ≡ sight_by None p }
{
    Vec3 {
        x: Num::default(),
        y: Num::default(),
        z: Num::sat(65536),
    }
}

/// The directions in which a camera sees points.
pub(crate) fn sights<'a>(
    arena: &'a Bump,
    view: &View,
    points: &'a [Vec3],
) -> Result<&'a [Vec3], NoMemory>
    ensures { IfOk result (λ is. is.now ≡ map (sight_of view.now) points.now) }
{
    match view.fov {
        Some(_) => Ok(points),
        None => same(arena, points.len(), &ahead()),
    }
}
