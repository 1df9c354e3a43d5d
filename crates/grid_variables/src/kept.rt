// What is kept of what shaders leave: points near their old places, and opacities from 0 to 1.
ghost use Rattle.std.specs.Prelude.{◌≡◌, ◌≤ℤ◌, pos, neg_ℤ, length, map, get_or, IfOk};
ghost use Rattle.fixed_math.specs.Axes.{origin};
ghost use Rattle.grid_variables.specs.Points.{sight};
ghost use Rattle.grid_variables.specs.Kept.{kept_near as kept, moved as moved_by, share as share_of, opacity as opacity_of};
ghost use Rattle.grid_variables.specs.Places.{over, IsSized};

use crate::leaf::Leaf;
use crate::moves::sights;
use crate::variables::Variables;
use bumpalo::Bump;
use bumpalo::collections::into_bump_slice;
use fixed_math::{NoMemory, Num, Vec3};

/// A raw coordinate no further than `bound` from where it was.
fn nearest(bound: i64, old: i64, new: i64) -> i64
    requires least_bound { pos 0 ≤ℤ bound }
    requires greatest_bound { bound ≤ℤ pos 2147483647 }
    requires least_old { neg_ℤ (pos 2147483647) ≤ℤ old }
    requires greatest_old { old ≤ℤ pos 2147483647 }
    requires least_new { neg_ℤ (pos 2147483647) ≤ℤ new }
    requires greatest_new { new ≤ℤ pos 2147483647 }
    ensures value { result ≡ kept bound old new }
    ensures low { neg_ℤ (pos 2147483647) ≤ℤ result }
    ensures high { result ≤ℤ pos 2147483647 }
{
    let least = old - bound;
    let greatest = old + bound;
    least.max(new.min(greatest))
}

/// A coordinate no further than `bound` from where it was.
fn kept_coordinate(bound: Num, old: Num, new: Num) -> Num
    requires { pos 0 ≤ℤ bound }
    ensures { result ≡ kept bound old new }
{
    let near = nearest(bound.raw(), old.raw(), new.raw());
    Num::sat(near as i128)
}

fn moved(bound: Num, old: &Vec3, new: &Vec3) -> Vec3
    requires { pos 0 ≤ℤ bound }
    ensures { result ≡ moved_by bound old.now new.now }
{
    Vec3 {
        x: kept_coordinate(bound, old.x, new.x),
        y: kept_coordinate(bound, old.y, new.y),
        z: kept_coordinate(bound, old.z, new.z),
    }
}

/// Points kept within `bound` of their old places, coordinate by coordinate.
pub(crate) fn kept_points<'a>(
    arena: &'a Bump,
    bound: Num,
    old: &[Vec3],
    new: &[Vec3],
) -> Result<&'a [Vec3], NoMemory>
    requires bound { pos 0 ≤ℤ bound }
    requires alike { length new.now ≡ length old.now }
    ensures { IfOk result (λ ps. ps.now ≡ over (length old.now) (λ i. moved_by bound (get_or old.now i origin) (get_or new.now i origin))) }
{
    let mut points = Vec::with_capacity(arena, old.len())?;
    for i in 0..old.len() {
        points.push(moved(bound, &old[i], &new[i]))?;
    }
    Ok(into_bump_slice(points))
}

/// The variables where points are kept near their old places, and are seen from there.
pub fn kept_near<'a>(
    arena: &'a Bump,
    leaf: &Leaf,
    old: &Variables,
    new: &Variables<'a>,
) -> Result<Variables<'a>, NoMemory>
    requires old { IsSized leaf.now old.now }
    requires new { IsSized leaf.now new.now }
    ensures points { IfOk result (λ e. e.points.now ≡ over (length old.now.points.now) (λ i. moved_by leaf.now.prim.bound (get_or old.now.points.now i origin) (get_or new.now.points.now i origin))) }
    ensures sights { IfOk result (λ e. e.sights.now ≡ map (sight leaf.now.camera) e.points.now) }
    ensures normals { IfOk result (λ e. e.normals ≡ new.now.normals) }
    ensures colours { IfOk result (λ e. e.colours.now ≡ new.now.colours.now) }
    ensures opacities { IfOk result (λ e. e.opacities.now ≡ new.now.opacities.now) }
{
    let prim = leaf.prim;
    let camera = leaf.camera;
    let points = kept_points(arena, prim.bound, old.points, new.points)?;
    let directions = sights(arena, camera.view(), points)?;
    Ok(Variables {
        points,
        normals: new.normals,
        sights: directions,
        colours: new.colours,
        opacities: new.opacities,
    })
}

/// A number put into 0 to 1.
#[tactic(auto, using(crate::proofs::Bounded::share_raw))]
fn share(x: Num) -> Num
    ensures { result ≡ share_of x }
{
    let x = x.raw();
    let zero: i64 = 0;
    Num::sat(zero.max(x.min(65536)) as i128)
}

fn opacity(opacity: &Vec3) -> Vec3
    ensures { result ≡ opacity_of opacity.now }
{
    Vec3 {
        x: share(opacity.x),
        y: share(opacity.y),
        z: share(opacity.z),
    }
}

/// Opacities put into 0 to 1.
pub(crate) fn kept_opacities<'a>(
    arena: &'a Bump,
    opacities: &[Vec3],
) -> Result<&'a [Vec3], NoMemory>
    ensures { IfOk result (λ os. os.now ≡ map opacity_of opacities.now) }
{
    let mut shares = Vec::with_capacity(arena, opacities.len())?;
    for each in opacities {
        shares.push(opacity(each))?;
    }
    Ok(into_bump_slice(shares))
}
