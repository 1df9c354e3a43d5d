// The patches of a mesh.
ghost use Rattle.std.specs.Prelude.{◌≡◌, ◌≤◌, ◌<◌, ◌*◌, ◌^◌, true, length, Some};
ghost use Rattle.mesh_basis.specs.Counts.{counts_of};
ghost use Rattle.mesh_basis.specs.Ranges.{are_in_range};
ghost use Rattle.mesh_basis.specs.Meshes.{patch_in, patch_at, all_from, patches_in, or_far, mesh_of};
ghost use Rattle.mesh_basis.specs.Answers.{GivesPatches};

use crate::bezier::{Bases, bicubic_of};
use crate::counts::{Counts, counts_of};
use crate::fault::MeshFault;
use crate::net::{corners_in, net_in};
use crate::range::are_in_range;
use crate::shape::Shape;
use fixed_math::Vec3;
use patches::{Bilinear, Patch};
use std::alloc::Global;

/// The patch in column `c` and row `d`, where its control points are in range.
fn patch_in(points: &[Vec3], shape: &Shape, c: u32, d: u32) -> Option<Patch>
    requires wide { 0 < shape.now.nu }
    requires high { 0 < shape.now.nv }
    requires len { length points.now ≡ shape.now.nu * shape.now.nv }
    requires near { are_in_range points.now ≡ true }
    ensures { result ≡ patch_in points.now shape.now c d }
{
    if shape.bicubic {
        let bases = Bases {
            along_u: shape.basis_u,
            along_v: shape.basis_v,
        };
        bicubic_of(&net_in(points, shape, c, d), bases)
    } else {
        Some(Patch::Bilinear(Bilinear::new(corners_in(points, shape, c, d))))
    }
}

/// Patch `k` of a mesh whose points are in range, where its control points are too.
pub fn patch_at(points: &[Vec3], shape: &Shape, counts: Counts, k: u64) -> Option<Patch>
    requires there { k < counts.along_u * counts.along_v }
    requires tied { counts_of shape.now (length points.now) ≡ Some counts }
    requires near { are_in_range points.now ≡ true }
    ensures { result ≡ patch_at points.now shape.now counts.along_u k }
{
    let columns = counts.along_u as u64;
    patch_in(points, shape, (k % columns) as u32, (k / columns) as u32)
}

/// The patches by rows. The fault is `M7`, where a control point isn't in range.
fn patches(
    alloc: Global,
    points: &[Vec3],
    shape: &Shape,
    counts: Counts,
) -> Result<Vec<Patch>, MeshFault>
    requires tied { counts_of shape.now (length points.now) ≡ Some counts }
    requires near { are_in_range points.now ≡ true }
    ensures { GivesPatches result (or_far (all_from (patch_at points.now shape.now counts.along_u) 0 (counts.along_u * counts.along_v))) }
{
    let mut patches = Vec::new(alloc);
    let total = counts.along_u as u64 * counts.along_v as u64;
    for k in 0..total {
        let Some(patch) = patch_at(points, shape, counts, k) else {
            return Err(MeshFault::M7);
        };
        patches.push(patch)?;
    }
    Ok(patches)
}

/// The patches of a mesh of these points, by rows, u fastest, each in Bezier form.
///
/// The refusals are `G5`, where the shape has another number of points or they don't make whole patches, else `M7`, where a
/// raw coordinate of a point, or of a control point that is made of them, passes 2^30; else want of memory.
pub fn mesh(alloc: Global, points: &[Vec3], shape: &Shape) -> Result<Vec<Patch>, MeshFault>
    requires step_u { 1 ≤ shape.now.step_u }
    requires step_v { 1 ≤ shape.now.step_v }
    ensures { GivesPatches result (mesh_of points.now shape.now) }
{
    let Some(counts) = counts_of(shape, points.len()) else {
        return Err(MeshFault::G5);
    };
    if !are_in_range(points) {
        return Err(MeshFault::M7);
    }
    patches(alloc, points, shape, counts)
}
