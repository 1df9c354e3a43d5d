// The patches of meshes.
ghost use Rattle.std.specs.Prelude.{◌≡◌, ◌<◌, ◌≤◌, ◌*◌, ◌^◌, ℕ, true, Some, All, length};
ghost use Rattle.mesh_basis.specs.Counts.{counts_of};
ghost use Rattle.mesh_basis.specs.Ranges.{are_in_range};
ghost use Rattle.mesh_basis.specs.Meshes.{patch_at, all_from};
ghost use Rattle.quadrics.specs.declared.any_patch.AnyPatch.TheVariants.{Plain};
ghost use Rattle.scene.specs.Scene.{most_prims};
ghost use Rattle.scene.specs.Seats.{IsOfKind, IsThere};
ghost use Rattle.primitives.specs.Variables.{mesh_seat, HasSides};
ghost use Rattle.primitives.specs.Patches.{all_seated, mesh_patches};
ghost use Rattle.primitives.specs.Answers.{GivesMade};

use crate::fault::PrimitiveFault;
use crate::patch::{PrimitivePatch, patch_with};
use crate::seat::{mesh_extent, mesh_seat};
use crate::variables::are_counted;
use fixed_math::{List, Vec3};
use mesh_basis::{Counts, Shape, are_in_range, counts_of, patch_at};
use quadrics::AnyPatch;
use scene::{RequestVariables, Shared};
use scene_parts::StateCode;
use std::alloc::Global;

// The patches of a mesh whose points are in range. The fault is `M7`, where a control point isn't.
fn mesh_seated(
    alloc: Global,
    variables: &Shared<RequestVariables>,
    shape: &Shape,
    counts: Counts,
    points: &[Vec3],
) -> Result<List<PrimitivePatch>, PrimitiveFault>
    requires tied { counts_of shape.now (length points.now) ≡ Some counts }
    requires near { are_in_range points.now ≡ true }
    requires few { counts.along_u * counts.along_v ≤ most_prims }
    requires sides { HasSides shape.now counts }
    requires there { (k : ℕ) → k < counts.along_u * counts.along_v → All (IsThere (mesh_seat shape.now counts k)) variables.now }
    ensures { GivesMade result (all_seated Plain variables.now (mesh_seat shape.now counts) (all_from (patch_at points.now shape.now counts.along_u) 0 (counts.along_u * counts.along_v))) }
{
    let mut all = Vec::new(alloc);
    for k in 0..counts.along_u as u64 * counts.along_v as u64 {
        let Some(patch) = patch_at(points, shape, counts, k) else {
            return Err(PrimitiveFault::Refused(StateCode::M7));
        };
        let seat = mesh_seat(shape, counts, k);
        let placed = patch_with(variables, None, seat, AnyPatch::Plain(patch))?;
        all.push(placed)?;
    }
    Ok(List(all))
}

/// The patches of a mesh of these points, with these variables, where so many more may be.
pub(crate) fn mesh_patches(
    alloc: Global,
    variables: &Shared<RequestVariables>,
    shape: &Shape,
    room: usize,
    points: &[Vec3],
) -> Result<List<PrimitivePatch>, PrimitiveFault>
    requires step_u { 1 ≤ shape.now.step_u }
    requires step_v { 1 ≤ shape.now.step_v }
    requires few_u { shape.now.nu < 2 ^ 32 }
    requires few_v { shape.now.nv < 2 ^ 32 }
    requires room { room ≤ most_prims }
    requires kinds { All IsOfKind variables.now }
    ensures { GivesMade result (mesh_patches variables.now shape.now room points.now) }
{
    let Some(counts) = counts_of(shape, points.len()) else {
        return Err(PrimitiveFault::Refused(StateCode::G5));
    };
    if !are_counted(&mesh_extent(shape, counts), variables.get().as_slice()) {
        return Err(PrimitiveFault::Refused(StateCode::G5));
    }
    if counts.along_u as usize * counts.along_v as usize > room {
        return Err(PrimitiveFault::Refused(StateCode::M3));
    }
    if !are_in_range(points) {
        return Err(PrimitiveFault::Refused(StateCode::M7));
    }
    mesh_seated(alloc, variables, shape, counts, points)
}
