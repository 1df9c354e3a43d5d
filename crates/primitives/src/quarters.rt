// The patches of quadrics.
ghost use Rattle.std.specs.Prelude.{◌≡◌, ◌≤◌, ◌<◌, ◌*◌, ℕ, All};
ghost use Rattle.quadrics.specs.declared.any_patch.AnyPatch.TheVariants.{Quadric as of_quadric};
ghost use Rattle.mesh_basis.specs.Meshes.{all_from};
ghost use Rattle.scene.specs.Scene.{most_prims};
ghost use Rattle.scene.specs.Seats.{IsThere};
ghost use Rattle.primitives.specs.Variables.{variables_in, quadric_seat};
ghost use Rattle.primitives.specs.Quadrics.{patch_at, halves};
ghost use Rattle.primitives.specs.Patches.{all_seated, quadric_patches};
ghost use Rattle.primitives.specs.Answers.{GivesMade};

use crate::fault::PrimitiveFault;
use crate::forms::Form;
use crate::patch::{PrimitivePatch, patch_with};
use crate::seat::{Extent, quadric_seat};
use crate::spread::spread_variables;
use crate::variables::{are_counted, variables_in};
use fixed_math::List;
use quadrics::AnyPatch;
use rib_reader::Request;
use scene::{RequestVariables, Shared};
use scene_parts::StateCode;
use std::alloc::Global;
use transforms::Affine;

// A quadric has one value of a uniform variable, and four of one that varies.
const WHOLE: Extent = Extent {
    faces: 1,
    points: 4,
    corners: 4,
};

// The patches of a quadric. The fault is `M7`, where a point isn't in range.
fn quadric_seated(
    alloc: Global,
    variables: &Shared<RequestVariables>,
    form: &Form,
    object: &Affine,
) -> Result<List<PrimitivePatch>, PrimitiveFault>
    requires there { (k : ℕ) → k < 4 * halves form.now → All (IsThere (quadric_seat (halves form.now) k)) variables.now }
    ensures { GivesMade result (all_seated of_quadric variables.now (quadric_seat (halves form.now)) (all_from (patch_at object.now form.now) 0 (4 * halves form.now))) }
{
    let halves = form.halves();
    let mut all = Vec::new(alloc);
    for k in 0..4 * halves as u64 {
        let Some(patch) = form.patch_at(object, k) else {
            return Err(PrimitiveFault::Refused(StateCode::M7));
        };
        let seat = quadric_seat(halves, k);
        let placed = patch_with(variables, None, seat, AnyPatch::Quadric(patch))?;
        all.push(placed)?;
    }
    Ok(List(all))
}

/// The patches of a quadric, where so many more may be, with the variables of its request.
pub(crate) fn quadric_patches(
    alloc: Global,
    request: &Request,
    form: &Form,
    object: &Affine,
    room: usize,
) -> Result<List<PrimitivePatch>, PrimitiveFault>
    requires room { room ≤ most_prims }
    ensures { GivesMade result (quadric_patches (variables_in request.now.params) form.now object.now room) }
{
    let variables = variables_in(alloc, request)?;
    let params = variables.get().as_slice();
    if !are_counted(&WHOLE, params) {
        return Err(PrimitiveFault::Refused(StateCode::G5));
    }
    let halves = form.halves();
    if 4 * halves as usize > room {
        return Err(PrimitiveFault::Refused(StateCode::M3));
    }
    let spread = spread_variables(alloc, halves, params)?;
    quadric_seated(alloc, &spread, form, object)
}
