// The patches of primitives that move.
ghost use Rattle.std.specs.Prelude.{◌≡◌, ◌≤◌, true, All, IfOk, length};
ghost use Rattle.rib_reader.specs.Reading.{plain};
ghost use Rattle.rib_reader.specs.Table.{row_of};
ghost use Rattle.rib_reader.specs.Lists.{is_geometry, has_points};
ghost use Rattle.scene.specs.Scene.{most_prims};
ghost use Rattle.scene.specs.Seats.{IsOfKind};
ghost use Rattle.primitives.specs.Moving.{points_on_way as points_of, moved_patch as moved_patch_of, moving_patches_of as moving_of, moving_over as over, moving_faces as faces_of, moved as moved_of, closed_by};
ghost use Rattle.primitives.specs.Making.{made_over};
ghost use Rattle.primitives.specs.Answers.{GivesMade};

use crate::fault::PrimitiveFault;
use crate::forms::form_of;
use crate::patch::PrimitivePatch;
use crate::points::placed_points;
use crate::quarters::quadric_patches;
use crate::requests::Primitive;
use crate::shift::Shift;
use crate::variables::variables_in;
use crate::ways::{patch_on_way, points_on_way};
use fixed_math::{List, NoMemory, Vec3};
use rib_reader::{Req, Request};
use scene_parts::{Bases, StateCode};
use std::alloc::Global;
use transforms::Affine;

/// A primitive at its last time: the request that gives its points, and the map that takes its object space to camera space.
#[derive(Clone, Copy)]
pub struct Last<'a> {
    pub request: &'a Request,
    pub object: &'a Affine,
}

// A patch that moves to another one.
fn moved_patch(first: PrimitivePatch, last: &PrimitivePatch, shift: Shift) -> PrimitivePatch
    ensures { result ≡ moved_patch_of shift first last.now }
{
    let Some(patch) = patch_on_way(&first.patch, &last.patch, shift.opening) else {
        return first;
    };
    let closing = match shift.closing {
        Some(steps) => patch_on_way(&first.patch, &last.patch, steps),
        None => None,
    };
    PrimitivePatch {
        patch,
        closing,
        ..first
    }
}

// Patches that move to as many others, in order.
fn moved(
    alloc: Global,
    first: List<PrimitivePatch>,
    last: &[PrimitivePatch],
    shift: Shift,
) -> Result<List<PrimitivePatch>, NoMemory>
    ensures { IfOk result (λ patches. patches ≡ moved_of shift first last.now) }
{
    let pairs = first.0.into_iter().zip(last);
    let patches = pairs.map(|(p, q)| moved_patch(p, q, shift));
    Ok(List(patches.collect(alloc)?))
}

// Patches that become as many others when the shutter closes, in order.
fn closed_by(
    alloc: Global,
    opening: List<PrimitivePatch>,
    closing: List<PrimitivePatch>,
) -> Result<List<PrimitivePatch>, NoMemory>
    ensures { IfOk result (λ patches. patches ≡ closed_by opening closing) }
{
    let pairs = opening.0.into_iter().zip(closing.0);
    let patches = pairs.map(|(p, q)| PrimitivePatch {
        closing: Some(q.patch),
        ..p
    });
    Ok(List(patches.collect(alloc)?))
}

impl Primitive<'_> {
    // Its patches over points that have made so many of 65536 steps from the first to the last.
    fn over_way(
        &self,
        alloc: Global,
        first: &[Vec3],
        last: &[Vec3],
        steps: u32,
    ) -> Result<List<PrimitivePatch>, PrimitiveFault>
        requires room { self.now.room ≤ most_prims }
        requires kinds { All IsOfKind self.now.variables.now }
        requires steps { steps ≤ 65536 }
        ensures { GivesMade result (made_over self.now (points_of steps first.now last.now)) }
    {
        let points = points_on_way(alloc, first, last, steps)?;
        self.over(alloc, points.as_slice())
    }

    // Its patches, where it has faces: their flat normals are those of the opening points.
    fn moving_faces(
        &self,
        alloc: Global,
        first: &[Vec3],
        last: &[Vec3],
        shift: Shift,
    ) -> Result<List<PrimitivePatch>, PrimitiveFault>
        requires room { self.now.room ≤ most_prims }
        requires kinds { All IsOfKind self.now.variables.now }
        ensures { GivesMade result (faces_of shift (made_over self.now) first.now last.now) }
    {
        self.over(alloc, first)?;
        self.over(alloc, last)?;
        let patches = self.over_way(alloc, first, last, shift.opening)?;
        let Some(steps) = shift.closing else {
            return Ok(patches);
        };
        let ends = self.over_way(alloc, first, last, steps)?;
        Ok(closed_by(alloc, patches, ends)?)
    }

    // Its patches.
    fn moving_over(
        &self,
        alloc: Global,
        first: &[Vec3],
        last: &[Vec3],
        shift: Shift,
    ) -> Result<List<PrimitivePatch>, PrimitiveFault>
        requires room { self.now.room ≤ most_prims }
        requires kinds { All IsOfKind self.now.variables.now }
        ensures { GivesMade result (over self.now.request.now.name shift (made_over self.now) first.now last.now) }
    {
        match self.request.name {
            Req::Polygon | Req::PointsPolygons => self.moving_faces(alloc, first, last, shift),
            _ => {
                let patches = self.over(alloc, first)?;
                let ends = self.over(alloc, last)?;
                Ok(moved(alloc, patches, ends.as_slice(), shift)?)
            }
        }
    }
}

/// All patches of a primitive that moves, in order, in a frame that may take `room` patches more: those of the request under this
/// map at the first time, and those at the last time. Where the shutter opens their control points are on the way from the ones to
/// the others, and where it closes later `closing` has them there. A flat face's normal is that of its opening points.
///
/// The faults are those of the request at the first time, and then `M7` of the points at the last time. `last` has as many points as
/// the request, else the fault is `G5`.
pub fn moving_patches_of(
    alloc: Global,
    request: &Request,
    bases: Bases,
    object: &Affine,
    room: usize,
    last: Last<'_>,
    shift: Shift,
) -> Result<List<PrimitivePatch>, PrimitiveFault>
    requires primitive { is_geometry (row_of request.now.name).tail ≡ true }
    requires room { room ≤ most_prims }
    requires alike { has_points (row_of request.now.name).tail ≡ has_points (row_of last.request.now.name).tail }
    ensures made { GivesMade result (moving_of (plain request.now) bases object.now room (plain last.entry.request.now) last.entry.object.now shift) }
    ensures few { IfOk result (λ patches. length patches ≤ room) }
{
    if let Some(form) = form_of(request) {
        let patches = quadric_patches(alloc, request, &form, object, room)?;
        let ends = quadric_patches(alloc, request, &form, last.object, room)?;
        return Ok(moved(alloc, patches, ends.as_slice(), shift)?);
    }
    let Some(points) = placed_points(alloc, object, request)? else {
        return Err(PrimitiveFault::Refused(StateCode::G5));
    };
    let Some(ends) = placed_points(alloc, last.object, last.request)? else {
        return Err(PrimitiveFault::Refused(StateCode::G5));
    };
    if ends.len() != points.len() {
        return Err(PrimitiveFault::Refused(StateCode::G5));
    }
    let variables = variables_in(alloc, request)?;
    let primitive = Primitive {
        request,
        bases,
        variables: &variables,
        room,
    };
    primitive.moving_over(alloc, points.as_slice(), ends.as_slice(), shift)
}
