// The patches of primitives by their requests.
ghost use Rattle.std.specs.Prelude.{◌≡◌, ◌≤◌, true, All, IfOk, length};
ghost use Rattle.rib_reader.specs.Reading.{plain};
ghost use Rattle.rib_reader.specs.Table.{row_of};
ghost use Rattle.rib_reader.specs.Lists.{is_geometry};
ghost use Rattle.scene.specs.Scene.{most_prims};
ghost use Rattle.scene.specs.Seats.{IsOfKind};
ghost use Rattle.primitives.specs.Patches.{patches_of};
ghost use Rattle.primitives.specs.Making.{made_over};
ghost use Rattle.primitives.specs.Answers.{GivesMade};

use crate::faces::faces_patches;
use crate::fault::PrimitiveFault;
use crate::forms::form_of;
use crate::meshes::mesh_patches;
use crate::patch::PrimitivePatch;
use crate::points::placed_points;
use crate::quarters::quadric_patches;
use crate::variables::variables_in;
use fixed_math::{List, Vec3};
use rib_reader::{Req, Request};
use scene::{RequestVariables, Shared};
use scene_parts::{Bases, StateCode, faces_in, one_face};
use std::alloc::Global;
use transforms::Affine;

/// A primitive apart from its points: its request, the bases in force, its variables, and how many patches its frame may take.
#[derive(Clone, Copy)]
pub(crate) struct Primitive<'a> {
    pub(crate) request: &'a Request,
    pub(crate) bases: Bases,
    pub(crate) variables: &'a Shared<RequestVariables>,
    pub(crate) room: usize,
}

impl Primitive<'_> {
    /// Its patches over these points.
    pub(crate) fn over(
        &self,
        alloc: Global,
        points: &[Vec3],
    ) -> Result<List<PrimitivePatch>, PrimitiveFault>
        requires room { self.now.room ≤ most_prims }
        requires kinds { All IsOfKind self.now.variables.now }
        ensures { GivesMade result (made_over self.now points.now) }
    {
        let (variables, room) = (self.variables, self.room);
        match self.request.name {
            Req::Patch => {
                let shape = self.bases.patch_shape(self.request);
                mesh_patches(alloc, variables, &shape, room, points)
            }
            Req::PatchMesh => {
                let shape = self.bases.mesh_shape(self.request);
                mesh_patches(alloc, variables, &shape, room, points)
            }
            Req::Polygon => {
                let faces = one_face(alloc, points.len())?;
                faces_patches(alloc, variables, room, points, faces)
            }
            Req::PointsPolygons => {
                let faces = faces_in(alloc, self.request, points.len())?;
                faces_patches(alloc, variables, room, points, faces)
            }
            _ => Ok(List(Vec::new(alloc))),
        }
    }
}

/// All patches of a primitive, in order, whose object space this map takes to camera space, in a frame that may take `room` patches
/// more; other requests than those of primitives have none.
///
/// The first fault that stands is the answer: `G5`, where the points aren't as many as the primitive has, and then where a variable
/// has another number of values than its class; `M3`, where the patches are more than the room; `M7`, where a raw coordinate of a
/// point in camera space, or of a control point that is made of them, passes 2^30. Else it is want of memory.
pub fn patches_of(
    alloc: Global,
    request: &Request,
    bases: Bases,
    object: &Affine,
    room: usize,
) -> Result<List<PrimitivePatch>, PrimitiveFault>
    requires primitive { is_geometry (row_of request.now.name).tail ≡ true }
    requires room { room ≤ most_prims }
    ensures made { GivesMade result (patches_of (plain request.now) bases object.now room) }
    ensures few { IfOk result (λ patches. length patches ≤ room) }
{
    if let Some(form) = form_of(request) {
        return quadric_patches(alloc, request, &form, object, room);
    }
    let Some(points) = placed_points(alloc, object, request)? else {
        return Err(PrimitiveFault::Refused(StateCode::G5));
    };
    let variables = variables_in(alloc, request)?;
    let primitive = Primitive {
        request,
        bases,
        variables: &variables,
        room,
    };
    primitive.over(alloc, points.as_slice())
}
