// Primitives.
ghost use Rattle.std.specs.Prelude.{◌≡◌, ◌≤◌, ◌+◌, true, Some, None, Ok, IfOk, IfSome, if◌then◌else◌, length, map};
ghost use Rattle.std.specs.Ordering.{int_eq};
ghost use Rattle.quadrics.specs.AnyPatches.{IsSmallPatch};
ghost use Rattle.moving.specs.Moments.{steps_at as steps_of};
ghost use Rattle.rib_reader.specs.Reading.{plain};
ghost use Rattle.rib_reader.specs.Table.{row_of};
ghost use Rattle.rib_reader.specs.Lists.{is_geometry, has_points};
ghost use Rattle.scene.specs.Scene.{most_prims};
ghost use Rattle.primitives.specs.Patches.{patches_of};
ghost use Rattle.scene_state.specs.State.{both_placed, first_by, first_looked_at, first_under, moving_set, patches_placed, placed_between, prim_of, primitive_by, primitive_set, primitive_under, room_left, shift_by, shift_of, space_of, with_patches};
ghost use Rattle.scene_state.specs.Unnamed.{LastAreAt};
ghost use Rattle.scene_state.specs.Answers.{Steps};

use crate::alike::are_alike;
use crate::fault::StepFault;
use crate::shaders::Worn;
use crate::state::State;
use fixed_math::{List, NoMemory, Num};
use moving::steps_at;
use moving_maps::Times;
use primitives::{Last, PrimitivePatch, Shift, moving_patches_of, patches_of};
use quadrics::AnyPatch;
use rib_reader::Request;
use scene::Prim;
use scene_parts::{Look, StateCode};
use std::alloc::Global;
use transforms::Affine;

// Does nothing: a call tells a proof how far the closing control points reach.
fn recall_closing(closing: &Option<AnyPatch>)
    ensures { IfSome closing.now IsSmallPatch }
{
    if let Some(patch) = closing {
        patch.recall();
    }
}

// The primitive of a patch, with this look and these shaders.
fn primitive(
    request: &Request,
    object: Affine,
    look: Look,
    worn: &Worn,
    patch: PrimitivePatch,
) -> Result<Prim, NoMemory>
    ensures { IfOk result (λ prim. prim ≡ prim_of (plain request.now) object look worn.now patch) }
{
    let lights = worn.lights.shared()?;
    let place = patch.place;
    recall_closing(&patch.closing);
    Ok(Prim {
        patch: patch.patch,
        closing: patch.closing,
        flat: patch.flat,
        cs: look.cs,
        os: look.os,
        surface: worn.surface,
        displacement: worn.displacement,
        atmosphere: worn.atmosphere,
        lights,
        bound: look.bound,
        rate: look.rate,
        one_sided: look.one_sided,
        flip: look.flip != object.mirrored(),
        smooth: look.smooth,
        vars: patch.vars,
        object,
        place,
        line: request.line,
    })
}

// The primitives of patches, in order.
fn primitives(
    alloc: Global,
    request: &Request,
    object: Affine,
    look: Look,
    worn: &Worn,
    patches: List<PrimitivePatch>,
) -> Result<List<Prim>, NoMemory>
    ensures { IfOk result (λ prims. prims ≡ map (prim_of (plain request.now) object look worn.now) patches) }
{
    let mut prims = Vec::new(alloc);
    for patch in patches.0 {
        prims.push(primitive(request, object, look, worn, patch)?)?;
    }
    Ok(List(prims))
}

// How far something that moves from one time to another is on its way when the shutter closes, if that is later than when it opens.
fn closing_steps(from: Num, to: Num, opens: Num, closes: Num) -> Option<u32>
    ensures value { result ≡ (if int_eq opens closes then None else Some (steps_of from to closes)) }
    ensures bound { IfSome result (λ steps. steps ≤ 65536) }
{
    if opens.raw() == closes.raw() {
        None
    } else {
        Some(steps_at(from, to, closes))
    }
}

// How far something that moves from one time to another is on its way when the shutter opens, and when it closes, if that is later.
fn shift_by(from: Num, to: Num, opens: Num, closes: Num) -> Shift
    ensures { result ≡ shift_by from to opens closes }
{
    Shift {
        opening: steps_at(from, to, opens),
        closing: closing_steps(from, to, opens, closes),
    }
}

impl State {
    // Places patches. Where there are some, they have the shaders in force.
    fn place_patches(
        &mut self,
        alloc: Global,
        request: &Request,
        object: Affine,
        patches: List<PrimitivePatch>,
    ) -> Result<(), NoMemory>
        requires room { length self.old.prims + length patches ≤ most_prims }
        requires lights { LastAreAt self.old }
        ensures { IfOk result (λ _. self.new ≡ with_patches (plain request.now) object patches self.old) }
    {
        if patches.len() == 0 {
            return Ok(());
        }
        let first = self.first_named();
        let last = self.prims.last_lights();
        let worn = self.shaders.wear(alloc, &self.attributes, first, last)?;
        let look = self.attributes.look;
        let prims = primitives(alloc, request, object, look, &worn, patches)?;
        self.prims.add(prims)?;
        Ok(())
    }

    // Places a primitive whose object space this map takes to camera space.
    fn place_under(
        &mut self,
        alloc: Global,
        request: &Request,
        object: Affine,
    ) -> Result<(), StepFault>
        requires geometry { is_geometry (row_of request.now.name).tail ≡ true }
        requires lights { LastAreAt self.old }
        ensures { Steps result (patches_placed (plain request.now) object (patches_of (plain request.now) self.old.attributes.bases object (room_left self.old)) self.old) self.new }
    {
        let room = self.prims.room();
        let patches = patches_of(alloc, request, self.attributes.bases, &object, room)?;
        self.place_patches(alloc, request, object, patches)?;
        Ok(())
    }

    // Places a primitive that doesn't move.
    fn place_still(&mut self, alloc: Global, request: &Request) -> Result<(), StepFault>
        requires geometry { is_geometry (row_of request.now.name).tail ≡ true }
        requires lights { LastAreAt self.old }
        ensures { Steps result (primitive_under (plain request.now) (space_of self.old) self.old) self.new }
    {
        let object = self.space()?;
        self.place_under(alloc, request, object)
    }

    // How far a primitive that moves between two times is on its way when the shutter opens and closes.
    fn shift(&self, from: Num, to: Num) -> Shift
        ensures { result ≡ shift_of self.now.choices from to }
    {
        let [opens, closes] = self.choices.shutter();
        shift_by(from, to, opens, closes)
    }

    // Places a primitive that moves, whose object space this map takes to camera space at the first time.
    fn place_between(
        &mut self,
        alloc: Global,
        request: &Request,
        object: Affine,
        last: Last<'_>,
        shift: Shift,
    ) -> Result<(), StepFault>
        requires geometry { is_geometry (row_of request.now.name).tail ≡ true }
        requires lights { LastAreAt self.old }
        requires alike { has_points (row_of request.now.name).tail ≡ has_points (row_of last.request.now.name).tail }
        ensures { Steps result (placed_between (plain request.now) object (plain last.entry.request.now) last.entry.object.now shift self.old) self.new }
    {
        let room = self.prims.room();
        let bases = self.attributes.bases;
        let patches = moving_patches_of(alloc, request, bases, &object, room, last, shift)?;
        self.place_patches(alloc, request, object, patches)?;
        Ok(())
    }

    // Places a primitive that moves between two times; its points at the last one are those of the other request.
    fn place_moving(
        &mut self,
        alloc: Global,
        request: &Request,
        last: &Request,
        from: Num,
        to: Num,
    ) -> Result<(), StepFault>
        requires geometry { is_geometry (row_of request.now.name).tail ≡ true }
        requires lights { LastAreAt self.old }
        requires alike { has_points (row_of request.now.name).tail ≡ has_points (row_of last.now.name).tail }
        ensures { Steps result (moving_set (plain request.now) (plain last.now) from to self.old) self.new }
    {
        let object = self.space()?;
        let end = self.last_space()?;
        let shift = self.shift(from, to);
        let ends = Last {
            request: last,
            object: &end,
        };
        self.place_between(alloc, request, object, ends, shift)
    }

    // Places a primitive that moves between these times, if it moves.
    fn place_by(&mut self, alloc: Global, request: &Request, times: Times) -> Result<(), StepFault>
        requires geometry { is_geometry (row_of request.now.name).tail ≡ true }
        requires lights { LastAreAt self.old }
        ensures { Steps result (primitive_by times (plain request.now) self.old) self.new }
    {
        match times {
            Times::Still => self.place_still(alloc, request),
            Times::Between { from, to } => self.place_moving(alloc, request, request, from, to),
            Times::Mixed => Err(StepFault::Refused(StateCode::N7)),
        }
    }

    /// Places a primitive outside of motion blocks: all patches of its request, with the attributes in force.
    pub(crate) fn place_primitive(
        &mut self,
        alloc: Global,
        request: &Request,
    ) -> Result<(), StepFault>
        requires geometry { is_geometry (row_of request.now.name).tail ≡ true }
        requires lights { LastAreAt self.old }
        ensures { Steps result (primitive_set (plain request.now) self.old) self.new }
    {
        if self.world.is_none() {
            return Err(StepFault::Refused(StateCode::N5));
        }
        let times = self.times();
        self.place_by(alloc, request, times)
    }

    // Looks at a primitive that isn't placed yet: what its points are.
    fn look_at(&self, alloc: Global, request: &Request) -> Result<(), StepFault>
        requires geometry { is_geometry (row_of request.now.name).tail ≡ true }
        ensures { Steps result (first_under (plain request.now) (space_of self.now) self.now) self.now }
    {
        let object = self.space()?;
        let room = self.prims.room();
        patches_of(alloc, request, self.attributes.bases, &object, room)?;
        Ok(())
    }

    // Looks at a primitive where the motions in force have these times.
    fn look_at_by(&self, alloc: Global, request: &Request, times: Times) -> Result<(), StepFault>
        requires geometry { is_geometry (row_of request.now.name).tail ≡ true }
        ensures { Steps result (first_by times (plain request.now) self.now) self.now }
    {
        match times {
            Times::Mixed => Err(StepFault::Refused(StateCode::N7)),
            _ => self.look_at(alloc, request),
        }
    }

    /// Looks at the first primitive of a motion block of these times: whether it can stand there, and what its points are.
    pub(crate) fn look_at_first(
        &self,
        alloc: Global,
        from: Num,
        to: Num,
        request: &Request,
    ) -> Result<(), StepFault>
        requires geometry { is_geometry (row_of request.now.name).tail ≡ true }
        ensures { Steps result (first_looked_at from to (plain request.now) self.now) self.now }
    {
        if self.world.is_none() {
            return Err(StepFault::Refused(StateCode::N5));
        }
        let times = self.times().joined(Times::Between { from, to });
        self.look_at_by(alloc, request, times)
    }

    /// Places both primitives of a motion block of these times, which are one that moves, of the first one's line.
    pub(crate) fn place_both(
        &mut self,
        alloc: Global,
        from: Num,
        to: Num,
        first: &Request,
        last: &Request,
    ) -> Result<(), StepFault>
        requires geometry { is_geometry (row_of first.now.name).tail ≡ true }
        requires lights { LastAreAt self.old }
        requires first { has_points (row_of first.now.name).tail ≡ true }
        requires last { has_points (row_of last.now.name).tail ≡ true }
        ensures { Steps result (both_placed from to (plain first.now) (plain last.now) self.old) self.new }
    {
        if !are_alike(first, last) {
            return Err(StepFault::Refused(StateCode::N6));
        }
        if self.world.is_none() {
            return Err(StepFault::Refused(StateCode::N5));
        }
        self.place_moving(alloc, first, last, from, to)
    }
}
