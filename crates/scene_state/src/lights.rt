// Shader requests and lights in the state.
ghost use Rattle.std.specs.Prelude.{◌≡◌, IfOk, Some, slice_get};
ghost use Rattle.rib_reader.specs.Reading.{plain};
ghost use Rattle.rib_reader.specs.Rules.{whole_at};
ghost use Rattle.rib_reader.specs.declared.req.Req.TheVariants as reqs;
ghost use Rattle.rib_reader.specs.Table.{shapes_of};
ghost use Rattle.rib_reader.specs.declared.table.Shape.TheVariants.{Word};
ghost use Rattle.scene.specs.declared.uses.ShaderKind.TheVariants as kinds;
ghost use Rattle.scene_state.specs.State.{use_of, shader_set, light_added, light_made, illuminated_by, light_named, space_of, next_shader};
ghost use Rattle.scene_state.specs.Shaders.{with_request};
ghost use Rattle.scene_state.specs.Unnamed.{first_named};
ghost use Rattle.scene_state.specs.Steps.{with_surface, with_displacement, with_atmosphere};
ghost use Rattle.scene_state.specs.Answers.{Steps, GivesMap};

use crate::fault::StepFault;
use crate::shaders::{Handle, light_of};
use crate::state::State;
use fixed_math::NoMemory;
use rib_reader::Request;
use scene::{ShaderKind, ShaderUse, params_copy};
use scene_parts::StateCode;
use std::alloc::Global;
use transforms::{Affine, FormFault};

const MOST_LIGHTS: usize = 64;

// The use of a shader that a request asks for.
fn use_of(
    alloc: Global,
    kind: ShaderKind,
    request: &Request,
    space: Affine,
) -> Result<ShaderUse, NoMemory>
    requires { slice_get (shapes_of request.now.name) 0 ≡ Some Word }
    ensures { IfOk result (λ u. u ≡ use_of kind (plain request.now) space) }
{
    Ok(ShaderUse {
        name: request.word(0).copied(alloc)?,
        kind,
        params: params_copy(alloc, request.params.as_slice())?,
        space,
        line: request.line,
    })
}

impl State {
    // Adds a shader request, and answers its place among all of them.
    fn add_shader(
        &mut self,
        alloc: Global,
        kind: ShaderKind,
        request: &Request,
        space: Affine,
    ) -> Result<usize, NoMemory>
        requires { slice_get (shapes_of request.now.name) 0 ≡ Some Word }
        ensures place { IfOk result (λ k. k ≡ next_shader self.old) }
        ensures added { IfOk result (λ _. self.new ≡ record self.old { shaders = with_request self.old.shaders (use_of kind (plain request.now) space) }) }
    {
        let place = self.shaders.slots.len();
        self.shaders.add(use_of(alloc, kind, request, space)?)?;
        Ok(place)
    }

    pub(crate) fn set_surface(&mut self, alloc: Global, request: &Request) -> Result<(), StepFault>
        requires { request.now.name ≡ reqs.Surface }
        ensures { Steps result (shader_set kinds.Surface (plain request.now) with_surface self.old) self.new }
    {
        let space = self.shader_space()?;
        self.attributes.surface = self.add_shader(alloc, ShaderKind::Surface, request, space)?;
        Ok(())
    }

    pub(crate) fn set_displacement(
        &mut self,
        alloc: Global,
        request: &Request,
    ) -> Result<(), StepFault>
        requires { request.now.name ≡ reqs.Displacement }
        ensures { Steps result (shader_set kinds.Displacement (plain request.now) with_displacement self.old) self.new }
    {
        let space = self.shader_space()?;
        let shader = self.add_shader(alloc, ShaderKind::Displacement, request, space)?;
        self.attributes.displacement = Some(shader);
        Ok(())
    }

    pub(crate) fn set_atmosphere(
        &mut self,
        alloc: Global,
        request: &Request,
    ) -> Result<(), StepFault>
        requires { request.now.name ≡ reqs.Atmosphere }
        ensures { Steps result (shader_set kinds.Volume (plain request.now) with_atmosphere self.old) self.new }
    {
        let space = self.shader_space()?;
        let shader = self.add_shader(alloc, ShaderKind::Volume, request, space)?;
        self.attributes.atmosphere = Some(shader);
        Ok(())
    }

    // The map from the current space to camera space, or the fault of one that isn't there.
    fn shader_space(&self) -> Result<Affine, StepFault>
        ensures { GivesMap result (space_of self.now) }
    {
        Ok(self.space()?)
    }

    /// The first light that has a number: those that were made before it have none.
    pub(crate) fn first_named(&self) -> Option<usize>
        ensures { result ≡ first_named self.now.handles }
    {
        let first = self.handles.as_slice().first()?;
        Some(first.light)
    }

    // Puts a new light into force, and lets its number stand for it.
    fn add_light(&mut self, alloc: Global, light: usize, request: &Request) -> Result<(), NoMemory>
        requires { request.now.name ≡ reqs.LightSource }
        ensures { IfOk result (λ _. self.new ≡ light_added light (whole_at request.now.args 1) self.old) }
    {
        self.attributes.lights.push(alloc, light)?;
        self.handles.0.push(Handle {
            number: request.whole(1),
            light,
        })?;
        Ok(())
    }

    // Makes a light whose shader space is mapped so.
    fn make_light_in(
        &mut self,
        alloc: Global,
        request: &Request,
        space: Result<Affine, FormFault>,
    ) -> Result<(), StepFault>
        requires { request.now.name ≡ reqs.LightSource }
        ensures { Steps result (light_made (plain request.now) space self.old) self.new }
    {
        let space = space?;
        if self.handles.len() >= MOST_LIGHTS {
            return Err(StepFault::Refused(StateCode::M4));
        }
        let light = self.add_shader(alloc, ShaderKind::Light, request, space)?;
        self.add_light(alloc, light, request)?;
        Ok(())
    }

    pub(crate) fn make_light(&mut self, alloc: Global, request: &Request) -> Result<(), StepFault>
        requires { request.now.name ≡ reqs.LightSource }
        ensures { Steps result (light_made (plain request.now) (space_of self.old) self.old) self.new }
    {
        let space = self.space();
        self.make_light_in(alloc, request, space)
    }

    pub(crate) fn illuminate(&mut self, alloc: Global, request: &Request) -> Result<(), StepFault>
        requires { request.now.name ≡ reqs.Illuminate }
        ensures { Steps result (illuminated_by (light_named (whole_at request.now.args 0) self.old.handles) (whole_at request.now.args 1) self.old) self.new }
    {
        let Some(light) = light_of(self.handles.as_slice(), request.whole(0)) else {
            return Err(StepFault::Refused(StateCode::N3));
        };
        if request.whole(1) == 1 {
            self.attributes.lights.put(alloc, light)?;
        } else {
            self.attributes.lights = self.attributes.lights.without(alloc, light)?;
        }
        Ok(())
    }
}
