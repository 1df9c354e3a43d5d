// The attributes of primitives.
ghost use Rattle.std.specs.Prelude.{◌≡◌, IfOk};
ghost use Rattle.scene_state.specs.Shaders.{first_attributes};

use fixed_math::NoMemory;
use scene_parts::{Bases, LightsInForce, Look};
use std::alloc::Global;

/// The attributes in force. A shader is named by its place among all shader requests so far.
#[derive(Drop)]
pub(crate) struct Attributes {
    pub(crate) look: Look,
    pub(crate) bases: Bases,
    pub(crate) surface: usize,
    pub(crate) displacement: Option<usize>,
    pub(crate) atmosphere: Option<usize>,
    pub(crate) lights: LightsInForce,
}

impl Attributes {
    /// The attributes at the start.
    pub(crate) fn first(alloc: Global) -> Result<Attributes, NoMemory>
        ensures { IfOk result (λ a. a ≡ first_attributes) }
    {
        Ok(Attributes {
            look: Look::first(),
            bases: Bases::first(),
            surface: 0,
            displacement: None,
            atmosphere: None,
            lights: LightsInForce::none(alloc)?,
        })
    }

    /// The same attributes, with their list of lights shared.
    pub(crate) fn shared(&self) -> Result<Attributes, NoMemory>
        ensures { IfOk result (λ a. a ≡ self.now) }
    {
        Ok(Attributes {
            look: self.look,
            bases: self.bases,
            surface: self.surface,
            displacement: self.displacement,
            atmosphere: self.atmosphere,
            lights: self.lights.shared()?,
        })
    }
}
