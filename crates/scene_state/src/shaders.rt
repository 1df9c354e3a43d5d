// Shader requests, and lights by their numbers.
ghost use Rattle.std.specs.Prelude.{◌≡◌, IfOk, IfSome, Some, slice_get, option_map, take};
ghost use Rattle.scene_parts.specs.Lights.{made_before};
ghost use Rattle.scene_state.specs.Unnamed.{SomeAreAt};
ghost use Rattle.scene_state.specs.Shaders.{IsWaiting, first_shaders, with_request, placed, some_placed, all_placed, worn_by, light_of};

use crate::attributes::Attributes;
use fixed_math::{List, NoMemory, Text};
use scene::{LightPlaces, ShaderKind, ShaderUse};
use scene_parts::LightsInForce;
use std::alloc::Global;
use std::mem;
use transforms::Affine;

/// A shader request: it waits until a primitive has it, and is then one of the scene's uses.
#[derive(Drop)]
pub(crate) enum Slot {
    Waiting(ShaderUse),
    Used(u32),
}

/// All shader requests so far, and the uses that they became, in order of first use.
#[derive(Drop)]
pub(crate) struct Shaders {
    pub(crate) slots: List<Slot>,
    pub(crate) uses: List<ShaderUse>,
}

/// The places of a primitive's shaders among the uses.
#[derive(Drop)]
pub(crate) struct Worn {
    pub(crate) surface: u32,
    pub(crate) displacement: Option<u32>,
    pub(crate) atmosphere: Option<u32>,
    pub(crate) lights: LightPlaces,
}

/// A light by the number that a scene calls it.
#[derive(Clone, Copy)]
pub(crate) struct Handle {
    pub(crate) number: i64,
    pub(crate) light: usize,
}

impl Shaders {
    /// The surface that holds at the start.
    pub(crate) fn first(alloc: Global) -> Result<Shaders, NoMemory>
        ensures { IfOk result (λ s. s ≡ first_shaders) }
    {
        let surface = ShaderUse {
            name: Text::from_bytes(alloc, b"constant")?,
            kind: ShaderKind::Surface,
            params: List(Vec::new(alloc)),
            space: Affine::identity(),
            line: 1,
        };
        let mut slots = Vec::new(alloc);
        slots.push(Slot::Waiting(surface))?;
        Ok(Shaders {
            slots: List(slots),
            uses: List(Vec::new(alloc)),
        })
    }

    /// A request more.
    pub(crate) fn add(&mut self, shader: ShaderUse) -> Result<(), NoMemory>
        ensures { IfOk result (λ _. self.new ≡ with_request self.old shader) }
    {
        self.slots.0.push(Slot::Waiting(shader))?;
        Ok(())
    }

    /// The place among the uses of a request that a primitive has. Where no place has so great a number, want of memory.
    pub(crate) fn place(&mut self, shader: usize) -> Result<u32, NoMemory>
        ensures { IfOk result (λ n. (self.new, n) ≡ placed self.old shader) }
    {
        match self.slots.0.get(shader) {
            Some(Slot::Waiting(_)) => self.use_next(shader),
            Some(Slot::Used(place)) => Ok(*place),
            None => Ok(0),
        }
    }

    // The place of a request that waits, which becomes the next of the uses.
    fn use_next(&mut self, shader: usize) -> Result<u32, NoMemory>
        requires { IsWaiting (slice_get self.old.slots shader) }
        ensures { IfOk result (λ n. (self.new, n) ≡ placed self.old shader) }
    {
        let Ok(next) = u32::try_from(self.uses.0.len()) else {
            return Err(NoMemory);
        };
        match mem::replace(&mut self.slots.0[shader], Slot::Used(next)) {
            Slot::Waiting(shader) => self.uses.0.push(shader)?,
            Slot::Used(_) => unreachable!(),
        }
        Ok(next)
    }

    /// The place of one that may be there.
    pub(crate) fn place_some(&mut self, shader: Option<usize>) -> Result<Option<u32>, NoMemory>
        ensures { IfOk result (λ n. (self.new, n) ≡ some_placed self.old shader) }
    {
        match shader {
            Some(shader) => Ok(Some(self.place(shader)?)),
            None => Ok(None),
        }
    }

    /// The places of several, in order.
    pub(crate) fn place_all(
        &mut self,
        alloc: Global,
        shaders: &[usize],
    ) -> Result<List<u32>, NoMemory>
        ensures { IfOk result (λ ns. (self.new, ns) ≡ all_placed self.old shaders.now) }
    {
        let mut places = Vec::new(alloc);
        for shader in shaders {
            places.push(self.place(*shader)?)?;
        }
        Ok(List(places))
    }

    // The places of the lights in force, each looked up. The first `front` may be shared.
    fn place_each(
        &mut self,
        alloc: Global,
        lights: &LightsInForce,
        front: usize,
    ) -> Result<LightPlaces, NoMemory>
        ensures { IfOk result (λ ns. (self.new, ns) ≡ all_placed self.old lights.now) }
    {
        let lights = lights.in_order(alloc)?;
        let places = self.place_all(alloc, lights.as_slice())?;
        LightPlaces::new(alloc, places.as_slice(), front)
    }

    // The places of the lights in force. Those that were made before light `first` have the places with which
    // the last lights begin.
    fn place_lights(
        &mut self,
        alloc: Global,
        lights: &LightsInForce,
        first: Option<usize>,
        last: Option<&LightPlaces>,
    ) -> Result<LightPlaces, NoMemory>
        requires { SomeAreAt self.old.slots (made_before first lights.now) (option_map (λ l. l.now) last) }
        ensures { IfOk result (λ ns. (self.new, ns) ≡ all_placed self.old lights.now) }
    {
        let Some((front, others)) = lights.split_at(first) else {
            return self.place_each(alloc, lights, 0);
        };
        let Some(shared) = first_of(alloc, last, front)? else {
            return self.place_each(alloc, lights, front);
        };
        let places = self.place_all(alloc, others)?;
        shared.and(alloc, places.as_slice())
    }

    /// The places of those that a primitive with these attributes has, where the last one's lights begin with the places of all
    /// lights in force that were made before light `first`.
    pub(crate) fn wear(
        &mut self,
        alloc: Global,
        attributes: &Attributes,
        first: Option<usize>,
        last: Option<&LightPlaces>,
    ) -> Result<Worn, NoMemory>
        requires { SomeAreAt self.old.slots (made_before first attributes.now.lights) (option_map (λ l. l.now) last) }
        ensures { IfOk result (λ worn. (self.new, worn) ≡ worn_by self.old attributes.now) }
    {
        let displacement = self.place_some(attributes.displacement)?;
        let surface = self.place(attributes.surface)?;
        let atmosphere = self.place_some(attributes.atmosphere)?;
        let lights = self.place_lights(alloc, &attributes.lights, first, last)?;
        Ok(Worn {
            surface,
            displacement,
            atmosphere,
            lights,
        })
    }
}

// The first `front` places of the last lights, where there are some and they can be shared.
fn first_of(
    alloc: Global,
    last: Option<&LightPlaces>,
    front: usize,
) -> Result<Option<LightPlaces>, NoMemory>
    ensures { IfOk result (λ o. IfSome o (λ l. option_map (take front) (option_map (λ p. p.now) last.entry) ≡ Some l)) }
{
    match last {
        Some(last) => last.first(alloc, front),
        None => Ok(None),
    }
}

/// The light that a number stands for: the one that was made last.
pub(crate) fn light_of(handles: &[Handle], number: i64) -> Option<usize>
    ensures { result ≡ light_of handles.now number }
{
    let mut found = None;
    for handle in handles {
        if handle.number == number {
            found = Some(handle.light);
        }
    }
    found
}
