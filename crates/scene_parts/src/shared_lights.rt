// Lists of lights that many hold.
ghost use Rattle.std.specs.Prelude.{◌≡◌, [], ◌∷◌, ◌++◌, IfOk};
ghost use Rattle.scene_parts.specs.Lights.{is_among, without_light};

use fixed_math::{List, NoMemory};
use std::alloc::Global;
use std::marker::Model;
use std::rc::Rc;

/// Lights in order, which many may hold in one place of memory. Contracts see the list.
#[derive(Drop)]
pub(crate) struct SharedLights {
    lights: Rc<List<usize>, Global>,
}

impl Model for SharedLights {
    ghost use Rattle.std.specs.Prelude.{ℕ, List as Items};

    ghost Value = { Items ℕ };

    ghost view = { λ l. l.lights.value };
}

impl SharedLights {
    /// No lights.
    pub(crate) fn none(alloc: Global) -> Result<SharedLights, NoMemory>
        ensures { IfOk result (λ l. l ≡ []) }
    {
        SharedLights::of(alloc, List(Vec::new(alloc)))
    }

    /// Lights that one holds.
    pub(crate) fn of(alloc: Global, lights: List<usize>) -> Result<SharedLights, NoMemory>
        ensures { IfOk result (λ l. l ≡ lights) }
    {
        Ok(SharedLights {
            lights: Rc::new(alloc, lights)?,
        })
    }

    /// The same lights, held by one more.
    pub(crate) fn shared(&self) -> Result<SharedLights, NoMemory>
        ensures { IfOk result (λ l. l ≡ self.now) }
    {
        Ok(SharedLights {
            lights: self.lights.clone()?,
        })
    }

    /// The lights in order.
    pub(crate) fn as_slice(&self) -> &[usize]
        ensures { result.now ≡ self.now }
    {
        self.lights.as_ref().as_slice()
    }

    /// Whether the light is one of them.
    pub(crate) fn has(&self, light: usize) -> bool
        ensures { result ≡ is_among light self.now }
    {
        self.as_slice().iter().any(|other| *other == light)
    }

    /// These and others behind them.
    pub(crate) fn and(&self, alloc: Global, others: &[usize]) -> Result<SharedLights, NoMemory>
        ensures { IfOk result (λ l. l ≡ self.now ++ others.now) }
    {
        let mut lights = Vec::new(alloc);
        lights.extend_from_slice(self.as_slice())?;
        lights.extend_from_slice(others)?;
        SharedLights::of(alloc, List(lights))
    }

    /// Puts a light last. Where others hold the list too, it becomes a list of its own.
    pub(crate) fn push(&mut self, alloc: Global, light: usize) -> Result<(), NoMemory>
        ensures { IfOk result (λ _. self.new ≡ self.old ++ light ∷ []) }
    {
        match Rc::get_mut(&mut self.lights) {
            Some(lights) => lights.0.push(light)?,
            None => *self = self.and(alloc, &[light])?,
        }
        Ok(())
    }

    /// The lights without this one.
    pub(crate) fn without(&self, alloc: Global, light: usize) -> Result<SharedLights, NoMemory>
        ensures { IfOk result (λ l. l ≡ without_light light self.now) }
    {
        let kept = self
            .as_slice()
            .iter()
            .copied()
            .filter(|other| *other != light);
        SharedLights::of(alloc, List(kept.collect(alloc)?))
    }
}
