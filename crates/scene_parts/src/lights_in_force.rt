// The lights in force.
ghost use Rattle.std.specs.Prelude.{◌≡◌, ◌<◌, ℕ, nat_le, List, [], ◌∷◌, ◌++◌, length, All, IfOk, IfSome, IsTrue};
ghost use Rattle.std.specs.List.{list_all};
ghost use Rattle.scene_parts.specs.Lights.{is_among, with_light, without_light, made_before};

use crate::earlier_lights::EarlierLights;
use crate::shared_lights::SharedLights;
use fixed_math::NoMemory;
use std::alloc::Global;
use std::marker::Model;

/// The lights in force, in order. Contracts see the list.
///
/// A scene can leave tens of thousands of lights in force over its worlds, while at most 64 have a number, by which they are put
/// into force and taken out of it; and blocks by the hundred thousand save the list, and bring it back. So the lights stand in lists
/// that are shared, those without a number first, and a light at or past `bound` is looked for among the later ones alone.
#[derive(Drop)]
pub struct LightsInForce {
    earlier: EarlierLights,
    bound: usize,
    later: SharedLights,
}

impl Model for LightsInForce {
    ghost use Rattle.std.specs.Prelude.{ℕ, ◌<◌, List as Items, ◌++◌, All};

    ghost Value = { Items ℕ };

    ghost view = { λ l. l.earlier ++ l.later };

    ghost invariant = { λ l. All (λ n. n < l.bound) l.earlier };
}

// Whether the light is one of those, which all lie below the bound.
fn has_below(
    alloc: Global,
    lights: &EarlierLights,
    bound: usize,
    light: usize,
) -> Result<bool, NoMemory>
    requires { All (λ n. n < bound) lights.now }
    ensures { IfOk result (λ has. has ≡ is_among light lights.now) }
{
    if light < bound {
        Ok(lights.joined(alloc)?.has(light))
    } else {
        Ok(false)
    }
}

// Those lights without this one. All lie below the bound.
fn without_below(
    alloc: Global,
    lights: &EarlierLights,
    bound: usize,
    light: usize,
) -> Result<EarlierLights, NoMemory>
    requires { All (λ n. n < bound) lights.now }
    ensures left { IfOk result (λ l. l ≡ without_light light lights.now) }
    ensures below { IfOk result (λ l. All (λ n. n < bound) l) }
{
    if light < bound {
        let joined = lights.joined(alloc)?;
        let left = joined.without(alloc, light)?;
        EarlierLights::of(alloc, left)
    } else {
        lights.shared()
    }
}

// Whether all of those lights lie at or past light `first`.
fn are_past(lights: &[usize], first: usize) -> bool
    ensures { result ≡ list_all (λ n. nat_le first n) lights.now }
{
    lights.iter().all(|light| first <= *light)
}

// Whether those lights, and none below the bound, lie at or past light `first`, or are none where there is no such light.
fn are_apart(bound: usize, later: &[usize], first: Option<usize>) -> bool
    ensures { IsTrue result → (lights : List ℕ) → All (λ n. n < bound) lights → made_before first (lights ++ later.now) ≡ lights }
{
    match first {
        Some(first) => bound <= first && are_past(later, first),
        None => later.is_empty(),
    }
}

impl LightsInForce {
    /// No lights.
    pub fn none(alloc: Global) -> Result<LightsInForce, NoMemory>
        ensures { IfOk result (λ l. l ≡ []) }
    {
        Ok(LightsInForce {
            earlier: EarlierLights::none(alloc)?,
            bound: 0,
            later: SharedLights::none(alloc)?,
        })
    }

    /// The same lights, held by one more.
    pub fn shared(&self) -> Result<LightsInForce, NoMemory>
        ensures { IfOk result (λ l. l ≡ self.now) }
    {
        Ok(LightsInForce {
            earlier: self.earlier.shared()?,
            bound: self.bound,
            later: self.later.shared()?,
        })
    }

    /// The lights in order.
    pub fn in_order(&self, alloc: Global) -> Result<Vec<usize>, NoMemory>
        ensures { IfOk result (λ l. l.items ≡ self.now) }
    {
        let mut lights = Vec::new(alloc);
        self.earlier.add_to(&mut lights)?;
        lights.extend_from_slice(self.later.as_slice())?;
        Ok(lights)
    }

    /// How many lights were made before light `first`, where there is such a light, and the others, where these stand behind them.
    pub fn split_at(&self, first: Option<usize>) -> Option<(usize, &[usize])>
        ensures count { IfSome result (λ parts. parts.0 ≡ length (made_before first self.now)) }
        ensures parts { IfSome result (λ parts. self.now ≡ made_before first self.now ++ parts.1.now) }
    {
        let later = self.later.as_slice();
        if !are_apart(self.bound, later, first) {
            return None;
        }
        Some((self.earlier.len(), later))
    }

    fn has(&self, alloc: Global, light: usize) -> Result<bool, NoMemory>
        ensures { IfOk result (λ has. has ≡ is_among light self.now) }
    {
        let is_earlier = has_below(alloc, &self.earlier, self.bound, light)?;
        Ok(is_earlier || self.later.has(light))
    }

    /// Puts a light last.
    pub fn push(&mut self, alloc: Global, light: usize) -> Result<(), NoMemory>
        ensures { IfOk result (λ _. self.new ≡ self.old ++ light ∷ []) }
    {
        self.later.push(alloc, light)
    }

    /// Puts a light into force, last, where it isn't in force.
    pub fn put(&mut self, alloc: Global, light: usize) -> Result<(), NoMemory>
        ensures { IfOk result (λ _. self.new ≡ with_light light self.old) }
    {
        if !self.has(alloc, light)? {
            self.push(alloc, light)?;
        }
        Ok(())
    }

    /// The lights in force without this one.
    pub fn without(&self, alloc: Global, light: usize) -> Result<LightsInForce, NoMemory>
        ensures { IfOk result (λ l. l ≡ without_light light self.now) }
    {
        Ok(LightsInForce {
            earlier: without_below(alloc, &self.earlier, self.bound, light)?,
            bound: self.bound,
            later: self.later.without(alloc, light)?,
        })
    }

    /// The same lights. Where all later ones were made before light `first`, none of them has a number any more: they become
    /// earlier ones.
    pub fn settle(&mut self, alloc: Global, first: usize) -> Result<(), NoMemory>
        ensures { IfOk result (λ _. self.new ≡ self.old) }
    {
        let later = self.later.as_slice();
        if later.is_empty() || !later.iter().all(|light| *light < first) {
            return Ok(());
        }
        *self = LightsInForce {
            earlier: self.earlier.and(alloc, &self.later)?,
            bound: self.bound.max(first),
            later: SharedLights::none(alloc)?,
        };
        Ok(())
    }
}
