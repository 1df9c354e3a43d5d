// The primitives of an open world.
ghost use Rattle.std.specs.Prelude.{◌≡◌, ◌≤◌, List as Items, [], ◌++◌, ◌+◌, ◌-◌, length, slice_get, option_map, IfOk};
ghost use Rattle.scene.specs.Scene.{PrimValue, most_prims};

use fixed_math::{List, NoMemory};
use scene::{LightPlaces, Prim};
use std::alloc::Global;
use std::marker::Model;
use std::mem;

/// The most primitives of a frame.
pub(crate) const MOST_PRIMS: usize = 65536;

/// The primitives of an open world, no more than a frame has.
#[derive(Drop)]
pub(crate) struct Prims {
    prims: List<Prim>,
}

impl Model for Prims {
    ghost Value = { Items PrimValue };

    ghost view = { λ p. p.prims };

    ghost invariant = { λ p. length p.prims ≤ most_prims };
}

impl Prims {
    /// No primitives.
    pub(crate) fn new(alloc: Global) -> Prims
        ensures { result ≡ [] }
    {
        Prims {
            prims: List(Vec::new(alloc)),
        }
    }

    /// How many primitives the frame may still take.
    pub(crate) fn room(&self) -> usize
        ensures room { result ≡ most_prims - length self.now }
        ensures few { length self.now ≤ most_prims }
    {
        MOST_PRIMS - self.prims.len()
    }

    /// The lights of the last primitive.
    pub(crate) fn last_lights(&self) -> Option<&LightPlaces>
        ensures { option_map (λ l. l.now) result ≡ option_map (λ p. p.lights) (slice_get self.now (length self.now - 1)) }
    {
        match self.prims.as_slice().last() {
            Some(prim) => Some(&prim.lights),
            None => None,
        }
    }

    /// Primitives more, in order.
    pub(crate) fn add(&mut self, more: List<Prim>) -> Result<(), NoMemory>
        requires { length self.old + length more ≤ most_prims }
        ensures { IfOk result (λ _. self.new ≡ self.old ++ more) }
    {
        let mut more = more;
        self.prims.0.append(&mut more.0)?;
        Ok(())
    }

    /// All primitives, of which none is left.
    pub(crate) fn take(&mut self, alloc: Global) -> List<Prim>
        ensures all { result ≡ self.old }
        ensures few { length result ≤ most_prims }
        ensures none { self.new ≡ [] }
    {
        mem::replace(&mut self.prims, List(Vec::new(alloc)))
    }
}
