// The lights of primitives.
ghost use Rattle.std.specs.Prelude.{◌≡◌, ◌<◌, ◌++◌, take, length, slice_index, IfOk, IfSome};

use crate::shared::Shared;
use fixed_math::{List, NoMemory};
use std::alloc::Global;
use std::marker::Model;

/// The places of a primitive's lights among the scene's uses, in order. Contracts see the list.
///
/// Tens of thousands of lights may be in force over a world, of which its requests can exchange 64 at most, and those stand behind all
/// others. So the list stands in two parts, of which primitives share the first.
#[derive(Drop)]
pub struct LightPlaces {
    unnamed: Shared<List<u32>>,
    named: Shared<List<u32>>,
}

impl Model for LightPlaces {
    ghost use Rattle.std.specs.Prelude.{ℕ, ◌+◌, ◌<◌, ◌^◌, List as Items, ◌++◌, length};

    ghost Value = { Items ℕ };

    ghost view = { λ l. l.unnamed ++ l.named };

    ghost invariant = { λ l. length l.unnamed + length l.named < 2 ^ 64 };
}

// Some of these places, in a list of their own.
fn list_of(alloc: Global, places: &[u32]) -> Result<Shared<List<u32>>, NoMemory>
    ensures { IfOk result (λ p. p ≡ places.now) }
{
    let mut list = Vec::new(alloc);
    list.extend_from_slice(places)?;
    Shared::new(alloc, List(list))
}

impl LightPlaces {
    /// These places, of which other primitives may share the first `front` ones.
    pub fn new(alloc: Global, places: &[u32], front: usize) -> Result<LightPlaces, NoMemory>
        ensures { IfOk result (λ l. l ≡ places.now) }
    {
        let (unnamed, named) = places.split_at(front.min(places.len()));
        Ok(LightPlaces {
            unnamed: list_of(alloc, unnamed)?,
            named: list_of(alloc, named)?,
        })
    }

    /// The first `front` of these places, which are shared, or `None` where it isn't so many that can be shared.
    pub fn first(&self, alloc: Global, front: usize) -> Result<Option<LightPlaces>, NoMemory>
        ensures { IfOk result (λ o. IfSome o (λ l. l ≡ take front self.now)) }
    {
        if self.unnamed.get().len() != front {
            return Ok(None);
        }
        Ok(Some(LightPlaces {
            unnamed: self.unnamed.shared()?,
            named: Shared::new(alloc, List(Vec::new(alloc)))?,
        }))
    }

    /// These places and others behind them. Those that can be shared are shared.
    pub fn and(&self, alloc: Global, others: &[u32]) -> Result<LightPlaces, NoMemory>
        ensures { IfOk result (λ l. l ≡ self.now ++ others.now) }
    {
        let mut named = Vec::new(alloc);
        named.extend_from_slice(self.named.get().as_slice())?;
        named.extend_from_slice(others)?;
        if self.unnamed.get().len().checked_add(named.len()).is_none() {
            return Err(NoMemory);
        }
        Ok(LightPlaces {
            unnamed: self.unnamed.shared()?,
            named: Shared::new(alloc, List(named))?,
        })
    }

    /// The same places, held by one more, or want of memory.
    pub fn shared(&self) -> Result<LightPlaces, NoMemory>
        ensures { IfOk result (λ l. l ≡ self.now) }
    {
        Ok(LightPlaces {
            unnamed: self.unnamed.shared()?,
            named: self.named.shared()?,
        })
    }

    /// How many lights there are.
    pub fn len(&self) -> usize
        ensures { result ≡ length self.now }
    {
        self.unnamed.get().len() + self.named.get().len()
    }

    /// The place of light `k`.
    pub fn at(&self, k: usize) -> u32
        requires { k < length self.now }
        ensures { result ≡ slice_index self.now k }
    {
        let (unnamed, named) = (self.unnamed.get().as_slice(), self.named.get().as_slice());
        if k < unnamed.len() {
            unnamed[k]
        } else {
            named[k - unnamed.len()]
        }
    }
}
