// Values that many hold.
ghost use Rattle.std.specs.Prelude.{◌≡◌, IfOk};

use fixed_math::NoMemory;
use std::alloc::Global;
use std::marker::Model;
use std::rc::Rc;

/// A value that many may hold in one place of memory: a scene can give a text or a list of megabytes, and then primitives, frames or
/// blocks by the ten thousand that each have it. Contracts see the value.
#[derive(Drop)]
pub struct Shared<T> {
    value: Rc<T, Global>,
}

impl<T> Model for Shared<T> {
    ghost Value = { T };

    ghost view = { λ s. s.value.value };
}

impl<T: Drop> Shared<T> {
    /// A value that one holds, or want of memory.
    pub fn new(alloc: Global, value: T) -> Result<Shared<T>, NoMemory>
        ensures { IfOk result (λ s. s ≡ value) }
    {
        Ok(Shared {
            value: Rc::new(alloc, value)?,
        })
    }

    /// The same value, held by one more, or want of memory.
    pub fn shared(&self) -> Result<Shared<T>, NoMemory>
        ensures { IfOk result (λ s. s ≡ self.now) }
    {
        Ok(Shared {
            value: self.value.clone()?,
        })
    }

    /// The value.
    pub fn get(&self) -> &T
        ensures { result.now ≡ self.now }
    {
        self.value.as_ref()
    }
}
