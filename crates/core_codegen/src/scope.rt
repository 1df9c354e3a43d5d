// What code is made of the variables in scope.
ghost use Rattle.std.specs.Prelude.{◌≡◌, ◌+◌, ◌^◌, ◌<◌, ◌++◌, ◌∷◌, [], length, take, IfOk, OnOk};
ghost use Rattle.sl_meaning.specs.Core.{slot as slot_as};
ghost use Rattle.core_codegen.specs.Variables as spec;
ghost use Rattle.core_codegen.specs.Fine.{InScope};
ghost use Rattle.core_codegen.specs.Slots.{slots_of, scope_of};

use crate::slot::Scope;
use builtins::shape_of;
use fixed_math::NoMemory;
use grid_code::{Register, Slot, register, register_of};
use sl_ast::{SlType, Variable};
use std::alloc::Global;

impl Scope {
    pub(crate) fn new(alloc: Global) -> Scope
        ensures { scope_of result ≡ [] }
    {
        Scope {
            slots: Vec::new(alloc),
        }
    }

    pub(crate) fn of(alloc: Global, slots: &[Slot]) -> Result<Scope, NoMemory>
        ensures { IfOk result (λ s. scope_of s ≡ slots_of slots.now) }
    {
        Ok(Scope {
            slots: slots.to_vec(alloc)?,
        })
    }

    // How many variables are in scope.
    #[tactic(auto, using(crate::proofs::Slots::length_slots))]
    pub(crate) fn depth(&self) -> usize
        ensures { result ≡ length (scope_of self.now) }
    {
        self.slots.len()
    }

    // The first register behind the frame that begins at `base`.
    #[tactic(auto, using(crate::proofs::Slots::length_slots))]
    pub(crate) fn end(&self, base: u32) -> u32
        requires fits { base + length (scope_of self.now) < 2 ^ 32 }
        ensures { result ≡ base + length (scope_of self.now) }
    {
        base + self.depth() as u32
    }

    // One variable more.
    #[tactic(auto, using(crate::proofs::Slots::slots_pushed))]
    pub(crate) fn declare(&mut self, uniform: bool, kind: SlType) -> Result<(), NoMemory>
        ensures { OnOk result (scope_of self.new ≡ scope_of self.old ++ slot_as uniform kind ∷ []) }
    {
        self.slots.push(Slot { uniform, kind })?;
        Ok(())
    }

    // The first `depth` variables alone.
    #[tactic(auto, using(crate::proofs::Slots::slots_cut))]
    pub(crate) fn cut(&mut self, depth: usize)
        ensures { scope_of self.new ≡ take depth (scope_of self.old) }
    {
        self.slots.truncate(depth);
    }

    // The register of a variable, where the frame begins at `base`.
    #[tactic(auto, using(crate::proofs::Slots::slots_at, crate::proofs::Slots::length_slots))]
    pub(crate) fn register_of(&self, variable: Variable, base: u32) -> Register
        requires scoped { InScope variable (scope_of self.now) }
        requires fits { base + length (scope_of self.now) < 2 ^ 32 }
        ensures { result ≡ spec.variable (scope_of self.now) base variable }
    {
        match variable {
            Variable::Predefined(name) => register_of(name),
            Variable::Level(level) => {
                let slot = self.slots[level as usize];
                register(slot.uniform, shape_of(slot.kind), base + level)
            }
        }
    }
}
