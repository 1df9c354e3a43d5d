// Lists of lights one behind another, which many hold.
ghost use Rattle.std.specs.Prelude.{◌≡◌, [], ◌++◌, length, IfOk};
ghost use Rattle.std.specs.List.{concat};

use crate::shared_lights::SharedLights;
use fixed_math::{List, NoMemory};
use std::alloc::Global;
use std::marker::Model;
use std::rc::Rc;

/// The lights that were in force when worlds ended, run behind run, which many may hold in one place of memory. Contracts see the
/// lights of all runs in order. A run more copies no light of the runs before it, and there are no more runs than worlds.
#[derive(Drop)]
pub(crate) struct EarlierLights {
    runs: Rc<List<SharedLights>, Global>,
    count: usize,
}

impl Model for EarlierLights {
    ghost use Rattle.std.specs.Prelude.{◌≡◌, ℕ, List as Items, length};
    ghost use Rattle.std.specs.List.{concat};

    ghost Value = { Items ℕ };

    ghost view = { λ l. concat l.runs.value };

    ghost invariant = { λ l. l.count ≡ length (concat l.runs.value) };
}

// The same runs, held by one more.
fn shared_runs(alloc: Global, runs: &[SharedLights]) -> Result<List<SharedLights>, NoMemory>
    ensures { IfOk result (λ l. l ≡ runs.now) }
{
    let mut all = Vec::new(alloc);
    for run in runs {
        all.push(run.shared()?)?;
    }
    Ok(List(all))
}

// Adds the lights of all runs, in order.
#[tactic(auto, using(crate::proofs::LightRuns::append_nothing, std::proofs::Common::append_assoc))]
fn add_runs(lights: &mut Vec<usize>, runs: &[SharedLights]) -> Result<(), NoMemory>
    ensures { IfOk result (λ _. lights.new.items ≡ lights.old.items ++ concat runs.now) }
{
    for run in runs {
        lights.extend_from_slice(run.as_slice())?;
    }
    Ok(())
}

impl EarlierLights {
    /// No lights.
    pub(crate) fn none(alloc: Global) -> Result<EarlierLights, NoMemory>
        ensures { IfOk result (λ l. l ≡ []) }
    {
        Ok(EarlierLights {
            runs: Rc::new(alloc, List(Vec::new(alloc)))?,
            count: 0,
        })
    }

    /// These lights alone.
    #[tactic(auto, using(crate::proofs::LightRuns::one_run))]
    pub(crate) fn of(alloc: Global, lights: SharedLights) -> Result<EarlierLights, NoMemory>
        ensures { IfOk result (λ l. l ≡ lights) }
    {
        let count = lights.as_slice().len();
        let mut runs = Vec::new(alloc);
        runs.push(lights)?;
        Ok(EarlierLights {
            runs: Rc::new(alloc, List(runs))?,
            count,
        })
    }

    /// The same lights, held by one more.
    pub(crate) fn shared(&self) -> Result<EarlierLights, NoMemory>
        ensures { IfOk result (λ l. l ≡ self.now) }
    {
        Ok(EarlierLights {
            runs: self.runs.clone()?,
            count: self.count,
        })
    }

    /// These lights and others behind them, which are shared.
    #[tactic(auto, using(crate::proofs::LightRuns::run_more))]
    pub(crate) fn and(
        &self,
        alloc: Global,
        others: &SharedLights,
    ) -> Result<EarlierLights, NoMemory>
        ensures { IfOk result (λ l. l ≡ self.now ++ others.now) }
    {
        let Some(count) = self.count.checked_add(others.as_slice().len()) else {
            return Err(NoMemory);
        };
        let mut runs = shared_runs(alloc, self.runs.as_ref().as_slice())?;
        runs.0.push(others.shared()?)?;
        Ok(EarlierLights {
            runs: Rc::new(alloc, runs)?,
            count,
        })
    }

    /// How many lights there are.
    pub(crate) fn len(&self) -> usize
        ensures { result ≡ length self.now }
    {
        self.count
    }

    /// Adds the lights to others, in order.
    pub(crate) fn add_to(&self, lights: &mut Vec<usize>) -> Result<(), NoMemory>
        ensures { IfOk result (λ _. lights.new.items ≡ lights.old.items ++ self.now) }
    {
        add_runs(lights, self.runs.as_ref().as_slice())
    }

    /// The lights in one list.
    pub(crate) fn joined(&self, alloc: Global) -> Result<SharedLights, NoMemory>
        ensures { IfOk result (λ l. l ≡ self.now) }
    {
        let mut lights = Vec::new(alloc);
        self.add_to(&mut lights)?;
        SharedLights::of(alloc, List(lights))
    }
}
