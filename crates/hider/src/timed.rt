// The samples of a tile in order of their numbers, and by the steps of the shutter's interval.
ghost use Rattle.std.specs.Prelude.{◌≤◌, OnOk, length};
ghost use Rattle.hider.specs.StepRows.{AreSteps};

use crate::places::Places;
use crate::steps::StepSamples;
use fixed_math::NoMemory;

/// Finds the samples of the steps, of those that aren't known yet.
pub(crate) fn find_steps(steps: &mut Vec<StepSamples>, places: &Places<'_>) -> Result<(), NoMemory>
    requires { AreSteps places.now.grid steps.old.items }
    ensures known { AreSteps places.now.grid steps.new.items }
    ensures all { OnOk result (8 ≤ length steps.new.items) }
{
    let alloc = *steps.allocator();
    for step in steps.len()..8 {
        steps.push(StepSamples::new(alloc, places, step)?)?;
    }
    Ok(())
}

/// The samples of a tile, in order of their numbers and by the steps of the shutter's interval.
#[derive(Clone, Copy)]
pub(crate) struct TimedPlaces<'a> {
    pub(crate) places: Places<'a>,
    pub(crate) steps: &'a [StepSamples],
    pub(crate) ghost known: { AreSteps places.grid steps.now },
    pub(crate) ghost all: { 8 ≤ length steps.now },
}
