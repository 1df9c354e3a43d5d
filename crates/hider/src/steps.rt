// The samples of a tile by the steps of the shutter's interval in which their times lie.
ghost use Rattle.std.specs.Prelude.{◌≡◌, ◌≤◌, ◌<◌, ◌+◌, ◌*◌, ◌/◌, [], IfOk, OnOk, length};
ghost use Rattle.std.specs.List.{cons_option};
ghost use Rattle.fixed_math.specs.Spots.{pixel_count};
ghost use Rattle.hider.specs.Searching.{IsPartOf, StaysIn};
ghost use Rattle.hider.specs.Steps.{AreFirstOfStep, AreStarts, HavePutInStep, in_step};
ghost use Rattle.hider.specs.Tiles.{HavePut, HaveKept, rect_of, sample_count};

use crate::list::FragmentList;
use crate::places::Places;
use crate::sample_grid::SampleGrid;
use crate::showing::Showing;
use fixed_math::NoMemory;
use std::alloc::Global;

/// The step of the shutter's interval in which a time lies.
pub(crate) fn step_of(time: u16) -> usize
    requires { time ≤ 65535 }
    ensures value { result ≡ time / 8192 }
    ensures step { result < 8 }
{
    (time / 8192) as usize
}

/// The samples of a tile whose times lie in one step of the shutter's interval.
#[derive(Drop)]
pub(crate) struct StepSamples {
    pub(crate) grid: SampleGrid,
    pub(crate) step: usize,
    /// Their numbers, in order.
    numbers: Vec<usize>,
    /// For each pixel how many of them lie in the pixels before it, and last how many there are.
    starts: Vec<usize>,
    ghost numbered: { AreFirstOfStep grid step (sample_count grid) numbers.items },
    ghost started: { AreStarts grid step (pixel_count (rect_of grid) + 1) starts.items },
}

/// Appends the numbers from `from` to below `to` of the samples whose times lie in a step.
fn push_step(
    numbers: &mut Vec<usize>,
    places: &Places<'_>,
    step: usize,
    from: usize,
    to: usize,
) -> Result<(), NoMemory>
    requires order { from ≤ to }
    requires inside { to ≤ sample_count places.now.grid }
    requires first { AreFirstOfStep places.now.grid step from numbers.old.items }
    ensures { OnOk result (AreFirstOfStep places.now.grid step to numbers.new.items) }
{
    for n in from..to {
        if step_of(places.time(n)) == step {
            numbers.push(n)?;
        }
    }
    Ok(())
}

impl StepSamples {
    /// The samples whose times lie in a step, pixel by pixel.
    pub(crate) fn new(
        alloc: Global,
        places: &Places<'_>,
        step: usize,
    ) -> Result<StepSamples, NoMemory>
        ensures grid { IfOk result (λ s. s.grid ≡ places.now.grid) }
        ensures step { IfOk result (λ s. s.step ≡ step) }
    {
        let grid = places.grid;
        let per_pixel = grid.per_pixel();
        let mut numbers = Vec::new(alloc);
        let mut starts = Vec::new(alloc);
        starts.push(0)?;
        for pixel in 0..grid.width() * grid.height() {
            let first = pixel * per_pixel;
            push_step(&mut numbers, places, step, first, first + per_pixel)?;
            starts.push(numbers.len())?;
        }
        Ok(StepSamples {
            grid,
            step,
            numbers,
            starts,
        })
    }

    /// Puts in what shows in the step at the samples of the pixels from number `from` to below `to`.
    fn put_between<S: Showing>(
        &self,
        lists: &mut [FragmentList],
        places: &Places<'_>,
        from: usize,
        to: usize,
        shown: &S,
    ) -> Result<(), NoMemory>
        requires grid { self.now.grid ≡ places.now.grid }
        requires order { from ≤ to }
        requires inside { to ≤ pixel_count (rect_of places.now.grid) }
        requires enough { sample_count places.now.grid ≤ length lists.old }
        ensures others { let k = places.now.grid.xs * places.now.grid.ys in HaveKept (from * k) (to * k) lists.old lists.new }
        ensures ok { OnOk result (HavePutInStep self.now.step from to places.now.grid (S.shown shown.now) lists.old lists.new) }
    {
        for at in self.starts[from]..self.starts[to] {
            let n = self.numbers[at];
            shown.put_at(places, n, &mut lists[n])?;
        }
        Ok(())
    }

    /// Puts in what shows in the step at each sample, where that is nothing but in the pixels of `part`: row by row.
    pub(crate) fn put_rows<S: Showing>(
        &self,
        lists: &mut [FragmentList],
        places: &Places<'_>,
        part: &SampleGrid,
        shown: &S,
    ) -> Result<(), NoMemory>
        requires grid { self.now.grid ≡ places.now.grid }
        requires enough { sample_count places.now.grid ≤ length lists.old }
        requires part { IsPartOf part.now places.now.grid }
        requires beside { StaysIn part.now places.now.grid (in_step self.now.step (S.shown shown.now)) }
        ensures { OnOk result (HavePut places.now.grid (λ s. cons_option (in_step self.now.step (S.shown shown.now) s) []) lists.old lists.new) }
    {
        let grid = places.grid;
        let width = grid.width();
        let left = (part.left - grid.left) as usize;
        let right = (part.right - grid.left) as usize;
        let top = (part.top - grid.top) as usize;
        let bottom = (part.bottom - grid.top) as usize;
        for row in top..bottom {
            let first = row * width;
            self.put_between(lists, places, first + left, first + right, shown)?;
        }
        Ok(())
    }
}
