// The primitives that can show near a tile, of narrower and narrower rectangles.
ghost use Rattle.std.specs.Prelude.{◌≡◌, ◌≤◌, ◌<◌, ◌-◌, ◌^◌, Some, IfOk, IfSome, length, slice_get};
ghost use Rattle.bound_split.specs.Extents.{pixels_of};
ghost use Rattle.scene.specs.Scene.{FrameValue};
ghost use Rattle.buckets.specs.Narrowing.{AreCandidates, AreExtents, AreNarrowed, MissBetween};

use crate::candidates::{Candidates, lies_in, part_about};
use bound_split::Extent;
use fixed_math::NoMemory;
use std::alloc::Global;

// How many of the rectangles hold a tile, but one in any case: each of them lies in that before it.
fn holding(narrowed: &[Candidates], tile: [u32; 4]) -> usize
    ensures { 1 ≤ length narrowed.now → 1 ≤ result }
{
    let mut count = narrowed.len();
    while count > 1 {
        if lies_in(tile, narrowed[count - 1].rect) {
            return count;
        }
        count -= 1;
    }
    count
}

// The primitives of about half of a rectangle, in which a tile lies; none where that is all of it, or where there are too few to
// matter.
fn half_of(
    alloc: Global,
    last: &Candidates,
    extents: &[Extent],
    tile: [u32; 4],
) -> Result<Option<Candidates>, NoMemory>
    ensures { IfOk result (λ half. IfSome half (λ c. (f : FrameValue) → AreExtents f extents.now → AreCandidates f last.now → AreCandidates f c)) }
{
    if last.numbers.len() < 16 {
        return Ok(None);
    }
    let part = part_about(last.rect, tile);
    if !lies_in(part, last.rect) {
        return Ok(None);
    }
    if lies_in(last.rect, part) {
        return Ok(None);
    }
    let half = last.within(alloc, extents, part)?;
    Ok(Some(half))
}

// The last of some.
fn last_of(narrowed: &[Candidates]) -> &Candidates
    requires { 1 ≤ length narrowed.now }
    ensures { slice_get narrowed.now (length narrowed.now - 1) ≡ Some result.now }
{
    &narrowed[narrowed.len() - 1]
}

// Adds a rectangle of about half of the last one, in which a tile lies; the answer is whether it did.
fn narrow(
    alloc: Global,
    narrowed: &mut Vec<Candidates>,
    extents: &[Extent],
    tile: [u32; 4],
) -> Result<bool, NoMemory>
    requires { 1 ≤ length narrowed.old.items }
    ensures some { 1 ≤ length narrowed.new.items }
    ensures each { (f : FrameValue) → AreExtents f extents.now → AreNarrowed f narrowed.old.items → AreNarrowed f narrowed.new.items }
{
    let Some(half) = half_of(alloc, last_of(narrowed.as_slice()), extents, tile)? else {
        return Ok(false);
    };
    narrowed.push(half)?;
    Ok(true)
}

/// Goes on with the rectangles that hold a tile, and adds narrower ones. A rectangle of 4096 by 4096 pixels is halved less than 32
/// times.
pub(crate) fn narrow_to(
    alloc: Global,
    narrowed: &mut Vec<Candidates>,
    extents: &[Extent],
    tile: [u32; 4],
) -> Result<(), NoMemory>
    requires { 1 ≤ length narrowed.old.items }
    ensures { (f : FrameValue) → AreExtents f extents.now → AreNarrowed f narrowed.old.items → AreNarrowed f narrowed.new.items }
{
    let count = holding(narrowed.as_slice(), tile);
    narrowed.truncate(count);
    for _ in 0..32 {
        if !narrow(alloc, narrowed, extents, tile)? {
            return Ok(());
        }
    }
    Ok(())
}

/// The number of the next primitive behind that of a number, which stands at a place, but for some that can't show in a tile. None
/// where nothing is known of it.
pub(crate) fn behind(
    narrowed: &[Candidates],
    place: usize,
    number: usize,
    count: usize,
    tile: [u32; 4],
) -> Option<usize>
    requires some { 1 ≤ length narrowed.now }
    requires few { count ≤ 65536 }
    ensures place { IfSome result (λ next. place < 18446744073709551615) }
    ensures further { IfSome result (λ next. number < next) }
    ensures small { IfSome result (λ next. next < 2 ^ 32) }
    ensures missed { IfSome result (λ next. (f : FrameValue) → length f.prims ≡ count → AreNarrowed f narrowed.now → MissBetween f (pixels_of tile) number next) }
{
    let last = last_of(narrowed);
    if !lies_in(tile, last.rect) {
        return None;
    }
    last.behind(place, number, count)
}
