// Which primitives can show in a rectangle of pixels.
ghost use Rattle.std.specs.Prelude.{◌≡◌, ◌≤◌, ◌<◌, ◌+◌, ◌^◌, false, IsTrue, IfOk, IfSome, length, slice_index_or};
ghost use Rattle.bound_split.specs.Extents.{pixels_of};
ghost use Rattle.scene.specs.Scene.{FrameValue};
ghost use Rattle.buckets.specs.Narrowing.{AreCandidates, AreExtents, LiesIn, MissBetween, Misses};

use bound_split::Extent;
use fixed_math::NoMemory;
use std::alloc::Global;

/// The numbers of the primitives of a frame that can show in a rectangle of pixels, in order. The first primitive of the frame stands
/// before all, whether it can or not.
#[derive(Drop)]
pub(crate) struct Candidates {
    pub(crate) rect: [u32; 4],
    pub(crate) numbers: Vec<u32>,
}

/// Whether a rectangle of pixels lies in another one.
pub(crate) fn lies_in(inner: [u32; 4], outer: [u32; 4]) -> bool
    ensures { IsTrue result → LiesIn (pixels_of inner) (pixels_of outer) }
{
    let [left, top, right, bottom] = inner;
    let [from_x, from_y, to_x, to_y] = outer;
    if left < from_x {
        return false;
    }
    if to_x < right {
        return false;
    }
    if top < from_y {
        return false;
    }
    bottom <= to_y
}

// About half of a span of pixels, with those from `first` to below `last` in it; these alone where there are no more than some four
// times as many.
fn half_about(from: u32, to: u32, first: u32, last: u32) -> [u32; 2] {
    let size = last.saturating_sub(first);
    let middle = from / 2 + to / 2;
    if to.saturating_sub(from) / 4 <= size {
        [first, last]
    } else if last <= middle.saturating_add(size) {
        [from, middle.saturating_add(size)]
    } else {
        [middle.saturating_sub(size), to]
    }
}

/// About half of a rectangle of pixels, with those of a tile in it: fewer rows where there are more than the tile's, else fewer columns.
pub(crate) fn part_about(rect: [u32; 4], tile: [u32; 4]) -> [u32; 4] {
    let [left, top, right, bottom] = rect;
    let [first_x, first_y, last_x, last_y] = tile;
    if top == first_y && bottom == last_y {
        let [from, to] = half_about(left, right, first_x, last_x);
        return [from, top, to, bottom];
    }
    let [from, to] = half_about(top, bottom, first_y, last_y);
    [left, from, right, to]
}

// Whether the primitive of a number can show in a rectangle of pixels, by the extents of all.
fn can_meet(extents: &[Extent], number: usize, rect: [u32; 4]) -> bool
    ensures { (f : FrameValue) → AreExtents f extents.now → result ≡ false → Misses f (pixels_of rect) number }
{
    if number >= extents.len() {
        return true;
    }
    let extent = extents[number];
    extent.meets(rect)
}

// Whether the primitive of a number, which stands at a place, is kept for a rectangle of pixels. The first one always is.
fn is_kept(extents: &[Extent], place: usize, number: u32, rect: [u32; 4]) -> bool
    ensures { (f : FrameValue) → AreExtents f extents.now → result ≡ false → Misses f (pixels_of rect) number }
{
    if place == 0 {
        return true;
    }
    can_meet(extents, number as usize, rect)
}

// The number behind the one at a place, `count` behind the last one.
fn next_at(numbers: &[u32], place: usize, count: usize) -> usize
    requires place { place < length numbers.now }
    requires few { count ≤ 65536 }
    ensures value { result ≡ slice_index_or numbers.now (place + 1) count }
    ensures small { result < 2 ^ 32 }
{
    let behind = place + 1;
    if behind < numbers.len() {
        numbers[behind] as usize
    } else {
        count
    }
}

impl Candidates {
    /// All primitives of a frame of so many, wherever they show.
    pub(crate) fn all(alloc: Global, count: usize) -> Result<Candidates, NoMemory>
        requires { count ≤ 65536 }
        ensures { IfOk result (λ c. (f : FrameValue) → length f.prims ≡ count → AreCandidates f c) }
    {
        let mut numbers = Vec::new(alloc);
        for number in 0..count {
            numbers.push(number as u32)?;
        }
        Ok(Candidates {
            rect: [0, 0, 4096, 4096],
            numbers,
        })
    }

    /// Those of them that can show in a part of the rectangle, by the extents of all primitives.
    pub(crate) fn within(
        &self,
        alloc: Global,
        extents: &[Extent],
        part: [u32; 4],
    ) -> Result<Candidates, NoMemory>
        requires { LiesIn (pixels_of part) (pixels_of self.now.rect) }
        ensures { IfOk result (λ c. (f : FrameValue) → AreExtents f extents.now → AreCandidates f self.now → AreCandidates f c) }
    {
        let old = self.numbers.as_slice();
        let mut numbers = Vec::new(alloc);
        for place in 0..old.len() {
            if is_kept(extents, place, old[place], part) {
                numbers.push(old[place])?;
            }
        }
        Ok(Candidates {
            rect: part,
            numbers,
        })
    }

    /// The number behind `number`, which stands at a place, of `count` primitives; none where it doesn't stand there. The primitives
    /// between them can't show.
    pub(crate) fn behind(&self, place: usize, number: usize, count: usize) -> Option<usize>
        requires { count ≤ 65536 }
        ensures place { IfSome result (λ next. place < length self.now.numbers.items) }
        ensures further { IfSome result (λ next. number < next) }
        ensures small { IfSome result (λ next. next < 2 ^ 32) }
        ensures missed { IfSome result (λ next. (f : FrameValue) → length f.prims ≡ count → AreCandidates f self.now → MissBetween f (pixels_of self.now.rect) number next) }
    {
        let numbers = self.numbers.as_slice();
        if place >= numbers.len() {
            return None;
        }
        if numbers[place] as usize != number {
            return None;
        }
        let next = next_at(numbers, place, count);
        if next <= number {
            return None;
        }
        Some(next)
    }
}
