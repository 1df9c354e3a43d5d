// A box in camera space that holds a micropolygon that moves.
ghost use Rattle.std.specs.Prelude.{◌≡◌, ◌≤ℤ◌, All, IsTrue};
ghost use Rattle.fixed_math.specs.Axes.{IsInBox};
ghost use Rattle.hider.specs.CellBoxes.{low_when, high_when};
ghost use Rattle.hider.specs.Outermost.{IsInOrder, IsSeenAlways, ShowsNothing};

use crate::extents::{greater, high_of, lesser, low_of};
use crate::outermost::{bottommost, leftmost, rightmost, topmost};
use crate::sample::Sample;
use fixed_math::{Num, Vec3};
use moving::{on_way, place_on_way};
use transforms::Camera;

/// A box in camera space that holds a micropolygon while the shutter is open: its first corner, of the least coordinates, and its
/// last one, of the greatest, go straight from where they are when it opens to where they are when it closes.
#[derive(Debug, Clone, Copy, PartialEq, Eq)]
pub struct MovingBox {
    /// The first corner when the shutter opens.
    pub low: Vec3,
    /// The last corner then.
    pub high: Vec3,
    /// The first corner when the shutter closes.
    pub closing_low: Vec3,
    /// The last corner then.
    pub closing_high: Vec3,
}

impl MovingBox {
    /// The least such box that holds four places when the shutter opens, and four others when it closes.
    pub fn around(opening: &[Vec3; 4], closing: &[Vec3; 4]) -> MovingBox
        ensures opening { All (IsInBox result.low result.high) opening.now }
        ensures closing { All (IsInBox result.closing_low result.closing_high) closing.now }
    {
        MovingBox {
            low: low_of(opening),
            high: high_of(opening),
            closing_low: low_of(closing),
            closing_high: high_of(closing),
        }
    }

    /// The first corner at a time.
    pub(crate) fn low_at(&self, time: u16) -> Vec3
        ensures { result ≡ low_when self.now time }
    {
        place_on_way(self.low, self.closing_low, time as u32)
    }

    /// The last corner at a time.
    pub(crate) fn high_at(&self, time: u16) -> Vec3
        ensures { result ≡ high_when self.now time }
    {
        place_on_way(self.high, self.closing_high, time as u32)
    }

    /// The least depth in it.
    pub(crate) fn nearest(&self) -> Num
        ensures opening { result ≤ℤ self.now.low.z }
        ensures closing { result ≤ℤ self.now.closing_low.z }
    {
        lesser(self.low.z, self.closing_low.z)
    }

    /// Whether it goes further up or down than to a side.
    pub(crate) fn is_steep(&self) -> bool {
        let across = (self.closing_low.x.raw() - self.low.x.raw()).unsigned_abs();
        let down = (self.closing_low.y.raw() - self.low.y.raw()).unsigned_abs();
        across < down
    }

    /// The greatest depth in it.
    fn farthest(&self) -> Num
        ensures opening { self.now.high.z ≤ℤ result }
        ensures closing { self.now.closing_high.z ≤ℤ result }
    {
        greater(self.high.z, self.closing_high.z)
    }

    /// Whether a camera sees all of it in depth at all times.
    pub(crate) fn is_seen(&self, camera: &Camera) -> bool
        ensures { IsTrue result → IsSeenAlways camera.now self.now }
    {
        let view = camera.view();
        if self.nearest().raw() < view.near.raw() {
            return false;
        }
        self.farthest().raw() <= view.far.raw()
    }

    /// The least depth in it at a time.
    fn near_at(&self, time: u16) -> Num
        ensures { result ≡ (low_when self.now time).z }
    {
        on_way(self.low.z, self.closing_low.z, time as u32)
    }

    /// The greatest depth in it at a time.
    fn far_at(&self, time: u16) -> Num
        ensures { result ≡ (high_when self.now time).z }
    {
        on_way(self.high.z, self.closing_high.z, time as u32)
    }

    /// Whether it lies at a sample's time to the right of the sample's place, or to its left: then nothing shows there.
    pub(crate) fn is_aside(&self, camera: &Camera, sample: &Sample) -> bool
        requires seen { IsSeenAlways camera.now self.now }
        requires order { IsInOrder self.now }
        ensures { IsTrue result → ShowsNothing camera.now self.now sample.now }
    {
        let steps = sample.time as u32;
        let near = self.near_at(sample.time);
        let far = self.far_at(sample.time);
        let left = on_way(self.low.x, self.closing_low.x, steps);
        if sample.place.x() < leftmost(camera, left, near, far) {
            return true;
        }
        let right = on_way(self.high.x, self.closing_high.x, steps);
        rightmost(camera, right, near, far) < sample.place.x()
    }

    /// Whether it lies below the sample's place, or above it.
    pub(crate) fn is_over(&self, camera: &Camera, sample: &Sample) -> bool
        requires seen { IsSeenAlways camera.now self.now }
        requires order { IsInOrder self.now }
        ensures { IsTrue result → ShowsNothing camera.now self.now sample.now }
    {
        let steps = sample.time as u32;
        let near = self.near_at(sample.time);
        let far = self.far_at(sample.time);
        let top = on_way(self.high.y, self.closing_high.y, steps);
        if sample.place.y() < topmost(camera, top, near, far) {
            return true;
        }
        let bottom = on_way(self.low.y, self.closing_low.y, steps);
        bottommost(camera, bottom, near, far) < sample.place.y()
    }
}
