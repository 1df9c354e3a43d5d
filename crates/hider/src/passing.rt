// What a cell that moves passes on the raster.
ghost use Rattle.std.specs.Prelude.{◌≡◌, ◌<◌, ◌≤ℤ◌, Bool, IsTrue};
ghost use Rattle.hider.specs.declared.bounds.Bounds.{Bounds};
ghost use Rattle.hider.specs.CellBoxes.{EnclosesCell};
ghost use Rattle.hider.specs.CellValues.{micropolygon_of};
ghost use Rattle.hider.specs.Extents.{IsAboveAll, IsBelowAll, IsOutOfSight, HoldsRaster, Passed};
ghost use Rattle.hider.specs.Fragments.{fragment_of};
ghost use Rattle.hider.specs.Outermost.{IsInOrder, IsSeenAlways, PassesFrom, PassesInSteps, StayInSteps};
ghost use Rattle.hider.specs.Searching.{StaysInside};

use crate::bounds::Bounds;
use crate::cells::Cells;
use crate::extents::{Corners, high, high_of_two, low, low_of_two};
use crate::moving_box::MovingBox;
use crate::outermost::{bottommost, leftmost, rightmost, topmost};
use fixed_math::{Num, Vec3};
use transforms::Camera;

/// The box that holds all places of a raster.
const EVERYWHERE: Bounds = Bounds {
    left: -268_435_456,
    right: 268_435_456,
    top: -268_435_456,
    bottom: 268_435_456,
};

/// A box that holds no place.
const NOWHERE: Bounds = Bounds {
    left: 268_435_456,
    right: -268_435_456,
    top: 268_435_456,
    bottom: -268_435_456,
};

/// A box on the raster that holds the places of all points of a box in camera space.
fn raster_bounds(camera: &Camera, lo: Vec3, hi: Vec3) -> Bounds
    requires near { camera.now.near ≤ℤ lo.z }
    requires far { camera.now.near ≤ℤ hi.z }
    ensures { HoldsRaster camera.now lo hi result }
{
    Bounds {
        left: leftmost(camera, lo.x, lo.z, hi.z),
        right: rightmost(camera, hi.x, lo.z, hi.z),
        top: topmost(camera, hi.y, lo.z, hi.z),
        bottom: bottommost(camera, lo.y, lo.z, hi.z),
    }
}

/// Whether all depths between two are beyond what a camera sees, on one side.
fn is_out_of_sight(camera: &Camera, from: Num, to: Num) -> bool
    ensures { IsTrue result → IsOutOfSight camera.now from to }
{
    let view = camera.view();
    if from.raw() < view.near.raw() {
        return to.raw() < view.near.raw();
    }
    if view.far.raw() < from.raw() {
        return view.far.raw() < to.raw();
    }
    false
}

/// Whether a corner of a cell is out of sight in depth at all times between two, so that nothing shows then.
fn is_never_seen(camera: &Camera, first: &Corners, last: &Corners) -> bool
    ensures { IsTrue result → (b : Bounds) → Passed camera.now first.now last.now b }
{
    for k in 0..4 {
        if is_out_of_sight(camera, first[k].z, last[k].z) {
            return true;
        }
    }
    false
}

/// A box on the raster of all that shows of a cell between two times at which it lies in a box in camera space: none where a corner
/// is out of sight in depth. Nothing shows while a corner is before near, so the box reaches no nearer than that.
fn passed_in(camera: &Camera, first: &Corners, last: &Corners, lo: Vec3, hi: Vec3) -> Bounds
    requires first_low { IsBelowAll lo first.now }
    requires last_low { IsBelowAll lo last.now }
    requires first_high { IsAboveAll hi first.now }
    requires last_high { IsAboveAll hi last.now }
    ensures { Passed camera.now first.now last.now result }
{
    let near = camera.view().near;
    if hi.z.raw() < near.raw() {
        return NOWHERE;
    }
    if is_never_seen(camera, first, last) {
        return NOWHERE;
    }
    if near.raw() <= lo.z.raw() {
        return raster_bounds(camera, lo, hi);
    }
    let seen = Vec3 {
        x: lo.x,
        y: lo.y,
        z: near,
    };
    raster_bounds(camera, seen, hi)
}

/// The same between any two times.
pub(crate) fn passed_between(camera: &Camera, first: &Corners, last: &Corners) -> Bounds
    ensures { Passed camera.now first.now last.now result }
{
    let lo = low_of_two(first, last);
    let hi = high_of_two(first, last);
    passed_in(camera, first, last, lo, hi)
}

/// A box on the raster of all that shows of a cell, which lies in a moving box.
pub(crate) fn passed_always<C: Cells>(
    cells: &C,
    cell: usize,
    round: &MovingBox,
    camera: &Camera,
) -> Bounds
    requires cell { cell < (C.values cells.now).count }
    requires round { EnclosesCell (C.values cells.now) cell round.now }
    ensures { (one_sided flip : Bool) → StaysInside result (λ s. fragment_of camera.now s (micropolygon_of (C.values cells.now) one_sided flip cell)) }
{
    if round.is_seen(camera) {
        let lo = low(round.low, round.closing_low);
        let hi = high(round.high, round.closing_high);
        return raster_bounds(camera, lo, hi);
    }
    let first = cells.corners(cell, 0);
    let last = cells.corners(cell, 65535);
    passed_between(camera, &first, &last)
}

/// A box on the raster of all that a moving box, seen in depth at all times, passes from one time to another.
fn passed_from(round: &MovingBox, from: u16, to: u16, camera: &Camera) -> Bounds
    requires seen { IsSeenAlways camera.now round.now }
    requires order { IsInOrder round.now }
    ensures { PassesFrom camera.now round.now from to result }
{
    let lo = low(round.low_at(from), round.low_at(to));
    let hi = high(round.high_at(from), round.high_at(to));
    raster_bounds(camera, lo, hi)
}

/// The boxes on the raster of all that it passes in each step of the shutter's interval.
pub(crate) fn passed_by(round: &MovingBox, camera: &Camera) -> [Bounds; 8]
    requires seen { IsSeenAlways camera.now round.now }
    requires order { IsInOrder round.now }
    ensures { PassesInSteps camera.now round.now result }
{
    let mut passed = [EVERYWHERE; 8];
    for step in 0..8 {
        let from = 8192 * step;
        passed[step] = passed_from(round, from as u16, (from + 8191) as u16, camera);
    }
    passed
}

/// The same of a cell that lies in the moving box, and of which nothing shows outside a box on the raster: that one, where the
/// moving box isn't seen in depth at all times.
pub(crate) fn passed_in_steps(
    round: &MovingBox,
    is_seen: bool,
    whole: Bounds,
    camera: &Camera,
) -> [Bounds; 8]
    requires seen { IsTrue is_seen → IsSeenAlways camera.now round.now }
    requires order { IsInOrder round.now }
    ensures { StayInSteps camera.now round.now whole result }
{
    if is_seen {
        return passed_by(round, camera);
    }
    [whole; 8]
}
