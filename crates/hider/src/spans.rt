// The pixels that a span of places meets.
ghost use Rattle.std.specs.Prelude.{ℕ, ◌≡◌, ◌≤◌, ◌<◌, ◌+◌, ◌*◌, ◌^◌, ◌≤ℤ◌, ◌<ℤ◌, pos, unsigned_abs};
ghost use Rattle.fixed_math.specs.Whole.{floor_by};
ghost use Rattle.hider.specs.Searching.{IsPartOf, IsNear};
ghost use Rattle.hider.specs.Tiles.{IsSampleGrid};

use crate::bounds::Bounds;
use crate::sample_grid::SampleGrid;

/// The pixel in which a place lies.
#[tactic(auto, using(fixed_math::proofs::Floor::div_euclid_is, crate::proofs::Pixels::pixel_small))]
fn pixel_of(place: i64) -> i64
    ensures value { result ≡ floor_by place 256 }
    ensures bound { unsigned_abs result ≤ 2 ^ 56 }
{
    place.div_euclid(256)
}

/// The first pixel from `start` on that doesn't end before the place `low`, and at most `end`.
fn first_pixel(low: i64, start: u32, end: u32) -> u32
    requires order { start ≤ end }
    requires most { end ≤ 4096 }
    ensures from { start ≤ result }
    ensures to { result ≤ end }
    ensures before { (p : ℕ) → p < end → p < result → start ≤ p → pos (256 * p + 256) ≤ℤ low }
{
    let pixel = pixel_of(low);
    if pixel <= start as i64 {
        start
    } else if pixel >= end as i64 {
        end
    } else {
        pixel as u32
    }
}

/// The first pixel from `start` on that begins behind the place `high`, and at most `end`.
fn past_pixel(high: i64, start: u32, end: u32) -> u32
    requires order { start ≤ end }
    requires most { end ≤ 4096 }
    ensures from { start ≤ result }
    ensures to { result ≤ end }
    ensures behind { (p : ℕ) → p < end → result ≤ p → high <ℤ pos (256 * p) }
{
    let pixel = pixel_of(high) + 1;
    if pixel <= start as i64 {
        start
    } else if pixel >= end as i64 {
        end
    } else {
        pixel as u32
    }
}

/// The pixels of the grid that a box on the raster meets.
pub(crate) fn part_near(grid: &SampleGrid, bounds: &Bounds) -> SampleGrid
    requires { IsSampleGrid grid.now }
    ensures part { IsPartOf result grid.now }
    ensures near { IsNear bounds.now result grid.now }
{
    let left = first_pixel(bounds.left, grid.left, grid.right);
    let right = past_pixel(bounds.right, left, grid.right);
    let top = first_pixel(bounds.top, grid.top, grid.bottom);
    let bottom = past_pixel(bounds.bottom, top, grid.bottom);
    SampleGrid {
        left,
        top,
        right,
        bottom,
        xs: grid.xs,
        ys: grid.ys,
    }
}
