// The filters' weights.
ghost use Rattle.std.specs.Prelude.{◌≡◌, ◌≤◌, ◌≤ℤ◌, ◌*ℤ◌, ◌*◌, pos, neg_ℤ, true, unsigned_abs};
ghost use Rattle.fixed_math.specs.Fixed.{mul};
ghost use Rattle.fixed_math.specs.Power.{exp};
ghost use Rattle.filter_ppm.specs.Weight.{counts, slope, across, bell, by_filter, weight, reach};

use fixed_math::{Num, floor_by, minus, times};
use scene::{Filter, Options};

/// Whether the place `d` lies within a filter of width `width`.
fn is_within(width: u32, d: i64) -> bool
    ensures { result ≡ counts width d }
{
    let twice = times::<1, 64>(2, d as i128);
    -(width as i128) <= twice && twice < width as i128
}

/// One direction of the triangle filter.
#[tactic(auto, unfolding(crate::specs::Weight::slope))]
pub(crate) fn slope_at(width: u32, d: i64) -> Num
    requires some { 1 ≤ width }
    requires within { counts width d ≡ true }
    ensures value { result ≡ slope width d }
    ensures low { pos 0 ≤ℤ result }
{
    let twice = 2 * d.unsigned_abs() as i128;
    Num::sat(floor_by(
        times::<16, 65>(65536, minus(width as i128, twice)),
        width as u128,
    ))
}

/// The place in the filter, 65536 for half of its width.
#[tactic(auto, unfolding(crate::specs::Weight::across))]
pub(crate) fn across_at(width: u32, d: i64) -> Num
    requires some { 1 ≤ width }
    requires within { counts width d ≡ true }
    ensures { result ≡ across width d }
{
    Num::sat(floor_by(times::<17, 64>(131072, d as i128), width as u128))
}

/// The gaussian filter where the squares of both directions sum to `square`.
pub(crate) fn bell_of(square: Num) -> Num
    ensures value { result ≡ exp (mul (neg_ℤ (pos 131072)) square) }
    ensures low { pos 0 ≤ℤ result }
{
    let power = Num::sat(-131072).mul(square);
    power.mul(Num::sat(94548)).exp2()
}

/// The gaussian filter at `x`, `y`.
#[tactic(auto, unfolding(crate::specs::Weight::bell))]
fn bell_at(x: Num, y: Num) -> Num
    ensures value { result ≡ bell x y }
    ensures low { pos 0 ≤ℤ result }
{
    bell_of(x.mul(x).add(y.mul(y)))
}

/// How much a sample at `dx`, `dy` from the middle of a pixel, in 1/256 pixel, counts for it: by the filter within its
/// widths, the left and upper ends with them, and 0 elsewhere. 65536 is a whole; no weight is below 0.
#[tactic(auto, unfolding(crate::specs::Weight::weight))]
pub fn weight(o: &Options, dx: i64, dy: i64) -> Num
    ensures value { result ≡ weight o.now dx dy }
    ensures low { pos 0 ≤ℤ result }
{
    if !is_within(o.wx, dx) || !is_within(o.wy, dy) {
        return Num::sat(0);
    }
    match o.filter {
        Filter::Box => Num::sat(65536),
        Filter::Triangle => slope_at(o.wx, dx).mul(slope_at(o.wy, dy)),
        Filter::Gaussian => bell_at(across_at(o.wx, dx), across_at(o.wy, dy)),
    }
}

/// The samples of pixels farther away than this, in one direction, don't count under a filter of width `width` in it.
pub fn reach(width: u32) -> u32
    requires { width ≤ 4096 }
    ensures value { result ≡ reach width }
    ensures most { result ≤ 8 }
{
    (width + 511) / 512
}
