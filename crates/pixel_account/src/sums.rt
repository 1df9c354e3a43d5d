// The sums over a pixel's samples.
ghost use Rattle.std.specs.Prelude.{ℤ, ◌≡◌, ◌≤◌, ◌<◌, ◌+◌, ◌*◌, ◌^◌, pos, ◌+ℤ◌, ◌*ℤ◌, ◌≤ℤ◌, All, unsigned_abs, length};
ghost use Rattle.filter_ppm.specs.Mean.{mean_part};
ghost use Rattle.filter_ppm.specs.Sums.{IsOver, with_weighed, mean_of};
ghost use Rattle.pixel_account.specs.Summing.{as_total, IsSumOf};

use fixed_math::{Num, Vec3, floor_div, plus, times};
use pixel_record::{SampleAccount, WeightedSums};

/// The raw value of a number, for wide sums.
fn raw_of(v: Num) -> i128
    ensures value { result ≡ v }
    ensures size { unsigned_abs result ≤ 2147483647 }
{
    v.raw() as i128
}

/// A sum with one more channel `v` of weight `w`.
fn with_part(sum: i128, w: i128, v: Num) -> i128
    requires sum { unsigned_abs sum ≤ 2 ^ 126 }
    requires weight { unsigned_abs w ≤ 2147483647 }
    ensures value { result ≡ sum +ℤ w *ℤ v }
    ensures size { unsigned_abs result ≤ unsigned_abs sum + unsigned_abs w * 2147483647 }
{
    plus(sum, times::<31, 31>(w, raw_of(v)))
}

/// Sums over `n` colours with one more of a weight.
#[tactic(auto, unfolding(filter_ppm::specs::Sums::with_weighed))]
fn with_colour(sums: &WeightedSums, w: Num, colour: &Vec3, n: usize) -> WeightedSums
    requires over { IsOver n (as_total sums.now) }
    requires weight { pos 0 ≤ℤ w }
    ensures value { as_total result ≡ with_weighed (as_total sums.now) w colour.now }
    ensures over { IsOver (n + 1) (as_total result) }
{
    let weight = raw_of(w);
    WeightedSums {
        weight: plus(sums.weight, weight),
        x: with_part(sums.x, weight, colour.x),
        y: with_part(sums.y, weight, colour.y),
        z: with_part(sums.z, weight, colour.z),
    }
}

/// The sums over the colours of samples, each weighed.
pub(crate) fn sums_of(samples: &[SampleAccount]) -> WeightedSums
    requires weights { All (λ s. pos 0 ≤ℤ s.weight) samples.now }
    ensures value { IsSumOf samples.now (as_total result) }
    ensures over { IsOver (length samples.now) (as_total result) }
{
    let mut sums = WeightedSums {
        weight: 0,
        x: 0,
        y: 0,
        z: 0,
    };
    for k in 0..samples.len() {
        let sample = &samples[k];
        sums = with_colour(&sums, sample.weight, &sample.colour, k);
    }
    sums
}

/// One channel of the mean.
fn part_of(sum: i128, weight: i128) -> Num
    requires some { pos 0 ≤ℤ weight }
    requires weight { unsigned_abs weight < 2 ^ 95 }
    requires sum { unsigned_abs sum ≤ unsigned_abs weight * 2147483647 }
    ensures { result ≡ mean_part sum weight }
{
    if weight == 0 {
        return Num::sat(0);
    }
    Num::sat(floor_div(sum, weight))
}

/// The weighted mean of `n` colours, each channel rounded down once; 0 where the weights sum to 0.
pub(crate) fn mean_of(sums: &WeightedSums, n: usize) -> Vec3
    requires { IsOver n (as_total sums.now) }
    ensures { result ≡ mean_of (as_total sums.now) }
{
    Vec3 {
        x: part_of(sums.x, sums.weight),
        y: part_of(sums.y, sums.weight),
        z: part_of(sums.z, sums.weight),
    }
}
