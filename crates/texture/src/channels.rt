// Sums of samples of all channels at once.
ghost use Rattle.std.specs.Prelude.{◌≡◌, ◌≤◌, ◌*◌, ◌+◌};
ghost use Rattle.texture.specs.Channels.{AreOf, AreAtMost};
ghost use Rattle.texture.specs.Pyramid.{sample, sum_to, square_sum};

use crate::samples::Samples;

/// A number for each channel.
#[derive(Clone, Copy)]
pub(crate) struct Channels {
    pub(crate) red: u64,
    pub(crate) green: u64,
    pub(crate) blue: u64,
}

/// The samples in column `x` and row `y`, 0 outside.
#[inline(always)]
fn samples_at(image: &Samples, x: u32, y: u32) -> Channels
    ensures each { AreOf (λ c. sample image.now c x y) result }
    ensures most { AreAtMost 65535 result }
{
    Channels {
        red: image.sample(0, x, y),
        green: image.sample(1, x, y),
        blue: image.sample(2, x, y),
    }
}

/// The sums of `m` samples of a row from column `x` on.
#[inline(always)]
#[tactic(auto, unfolding(crate::specs::Pyramid::sum_to))]
fn row_sums(image: &Samples, m: u32, x: u32, y: u32) -> Channels
    requires side { m ≤ 2048 }
    requires column { x ≤ 8388608 }
    ensures each { AreOf (λ c. sum_to m (λ i. sample image.now c (x + i) y)) result }
    ensures most { AreAtMost (65535 * m) result }
{
    let (mut red, mut green, mut blue) = (0u64, 0u64, 0u64);
    for i in 0..m {
        let samples = samples_at(image, x + i, y);
        red += samples.red;
        green += samples.green;
        blue += samples.blue;
    }
    Channels { red, green, blue }
}

/// The sums of the samples in the square of side `m` in column `x` and row `y` of such squares.
#[tactic(auto, unfolding(crate::specs::Pyramid::sum_to, crate::specs::Pyramid::square_sum))]
pub(crate) fn square_sums(image: &Samples, m: u32, x: u32, y: u32) -> Channels
    requires side { m ≤ 2048 }
    requires column { x ≤ 2048 }
    requires row { y ≤ 2048 }
    ensures each { AreOf (λ c. square_sum image.now c m x y) result }
    ensures most { AreAtMost (65535 * 2048 * m) result }
{
    let (mut red, mut green, mut blue) = (0u64, 0u64, 0u64);
    for j in 0..m {
        let sums = row_sums(image, m, x * m, y * m + j);
        red += sums.red;
        green += sums.green;
        blue += sums.blue;
    }
    Channels { red, green, blue }
}
