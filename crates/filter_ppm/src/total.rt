// Sums over weighted colours.
ghost use Rattle.std.specs.Prelude.{◌≡◌, ◌≤◌, ◌<◌, ◌^◌, ◌+◌, ◌*◌, ◌+ℤ◌, ◌*ℤ◌, ◌≤ℤ◌, pos, unsigned_abs};
ghost use Rattle.filter_ppm.specs.Mean.{mean_part};
ghost use Rattle.filter_ppm.specs.Sums.{none, with_weighed, mean_of, IsOver};

use fixed_math::{Num, Vec3, floor_div};

/// The sums over some weighted colours: their weights, and each channel times the weight.
#[derive(Clone, Copy)]
pub(crate) struct Total {
    pub(crate) weight: i64,
    pub(crate) x: i128,
    pub(crate) y: i128,
    pub(crate) z: i128,
}

/// The sums over nothing.
pub(crate) fn no_total() -> Total
    ensures { result ≡ none }
{
    Total {
        weight: 0,
        x: 0,
        y: 0,
        z: 0,
    }
}

/// A weight times a channel, exactly.
pub(crate) fn product(w: i64, v: i64) -> i64
    requires w { unsigned_abs w ≤ 2147483647 }
    requires v { unsigned_abs v ≤ 2147483647 }
    ensures value { result ≡ w *ℤ v }
    ensures size { unsigned_abs result ≤ unsigned_abs w * 2147483647 }
    ensures bound { unsigned_abs result < 2 ^ 62 }
{
    w * v
}

/// A sum and a product.
fn sum_with(sum: i128, more: i64) -> i128
    requires sum { unsigned_abs sum ≤ 2 ^ 100 }
    requires more { unsigned_abs more < 2 ^ 62 }
    ensures value { result ≡ sum +ℤ more }
    ensures size { unsigned_abs result ≤ unsigned_abs sum + unsigned_abs more }
{
    sum + more as i128
}

/// A sum with one more channel `v` of weight `w`.
fn with_part(sum: i128, w: i64, v: Num) -> i128
    requires sum { unsigned_abs sum ≤ 2 ^ 100 }
    requires weight { unsigned_abs w ≤ 2147483647 }
    ensures value { result ≡ sum +ℤ w *ℤ v }
    ensures size { unsigned_abs result ≤ unsigned_abs sum + unsigned_abs w * 2147483647 }
{
    sum_with(sum, product(w, v.raw()))
}

/// A sum of weights with one more.
fn weights_with(sum: i64, w: i64, n: usize) -> i64
    requires n { n < 4294967296 }
    requires low { pos 0 ≤ℤ sum }
    requires high { unsigned_abs sum ≤ n * 2147483647 }
    requires w_low { pos 0 ≤ℤ w }
    requires w_high { unsigned_abs w ≤ 2147483647 }
    ensures value { result ≡ sum +ℤ w }
    ensures low { pos 0 ≤ℤ result }
    ensures size { unsigned_abs result ≡ unsigned_abs sum + unsigned_abs w }
{
    sum + w
}

/// With one more colour `c` of weight `w`, where there were at most `n`.
#[tactic(auto, unfolding(crate::specs::Sums::with_weighed))]
pub(crate) fn with_weighed(t: &Total, w: Num, c: &Vec3, n: usize) -> Total
    requires n { n < 4294967296 }
    requires over { IsOver n t.now }
    requires weight { pos 0 ≤ℤ w }
    ensures value { result ≡ with_weighed t.now w c.now }
    ensures over { IsOver (n + 1) result }
{
    let weight = w.raw();
    Total {
        weight: weights_with(t.weight, weight, n),
        x: with_part(t.x, weight, c.x),
        y: with_part(t.y, weight, c.y),
        z: with_part(t.z, weight, c.z),
    }
}

/// One channel of the mean, where the sum has 64 bits.
fn short_part(sum: i64, weight: i64) -> Num
    requires weight { pos 0 ≤ℤ weight }
    requires size { unsigned_abs sum ≤ unsigned_abs weight * 2147483647 }
    ensures { result ≡ mean_part sum weight }
{
    if weight == 0 {
        return Num::sat(0);
    }
    Num::sat(sum.div_euclid(weight) as i128)
}

/// The same where it has more.
fn long_part(sum: i128, weight: i64) -> Num
    requires weight { pos 0 ≤ℤ weight }
    requires size { unsigned_abs sum ≤ unsigned_abs weight * 2147483647 }
    ensures { result ≡ mean_part sum weight }
{
    if weight == 0 {
        return Num::sat(0);
    }
    Num::sat(floor_div(sum, weight as i128))
}

/// One channel of the mean.
fn mean_part(sum: i128, weight: i64) -> Num
    requires weight { pos 0 ≤ℤ weight }
    requires size { unsigned_abs sum ≤ unsigned_abs weight * 2147483647 }
    ensures { result ≡ mean_part sum weight }
{
    if sum < 4611686018427387904 && sum > -4611686018427387904 {
        short_part(sum as i64, weight)
    } else {
        long_part(sum, weight)
    }
}

/// The weighted mean, each channel rounded down once; 0 where the weights sum to 0.
pub(crate) fn mean(t: &Total, n: usize) -> Vec3
    requires { IsOver n t.now }
    ensures { result ≡ mean_of t.now }
{
    Vec3 {
        x: mean_part(t.x, t.weight),
        y: mean_part(t.y, t.weight),
        z: mean_part(t.z, t.weight),
    }
}
