// Blends of four numbers.
ghost use Rattle.std.specs.Prelude.{◌≡◌, ◌≤◌, ◌+◌, ◌*◌, ◌^◌, ℕ, ◌*ℤ◌, unsigned_abs};
ghost use Rattle.mesh_basis.specs.Bases.{blend, AreSmall};

use fixed_math::{plus, times};

/// The weights of four numbers.
#[derive(Clone, Copy)]
pub(crate) struct Weights {
    pub(crate) first: i128,
    pub(crate) second: i128,
    pub(crate) third: i128,
    pub(crate) fourth: i128,
}

/// A small weight times a number.
fn part(weight: i128, number: i128) -> i128
    requires small { unsigned_abs weight ≤ 8 }
    requires fits { unsigned_abs number ≤ 2 ^ 60 }
    ensures value { result ≡ weight *ℤ number }
    ensures bound { (r : ℕ) → unsigned_abs number ≤ r → unsigned_abs result ≤ 8 * r }
{
    times::<3, 60>(weight, number)
}

/// The sum of the weights times four numbers.
pub(crate) fn blend(weights: Weights, a: i128, b: i128, c: i128, d: i128) -> i128
    requires small { AreSmall weights }
    requires fits_a { unsigned_abs a ≤ 2 ^ 60 }
    requires fits_b { unsigned_abs b ≤ 2 ^ 60 }
    requires fits_c { unsigned_abs c ≤ 2 ^ 60 }
    requires fits_d { unsigned_abs d ≤ 2 ^ 60 }
    ensures value { result ≡ blend weights a b c d }
    ensures bound { (r : ℕ) → unsigned_abs a ≤ r → unsigned_abs b ≤ r → unsigned_abs c ≤ r → unsigned_abs d ≤ r → unsigned_abs result ≤ 32 * r }
{
    let first = part(weights.first, a);
    let second = part(weights.second, b);
    let third = part(weights.third, c);
    let fourth = part(weights.fourth, d);
    let back = plus(third, fourth);
    let behind = plus(second, back);
    plus(first, behind)
}
