// The sums of a weighted mean.
ghost use Rattle.std.specs.Prelude.{◌≡◌, ◌≤◌, ◌<◌, ◌^◌, ◌≤ℤ◌, ◌+◌, ◌*◌, ◌+ℤ◌, ◌*ℤ◌, ℤ, pos, unsigned_abs};
ghost use Rattle.filter_ppm.specs.Mean.{Totals, nothing, with_colour, mean_part, mean, AreTotals};

use fixed_math::{Num, Vec3, floor_div, plus, times};
use std::marker::Model;

/// The sums of a weighted mean of at most 2^25 colours.
#[derive(Debug, Clone, Copy, PartialEq, Eq)]
pub struct Sums {
    count: u32,
    weight: i128,
    x: i128,
    y: i128,
    z: i128,
}

impl Model for Sums {
    ghost Value = { Totals };

    ghost view = { λ t. record { count = t.count; weight = t.weight; x = t.x; y = t.y; z = t.z } };

    ghost invariant = { λ t. AreTotals (record { count = t.count; weight = t.weight; x = t.x; y = t.y; z = t.z }) };

    ghost inverse = { λ t. record { count = t.count; weight = t.weight; x = t.x; y = t.y; z = t.z } };
}

/// The raw value of a number, for wide sums.
fn raw_of(v: Num) -> i128
    ensures value { result ≡ v }
    ensures size { unsigned_abs result ≤ 2147483647 }
{
    v.raw() as i128
}

/// A sum with one more channel `v` of weight `w`.
fn with_part(sum: i128, w: i128, v: Num) -> i128
    requires sum { unsigned_abs sum ≤ 2 ^ 100 }
    requires weight { unsigned_abs w ≤ 2 ^ 31 }
    ensures value { result ≡ sum +ℤ w *ℤ v }
    ensures size { unsigned_abs result ≤ unsigned_abs sum + unsigned_abs w * 2147483647 }
{
    plus(sum, times::<31, 31>(w, raw_of(v)))
}

/// One channel of the mean.
fn mean_of(sum: i128, weight: i128) -> Num
    requires weight { pos 0 ≤ℤ weight }
    requires small { unsigned_abs weight ≤ 2 ^ 60 }
    requires size { unsigned_abs sum ≤ unsigned_abs weight * 2147483647 }
    ensures { result ≡ mean_part sum weight }
{
    if weight == 0 {
        return Num::sat(0);
    }
    Num::sat(floor_div(sum, weight))
}

impl Sums {
    /// The sums over nothing.
    pub fn new() -> Sums
        ensures { result ≡ nothing }
    {
        Sums {
            count: 0,
            weight: 0,
            x: 0,
            y: 0,
            z: 0,
        }
    }

    /// Adds a colour `c` of weight `w`.
    pub fn add(&mut self, w: Num, c: Vec3)
        requires room { self.old.count < 33554432 }
        requires weight { pos 0 ≤ℤ w }
        ensures { self.new ≡ with_colour self.old w c }
    {
        let weight = raw_of(w);
        *self = Sums {
            count: self.count + 1,
            weight: plus(self.weight, weight),
            x: with_part(self.x, weight, c.x),
            y: with_part(self.y, weight, c.y),
            z: with_part(self.z, weight, c.z),
        };
    }

    /// The weighted mean of the colours, each channel rounded down once; 0 where the weights sum to 0.
    pub fn mean(&self) -> Vec3
        ensures { result ≡ mean self.now }
    {
        Vec3 {
            x: mean_of(self.x, self.weight),
            y: mean_of(self.y, self.weight),
            z: mean_of(self.z, self.weight),
        }
    }
}
