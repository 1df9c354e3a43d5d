// Isoparametric curves of rational surfaces whose rows are quarters of circles: quotients of polynomials of degree 2.
ghost use Rattle.std.specs.Prelude.{◌≡◌, ◌≤◌, ◌<◌, ◌*◌, ◌+◌, ◌^◌, ℕ, ℤ, pos, ◌*ℤ◌, [], ◌∷◌, unsigned_abs};
ghost use Rattle.fixed_math.specs.Axes.{by_axes};
ghost use Rattle.fixed_math.specs.Blossom.{blossom};
ghost use Rattle.fixed_math.specs.Fixed.{sat};
ghost use Rattle.fixed_math.specs.Whole.{floor_by as floor_of};
ghost use Rattle.patches.specs.RationalCurves.{quadratic_at, size_of, turn_at, factor_at as factor_of, rational_along, rational_place, rational_across, rational_up};
ghost use Rattle.patches.specs.Slopes.{triple};

use crate::mixing::raised;
use crate::quadratic::{Quadratic, RationalCoordinate, RationalCurve};
use fixed_math::{Num, Vec3, floor_by, minus, scaled};

impl Quadratic {
    /// The polynomial of three control numbers, times 4096 twice.
    pub fn of_control(a: i128, b: i128, c: i128) -> Quadratic
        requires small_a { unsigned_abs a ≤ 2 ^ 86 }
        requires small_b { unsigned_abs b ≤ 2 ^ 86 }
        requires small_c { unsigned_abs c ≤ 2 ^ 86 }
        ensures { (f : ℕ → ℤ) → a ≡ f 0 → b ≡ f 1 → c ≡ f 2 → (u : ℕ) → u ≤ 4096 → quadratic_at result u ≡ blossom (u ∷ u ∷ []) f 0 }
    {
        let first = minus(b, a);
        let second = minus(c, b);
        Quadratic {
            constant: scaled(1 << 24, a),
            linear: scaled(1 << 13, first),
            square: minus(second, first),
        }
    }

    /// The numerator of the derivative of a quotient: that of the polynomial of three control numbers and of 1 + u^2; times 4096 four
    /// times.
    pub fn of_turn(a: i128, b: i128, c: i128) -> Quadratic
        requires small_a { unsigned_abs a ≤ 2 ^ 58 }
        requires small_b { unsigned_abs b ≤ 2 ^ 58 }
        requires small_c { unsigned_abs c ≤ 2 ^ 58 }
        ensures value { (f : ℕ → ℤ) → a ≡ f 0 → b ≡ f 1 → c ≡ f 2 → (u : ℕ) → quadratic_at result u ≡ pos (2 ^ 24) *ℤ turn_at u f }
        ensures size { (r : ℕ) → unsigned_abs a ≤ r → unsigned_abs b ≤ r → unsigned_abs c ≤ r → size_of result ≤ 18 * 2 ^ 48 * r }
    {
        let first = minus(b, a);
        let second = minus(c, b);
        let bend = minus(second, first);
        let lean = minus(bend, a);
        let back = minus(a, b);
        Quadratic {
            constant: scaled(1 << 49, first),
            linear: scaled(1 << 37, lean),
            square: scaled(1 << 25, back),
        }
    }

    /// The value at `u`, by Horner's rule.
    pub fn value(&self, u: u16) -> i128
        requires { u ≤ 4096 }
        ensures value { result ≡ quadratic_at self.now u }
        ensures size { unsigned_abs result ≤ size_of self.now }
        ensures bound { unsigned_abs result ≤ 2 ^ 118 }
    {
        let high = raised(u, self.square, self.linear);
        raised(u, high, self.constant)
    }
}

/// The denominator of a quarter of a circle at `u`.
pub fn factor_at(u: u16) -> u64
    requires { u ≤ 4096 }
    ensures value { result ≡ factor_of u }
    ensures from { 2 ^ 24 ≤ result }
    ensures to { result ≤ 2 ^ 25 }
{
    (1 << 24) + u as u64 * u as u64
}

/// The product of factors of a denominator.
fn product(a: u128, b: u64) -> u128
    requires small_a { a ≤ 2 ^ 50 }
    requires small_b { b ≤ 2 ^ 50 }
    ensures value { result ≡ a * b }
    ensures bound { result ≤ 2 ^ 100 }
{
    a * b as u128
}

/// A numerator over a denominator, rounded down.
fn slope(exact: i128, under: u128) -> i64
    requires small { unsigned_abs exact ≤ 2 ^ 118 }
    requires from { 2 ^ 60 ≤ under }
    requires to { under ≤ 2 ^ 100 }
    ensures { result ≡ floor_of exact under }
{
    floor_by(exact, under) as i64
}

impl RationalCoordinate {
    /// The place at `u` over this denominator, rounded down once.
    fn place_at(&self, u: u16, under: u128) -> Num
        requires within { u ≤ 4096 }
        requires some { 0 < under }
        requires small { under ≤ 2 ^ 100 }
        ensures { result ≡ sat (floor_of (quadratic_at self.now.place u) under) }
    {
        Num::sat(floor_by(self.place.value(u), under))
    }
}

impl RationalCurve {
    pub(crate) fn point(&self, u: u16) -> Vec3
        requires { u ≤ 4096 }
        ensures { result ≡ by_axes (λ a. rational_place self.now.under (rational_along a self.now) u) }
    {
        let under = product(factor_at(u) as u128, self.under);
        Vec3 {
            x: self.x.place_at(u, under),
            y: self.y.place_at(u, under),
            z: self.z.place_at(u, under),
        }
    }

    pub(crate) fn du(&self, u: u16) -> [i64; 3]
        requires { u ≤ 4096 }
        ensures { result ≡ triple (λ a. rational_across self.now.across_under (rational_along a self.now) u) }
    {
        let factor = factor_at(u);
        let square = product(factor as u128, factor);
        let under = product(square, self.across_under);
        [
            slope(self.x.across.value(u), under),
            slope(self.y.across.value(u), under),
            slope(self.z.across.value(u), under),
        ]
    }

    pub(crate) fn dv(&self, u: u16) -> [i64; 3]
        requires { u ≤ 4096 }
        ensures { result ≡ triple (λ a. rational_up self.now.up_under (rational_along a self.now) u) }
    {
        let under = product(factor_at(u) as u128, self.up_under);
        [
            slope(self.x.up.value(u), under),
            slope(self.y.up.value(u), under),
            slope(self.z.up.value(u), under),
        ]
    }
}
