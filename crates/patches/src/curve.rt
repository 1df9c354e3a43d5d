// Isoparametric curves: a surface at one v, by polynomials of u or by their quotients.
ghost use Rattle.std.specs.Prelude.{◌≡◌, ◌≤◌, ◌<◌, ◌*◌, ◌+◌, ◌^◌, ℕ, ℤ, pos, ◌*ℤ◌, ◌+ℤ◌, ◌-ℤ◌, [], ◌∷◌, unsigned_abs};
ghost use Rattle.fixed_math.specs.Blossom.{blossom, denominator, mix as mix_of};
ghost use Rattle.fixed_math.specs.Axes.{by_axes};
ghost use Rattle.fixed_math.specs.Whole.{floor_by as floor_of};
ghost use Rattle.patches.specs.Slopes.{triple};
ghost use Rattle.patches.specs.Curves.{value_at, slope_at, place_at, across_at, up_at, along, curve_point, curve_du, curve_dv};

use crate::cubic::Cubic;
use crate::mixing::raised;
use crate::piece::Dyadic;
use crate::quadratic::RationalCurve;
use fixed_math::{Num, Vec3, floor_by, minus, scaled};

impl Cubic {
    /// The polynomial of four control numbers, times 4096 three times.
    pub(crate) fn of_control(a: i128, b: i128, c: i128, d: i128) -> Cubic
        requires small_a { unsigned_abs a ≤ 2 ^ 67 }
        requires small_b { unsigned_abs b ≤ 2 ^ 67 }
        requires small_c { unsigned_abs c ≤ 2 ^ 67 }
        requires small_d { unsigned_abs d ≤ 2 ^ 67 }
        ensures value { (f : ℕ → ℤ) → a ≡ f 0 → b ≡ f 1 → c ≡ f 2 → d ≡ f 3 → (u : ℕ) → u ≤ 4096 → value_at result u ≡ blossom (u ∷ u ∷ u ∷ []) f 0 }
        ensures slope { (f : ℕ → ℤ) → a ≡ f 0 → b ≡ f 1 → c ≡ f 2 → d ≡ f 3 → (u : ℕ) → u ≤ 4096 → slope_at result u ≡ pos 3 *ℤ blossom (u ∷ u ∷ []) (λ k. f (k + 1) -ℤ f k) 0 }
    {
        let first = minus(b, a);
        let second = minus(c, b);
        let third = minus(d, c);
        let bend = minus(second, first);
        let next = minus(third, second);
        Cubic {
            constant: scaled(1 << 36, a),
            linear: scaled(3 << 24, first),
            square: scaled(3 << 12, bend),
            cube: minus(next, bend),
        }
    }

    /// The line from `a` to `b`, times 4096 and 2^48, so that its denominator is that of a cubic.
    pub(crate) fn of_ends(a: i128, b: i128) -> Cubic
        requires small_a { unsigned_abs a ≤ 2 ^ 44 }
        requires small_b { unsigned_abs b ≤ 2 ^ 44 }
        ensures value { (u : ℕ) → u ≤ 4096 → value_at result u ≡ pos (2 ^ 48) *ℤ mix_of u a b }
        ensures slope { (u : ℕ) → slope_at result u ≡ pos (2 ^ 48) *ℤ (b -ℤ a) }
    {
        let step = minus(b, a);
        Cubic {
            constant: scaled(1 << 60, a),
            linear: scaled(1 << 48, step),
            square: 0,
            cube: 0,
        }
    }

    /// The value at `u`, by Horner's rule.
    fn value(&self, u: u16) -> i128
        requires { u ≤ 4096 }
        ensures value { result ≡ value_at self.now u }
        ensures bound { unsigned_abs result ≤ 2 ^ 112 }
    {
        let high = raised(u, self.cube, self.square);
        let middle = raised(u, high, self.linear);
        raised(u, middle, self.constant)
    }

    /// The derivative at `u`.
    fn slope(&self, u: u16) -> i128
        requires { u ≤ 4096 }
        ensures value { result ≡ slope_at self.now u }
        ensures bound { unsigned_abs result ≤ 2 ^ 112 }
    {
        let cube = scaled(3, self.cube);
        let square = scaled(2, self.square);
        let high = raised(u, cube, square);
        raised(u, high, self.linear)
    }
}

/// One coordinate along a curve: the place times 4096 six times, and its derivative along v times 4096 five times.
#[derive(Clone, Copy)]
pub struct Coordinate {
    pub place: Cubic,
    pub rise: Cubic,
}

/// A number over 4096 five times, rounded down.
fn rounded_slope(exact: i128) -> i64
    requires { unsigned_abs exact ≤ 2 ^ 112 }
    ensures { result ≡ floor_of exact (denominator ^ 5) }
{
    floor_by(exact, 1 << 60) as i64
}

impl Coordinate {
    /// The place at `u`, rounded down once.
    fn place_at(&self, u: u16) -> Num
        requires { u ≤ 4096 }
        ensures { result ≡ place_at self.now u }
    {
        Num::sat(floor_by(self.place.value(u), 1 << 72))
    }

    /// The derivative along u at `u`, rounded down once.
    fn du_at(&self, u: u16) -> i64
        requires { u ≤ 4096 }
        ensures { result ≡ across_at self.now u }
    {
        rounded_slope(self.place.slope(u))
    }

    /// The derivative along v at `u`, rounded down once.
    fn dv_at(&self, u: u16) -> i64
        requires { u ≤ 4096 }
        ensures { result ≡ up_at self.now u }
    {
        rounded_slope(self.rise.value(u))
    }
}

/// The curve of a polynomial surface at one v.
#[derive(Clone, Copy)]
pub struct PolynomialCurve {
    pub x: Coordinate,
    pub y: Coordinate,
    pub z: Coordinate,
}

impl PolynomialCurve {
    fn point(&self, u: u16) -> Vec3
        requires { u ≤ 4096 }
        ensures { result ≡ by_axes (λ a. place_at (along a self.now) u) }
    {
        Vec3 {
            x: self.x.place_at(u),
            y: self.y.place_at(u),
            z: self.z.place_at(u),
        }
    }

    fn du(&self, u: u16) -> [i64; 3]
        requires { u ≤ 4096 }
        ensures { result ≡ triple (λ a. across_at (along a self.now) u) }
    {
        [self.x.du_at(u), self.y.du_at(u), self.z.du_at(u)]
    }

    fn dv(&self, u: u16) -> [i64; 3]
        requires { u ≤ 4096 }
        ensures { result ≡ triple (λ a. up_at (along a self.now) u) }
    {
        [self.x.dv_at(u), self.y.dv_at(u), self.z.dv_at(u)]
    }
}

/// The curve of a surface at one v. Points and derivatives along it cost much less than one by one.
#[derive(Clone, Copy)]
pub enum Curve {
    Polynomial(PolynomialCurve),
    Rational(RationalCurve),
}

impl Curve {
    /// The point at `u`.
    pub fn point(&self, u: Dyadic) -> Vec3
        ensures value { result ≡ curve_point self.now u }
        ensures within { u ≤ 4096 }
    {
        let u = u.numerator();
        match self {
            Curve::Polynomial(curve) => curve.point(u),
            Curve::Rational(curve) => curve.point(u),
        }
    }

    /// The partial derivative along u at `u`.
    pub fn du(&self, u: Dyadic) -> [i64; 3]
        ensures value { result ≡ curve_du self.now u }
        ensures within { u ≤ 4096 }
    {
        let u = u.numerator();
        match self {
            Curve::Polynomial(curve) => curve.du(u),
            Curve::Rational(curve) => curve.du(u),
        }
    }

    /// The partial derivative along v at `u`.
    pub fn dv(&self, u: Dyadic) -> [i64; 3]
        ensures value { result ≡ curve_dv self.now u }
        ensures within { u ≤ 4096 }
    {
        let u = u.numerator();
        match self {
            Curve::Polynomial(curve) => curve.dv(u),
            Curve::Rational(curve) => curve.dv(u),
        }
    }
}
