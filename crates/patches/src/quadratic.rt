// Polynomials of degree 2, and the curves that are made of their quotients.
ghost use Rattle.std.specs.Prelude.{◌≤◌, ◌^◌, unsigned_abs};

/// A polynomial of degree 2 of a numerator u over 4096, by the coefficients of the powers of u.
#[derive(Clone, Copy)]
pub struct Quadratic {
    pub constant: i128,
    pub linear: i128,
    pub square: i128,
    pub ghost constant_small: { unsigned_abs constant ≤ 2 ^ 110 },
    pub ghost linear_small: { unsigned_abs linear ≤ 2 ^ 104 },
    pub ghost square_small: { unsigned_abs square ≤ 2 ^ 92 },
}

/// One coordinate along a curve: the numerators of the place and of both its derivatives.
#[derive(Clone, Copy)]
pub struct RationalCoordinate {
    pub place: Quadratic,
    pub across: Quadratic,
    pub up: Quadratic,
}

/// The curve of a rational surface at one v. The denominators are those of a quarter of a circle along u, times a factor that is the same
/// at all points of the curve.
#[derive(Clone, Copy)]
pub struct RationalCurve {
    pub under: u64,
    pub across_under: u64,
    pub up_under: u64,
    pub x: RationalCoordinate,
    pub y: RationalCoordinate,
    pub z: RationalCoordinate,
    pub ghost under_from: { 2 ^ 12 ≤ under },
    pub ghost under_to: { under ≤ 2 ^ 50 },
    pub ghost across_from: { 2 ^ 12 ≤ across_under },
    pub ghost across_to: { across_under ≤ 2 ^ 50 },
    pub ghost up_from: { 2 ^ 48 ≤ up_under },
    pub ghost up_to: { up_under ≤ 2 ^ 50 },
}
