// Polynomials of degree 3.
ghost use Rattle.std.specs.Prelude.{◌≤◌, ◌^◌, unsigned_abs};

/// A polynomial of a numerator u over 4096, by the coefficients of the powers of u.
#[derive(Clone, Copy)]
pub struct Cubic {
    pub constant: i128,
    pub linear: i128,
    pub square: i128,
    pub cube: i128,
    pub ghost constant_small: { unsigned_abs constant ≤ 2 ^ 108 },
    pub ghost linear_small: { unsigned_abs linear ≤ 2 ^ 96 },
    pub ghost square_small: { unsigned_abs square ≤ 2 ^ 84 },
    pub ghost cube_small: { unsigned_abs cube ≤ 2 ^ 72 },
}
