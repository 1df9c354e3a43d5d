// A place on the raster.
ghost use Rattle.std.specs.Prelude.{◌≡◌, ◌≤◌, unsigned_abs};
ghost use Rattle.fixed_math.specs.Spots.{Spot, IsOnRaster};

use std::marker::Model;

/// A place on the raster in 1/256 pixel, x to the right and y down, of magnitudes of at most 2^28.
#[derive(Debug, Clone, Copy, PartialEq, Eq)]
pub struct Spot {
    x: i64,
    y: i64,
}

impl Model for Spot {
    ghost Value = { Spot };

    ghost view = { λ p. record { x = p.x; y = p.y } };

    ghost invariant = { λ p. IsOnRaster (record { x = p.x; y = p.y }) };

    ghost inverse = { λ s. record { x = s.x; y = s.y } };
}

impl Spot {
    /// The place `x`, `y`.
    pub fn new(x: i64, y: i64) -> Spot
        requires x { unsigned_abs x ≤ 268435456 }
        requires y { unsigned_abs y ≤ 268435456 }
        ensures { result ≡ record { x = x; y = y } }
    {
        Spot { x, y }
    }

    /// The place along x.
    pub fn x(self) -> i64
        ensures value { result ≡ self.x }
        ensures size { unsigned_abs result ≤ 268435456 }
    {
        self.x
    }

    /// The place along y.
    pub fn y(self) -> i64
        ensures value { result ≡ self.y }
        ensures size { unsigned_abs result ≤ 268435456 }
    {
        self.y
    }
}
