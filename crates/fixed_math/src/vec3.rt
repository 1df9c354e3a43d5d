// Three numbers: points, vectors, normals, colours.
ghost use Rattle.std.specs.Prelude.{◌≡◌};

use crate::num::Num;

/// A point, vector, normal or colour: three numbers.
#[derive(Debug, Clone, Copy, PartialEq, Eq)]
pub struct Vec3 {
    pub x: Num,
    pub y: Num,
    pub z: Num,
}

impl Default for Vec3 {
    ghost use Rattle.fixed_math.specs.Axes.{origin};

    ghost is_default = { λ p. p ≡ origin };

    /// The origin.
    fn default() -> Vec3 {
        Vec3 {
            x: Num::default(),
            y: Num::default(),
            z: Num::default(),
        }
    }
}

/// One of the three coordinates.
#[derive(Debug, Clone, Copy, PartialEq, Eq)]
pub enum Axis {
    X,
    Y,
    Z,
}

impl Vec3 {
    ghost use Rattle.std.specs.Prelude.{◌≡◌};
    ghost use Rattle.fixed_math.specs.Axes.{part_of};

    /// The coordinate along an axis.
    pub fn part(&self, axis: Axis) -> Num
        ensures { result ≡ part_of axis self.now }
    {
        match axis {
            Axis::X => self.x,
            Axis::Y => self.y,
            Axis::Z => self.z,
        }
    }
}
