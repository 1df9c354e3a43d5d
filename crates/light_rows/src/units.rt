// Vectors of length 1 and cosines that are the same at all places.
ghost use Rattle.std.specs.Prelude.{◌≡◌, ℕ};
ghost use Rattle.fixed_math.specs.Sine.{cos};
ghost use Rattle.builtins.specs.Triples.{normalize};
ghost use Rattle.number_rows.specs.Planes.{triple_at, ArePlanes};

use fixed_math::Vec3;
use number_rows::{Plane, Planes, Raw, unit};

/// The vector of length 1 in a direction.
pub(crate) fn unit_of(x: Raw, y: Raw, z: Raw) -> Vec3
    ensures { result ≡ normalize (record { x = x; y = y; z = z }) }
{
    unit(Vec3 {
        x: x.number(),
        y: y.number(),
        z: z.number(),
    })
}

/// The same, at all places.
pub(crate) fn one_unit(x: Raw, y: Raw, z: Raw) -> Planes<'static>
    ensures planes { (c : ℕ) → ArePlanes c result }
    ensures each { (i : ℕ) → triple_at result i ≡ normalize (record { x = x; y = y; z = z }) }
{
    let one = unit_of(x, y, z);
    Planes {
        x: Plane::Value(Raw::of(one.x)),
        y: Plane::Value(Raw::of(one.y)),
        z: Plane::Value(Raw::of(one.z)),
    }
}

/// The cosine of a number.
pub(crate) fn cosine(x: Raw) -> Raw
    ensures { result ≡ cos x }
{
    Raw::of(x.number().cos())
}
