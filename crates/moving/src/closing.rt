// Where a point is when its motion ends.
ghost use Rattle.std.specs.Prelude.{◌≡◌, ◌≤◌, ℤ, ◌+ℤ◌, ◌-ℤ◌, unsigned_abs};
ghost use Rattle.fixed_math.specs.Fixed.{sat};
ghost use Rattle.moving.specs.Closing.{closing_place as place_of, IsNear};

use fixed_math::{Num, Vec3};

/// `last` and what leads from `before` to `after`, exact.
fn moved(last: Num, before: Num, after: Num) -> i64
    ensures value { result ≡ last +ℤ (after -ℤ before) }
    ensures last { unsigned_abs last ≤ 2147483647 }
{
    last.raw() + (after.raw() - before.raw())
}

/// `last` and what leads from `before` to `after`, saturated.
fn closing_number(last: Num, before: Num, after: Num) -> Num
    ensures value { result ≡ sat (last +ℤ (after -ℤ before)) }
    ensures last { unsigned_abs last ≤ 2147483647 }
{
    Num::sat(moved(last, before, after) as i128)
}

/// Where a point of a moving surface is when its motion ends: at the closing surface's point `last`, and from there as far as
/// displacement moved the opening surface's point from `before` to `after`, saturated. So it is no further from `last` than `after`
/// is from `before`.
pub fn closing_place(last: Vec3, before: Vec3, after: Vec3) -> Vec3
    ensures value { result ≡ place_of last before after }
    ensures near { (bound : ℤ) → IsNear bound before after → IsNear bound last result }
{
    Vec3 {
        x: closing_number(last.x, before.x, after.x),
        y: closing_number(last.y, before.y, after.y),
        z: closing_number(last.z, before.z, after.z),
    }
}
