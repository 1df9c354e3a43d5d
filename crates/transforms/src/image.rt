//! Coordinates of images.
ghost use Rattle.std.specs.Prelude.{◌≡◌, ◌≤◌, ◌^◌, ◌*◌, ℤ, pos, ◌*ℤ◌, unsigned_abs};
ghost use Rattle.fixed_math.specs.Whole.{floor_by};
ghost use Rattle.transforms.specs.Matrix.{dot};
ghost use Rattle.transforms.specs.Map.{coordinate, direction};

use fixed_math::{Num, Vec3, Wide, floor_by, plus, times};

/// The exact product of a raw and an entry.
fn times_raw(p: Num, m: Wide) -> i128
    ensures value { result ≡ p *ℤ m }
    ensures bound { unsigned_abs result ≤ 2 ^ 78 }
{
    times::<31, 47>(p.raw() as i128, m.raw() as i128)
}

/// The exact sum of three products.
fn sum(p: &Vec3, a: Wide, b: Wide, c: Wide) -> i128
    ensures value { result ≡ dot p.now.x p.now.y p.now.z a b c }
    ensures bound { unsigned_abs result ≤ 3 * 2 ^ 78 }
{
    plus(
        plus(times_raw(p.x, a), times_raw(p.y, b)),
        times_raw(p.z, c),
    )
}

/// A shift at 40 fraction bits.
fn widened_shift(t: Wide) -> i128
    ensures value { result ≡ t *ℤ pos 65536 }
    ensures bound { unsigned_abs result ≤ 2 ^ 63 }
{
    t.raw() as i128 * 65536
}

/// A raw from a number at 40 fraction bits.
fn rounded(x: i128) -> i64
    requires { unsigned_abs x ≤ 2 ^ 80 }
    ensures value { result ≡ floor_by x 16777216 }
    ensures bound { unsigned_abs result ≤ 2 ^ 56 }
{
    floor_by(x, 1 << 24) as i64
}

/// One coordinate of the image of a point.
pub fn coordinate(p: &Vec3, a: Wide, b: Wide, c: Wide, t: Wide) -> i64
    ensures value { result ≡ coordinate p.now a b c t }
    ensures bound { unsigned_abs result ≤ 2 ^ 56 }
{
    rounded(plus(sum(p, a, b, c), widened_shift(t)))
}

/// One coordinate of the image of a direction.
pub fn direction(p: &Vec3, a: Wide, b: Wide, c: Wide) -> i64
    ensures value { result ≡ direction p.now a b c }
    ensures bound { unsigned_abs result ≤ 2 ^ 56 }
{
    rounded(sum(p, a, b, c))
}
