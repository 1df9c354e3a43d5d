// The range of a primitive's points.
ghost use Rattle.std.specs.Prelude.{◌≡◌, ◌≤◌, ◌^◌, unsigned_abs, IfSome};
ghost use Rattle.patches.specs.Boxes.{IsWithin};
ghost use Rattle.mesh_basis.specs.Ranges.{number_in_range, point_in_range, is_in_range, are_in_range};

use fixed_math::{Num, Vec3};

/// The greatest magnitude of a raw coordinate.
const LIMIT: u128 = 1 << 30;

/// The number of a raw coordinate, where it is in range.
pub(crate) fn number_in_range(raw: i128) -> Option<Num>
    ensures value { result ≡ number_in_range raw }
    ensures range { IfSome result (λ x. unsigned_abs x ≤ 2 ^ 30) }
{
    if raw.unsigned_abs() <= LIMIT {
        Some(Num::sat(raw))
    } else {
        None
    }
}

fn point_in_range(point: Vec3) -> Option<Vec3>
    ensures { result ≡ point_in_range point }
{
    Some(Vec3 {
        x: number_in_range(point.x.raw() as i128)?,
        y: number_in_range(point.y.raw() as i128)?,
        z: number_in_range(point.z.raw() as i128)?,
    })
}

fn is_in_range(point: Vec3) -> bool
    ensures { result ≡ is_in_range point }
{
    point_in_range(point).is_some()
}

/// Whether each raw coordinate of each point has a magnitude of at most 2^30.
pub fn are_in_range(points: &[Vec3]) -> bool
    ensures { result ≡ are_in_range points.now }
{
    points.iter().all(|point| is_in_range(*point))
}
