//! The tangent of half a field of view.
ghost use Rattle.std.specs.Prelude.{◌≡◌, Option, option_map, unsigned_abs, ok_or, cond, Some, None};
ghost use Rattle.transforms.specs.Field.{half_angle, tangent, is_field};

use fixed_math::{Num, floor_by};

/// Half of an angle in degrees, in radians.
#[tactic(auto, unfolding(crate::specs::Field::half_angle))]
fn half_angle(fov: Num) -> Num
    ensures { result ≡ half_angle fov }
{
    Num::sat(floor_by(fov.raw() as i128 * 205887, 23592960))
}

#[tactic(auto, unfolding(crate::specs::Field::tangent))]
fn tangent(fov: Num) -> Num
    ensures { result ≡ tangent fov }
{
    if fov.raw() == 5898240 {
        return Num::sat(65536);
    }
    let half = half_angle(fov);
    half.sin().div(half.cos())
}

/// The raw tangent of half the field of view, where a camera can have that field.
#[tactic(auto, unfolding(crate::specs::Field::is_field))]
pub fn scale(fov: Num) -> Option<u32>
    ensures { result ≡ cond (is_field fov) (Some (unsigned_abs (tangent fov))) None }
{
    let tangent = tangent(fov);
    if 0 < fov.raw() && fov.raw() < 11796480 && 0 < tangent.raw() {
        Some(tangent.raw() as u32)
    } else {
        None
    }
}
