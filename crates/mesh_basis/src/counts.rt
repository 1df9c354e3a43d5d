// How many patches a mesh has.
ghost use Rattle.std.specs.Prelude.{◌≡◌, ◌≤◌, ◌<◌, ◌*◌, ◌^◌, IfSome};
ghost use Rattle.mesh_basis.specs.Counts.{linear_count, cubic_count, count_along, counts_of};

use crate::shape::Shape;

/// How many patches a mesh has along u and along v.
#[derive(Debug, Clone, Copy, PartialEq, Eq)]
pub struct Counts {
    pub along_u: u32,
    pub along_v: u32,
}

// Of bilinear patches along a row of points.
fn linear_count(periodic: bool, points: u32) -> Option<u32>
    ensures { result ≡ linear_count periodic points }
{
    if periodic {
        Some(points)
    } else if points >= 2 {
        Some(points - 1)
    } else {
        None
    }
}

// Of bicubic patches along a row of points.
fn cubic_count(periodic: bool, points: u32, step: u32) -> Option<u32>
    requires { 1 ≤ step }
    ensures { result ≡ cubic_count periodic points step }
{
    if points < 4 {
        return None;
    }
    if periodic {
        return if points % step == 0 {
            Some(points / step)
        } else {
            None
        };
    }
    if (points - 4) % step == 0 {
        Some((points - 4) / step + 1)
    } else {
        None
    }
}

fn count_along(bicubic: bool, periodic: bool, points: u32, step: u32) -> Option<u32>
    requires { 1 ≤ step }
    ensures { result ≡ count_along bicubic periodic points step }
{
    if bicubic {
        cubic_count(periodic, points, step)
    } else {
        linear_count(periodic, points)
    }
}

/// How many patches a mesh of this shape with so many points has, or none where it has another number of points or they don't
/// make whole patches. The steps are at least 1.
pub fn counts_of(shape: &Shape, points: usize) -> Option<Counts>
    requires step_u { 1 ≤ shape.now.step_u }
    requires step_v { 1 ≤ shape.now.step_v }
    ensures { result ≡ counts_of shape.now points }
{
    if points as u64 != shape.nu as u64 * shape.nv as u64 {
        return None;
    }
    Some(Counts {
        along_u: count_along(shape.bicubic, shape.periodic_u, shape.nu, shape.step_u)?,
        along_v: count_along(shape.bicubic, shape.periodic_v, shape.nv, shape.step_v)?,
    })
}
