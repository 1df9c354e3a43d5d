// The parameters and the derivatives at the points of a leaf.
ghost use Rattle.std.specs.Prelude.{◌≡◌, IfOk};
ghost use Rattle.grid_variables.specs.Places.{point_count, over, parameter_at, derivative_at};

use crate::leaf::{Along, Leaf};
use bumpalo::Bump;
use bumpalo::collections::into_bump_slice;
use fixed_math::{NoMemory, Num, Vec3};

/// The shader's u or v at all points.
pub fn parameters<'a>(arena: &'a Bump, leaf: &Leaf, along: Along) -> Result<&'a [Num], NoMemory>
    ensures { IfOk result (λ xs. xs.now ≡ over (point_count leaf.now) (parameter_at along leaf.now)) }
{
    let mut numbers = Vec::with_capacity(arena, leaf.point_count())?;
    for i in 0..leaf.point_count() {
        numbers.push(leaf.parameter(along, i))?;
    }
    Ok(into_bump_slice(numbers))
}

/// The derivatives of the place by the shader's u or v at all points.
pub fn derivatives<'a>(arena: &'a Bump, leaf: &Leaf, along: Along) -> Result<&'a [Vec3], NoMemory>
    ensures { IfOk result (λ xs. xs.now ≡ over (point_count leaf.now) (derivative_at along leaf.now)) }
{
    let mut vectors = Vec::with_capacity(arena, leaf.point_count())?;
    for i in 0..leaf.point_count() {
        vectors.push(leaf.derivative(along, i))?;
    }
    Ok(into_bump_slice(vectors))
}
