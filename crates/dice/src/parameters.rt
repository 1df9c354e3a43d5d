// What a shader reads of its place on a primitive: parameters, steps and derivatives.
ghost use Rattle.std.specs.Prelude.{◌≡◌, ◌≤◌, ◌<◌, ◌^◌, ℕ, pos, ◌*ℤ◌, List, unsigned_abs};
ghost use Rattle.fixed_math.specs.Fixed.{sat};
ghost use Rattle.patches.specs.Slopes.{AreBelow};
ghost use Rattle.dice.specs.Placed.{parameter_of, step_of, derivative_of};

use fixed_math::{Num, Vec3, scaled};
use patches::Dyadic;

/// The shader's u at the parameter `at` of a patch in column `c` of the `m` of its primitive, so that u runs from 0 to 1 over all
/// of them; v alike, of its row. `m` is at most 65536 and `c` below it.
pub fn placed_parameter(c: u32, m: u32, at: Dyadic) -> Num
    requires place { c < m }
    requires count { m ≤ 65536 }
    ensures { result ≡ parameter_of c m at }
{
    let parameter = 65536 * c as u64 + 16 * at.numerator() as u64;
    Num::sat((parameter / m as u64) as i128)
}

/// The step of the shader's u from one column of a diced grid to the next, at least raw 1: in one of the `m` columns of patches
/// of a primitive, halved `a` times and cut into 2^`p` cells; that of v alike. `a` is at most 8, `p` at most 4 and `m` 1 to 65536.
pub fn placed_step(m: u32, a: u8, p: u8) -> Num
    requires some { 1 ≤ m }
    requires count { m ≤ 65536 }
    requires depth { a ≤ 8 }
    requires cells { p ≤ 4 }
    ensures { result ≡ step_of m a p }
{
    let cells: u64 = 1 << (a + p);
    let step = 65536 / (m as u64 * cells);
    Num::sat(step.max(1) as i128)
}

/// The saturated product of a number of columns and a raw slope.
fn widened(m: u32, slope: i64) -> Num
    requires count { m ≤ 65536 }
    requires small { unsigned_abs slope ≤ 2 ^ 40 }
    ensures { result ≡ sat (pos m *ℤ slope) }
{
    let product = scaled(m as u128, slope as i128);
    Num::sat(product)
}

/// The derivative of the place by the shader's u, from a patch's own derivative `d` by its parameter, where `m` columns of patches
/// share the shader's u; that by v alike. `m` is at most 65536, and the numbers of `d` have a magnitude of at most 2^40.
#[tactic(auto, unfolding(crate::specs::Placed::derivative_of))]
pub fn placed_derivative(m: u32, d: [i64; 3]) -> Vec3
    requires count { m ≤ 65536 }
    requires small { AreBelow (2 ^ 40) d }
    ensures { result ≡ derivative_of m d }
{
    Vec3 {
        x: widened(m, d[0]),
        y: widened(m, d[1]),
        z: widened(m, d[2]),
    }
}
