// The values of a primitive's variable at the corners of its patch, in camera space, and between them.
ghost use Rattle.std.specs.Prelude.{◌≡◌, ◌≤◌, ◌<◌};
ghost use Rattle.scene.specs.Seats.{numbers_of as numbers_list};
ghost use Rattle.grid_variables.specs.Variables.{triple_from as triple_of, corner as corner_of, corners_of as corners_list, between as between_of};

use crate::bilinear::point_at;
use crate::moves::turned;
use builtins::image;
use fixed_math::{Num, Vec3};
use patches::Dyadic;
use scene::{Kind, Variable};
use sl_ast::SlType;
use transforms::Affine;

/// The three numbers of a variable's values from number `k` on.
fn triple_from(variable: &Variable, k: usize) -> Vec3
    requires { k ≤ 9 }
    ensures { result ≡ triple_of (numbers_list variable.now.values) k }
{
    Vec3 {
        x: variable.number(k),
        y: variable.number(k + 1),
        z: variable.number(k + 2),
    }
}

/// A variable's value at corner `k`.
fn corner(object: &Affine, variable: &Variable, k: usize) -> Vec3
    requires { k < 4 }
    ensures { result ≡ corner_of variable.now.kind object.now (numbers_list variable.now.values) k }
{
    match variable.kind() {
        Kind::Float => Vec3 {
            x: variable.number(k),
            y: Num::default(),
            z: Num::default(),
        },
        Kind::Pair => Vec3 {
            x: variable.number(2 * k),
            y: variable.number(2 * k + 1),
            z: Num::default(),
        },
        Kind::Point => image(SlType::Point, object, triple_from(variable, 3 * k)),
        Kind::Vector => image(SlType::Vector, object, triple_from(variable, 3 * k)),
        Kind::Normal => image(SlType::Normal, object, triple_from(variable, 3 * k)),
        Kind::Color | Kind::Str => triple_from(variable, 3 * k),
    }
}

/// The values at the four corners, in the order of a bilinear patch, turned over where that is asked.
pub(crate) fn corners_of(over: bool, variable: &Variable, object: &Affine) -> [Vec3; 4]
    ensures { result ≡ corners_list over variable.now.kind object.now (numbers_list variable.now.values) }
{
    [
        turned(over, &corner(object, variable, 0)),
        turned(over, &corner(object, variable, 1)),
        turned(over, &corner(object, variable, 2)),
        turned(over, &corner(object, variable, 3)),
    ]
}

/// The value at the parameters `u` and `v`: that of the first corner, or where it is varying the point of the bilinear patch.
pub(crate) fn between(varying: bool, corners: &[Vec3; 4], u: Dyadic, v: Dyadic) -> Vec3
    ensures { result ≡ between_of varying corners.now u v }
{
    if varying {
        point_at(corners, u.numerator(), v.numerator())
    } else {
        corners[0]
    }
}
