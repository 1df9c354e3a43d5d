// Fragments laid over one another.
ghost use Rattle.std.specs.Prelude.{◌≡◌, ◌≤◌, pos, ◌-ℤ◌, ◌*ℤ◌, [], ◌∷◌, ◌++◌, List, unsigned_abs};
ghost use Rattle.fixed_math.specs.Fixed.{add, mul};
ghost use Rattle.hider.specs.declared.fragment.Fragment.{Fragment as FragmentValue};
ghost use Rattle.pixel_account.specs.Laying.{IsLaid};

use fixed_math::{Num, Vec3};
use hider::Fragment;

/// The colour of fragments laid over one another, and what passes through them, in 1/65536.
#[derive(Clone, Copy)]
pub(crate) struct Laid {
    pub(crate) colour: Vec3,
    pub(crate) passed: Vec3,
}

/// Nothing, through which all passes.
pub(crate) fn nothing() -> Laid
    ensures { IsLaid [] result }
{
    let whole = Num::sat(65536);
    Laid {
        colour: Vec3::default(),
        passed: Vec3 {
            x: whole,
            y: whole,
            z: whole,
        },
    }
}

/// What doesn't pass through an opacity, as a part of 65536 that may be below 0.
fn left_of(opacity: Num) -> i64
    ensures value { result ≡ pos 65536 -ℤ opacity }
    ensures size { unsigned_abs result ≤ 2147549183 }
{
    65536 - opacity.raw()
}

/// What passes of what passed before.
fn part_left(passed: i64, left: i64) -> i64
    requires passed { unsigned_abs passed ≤ 2147483647 }
    requires left { unsigned_abs left ≤ 2147549183 }
    ensures { result ≡ passed *ℤ left }
{
    passed * left
}

/// One channel of what passes through a fragment as well.
#[tactic(auto, using(fixed_math::proofs::Floor::div_euclid_is))]
fn passed_part(passed: Num, opacity: Num) -> Num
    ensures { result ≡ mul passed (pos 65536 -ℤ opacity) }
{
    let exact = part_left(passed.raw(), left_of(opacity));
    Num::sat(exact.div_euclid(65536) as i128)
}

/// One channel of a colour with what passes to it of another one behind.
fn colour_part(colour: Num, passed: Num, behind: Num) -> Num
    ensures { result ≡ add colour (mul passed behind) }
{
    colour.add(passed.mul(behind))
}

/// The same with one fragment more behind them.
pub(crate) fn laid_with(before: &Laid, f: &Fragment) -> Laid
    ensures { (front : List FragmentValue) → IsLaid front before.now → IsLaid (front ++ f.now ∷ []) result }
{
    Laid {
        colour: Vec3 {
            x: colour_part(before.colour.x, before.passed.x, f.colour.x),
            y: colour_part(before.colour.y, before.passed.y, f.colour.y),
            z: colour_part(before.colour.z, before.passed.z, f.colour.z),
        },
        passed: Vec3 {
            x: passed_part(before.passed.x, f.opacity.x),
            y: passed_part(before.passed.y, f.opacity.y),
            z: passed_part(before.passed.z, f.opacity.z),
        },
    }
}
