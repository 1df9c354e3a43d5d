// The composite of fragments.
ghost use Rattle.std.specs.Prelude.{◌≡◌, ◌≤◌, ℤ, pos, ◌-ℤ◌, ◌*ℤ◌, ◌==◌, List, [], ◌++◌, unsigned_abs};
ghost use Rattle.std.specs.List.{cons_option};
ghost use Rattle.fixed_math.specs.Fixed.{add, mul};
ghost use Rattle.fixed_math.specs.declared.vec3.Axis.TheVariants.{X, Y, Z};
ghost use Rattle.hider.specs.declared.fragment.Fragment.{Fragment};
ghost use Rattle.hider.specs.Composite.{composite_from, composite, is_one, is_opaque, cut};

use crate::fragment::Fragment;
use fixed_math::{Num, Vec3};

fn is_one(opacity: Num) -> bool
    ensures { result ≡ is_one opacity }
{
    opacity.raw() == 65536
}

impl Fragment {
    /// Whether nothing passes through the fragment in any channel: each part of its opacity is exactly 1.
    #[tactic(auto, unfolding(crate::specs::Composite::is_opaque))]
    pub fn is_opaque(&self) -> bool
        ensures { result ≡ is_opaque self.now }
    {
        is_one(self.opacity.x) && is_one(self.opacity.y) && is_one(self.opacity.z)
    }
}

/// What doesn't pass through an opacity, as a part of 65536 that may be below 0.
fn left_of(opacity: Num) -> i64
    ensures value { result ≡ pos 65536 -ℤ opacity }
    ensures size { unsigned_abs result ≤ 2147549183 }
{
    65536 - opacity.raw()
}

/// What passes of what passed before.
fn part_left(passed: i64, left: i64) -> i64
    requires passed { unsigned_abs passed ≤ 2147483647 }
    requires left { unsigned_abs left ≤ 2147549183 }
    ensures { result ≡ passed *ℤ left }
{
    passed * left
}

/// One channel of `passed_through`.
#[tactic(auto, using(fixed_math::proofs::Floor::div_euclid_is))]
fn passed_part(passed: Num, opacity: Num) -> Num
    ensures { result ≡ mul passed (pos 65536 -ℤ opacity) }
{
    let exact = part_left(passed.raw(), left_of(opacity));
    Num::sat(exact.div_euclid(65536) as i128)
}

/// What passes through a fragment of what passed before it.
fn passed_through(passed: &Vec3, opacity: &Vec3) -> Vec3
    ensures x { result.x ≡ mul passed.now.x (pos 65536 -ℤ opacity.now.x) }
    ensures y { result.y ≡ mul passed.now.y (pos 65536 -ℤ opacity.now.y) }
    ensures z { result.z ≡ mul passed.now.z (pos 65536 -ℤ opacity.now.z) }
{
    Vec3 {
        x: passed_part(passed.x, opacity.x),
        y: passed_part(passed.y, opacity.y),
        z: passed_part(passed.z, opacity.z),
    }
}

/// A colour with what passes to it of another one behind.
fn laid_over(colour: &Vec3, passed: &Vec3, behind: &Vec3) -> Vec3
    ensures x { result.x ≡ add colour.now.x (mul passed.now.x behind.now.x) }
    ensures y { result.y ≡ add colour.now.y (mul passed.now.y behind.now.y) }
    ensures z { result.z ≡ add colour.now.z (mul passed.now.z behind.now.z) }
{
    Vec3 {
        x: colour.x.add(passed.x.mul(behind.x)),
        y: colour.y.add(passed.y.mul(behind.y)),
        z: colour.z.add(passed.z.mul(behind.z)),
    }
}

/// What fragments laid over one another give: their colour, and what passes through them.
#[derive(Clone, Copy)]
struct Laid {
    colour: Vec3,
    passed: Vec3,
}

/// Fragments, before whatever lies behind them.
fn lay(fragments: &[Fragment]) -> Laid
    ensures x { (rest : List Fragment) → composite_from X result.colour.x result.passed.x rest ≡ composite_from X (pos 0) (pos 65536) (fragments.now ++ rest) }
    ensures y { (rest : List Fragment) → composite_from Y result.colour.y result.passed.y rest ≡ composite_from Y (pos 0) (pos 65536) (fragments.now ++ rest) }
    ensures z { (rest : List Fragment) → composite_from Z result.colour.z result.passed.z rest ≡ composite_from Z (pos 0) (pos 65536) (fragments.now ++ rest) }
{
    let mut colour = Vec3::default();
    let mut passed = Vec3 {
        x: Num::sat(65536),
        y: Num::sat(65536),
        z: Num::sat(65536),
    };
    for f in fragments {
        colour = laid_over(&colour, &passed, &f.colour);
        passed = passed_through(&passed, &f.opacity);
    }
    Laid { colour, passed }
}

/// A channel of a fragment with nothing before it: all of it passes.
fn whole(v: Num) -> Num
    ensures { result ≡ add (pos 0) (mul (pos 65536) v) }
{
    // here is told that the number is in its range
    let _raw = v.raw();
    v
}

/// The colour of a fragment with nothing before it.
#[tactic(auto, unfolding(crate::specs::Composite::composite))]
fn alone(back: &Option<Fragment>) -> Vec3
    ensures { result ≡ composite (cons_option back.now []) }
{
    match back {
        None => Vec3::default(),
        Some(f) => Vec3 {
            x: whole(f.colour.x),
            y: whole(f.colour.y),
            z: whole(f.colour.z),
        },
    }
}

/// The colour of fragments and of one behind them.
#[tactic(auto, unfolding(crate::specs::Composite::composite))]
fn composite_all(front: &[Fragment], back: &Option<Fragment>) -> Vec3
    ensures { result ≡ composite (front.now ++ cons_option back.now []) }
{
    let laid = lay(front);
    match back {
        None => laid.colour,
        Some(f) => laid_over(&laid.colour, &laid.passed, &f.colour),
    }
}

/// The same. At nearly all samples nothing lies in front.
pub(crate) fn composite_before(front: &[Fragment], back: &Option<Fragment>) -> Vec3
    ensures { result ≡ composite (front.now ++ cons_option back.now []) }
{
    if front.is_empty() {
        alone(back)
    } else {
        composite_all(front, back)
    }
}

/// The colour of the fragments, the nearest first: each adds its colour times what passed through those before it
/// (Cook, Carpenter and Catmull, 1987; colours hold their opacity already, as in the RenderMan Interface 3.2).
pub fn composite(fragments: &[Fragment]) -> Vec3
    ensures { result ≡ composite fragments.now }
{
    composite_before(fragments, &None)
}

/// The law of the cut: what stands behind an opaque fragment doesn't show.
pub fn cut_law(fragments: &[Fragment])
    ensures { composite (cut fragments.now) ≡ composite fragments.now }
{}
