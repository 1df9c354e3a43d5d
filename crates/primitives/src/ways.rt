// Control points on their way.
ghost use Rattle.std.specs.Prelude.{◌≡◌, ◌≤◌, ◌^◌, IfOk, length};
ghost use Rattle.fixed_math.specs.Axes.{AreWithin};
ghost use Rattle.quadrics.specs.declared.quadric.Quadric.TheVariants.{Round as of_round, Ruled as of_ruled};
ghost use Rattle.primitives.specs.Moving.{points_on_way as points_of, plain_on_way as plain_of, quadric_on_way as quadric_of, patch_on_way as patch_of};

use fixed_math::{List, NoMemory, Vec3};
use moving::place_on_way;
use patches::{Bicubic, Bilinear, Patch};
use quadrics::{AnyPatch, Quadric, Round, Ruled};
use std::alloc::Global;

/// Points on their way to as many others, `steps` of 65536 equal steps from them.
pub(crate) fn points_on_way(
    alloc: Global,
    first: &[Vec3],
    last: &[Vec3],
    steps: u32,
) -> Result<List<Vec3>, NoMemory>
    requires { steps ≤ 65536 }
    ensures { IfOk result (λ r. r ≡ points_of steps first.now last.now) }
{
    let pairs = first.iter().zip(last);
    let points = pairs.map(|(p, q)| place_on_way(*p, *q, steps));
    Ok(List(points.collect(alloc)?))
}

// So many points on their way to as many others. They lie between these, and so are in range as they are.
fn array_on_way<const N: usize>(first: &[Vec3; N], last: &[Vec3; N], steps: u32) -> [Vec3; N]
    requires steps { steps ≤ 65536 }
    requires first { AreWithin (2 ^ 30) first.now }
    requires last { AreWithin (2 ^ 30) last.now }
    ensures value { result ≡ points_of steps first.now last.now }
    ensures small { AreWithin (2 ^ 30) result }
{
    let mut points = [Vec3::default(); N];
    for k in 0..N {
        points[k] = place_on_way(first[k], last[k], steps);
    }
    points
}

// The bilinear patch of points on their way.
fn bilinear_on_way(first: &Bilinear, last: &Bilinear, steps: u32) -> Bilinear
    requires { steps ≤ 65536 }
    ensures { result ≡ points_of steps first.now last.now }
{
    Bilinear::new(array_on_way(first.points(), last.points(), steps))
}

// The bicubic patch of points on their way.
fn bicubic_on_way(first: &Bicubic, last: &Bicubic, steps: u32) -> Bicubic
    requires { steps ≤ 65536 }
    ensures { result ≡ points_of steps first.now last.now }
{
    Bicubic::new(array_on_way(first.points(), last.points(), steps))
}

// The round patch of points on their way.
fn round_on_way(first: &Round, last: &Round, steps: u32) -> Quadric
    requires { steps ≤ 65536 }
    ensures { result ≡ of_round (points_of steps first.now last.now) }
{
    Quadric::round(array_on_way(first.points(), last.points(), steps))
}

// The ruled patch of points on their way.
fn ruled_on_way(first: &Ruled, last: &Ruled, steps: u32) -> Quadric
    requires { steps ≤ 65536 }
    ensures { result ≡ of_ruled (points_of steps first.now last.now) }
{
    Quadric::ruled(array_on_way(first.points(), last.points(), steps))
}

// The patch of control points on their way, or none for patches of two kinds.
fn plain_on_way(first: &Patch, last: &Patch, steps: u32) -> Option<Patch>
    requires { steps ≤ 65536 }
    ensures { result ≡ plain_of steps first.now last.now }
{
    match (first, last) {
        (Patch::Bilinear(first), Patch::Bilinear(last)) => {
            Some(Patch::Bilinear(bilinear_on_way(first, last, steps)))
        }
        (Patch::Bicubic(first), Patch::Bicubic(last)) => {
            Some(Patch::Bicubic(bicubic_on_way(first, last, steps)))
        }
        _ => None,
    }
}

// The quadric's patch of points on their way, or none for patches of two kinds.
fn quadric_on_way(first: &Quadric, last: &Quadric, steps: u32) -> Option<Quadric>
    requires { steps ≤ 65536 }
    ensures { result ≡ quadric_of steps first.now last.now }
{
    match (first, last) {
        (Quadric::Round(first), Quadric::Round(last)) => Some(round_on_way(first, last, steps)),
        (Quadric::Ruled(first), Quadric::Ruled(last)) => Some(ruled_on_way(first, last, steps)),
        _ => None,
    }
}

/// The patch whose control points are `steps` of 65536 equal steps on their way from those of one patch to those of another of its
/// kind, or none for patches of two kinds.
pub(crate) fn patch_on_way(first: &AnyPatch, last: &AnyPatch, steps: u32) -> Option<AnyPatch>
    requires { steps ≤ 65536 }
    ensures { result ≡ patch_of steps first.now last.now }
{
    match (first, last) {
        (AnyPatch::Plain(first), AnyPatch::Plain(last)) => {
            Some(AnyPatch::Plain(plain_on_way(first, last, steps)?))
        }
        (AnyPatch::Quadric(first), AnyPatch::Quadric(last)) => {
            Some(AnyPatch::Quadric(quadric_on_way(first, last, steps)?))
        }
        _ => None,
    }
}
