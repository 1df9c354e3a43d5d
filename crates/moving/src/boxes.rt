// The least box that holds two boxes.
ghost use Rattle.std.specs.Prelude.{◌≡◌};
ghost use Rattle.std.specs.Int.{int_min, int_max};
ghost use Rattle.fixed_math.specs.Axes.{part_of, by_axes};
ghost use Rattle.patches.specs.Boxes.{Box, corners};
ghost use Rattle.moving.specs.MovingBoxes.{both};

use fixed_math::{Num, Vec3};

fn lesser(a: Num, b: Num) -> Num
    ensures { result ≡ int_min a b }
{
    if b.raw() < a.raw() { b } else { a }
}

fn greater(a: Num, b: Num) -> Num
    ensures { result ≡ int_max a b }
{
    if b.raw() < a.raw() { a } else { b }
}

/// The lesser of each coordinate.
fn lower(p: Vec3, q: Vec3) -> Vec3
    ensures { result ≡ by_axes (λ a. int_min (part_of a p) (part_of a q)) }
{
    Vec3 {
        x: lesser(p.x, q.x),
        y: lesser(p.y, q.y),
        z: lesser(p.z, q.z),
    }
}

/// The greater of each coordinate.
fn higher(p: Vec3, q: Vec3) -> Vec3
    ensures { result ≡ by_axes (λ a. int_max (part_of a p) (part_of a q)) }
{
    Vec3 {
        x: greater(p.x, q.x),
        y: greater(p.y, q.y),
        z: greater(p.z, q.z),
    }
}

/// The corners of the least box that holds two boxes, of which these are the corners.
pub(crate) fn both_boxes(first: [Vec3; 2], last: [Vec3; 2]) -> [Vec3; 2]
    ensures { (b c : Box) → first ≡ corners b → last ≡ corners c → result ≡ corners (both b c) }
{
    let [low, high] = first;
    let [other_low, other_high] = last;
    [lower(low, other_low), higher(high, other_high)]
}
