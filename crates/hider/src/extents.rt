// The points below and above all corners of a cell at two times.
ghost use Rattle.std.specs.Prelude.{◌≡◌, ◌≤ℤ◌, ℤ, IsTrue};
ghost use Rattle.hider.specs.Extents.{IsBelow, IsBelowAll, IsAboveAll};

use fixed_math::{Num, Vec3};

/// The lesser of two numbers.
pub(crate) fn lesser(a: Num, b: Num) -> Num
    ensures both { (result ≤ℤ a) × (result ≤ℤ b) }
    ensures least { (l : ℤ) → l ≤ℤ a → l ≤ℤ b → l ≤ℤ result }
{
    if a.raw() < b.raw() { a } else { b }
}

/// The greater of two numbers.
pub(crate) fn greater(a: Num, b: Num) -> Num
    ensures { (a ≤ℤ result) × (b ≤ℤ result) }
{
    if a.raw() < b.raw() { b } else { a }
}

/// The least of each coordinate of two points.
pub(crate) fn low(a: Vec3, b: Vec3) -> Vec3
    ensures first { IsBelow result a }
    ensures second { IsBelow result b }
    ensures depth { (l : ℤ) → l ≤ℤ a.z → l ≤ℤ b.z → l ≤ℤ result.z }
{
    Vec3 {
        x: lesser(a.x, b.x),
        y: lesser(a.y, b.y),
        z: lesser(a.z, b.z),
    }
}

/// The greatest of each coordinate of two points.
pub(crate) fn high(a: Vec3, b: Vec3) -> Vec3
    ensures first { IsBelow a result }
    ensures second { IsBelow b result }
{
    Vec3 {
        x: greater(a.x, b.x),
        y: greater(a.y, b.y),
        z: greater(a.z, b.z),
    }
}

/// The points of the four corners of a cell at a time.
pub(crate) type Corners = [Vec3; 4];

/// A point below four others.
pub(crate) fn low_of(corners: &Corners) -> Vec3
    ensures { IsBelowAll result corners.now }
{
    let [a, b, c, d] = *corners;
    low(low(a, b), low(c, d))
}

/// A point above four others.
pub(crate) fn high_of(corners: &Corners) -> Vec3
    ensures { IsAboveAll result corners.now }
{
    let [a, b, c, d] = *corners;
    high(high(a, b), high(c, d))
}

/// The first corner of the least box that holds a cell at two times.
pub(crate) fn low_of_two(first: &Corners, last: &Corners) -> Vec3
    ensures first { IsBelowAll result first.now }
    ensures last { IsBelowAll result last.now }
{
    low(low_of(first), low_of(last))
}

/// The last corner of that box.
pub(crate) fn high_of_two(first: &Corners, last: &Corners) -> Vec3
    ensures first { IsAboveAll result first.now }
    ensures last { IsAboveAll result last.now }
{
    high(high_of(first), high_of(last))
}

/// Whether two points have the same coordinates.
pub(crate) fn is_same_point(a: Vec3, b: Vec3) -> bool
    ensures { IsTrue result → a ≡ b }
{
    a.x.raw() == b.x.raw() && a.y.raw() == b.y.raw() && a.z.raw() == b.z.raw()
}

/// Whether a cell has the same points at two times.
pub(crate) fn have_same_points(a: &Corners, b: &Corners) -> bool
    ensures { IsTrue result → a.now ≡ b.now }
{
    is_same_point(a[0], b[0])
        && is_same_point(a[1], b[1])
        && is_same_point(a[2], b[2])
        && is_same_point(a[3], b[3])
}
