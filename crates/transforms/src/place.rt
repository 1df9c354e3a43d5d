//! Places in a window, by exact quotients.
ghost use Rattle.std.specs.Prelude.{◌≡◌, ◌≤◌, ◌<◌, ◌*◌, ◌^◌, pos, ◌-ℤ◌, ◌*ℤ◌, ◌<ℤ◌, unsigned_abs, IfSome};
ghost use Rattle.fixed_math.specs.Whole.{floor_by};
ghost use Rattle.transforms.specs.Raster.{x_place, y_place, clamped};

use fixed_math::{floor_by, minus, scaled};

/// What lies between two raws.
fn apart(a: i64, b: i64) -> i128
    requires a_small { unsigned_abs a ≤ 2147483647 }
    requires b_small { unsigned_abs b ≤ 2147483647 }
    ensures value { result ≡ a -ℤ b }
    ensures bound { unsigned_abs result ≤ 2 ^ 32 }
{
    minus(a as i128, b as i128)
}

/// The size of a window.
fn size(low: i64, high: i64) -> u128
    requires order { low <ℤ high }
    requires low_small { unsigned_abs low ≤ 2147483647 }
    requires high_small { unsigned_abs high ≤ 2147483647 }
    ensures value { result ≡ unsigned_abs (high -ℤ low) }
    ensures some { 0 < result }
    ensures bound { result ≤ 2 ^ 32 }
{
    apart(high, low).unsigned_abs()
}

/// The product of a depth and a tangent.
fn depth(z: u32, t: u32) -> u128
    requires z_some { 0 < z }
    requires t_some { 0 < t }
    ensures value { result ≡ z * t }
    ensures some { 0 < result }
    ensures bound { result ≤ 2 ^ 64 }
{
    z as u128 * t as u128
}

/// A side of the window at a depth.
fn side_at(depth: u128, side: i64) -> i128
    requires depth { depth ≤ 2 ^ 64 }
    requires side { unsigned_abs side ≤ 2147483647 }
    ensures value { result ≡ pos depth *ℤ side }
    ensures bound { unsigned_abs result ≤ 2 ^ 95 }
{
    scaled(depth, side as i128)
}

/// A coordinate at 48 fraction bits.
fn widened(x: i64) -> i128
    requires { unsigned_abs x ≤ 2147483647 }
    ensures value { result ≡ pos (2 ^ 32) *ℤ x }
    ensures bound { unsigned_abs result ≤ 2 ^ 95 }
{
    scaled(1 << 32, x as i128)
}

/// The divisor of a place in perspective.
fn size_at(depth: u128, size: u128) -> u128
    requires depth_some { 0 < depth }
    requires depth_small { depth ≤ 2 ^ 64 }
    requires size_some { 0 < size }
    requires size_small { size ≤ 2 ^ 32 }
    ensures value { result ≡ depth * size }
    ensures some { 0 < result }
    ensures bound { result ≤ 2 ^ 96 }
{
    depth * size
}

/// A part of a window, in 1/256 pixel.
fn quotient(pixels: u32, part: i128, whole: u128) -> i128
    requires pixels { pixels ≤ 4096 }
    requires part { unsigned_abs part ≤ 2 ^ 96 }
    requires some { 0 < whole }
    requires small { whole ≤ 2 ^ 96 }
    ensures { result ≡ floor_by (pos (256 * pixels) *ℤ part) whole }
{
    floor_by(scaled(256 * pixels as u128, part), whole)
}

/// The place of a coordinate across a window.
pub fn x_place(scale: Option<u32>, width: u32, left: i64, right: i64, x: i64, z: u32) -> i128
    requires tangent { IfSome scale (λ t. 0 < t) }
    requires pixels { width ≤ 4096 }
    requires order { left <ℤ right }
    requires left { unsigned_abs left ≤ 2147483647 }
    requires right { unsigned_abs right ≤ 2147483647 }
    requires coordinate { unsigned_abs x ≤ 2147483647 }
    requires depth { 0 < z }
    ensures { result ≡ x_place scale width left right x z }
{
    let size = size(left, right);
    match scale {
        None => quotient(width, apart(x, left), size),
        Some(t) => {
            let depth = depth(z, t);
            let part = minus(widened(x), side_at(depth, left));
            quotient(width, part, size_at(depth, size))
        }
    }
}

/// The place of a coordinate down a window.
pub fn y_place(scale: Option<u32>, height: u32, bottom: i64, top: i64, y: i64, z: u32) -> i128
    requires tangent { IfSome scale (λ t. 0 < t) }
    requires pixels { height ≤ 4096 }
    requires order { bottom <ℤ top }
    requires bottom { unsigned_abs bottom ≤ 2147483647 }
    requires top { unsigned_abs top ≤ 2147483647 }
    requires coordinate { unsigned_abs y ≤ 2147483647 }
    requires depth { 0 < z }
    ensures { result ≡ y_place scale height bottom top y z }
{
    let size = size(bottom, top);
    match scale {
        None => quotient(height, apart(top, y), size),
        Some(t) => {
            let depth = depth(z, t);
            let part = minus(side_at(depth, top), widened(y));
            quotient(height, part, size_at(depth, size))
        }
    }
}

/// The nearest place from -2^28 to 2^28.
pub fn clamped(place: i128) -> i64
    ensures value { result ≡ clamped place }
    ensures bound { unsigned_abs result ≤ 268435456 }
{
    let most: i128 = 268435456;
    if place < -most {
        -268435456
    } else if place > most {
        268435456
    } else {
        place as i64
    }
}
