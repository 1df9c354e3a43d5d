// Unit vectors.
ghost use Rattle.std.specs.Prelude.{◌≡◌, ℕ, ◌+◌, ◌*◌, ◌/◌, ◌^◌, ◌<◌, ◌≤◌, ℤ, pos, ◌≤ℤ◌, unsigned_abs, slice_index_or, true};
ghost use Rattle.std.specs.List.{All};
ghost use Rattle.fixed_math.specs.Fixed.{IsRaw};
ghost use Rattle.fixed_math.specs.Unit.{fits_at, shift_for, shrunk, square, norm, part, unit_part};

use crate::num::Num;
use crate::roots::{isqrt, isqrt_short};
use crate::vec3::Vec3;

fn fits_at(x: u128, y: u128, z: u128, k: u32) -> bool
    requires { k < 128 }
    ensures { result ≡ fits_at x y z k }
{
    const LIMIT: u128 = 1 << 62;
    x >> k < LIMIT && y >> k < LIMIT && z >> k < LIMIT
}

/// The least shift that puts the three below `2^62`.
fn shift_for(x: u128, y: u128, z: u128) -> u32
    requires x_small { x < 2 ^ 100 }
    requires y_small { y < 2 ^ 100 }
    requires z_small { z < 2 ^ 100 }
    ensures value { result ≡ shift_for x y z }
    ensures bound { result ≤ 38 }
    ensures x_fits { x / 2 ^ result < 2 ^ 62 }
    ensures y_fits { y / 2 ^ result < 2 ^ 62 }
    ensures z_fits { z / 2 ^ result < 2 ^ 62 }
{
    let mut k = 0;
    while !fits_at(x, y, z, k) {
        k += 1;
    }
    k
}

/// The magnitude of `c` shifted by `k`, with the sign of `c`.
fn shrunk(c: i128, k: u32) -> i128
    requires bound { k < 128 }
    requires fits { unsigned_abs c / 2 ^ k < 2 ^ 62 }
    ensures value { result ≡ shrunk c k }
    ensures small { unsigned_abs result < 2 ^ 62 }
{
    let magnitude = (c.unsigned_abs() >> k) as i128;
    if c < 0 { -magnitude } else { magnitude }
}

fn square(c: i128) -> u128
    requires { unsigned_abs c < 2 ^ 62 }
    ensures value { result ≡ square c }
    ensures bound { result < 2 ^ 124 }
{
    c.unsigned_abs() * c.unsigned_abs()
}

#[tactic(auto, unfolding(crate::specs::Unit::norm))]
fn norm(x: i128, y: i128, z: i128) -> u128
    requires x_small { unsigned_abs x < 2 ^ 62 }
    requires y_small { unsigned_abs y < 2 ^ 62 }
    requires z_small { unsigned_abs z < 2 ^ 62 }
    ensures value { result ≡ norm x y z }
    ensures bound { result < 2 ^ 64 }
    ensures x_le { unsigned_abs x ≤ result }
    ensures y_le { unsigned_abs y ≤ result }
    ensures z_le { unsigned_abs z ≤ result }
{
    isqrt(square(x) + square(y) + square(z))
}

/// The part `c` of a vector of length `n`.
fn part(c: i128, n: u128) -> Num
    requires le { unsigned_abs c ≤ n }
    requires bound { n < 2 ^ 64 }
    ensures { result ≡ part c n }
{
    if n == 0 {
        Num::from_raw(0)
    } else {
        Num::from_raw((c * 65536).div_euclid(n as i128) as i64)
    }
}

// The unit vector in the direction of a vector of at most 100 bits.
#[tactic(auto, unfolding(crate::specs::Unit::unit_part))]
fn unit_long(x: i128, y: i128, z: i128) -> Vec3
    requires x_small { unsigned_abs x < 2 ^ 100 }
    requires y_small { unsigned_abs y < 2 ^ 100 }
    requires z_small { unsigned_abs z < 2 ^ 100 }
    ensures x { result.x ≡ unit_part x x y z }
    ensures y { result.y ≡ unit_part y x y z }
    ensures z { result.z ≡ unit_part z x y z }
{
    let k = shift_for(x.unsigned_abs(), y.unsigned_abs(), z.unsigned_abs());
    let (a, b, c) = (shrunk(x, k), shrunk(y, k), shrunk(z, k));
    let n = norm(a, b, c);
    Vec3 {
        x: part(a, n),
        y: part(b, n),
        z: part(c, n),
    }
}

fn square_short(c: i64) -> u64
    requires { unsigned_abs c < 2 ^ 31 }
    ensures value { result ≡ square c }
    ensures bound { result < 2 ^ 62 }
{
    c.unsigned_abs() * c.unsigned_abs()
}

#[tactic(auto, unfolding(crate::specs::Unit::norm))]
fn norm_short(x: i64, y: i64, z: i64) -> u64
    requires x_small { unsigned_abs x < 2 ^ 31 }
    requires y_small { unsigned_abs y < 2 ^ 31 }
    requires z_small { unsigned_abs z < 2 ^ 31 }
    ensures value { result ≡ norm x y z }
    ensures bound { result < 2 ^ 32 }
{
    isqrt_short(square_short(x) + square_short(y) + square_short(z))
}

// The same part of a vector of at most 31 bits.
fn part_short(c: i64, n: u64) -> Num
    requires small { unsigned_abs c < 2 ^ 31 }
    requires le { unsigned_abs c ≤ n }
    requires bound { n < 2 ^ 32 }
    ensures { result ≡ part c n }
{
    if n == 0 {
        Num::from_raw(0)
    } else {
        Num::from_raw((c * 65536).div_euclid(n as i64))
    }
}

// The same of a vector of at most 31 bits, which is nearly always all.
#[tactic(auto, using(crate::proofs::Units::unit_part_is))]
fn unit_short(x: i64, y: i64, z: i64) -> Vec3
    requires x_small { unsigned_abs x < 2 ^ 31 }
    requires y_small { unsigned_abs y < 2 ^ 31 }
    requires z_small { unsigned_abs z < 2 ^ 31 }
    ensures x { result.x ≡ unit_part x x y z }
    ensures y { result.y ≡ unit_part y x y z }
    ensures z { result.z ≡ unit_part z x y z }
{
    let n = norm_short(x, y, z);
    Vec3 {
        x: part_short(x, n),
        y: part_short(y, n),
        z: part_short(z, n),
    }
}

// Whether three numbers have at most 31 bits.
fn are_short(x: i128, y: i128, z: i128) -> bool
    ensures x { result ≡ true → unsigned_abs x < 2 ^ 31 }
    ensures y { result ≡ true → unsigned_abs y < 2 ^ 31 }
    ensures z { result ≡ true → unsigned_abs z < 2 ^ 31 }
{
    x.unsigned_abs() < 2147483648 && y.unsigned_abs() < 2147483648 && z.unsigned_abs() < 2147483648
}

fn narrowed(c: i128) -> i64
    requires { unsigned_abs c < 2 ^ 31 }
    ensures value { result ≡ c }
    ensures small { unsigned_abs result < 2 ^ 31 }
{
    c as i64
}

fn unit_narrowed(x: i128, y: i128, z: i128) -> Vec3
    requires x_small { unsigned_abs x < 2 ^ 31 }
    requires y_small { unsigned_abs y < 2 ^ 31 }
    requires z_small { unsigned_abs z < 2 ^ 31 }
    ensures x { result.x ≡ unit_part x x y z }
    ensures y { result.y ≡ unit_part y x y z }
    ensures z { result.z ≡ unit_part z x y z }
{
    unit_short(narrowed(x), narrowed(y), narrowed(z))
}

/// The unit vector in the direction of `v`.
pub fn unit(v: [i128; 3]) -> Vec3
    requires { (i : ℕ) → i < 3 → unsigned_abs (slice_index_or v i (pos 0)) < 2 ^ 100 }
    ensures x { let c = λ (i : ℕ). slice_index_or v i (pos 0) in result.x ≡ unit_part (c 0) (c 0) (c 1) (c 2) }
    ensures y { let c = λ (i : ℕ). slice_index_or v i (pos 0) in result.y ≡ unit_part (c 1) (c 0) (c 1) (c 2) }
    ensures z { let c = λ (i : ℕ). slice_index_or v i (pos 0) in result.z ≡ unit_part (c 2) (c 0) (c 1) (c 2) }
{
    let [x, y, z] = v;
    if are_short(x, y, z) {
        unit_narrowed(x, y, z)
    } else {
        unit_long(x, y, z)
    }
}
