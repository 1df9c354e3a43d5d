// Values of a lattice, blended between its points.
ghost use Rattle.std.specs.Prelude.{◌≡◌, ◌<◌, ◌≤◌, ◌^◌, pos, ◌+ℤ◌, unsigned_abs};
ghost use Rattle.fixed_math.specs.Whole.{floor_by};
ghost use Rattle.builtins.specs.Noise as spec;
ghost use Rattle.builtins.specs.Numbers.{hermite, mix};
ghost use Rattle.builtins.specs.Noise.{row_of, of_row};

use fixed_math::{Num, Vec3, with_word};

/// A whole number as a word of 32 bits.
fn word(n: i64) -> u32
    ensures { result ≡ spec.word n }
{
    n.rem_euclid(1 << 32) as u32
}

// The value at a point of the lattice, by the hash of its first two words.
fn lattice(row: u32, z: u32) -> u64
    ensures value { pos result ≡ of_row row z }
    ensures small { result < 65536 }
{
    (with_word(row, z) >> 16) as u64
}

// The mix of two numbers from 0 to below 1, as far as `t` from 0 to 1 says: nothing of it has to be cut.
#[tactic(auto, using(crate::proofs::Noises::blend_is, crate::proofs::Noises::blend_small))]
fn blend(a: u64, b: u64, t: u64) -> u64
    requires a { a < 65536 }
    requires b { b < 65536 }
    requires t { t ≤ 65536 }
    ensures value { pos result ≡ mix (pos a) (pos b) (pos t) }
    ensures small { result < 65536 }
{
    a * (65536 - t) / 65536 + b * t / 65536
}

/// The next whole number.
fn next(n: i64) -> i64
    requires { unsigned_abs n < 2 ^ 32 }
    ensures { result ≡ n +ℤ pos 1 }
{
    n + 1
}

// The hashes of the first two words of the points about a point: those of its own first word and of the next, with its own second word and
// with the next.
#[derive(Clone, Copy)]
struct Rows {
    near: u32,
    next: u32,
    far_near: u32,
    far_next: u32,
}

fn rows_at(x: i64, y: i64) -> Rows
    requires x { unsigned_abs x < 2 ^ 32 }
    requires y { unsigned_abs y < 2 ^ 32 }
    ensures near { result.near ≡ row_of x y }
    ensures next { result.next ≡ row_of (x +ℤ pos 1) y }
    ensures far_near { result.far_near ≡ row_of x (y +ℤ pos 1) }
    ensures far_next { result.far_next ≡ row_of (x +ℤ pos 1) (y +ℤ pos 1) }
{
    let (near, next_x) = (with_word(0, word(x)), with_word(0, word(next(x))));
    let (low, high) = (word(y), word(next(y)));
    Rows {
        near: with_word(near, low),
        next: with_word(next_x, low),
        far_near: with_word(near, high),
        far_next: with_word(next_x, high),
    }
}

// The blend of the four points about a point that have its third word.
fn along_y(u: u64, v: u64, rows: &Rows, x: i64, y: i64, z: i64) -> u64
    requires u { u ≤ 65536 }
    requires v { v ≤ 65536 }
    requires near { rows.now.near ≡ row_of x y }
    requires next { rows.now.next ≡ row_of (x +ℤ pos 1) y }
    requires far_near { rows.now.far_near ≡ row_of x (y +ℤ pos 1) }
    requires far_next { rows.now.far_next ≡ row_of (x +ℤ pos 1) (y +ℤ pos 1) }
    ensures value { pos result ≡ spec.along_y (pos u) (pos v) x y z }
    ensures small { result < 65536 }
{
    let third = word(z);
    let low = blend(lattice(rows.near, third), lattice(rows.next, third), u);
    let high = blend(
        lattice(rows.far_near, third),
        lattice(rows.far_next, third),
        u,
    );
    blend(low, high, v)
}

#[tactic(auto, unfolding(crate::specs::Noise::along_z))]
fn along_z(u: u64, v: u64, w: u64, x: i64, y: i64, z: i64) -> u64
    requires u { u ≤ 65536 }
    requires v { v ≤ 65536 }
    requires w { w ≤ 65536 }
    requires x { unsigned_abs x < 2 ^ 32 }
    requires y { unsigned_abs y < 2 ^ 32 }
    requires z { unsigned_abs z < 2 ^ 32 }
    ensures value { pos result ≡ spec.along_z (pos u) (pos v) (pos w) x y z }
    ensures small { result < 65536 }
{
    let rows = rows_at(x, y);
    blend(
        along_y(u, v, &rows, x, y, z),
        along_y(u, v, &rows, x, y, next(z)),
        w,
    )
}

/// The greatest whole number not above `x`.
fn whole(x: Num) -> i64
    ensures value { result ≡ floor_by x 65536 }
    ensures small { unsigned_abs result ≤ 32768 }
{
    x.raw().div_euclid(65536)
}

/// The part behind it.
fn rest(x: Num) -> u64
    ensures value { pos result ≡ spec.rest x }
    ensures small { result < 65536 }
{
    x.raw().rem_euclid(65536) as u64
}

/// How far `t` from 0 to below 1 is on a smooth way from 0 to 1.
#[tactic(auto, using(crate::proofs::Noises::weight_is, crate::proofs::Noises::weight_small))]
fn weight(t: u64) -> u64
    requires { t < 65536 }
    ensures value { pos result ≡ hermite (pos t) }
    ensures small { result ≤ 65536 }
{
    t * t / 65536 * (196608 - 2 * t) / 65536
}

/// Noise at a point: a number from 0 to below 1 that varies smoothly.
#[tactic(auto, unfolding(crate::specs::Noise::noise))]
pub fn noise(p: Vec3) -> Num
    ensures { result ≡ spec.noise p }
{
    let (u, v, w) = (weight(rest(p.x)), weight(rest(p.y)), weight(rest(p.z)));
    Num::sat(along_z(u, v, w, whole(p.x), whole(p.y), whole(p.z)) as i128)
}
