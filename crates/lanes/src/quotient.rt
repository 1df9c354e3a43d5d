// Quotients, by a table's guess that is tested: the processor's own division is slow.
ghost use Rattle.std.specs.Prelude.{◌≡◌, ◌+◌, ◌<◌, ◌≤◌, ◌^◌, ◌/◌, ◌*◌, ℤ, pos, neg_ℤ, ◌≤ℤ◌, ◌*ℤ◌, unsigned_abs, cond, int_lt, true, false};
ghost use Rattle.fixed_math.specs.Fixed.{IsRaw, div, sat};
ghost use Rattle.fixed_math.specs.Whole.{floor_by};
ghost use Rattle.lanes.specs.Signs.{magnitude, signed_as};

use crate::raw::sat;
use crate::tables::INVERSES;

/// About 2^62 over a divisor whose first bit is brought to the top, and by how much: of any quality.
#[derive(Clone, Copy)]
pub struct Inverse {
    factor: u64,
    zeros: u32,
}

// The inverse by one step of Newton's from `first`, about 2^31 over `x`, which are the first 32 bits of the divisor. It is rounded
// up, so that a quotient without a rest isn't guessed one too low.
#[inline(always)]
fn sharpened(x: u64, first: u64, zeros: u32) -> Inverse {
    let rest = 0u64.wrapping_sub(x.wrapping_mul(first)) >> 32;
    Inverse {
        factor: first.wrapping_mul(rest.wrapping_add(1)),
        zeros,
    }
}

/// The inverse that `quotient` guesses by.
#[inline(always)]
pub fn inverse_of(d: u64) -> Inverse {
    let zeros = d.leading_zeros() & 63;
    let top = d << zeros;
    let x = top >> 32;
    let first = INVERSES[((top >> 55) & 255) as usize] as u64;
    let second = first.wrapping_mul(4398046511104u64.wrapping_sub(x.wrapping_mul(first))) >> 19;
    sharpened(x, second, zeros)
}

#[inline(always)]
pub(crate) fn guess(n: u64, by: Inverse) -> u64
    ensures { result < 2 ^ 32 }
{
    let high = ((n as u128).wrapping_mul(by.factor as u128) >> 64) as u64;
    ((high << 1) >> (63 - (by.zeros & 63))) & 4294967295
}

/// Whether `n` is at least `from` and less than `room` above it, by one comparison: below `from` the difference wraps to more.
#[inline(always)]
pub(crate) fn lies_within(n: u64, from: u64, room: u64) -> bool
    requires { from + room ≤ 2 ^ 64 }
    ensures yes { result ≡ true → (from ≤ n) × (n < from + room) }
    ensures no { result ≡ false → from ≤ n → from + room ≤ n }
{
    n.wrapping_sub(from) < room
}

// The quotient, at once where `q` is at most one off.
#[inline(always)]
fn settled(n: u64, d: u64, q: u64) -> u64
    requires some { 0 < d }
    requires fits { q * d + d ≤ 2 ^ 64 }
    ensures { result ≡ n / d }
{
    let product = q * d;
    if lies_within(n, product, d) {
        return q;
    }
    if product <= n {
        if n - product - d < d {
            return q + 1;
        }
    } else if product - n <= d {
        return q - 1;
    }
    n / d
}

/// The quotient by `d`, of which `by` should be the inverse.
#[inline(always)]
#[tactic(auto, using(crate::proofs::Products::room_of_halves))]
pub fn quotient(n: u64, d: u64, by: Inverse) -> u64
    requires some { 0 < d }
    requires d_small { d < 2 ^ 32 }
    ensures { result ≡ n / d }
{
    settled(n, d, guess(n, by))
}

/// The same by a divisor of 47 bits, at once where the quotient has at most 17.
#[inline(always)]
#[tactic(auto, using(crate::proofs::Products::room_of_part))]
fn wide_quotient(n: u64, d: u64, by: Inverse) -> u64
    requires some { 0 < d }
    requires d_small { d < 2 ^ 47 }
    ensures { result ≡ n / d }
{
    settled(n, d, guess(n, by) % 131072)
}

#[inline(always)]
#[tactic(auto, using(crate::proofs::Signs::magnitude_below, crate::proofs::Signs::magnitude_above))]
fn magnitude(n: i64) -> u64
    ensures value { result ≡ magnitude n }
    ensures bound { result < 2 ^ 63 }
{
    if n < 0 { (-1 - n) as u64 } else { n as u64 }
}

#[inline(always)]
#[tactic(auto, using(crate::proofs::Signs::signed_below, crate::proofs::Signs::signed_above))]
fn signed_as(n: i64, q: u64) -> i64
    requires { q < 2 ^ 63 }
    ensures { result ≡ signed_as n q }
{
    if n < 0 { -1 - q as i64 } else { q as i64 }
}

/// The quotient rounded down, with no branch on the sign.
#[inline(always)]
#[tactic(auto, using(crate::proofs::Signs::floor_by_signed, crate::proofs::Signs::quotient_small))]
pub fn floor_by(n: i64, d: u64, by: Inverse) -> i64
    requires some { 0 < d }
    requires d_small { d < 2 ^ 32 }
    ensures value { result ≡ floor_by n d }
{
    signed_as(n, quotient(magnitude(n), d, by))
}

/// The same by a divisor of 47 bits.
#[inline(always)]
#[tactic(auto, using(crate::proofs::Signs::floor_by_signed, crate::proofs::Signs::quotient_small))]
pub(crate) fn floor_by_wide(n: i64, d: u64, by: Inverse) -> i64
    requires some { 0 < d }
    requires d_small { d < 2 ^ 47 }
    ensures value { result ≡ floor_by n d }
{
    signed_as(n, wide_quotient(magnitude(n), d, by))
}

// `a` with the sign of the quotient by `b`.
#[inline(always)]
fn turned(a: i32, b: i32) -> i64
    ensures value { result ≡ cond (int_lt b (pos 0)) (neg_ℤ a) a }
    ensures bound { unsigned_abs result ≤ 2147483648 }
{
    if b < 0 { -(a as i64) } else { a as i64 }
}

/// The quotient of raws, rounded down and saturated; 0 where `b` is 0.
#[inline(always)]
#[tactic(auto, using(crate::proofs::Quotients::div_is, crate::proofs::Quotients::div_none))]
pub fn div(a: i32, b: i32) -> i32
    ensures value { result ≡ div a b }
    ensures raw { IsRaw result }
{
    if b == 0 {
        return 0;
    }
    let d = b.unsigned_abs() as u64;
    sat(floor_by(turned(a, b) * 65536, d, inverse_of(d)))
}
