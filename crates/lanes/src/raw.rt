// Operations on single numbers.
ghost use Rattle.std.specs.Prelude.{◌≡◌, ◌≤◌, ℤ, pos, neg_ℤ, ◌≤ℤ◌, ◌<ℤ◌, ◌*ℤ◌, unsigned_abs, cond, int_lt};
ghost use Rattle.fixed_math.specs.Fixed.{sat, IsRaw, add, sub, mul};
ghost use Rattle.fixed_math.specs.Whole.{floor_by};
ghost use Rattle.lanes.specs.Kernels.{least, greatest};

pub use crate::power::{exp2, log2, pow};
pub use crate::quotient::div;
pub use crate::root::sqrt;
pub use crate::sine::{cos, sin};

const LIMIT: i32 = 2147483647;

/// The number nearest to `x`.
#[inline(always)]
pub fn sat(x: i64) -> i32
    ensures value { result ≡ sat x }
    ensures raw { IsRaw result }
{
    x.clamp(-2147483647, 2147483647) as i32
}

/// The sum, saturated.
#[inline(always)]
pub fn add(a: i32, b: i32) -> i32
    ensures value { result ≡ add a b }
    ensures raw { IsRaw result }
{
    a.saturating_add(b).max(-LIMIT)
}

/// The difference, saturated.
#[inline(always)]
pub fn sub(a: i32, b: i32) -> i32
    ensures value { result ≡ sub a b }
    ensures raw { IsRaw result }
{
    a.saturating_sub(b).max(-LIMIT)
}

/// The lesser of two.
#[inline(always)]
pub fn min(a: i32, b: i32) -> i32
    ensures value { result ≡ least a b }
    ensures raw { IsRaw a → IsRaw b → IsRaw result }
{
    if b < a { b } else { a }
}

/// The greater of two.
#[inline(always)]
pub fn max(a: i32, b: i32) -> i32
    ensures value { result ≡ greatest a b }
    ensures raw { IsRaw a → IsRaw b → IsRaw result }
{
    if a < b { b } else { a }
}

// A product's bits from the 32nd on.
#[inline(always)]
#[tactic(auto, using(fixed_math::proofs::Floor::shr_is))]
fn high_of(p: i64) -> i32
    requires { unsigned_abs p ≤ 4611686018427387904 }
    ensures { result ≡ floor_by p 4294967296 }
{
    (p >> 32) as i32
}

// A product's bits from the 16th on, where they fit.
#[inline(always)]
fn middle_of(p: i64) -> i32
    ensures { neg_ℤ (pos 140737488355328) ≤ℤ p → p <ℤ pos 140737488355328 → result ≡ floor_by p 65536 }
{
    (p.wrapping_mul(65536) >> 32) as i32
}

#[inline(always)]
fn above(high: i32, middle: i32) -> i32
    ensures { result ≡ cond (int_lt (pos 32767) high) (pos 2147483647) middle }
{
    if high > 32767 { LIMIT } else { middle }
}

#[inline(always)]
fn below(high: i32, middle: i32) -> i32
    ensures { result ≡ cond (int_lt high (neg_ℤ (pos 32768))) (neg_ℤ (pos 2147483647)) middle }
{
    if high < -32768 { -LIMIT } else { middle }
}

// A product of two numbers, cut: by its halves, since a clamp of 64 bits is slower in lanes.
#[inline(always)]
fn cut(p: i64) -> i32
    requires { unsigned_abs p ≤ 4611686018427387904 }
    ensures value { result ≡ sat (floor_by p 65536) }
    ensures raw { IsRaw result }
{
    let high = high_of(p);
    below(high, above(high, middle_of(p))).max(-LIMIT)
}

#[inline(always)]
#[tactic(auto, using(crate::proofs::Products::product_small))]
fn product(a: i32, b: i32) -> i64
    ensures value { result ≡ a *ℤ b }
    ensures small { unsigned_abs result ≤ 4611686018427387904 }
{
    a as i64 * b as i64
}

/// The product, rounded down and saturated.
#[inline(always)]
pub fn mul(a: i32, b: i32) -> i32
    ensures value { result ≡ mul a b }
    ensures raw { IsRaw result }
{
    cut(product(a, b))
}
