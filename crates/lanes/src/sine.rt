// Sine and cosine.
ghost use Rattle.std.specs.Prelude.{◌≡◌, ℕ, ◌<◌, ◌≤◌, pos, negsuc, ◌≤ℤ◌, unsigned_abs};
ghost use Rattle.fixed_math.specs.Fixed.{IsRaw};
ghost use Rattle.fixed_math.specs.Whole.{floor_by};
ghost use Rattle.fixed_math.specs.Sine.{sin, cos, reduced, folded, one_less, series};

use crate::raw::{add, mul};

#[inline(always)]
#[tactic(auto, unfolding(fixed_math::specs::Sine::reduced))]
fn reduced(x: i32) -> i32
    ensures value { result ≡ reduced x }
    ensures low { negsuc 205885 ≤ℤ result }
    ensures high { result ≤ℤ pos 205887 }
{
    let r = x.rem_euclid(411774);
    if r > 205887 { r - 411774 } else { r }
}

#[inline(always)]
#[tactic(auto, unfolding(fixed_math::specs::Sine::folded))]
fn folded(r: i32) -> i32
    requires low { negsuc 205885 ≤ℤ r }
    requires high { r ≤ℤ pos 205887 }
    ensures value { result ≡ folded r }
    ensures in_range { IsRaw result }
{
    if r > 102943 {
        205887 - r
    } else if r < -102943 {
        -205887 - r
    } else {
        r
    }
}

#[inline(always)]
#[tactic(auto, using(fixed_math::proofs::Floor::div_euclid_is))]
fn part(p: i32, n: i32) -> i32
    requires low { pos 6 ≤ℤ n }
    requires high { n ≤ℤ pos 72 }
    ensures { result ≡ floor_by p (unsigned_abs n) }
{
    p.div_euclid(n)
}

#[inline(always)]
#[tactic(auto, unfolding(fixed_math::specs::Sine::one_less), using(fixed_math::proofs::Bounds::one_less_in_range))]
fn one_less(p: i32, n: i32) -> i32
    requires raw { IsRaw p }
    requires low { pos 6 ≤ℤ n }
    requires high { n ≤ℤ pos 72 }
    ensures value { result ≡ one_less p (unsigned_abs n) }
    ensures raw { IsRaw result }
{
    65536 - part(p, n)
}

#[inline(always)]
#[tactic(auto, unfolding(fixed_math::specs::Sine::series))]
fn series(r: i32, s: i32) -> i32
    requires { IsRaw s }
    ensures value { result ≡ series r s }
    ensures raw { IsRaw result }
{
    let a = one_less(s, 72);
    let b = one_less(mul(s, a), 42);
    let c = one_less(mul(s, b), 20);
    let d = one_less(mul(s, c), 6);
    mul(r, d)
}

/// The sine of an angle in radians.
#[inline(always)]
#[tactic(auto, unfolding(fixed_math::specs::Sine::sin))]
pub fn sin(x: i32) -> i32
    ensures value { result ≡ sin x }
    ensures raw { IsRaw result }
{
    let r = folded(reduced(x));
    series(r, mul(r, r))
}

/// The cosine of an angle in radians.
#[inline(always)]
#[tactic(auto, unfolding(fixed_math::specs::Sine::cos))]
pub fn cos(x: i32) -> i32
    ensures value { result ≡ cos x }
    ensures raw { IsRaw result }
{
    sin(add(x, 102944))
}
