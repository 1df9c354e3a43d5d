// The built-in functions of numbers.
ghost use Rattle.std.specs.Prelude.{◌≡◌, ℤ, pos, ◌≤ℤ◌, unsigned_abs};
ghost use Rattle.fixed_math.specs.Power as power;
ghost use Rattle.builtins.specs.Numbers as spec;

use fixed_math::{Num, floor_by, times};

const ONE: i128 = 65536;
// 180 as a raw
const HALF_TURN: u128 = 11796480;

/// The magnitude.
pub fn abs(x: Num) -> Num
    ensures { result ≡ spec.abs x }
{
    if x.raw() < 0 { x.neg() } else { x }
}

/// 1, 0 or -1.
pub fn sign(x: Num) -> Num
    ensures { result ≡ spec.sign x }
{
    if x.raw() > 0 {
        Num::sat(ONE)
    } else if x.raw() < 0 {
        Num::sat(-ONE)
    } else {
        Num::sat(0)
    }
}

/// The greatest whole number not above `x`.
#[tactic(auto, unfolding(crate::specs::Numbers::floor))]
pub fn floor(x: Num) -> Num
    ensures { result ≡ spec.floor x }
{
    Num::sat(floor_by(x.raw() as i128, 65536) * ONE)
}

/// The least whole number not below `x`.
#[tactic(auto, unfolding(crate::specs::Numbers::ceil))]
pub fn ceil(x: Num) -> Num
    ensures { result ≡ spec.ceil x }
{
    floor(x.neg()).neg()
}

/// The nearest whole number; of two, the greater.
#[tactic(auto, unfolding(crate::specs::Numbers::round))]
pub fn round(x: Num) -> Num
    ensures { result ≡ spec.round x }
{
    Num::sat(floor_by(x.raw() as i128 + 32768, 65536) * ONE)
}

/// The tangent of an angle in radians: sine over cosine.
#[tactic(auto, unfolding(crate::specs::Numbers::tan))]
pub fn tan(x: Num) -> Num
    ensures { result ≡ spec.tan x }
{
    x.sin().div(x.cos())
}

/// One over the square root; 0 for a number that isn't above 0.
#[tactic(auto, unfolding(crate::specs::Numbers::inversesqrt))]
pub fn inversesqrt(x: Num) -> Num
    ensures { result ≡ spec.inversesqrt x }
{
    Num::sat(ONE).div(x.sqrt())
}

/// The power of e.
pub fn exp(x: Num) -> Num
    ensures { result ≡ power.exp x }
{
    x.mul(Num::sat(94548)).exp2()
}

/// The logarithm to the base e; 0 for a number that isn't above 0.
#[tactic(auto, unfolding(crate::specs::Numbers::log))]
pub fn log(x: Num) -> Num
    ensures { result ≡ spec.log x }
{
    x.log2().mul(Num::sat(45426))
}

/// An angle in degrees as radians.
#[tactic(auto, unfolding(crate::specs::Numbers::radians))]
pub fn radians(x: Num) -> Num
    ensures { result ≡ spec.radians x }
{
    Num::sat(floor_by(times::<31, 18>(x.raw() as i128, 205887), HALF_TURN))
}

/// An angle in radians as degrees.
#[tactic(auto, unfolding(crate::specs::Numbers::degrees))]
pub fn degrees(x: Num) -> Num
    ensures { result ≡ spec.degrees x }
{
    Num::sat(floor_by(times::<31, 24>(x.raw() as i128, HALF_TURN as i128), 205887))
}

/// The lesser of two numbers.
pub fn min(a: Num, b: Num) -> Num
    ensures { result ≡ spec.min a b }
{
    if b.raw() < a.raw() { b } else { a }
}

/// The greater of two numbers.
pub fn max(a: Num, b: Num) -> Num
    ensures { result ≡ spec.max a b }
{
    if a.raw() < b.raw() { b } else { a }
}

/// `x` put into `a` to `b`; `b` where `a` is above it.
#[tactic(auto, unfolding(crate::specs::Numbers::clamp))]
pub fn clamp(x: Num, a: Num, b: Num) -> Num
    ensures { result ≡ spec.clamp x a b }
{
    min(max(x, a), b)
}

/// What is left of `a` where whole multiples of `b` are taken away; `a` where `b` is 0.
#[tactic(auto, unfolding(crate::specs::Numbers::modulo))]
pub fn modulo(a: Num, b: Num) -> Num
    ensures { result ≡ spec.modulo a b }
{
    a.sub(b.mul(floor(a.div(b))))
}

/// From `a`, where `t` is 0, to `b`, where `t` is 1.
#[tactic(auto, unfolding(crate::specs::Numbers::mix))]
pub fn mix(a: Num, b: Num, t: Num) -> Num
    ensures { result ≡ spec.mix a b t }
{
    a.mul(Num::sat(ONE).sub(t)).add(b.mul(t))
}

/// 0 below `a`, else 1.
pub fn step(a: Num, x: Num) -> Num
    ensures { result ≡ spec.step a x }
{
    if x.raw() < a.raw() {
        Num::sat(0)
    } else {
        Num::sat(ONE)
    }
}

#[tactic(auto, unfolding(crate::specs::Numbers::hermite))]
pub(crate) fn hermite(t: Num) -> Num
    ensures { result ≡ spec.hermite t }
{
    t.mul(t)
        .mul(Num::sat(3 * ONE).sub(Num::sat(2 * ONE).mul(t)))
}

/// From 0 below `a` to 1 from `b` on, smoothly.
#[tactic(auto, unfolding(crate::specs::Numbers::smoothstep))]
pub fn smoothstep(a: Num, b: Num, x: Num) -> Num
    ensures { result ≡ spec.smoothstep a b x }
{
    if x.raw() < a.raw() {
        Num::sat(0)
    } else if x.raw() < b.raw() {
        hermite(x.sub(a).div(b.sub(a)))
    } else {
        Num::sat(ONE)
    }
}
