// Tests, which give the number 1 or 0, and choices.
ghost use Rattle.std.specs.Prelude.{◌≡◌, ℕ, ℤ, ◌<◌, ◌≤◌, pos, false, length, get_or, cond, int_lt, int_le, ◌&&◌, ◌||◌, not};
ghost use Rattle.std.specs.Ordering.{int_eq};
ghost use Rattle.builtins.specs.Values.{is_nonzero};
ghost use Rattle.number_rows.specs.Planes.{plane_at, IsPlane};
ghost use Rattle.number_rows.specs.Truths as truths;

use crate::kernels::{One, Three, Two};
use crate::plane::Plane;
use crate::raw::Raw;
use fixed_math::Num;

// A truth as a number.
#[inline(always)]
fn truth(holds: bool) -> Raw
    ensures { result ≡ truths.truth holds }
{
    if holds {
        Raw::of(Num::sat(65536))
    } else {
        Raw::of(Num::sat(0))
    }
}

// Whether a number isn't 0.
#[inline(always)]
fn is_nonzero(x: Raw) -> bool
    ensures { result ≡ is_nonzero x }
{
    x.number().raw() != 0
}

#[inline(always)]
fn is_less(x: Raw, y: Raw) -> bool
    ensures { result ≡ int_lt x y }
{
    x.number().raw() < y.number().raw()
}

#[inline(always)]
fn is_at_most(x: Raw, y: Raw) -> bool
    ensures { result ≡ int_le x y }
{
    x.number().raw() <= y.number().raw()
}

#[inline(always)]
fn is_same(x: Raw, y: Raw) -> bool
    ensures { result ≡ int_eq x y }
{
    x.number().raw() == y.number().raw()
}

#[inline(always)]
fn both(a: bool, b: bool) -> bool
    ensures { result ≡ (a && b) }
{
    a & b
}

#[inline(always)]
fn either(a: bool, b: bool) -> bool
    ensures { result ≡ (a || b) }
{
    a | b
}

#[inline(always)]
fn one_of(holds: bool, x: Raw, y: Raw) -> Raw
    ensures { result ≡ cond holds x y }
{
    if holds { x } else { y }
}

/// Whether a number is 0.
pub struct Not;

impl One for Not {
    ghost formula = { truths.negation };

    #[inline(always)]
    fn apply(x: Raw) -> Raw {
        truth(!is_nonzero(x))
    }
}

/// Whether neither of two numbers is 0.
pub struct And;

impl Two for And {
    ghost formula = { truths.both };

    #[inline(always)]
    fn apply(x: Raw, y: Raw) -> Raw {
        truth(both(is_nonzero(x), is_nonzero(y)))
    }
}

/// Whether one of two numbers isn't 0.
pub struct Or;

impl Two for Or {
    ghost formula = { truths.either };

    #[inline(always)]
    fn apply(x: Raw, y: Raw) -> Raw {
        truth(either(is_nonzero(x), is_nonzero(y)))
    }
}

/// Whether two numbers are the same.
pub struct Same;

impl Two for Same {
    ghost formula = { truths.same };

    #[inline(always)]
    fn apply(x: Raw, y: Raw) -> Raw {
        truth(is_same(x, y))
    }
}

/// Whether two numbers differ.
pub struct Differs;

impl Two for Differs {
    ghost formula = { truths.differs };

    #[inline(always)]
    fn apply(x: Raw, y: Raw) -> Raw {
        truth(!is_same(x, y))
    }
}

pub(crate) struct Less;

impl Two for Less {
    ghost formula = { λ x y. truths.truth (int_lt x y) };

    #[inline(always)]
    fn apply(x: Raw, y: Raw) -> Raw {
        truth(is_less(x, y))
    }
}

pub(crate) struct LessEqual;

impl Two for LessEqual {
    ghost formula = { λ x y. truths.truth (int_le x y) };

    #[inline(always)]
    fn apply(x: Raw, y: Raw) -> Raw {
        truth(is_at_most(x, y))
    }
}

pub(crate) struct Greater;

impl Two for Greater {
    ghost formula = { λ x y. truths.truth (int_lt y x) };

    #[inline(always)]
    fn apply(x: Raw, y: Raw) -> Raw {
        truth(is_less(y, x))
    }
}

pub(crate) struct GreaterEqual;

impl Two for GreaterEqual {
    ghost formula = { λ x y. truths.truth (int_le y x) };

    #[inline(always)]
    fn apply(x: Raw, y: Raw) -> Raw {
        truth(is_at_most(y, x))
    }
}

/// The second of three numbers where the first isn't 0, else the third.
pub struct Chosen;

impl Three for Chosen {
    ghost formula = { truths.chosen };

    #[inline(always)]
    fn apply(x: Raw, y: Raw, z: Raw) -> Raw {
        one_of(is_nonzero(x), y, z)
    }
}

/// The first of so many truths say where the numbers of a plane aren't 0.
pub fn nonzero_places(a: &Plane, count: usize, out: &mut [bool])
    requires plane { IsPlane count a.now }
    requires room { count ≤ length out.old }
    ensures long { length out.new ≡ length out.old }
    ensures each { (i : ℕ) → i < count → get_or out.new i false ≡ is_nonzero (plane_at a.now i) }
{
    for i in 0..count {
        out[i] = is_nonzero(a.at(i));
    }
}
