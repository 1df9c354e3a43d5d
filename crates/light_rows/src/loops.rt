// Loops of sums over lights, one formula a place.
ghost use Rattle.std.specs.Prelude.{◌≡◌, ℕ, ◌<◌, ◌&&◌, pos, int_le, cond, length, get_or};
ghost use Rattle.fixed_math.specs.Fixed.{add, mul};
ghost use Rattle.builtins.specs.Numbers.{max};
ghost use Rattle.builtins.specs.Values.{is_nonzero};
ghost use Rattle.number_rows.specs.Truths as truths;
ghost use Rattle.light_rows.specs.Loops.{raised, weight, is_before, with_share};
ghost use Rattle.light_rows.specs.Seen.{size, at_place};

use crate::triples::Triples;
use fixed_math::Num;
use number_rows::{Add, Dot, Multiply, Planes, Power, Raw, Two, number_of_triples};

// A number where it isn't negative, else 0.
#[inline(always)]
fn positive(x: Raw) -> Raw
    ensures { result ≡ max (pos 0) x }
{
    if x.raw() < 0 { Raw::zero() } else { x }
}

// Numbers that are negative become 0.
fn make_positive(out: &mut [Raw])
    ensures long { length out.new ≡ length out.old }
    ensures each { (i : ℕ) → i < length out.old → get_or out.new i (pos 0) ≡ max (pos 0) (get_or out.old i (pos 0)) }
{
    for i in 0..out.len() {
        out[i] = positive(out[i]);
    }
}

/// The products of triples where they aren't negative, else 0.
#[tactic(auto, unfolding(crate::specs::Loops::weight))]
pub fn weigh(a: &Triples, b: &Triples, out: &mut [Raw])
    requires a { size a.now ≡ length out.old }
    requires b { size b.now ≡ length out.old }
    ensures long { length out.new ≡ length out.old }
    ensures each { (i : ℕ) → i < length out.old → get_or out.new i (pos 0) ≡ weight (at_place a.now i) (at_place b.now i) }
{
    let Planes { x, y, z } = a.planes();
    let Planes { x: u, y: v, z: w } = b.planes();
    number_of_triples::<Dot>(&Planes { x, y, z }, &Planes { x: u, y: v, z: w }, out);
    make_positive(out);
}

// Whether a number isn't 0.
#[inline(always)]
fn is_nonzero(x: Raw) -> bool
    ensures { result ≡ is_nonzero x }
{
    x.raw() != 0
}

// Whether a light is lit in front of a surface, by the cosine between them.
#[inline(always)]
fn is_lit_before(lit: Raw, cosine: Num) -> bool
    ensures { result ≡ (is_nonzero lit && int_le (pos 0) cosine) }
{
    is_nonzero(lit) & (0 <= cosine.raw())
}

// A truth as a number.
#[inline(always)]
fn truth(holds: bool) -> Raw
    ensures { result ≡ truths.truth holds }
{
    if holds {
        Raw::of(Num::sat(65536))
    } else {
        Raw::of(Num::sat(0))
    }
}

// The same as a number.
#[inline(always)]
fn mark_of(lit: Raw, cosine: Raw) -> Raw
    ensures { result ≡ truths.truth (is_nonzero lit && int_le (pos 0) cosine) }
{
    truth(is_lit_before(lit, cosine.number()))
}

// Where a light is lit in front of surfaces, in place of the cosines between them.
fn mark_lit(lit: &[Raw], cosines: &mut [Raw])
    requires lit { length lit.now ≡ length cosines.old }
    ensures long { length cosines.new ≡ length cosines.old }
    ensures each { (i : ℕ) → i < length cosines.old → get_or cosines.new i (pos 0) ≡ truths.truth (is_nonzero (get_or lit.now i (pos 0)) && int_le (pos 0) (get_or cosines.old i (pos 0))) }
{
    for i in 0..cosines.len() {
        cosines[i] = mark_of(lit[i], cosines[i]);
    }
}

/// Where a light is lit in front of surfaces, by the units of the directions to it and of the normals.
#[tactic(auto, unfolding(crate::specs::Loops::is_before))]
pub fn mark(lit: &[Raw], units: &Triples, normals: &Triples, out: &mut [Raw])
    requires lit { length lit.now ≡ length out.old }
    requires units { size units.now ≡ length out.old }
    requires normals { size normals.now ≡ length out.old }
    ensures long { length out.new ≡ length out.old }
    ensures each { (i : ℕ) → i < length out.old → get_or out.new i (pos 0) ≡ truths.truth (is_before (get_or lit.now i (pos 0)) (at_place units.now i) (at_place normals.now i)) }
{
    let Planes { x, y, z } = units.planes();
    let Planes { x: u, y: v, z: w } = normals.planes();
    number_of_triples::<Dot>(&Planes { x, y, z }, &Planes { x: u, y: v, z: w }, out);
    mark_lit(lit, out);
}

// The sum of two numbers.
#[inline(always)]
fn sum(x: Raw, y: Raw) -> Raw
    ensures { result ≡ add x y }
{
    Add::apply(x, y)
}

// The product of two numbers.
#[inline(always)]
fn product(x: Raw, y: Raw) -> Raw
    ensures { result ≡ mul x y }
{
    Multiply::apply(x, y)
}

#[inline(always)]
fn one_of(first: bool, x: Raw, y: Raw) -> Raw
    ensures { result ≡ cond first x y }
{
    if first { x } else { y }
}

// A number with a share of another one, where it is shown.
#[inline(always)]
#[tactic(auto, unfolding(crate::specs::Loops::with_share))]
fn with_share(shown: Raw, total: Raw, colour: Raw, weight: Raw) -> Raw
    ensures { result ≡ with_share shown total colour weight }
{
    let more = sum(total, product(colour, weight));
    one_of(is_nonzero(shown), more, total)
}

/// Adds shares of one part of colours where they are shown.
pub fn add_shares(shown: &[Raw], weights: &[Raw], colours: &[Raw], totals: &mut [Raw])
    requires shown { length shown.now ≡ length totals.old }
    requires weights { length weights.now ≡ length totals.old }
    requires colours { length colours.now ≡ length totals.old }
    ensures long { length totals.new ≡ length totals.old }
    ensures each { (i : ℕ) → i < length totals.old → get_or totals.new i (pos 0) ≡ with_share (get_or shown.now i (pos 0)) (get_or totals.old i (pos 0)) (get_or colours.now i (pos 0)) (get_or weights.now i (pos 0)) }
{
    for i in 0..totals.len() {
        totals[i] = with_share(shown[i], totals[i], colours[i], weights[i]);
    }
}

/// Adds one part of colours.
pub fn add_whole(colours: &[Raw], totals: &mut [Raw])
    requires { length colours.now ≡ length totals.old }
    ensures long { length totals.new ≡ length totals.old }
    ensures each { (i : ℕ) → i < length totals.old → get_or totals.new i (pos 0) ≡ add (get_or totals.old i (pos 0)) (get_or colours.now i (pos 0)) }
{
    for i in 0..totals.len() {
        totals[i] = sum(totals[i], colours[i]);
    }
}

// The power of a weight where it is shown, else 0.
#[inline(always)]
fn raised(shown: Raw, weight: Raw, exponent: Raw) -> Raw
    ensures { result ≡ raised shown weight exponent }
{
    if is_nonzero(shown) {
        Power::apply(weight, exponent)
    } else {
        Raw::zero()
    }
}

/// Raises weights to powers where they are shown; elsewhere they become 0.
pub fn raise(shown: &[Raw], exponents: &[Raw], weights: &mut [Raw])
    requires shown { length shown.now ≡ length weights.old }
    requires exponents { length exponents.now ≡ length weights.old }
    ensures long { length weights.new ≡ length weights.old }
    ensures each { (i : ℕ) → i < length weights.old → get_or weights.new i (pos 0) ≡ raised (get_or shown.now i (pos 0)) (get_or weights.old i (pos 0)) (get_or exponents.now i (pos 0)) }
{
    for i in 0..weights.len() {
        weights[i] = raised(shown[i], weights[i], exponents[i]);
    }
}
