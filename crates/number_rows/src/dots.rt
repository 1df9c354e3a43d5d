// Sums of the products of the parts of triples, by rows, and normals that they turn.
ghost use Rattle.std.specs.Prelude.{◌≡◌, ℕ, ◌<◌, ◌≤◌, true, length, get_or, pos, ◌+◌, unsigned_abs};
ghost use Rattle.builtins.specs.Triples as t;
ghost use Rattle.fixed_math.specs.Fixed.{add, mul};
ghost use Rattle.number_rows.specs.Planes.{triple_at, triple_in, triple_of, rows_at, ArePlanes, AreLonger, IsSmall, AreSmall};
ghost use Rattle.number_rows.specs.Truths.{turned};

use crate::kernels::Two;
use crate::loops::{two_planes, with_plane};
use crate::plane::{Parts, Plane, Planes, TripleRows};
use crate::raw::Raw;
use crate::triples::{OfTriples, ToTripleOfThree};
use lanes::raw;

#[inline(always)]
fn times(x: Raw, y: Raw) -> Raw
    ensures { result ≡ mul x y }
{
    Raw::from_bits(raw::mul(x.bits(), y.bits()))
}

#[inline(always)]
fn plus(x: Raw, y: Raw) -> Raw
    ensures { result ≡ add x y }
{
    Raw::from_bits(raw::add(x.bits(), y.bits()))
}

// The sum of the products of the parts.
#[inline(always)]
#[tactic(auto, unfolding(builtins::specs::Triples::dot))]
fn product(a: Parts, b: Parts) -> Raw
    ensures { result ≡ t.dot (triple_of a) (triple_of b) }
{
    let x = times(a.x, b.x);
    let y = times(a.y, b.y);
    let z = times(a.z, b.z);
    plus(plus(x, y), z)
}

// Whether something holds and a number is below 64.
#[inline(always)]
fn still_small(holds: bool, x: Raw) -> bool
    ensures held { result ≡ true → holds ≡ true }
    ensures small { result ≡ true → IsSmall x }
{
    holds & (x.bits().unsigned_abs() <= 4194304)
}

// The same of the parts of a triple.
#[inline(always)]
fn still_all_small(holds: bool, a: Parts) -> bool
    ensures held { result ≡ true → holds ≡ true }
    ensures small { result ≡ true → AreSmall (triple_of a) }
{
    still_small(still_small(still_small(holds, a.x), a.y), a.z)
}

// Whether the parts of the first triples are all below 64: then no product and no sum of three has to be put into range.
fn are_small(a: TripleRows, count: usize) -> bool
    requires { (i : ℕ) → i < count → AreLonger i a }
    ensures { result ≡ true → (i : ℕ) → i < count → AreSmall (rows_at a.entry i) }
{
    let mut small = true;
    for i in 0..count {
        small = still_all_small(small, a.parts(i));
    }
    small
}

#[inline(always)]
fn small_product(a: i32, b: i32) -> i32
    requires a { unsigned_abs a ≤ 4194304 }
    requires b { unsigned_abs b ≤ 4194304 }
    ensures value { result ≡ mul a b }
    ensures small { unsigned_abs result ≤ 268435456 }
{
    ((a as i64 * b as i64) >> 16) as i32
}

// The product of numbers below 64.
#[inline(always)]
fn small_times(x: Raw, y: Raw) -> Raw
    requires x { IsSmall x }
    requires y { IsSmall y }
    ensures value { result ≡ mul x y }
    ensures small { unsigned_abs result ≤ 268435456 }
{
    Raw::from_bits(small_product(x.bits(), y.bits()))
}

// The sum of numbers that are far from the ends of the range.
#[inline(always)]
#[tactic(auto, using(crate::proofs::Small::in_range))]
fn small_plus(x: Raw, y: Raw) -> Raw
    requires x { unsigned_abs x ≤ 536870912 }
    requires y { unsigned_abs y ≤ 268435456 }
    ensures value { result ≡ add x y }
    ensures small { unsigned_abs result ≤ unsigned_abs x + unsigned_abs y }
{
    Raw::from_bits(x.bits() + y.bits())
}

#[inline(always)]
#[tactic(auto, unfolding(builtins::specs::Triples::dot))]
fn small_dot(a: Parts, b: Parts) -> Raw
    requires a { AreSmall (triple_of a) }
    requires b { AreSmall (triple_of b) }
    ensures { result ≡ t.dot (triple_of a) (triple_of b) }
{
    let x = small_times(a.x, b.x);
    let y = small_times(a.y, b.y);
    let z = small_times(a.z, b.z);
    small_plus(small_plus(x, y), z)
}

fn small_dots(a: TripleRows, b: TripleRows, out: &mut [Raw])
    requires a { (i : ℕ) → i < length out.old → AreLonger i a }
    requires b { (i : ℕ) → i < length out.old → AreLonger i b }
    requires a_small { (i : ℕ) → i < length out.old → AreSmall (rows_at a i) }
    requires b_small { (i : ℕ) → i < length out.old → AreSmall (rows_at b i) }
    ensures long { length out.new ≡ length out.old }
    ensures each { (i : ℕ) → i < length out.old → get_or out.new i (pos 0) ≡ t.dot (rows_at a.entry i) (rows_at b.entry i) }
{
    for i in 0..out.len() {
        out[i] = small_dot(a.parts(i), b.parts(i));
    }
}

fn great_dots(a: TripleRows, b: TripleRows, out: &mut [Raw])
    requires a { (i : ℕ) → i < length out.old → AreLonger i a }
    requires b { (i : ℕ) → i < length out.old → AreLonger i b }
    ensures long { length out.new ≡ length out.old }
    ensures each { (i : ℕ) → i < length out.old → get_or out.new i (pos 0) ≡ t.dot (rows_at a.entry i) (rows_at b.entry i) }
{
    for i in 0..out.len() {
        out[i] = product(a.parts(i), b.parts(i));
    }
}

// A row takes the products of triples in rows.
fn dots_of_rows(a: TripleRows, b: TripleRows, out: &mut [Raw])
    requires a { (i : ℕ) → i < length out.old → AreLonger i a }
    requires b { (i : ℕ) → i < length out.old → AreLonger i b }
    ensures long { length out.new ≡ length out.old }
    ensures each { (i : ℕ) → i < length out.old → get_or out.new i (pos 0) ≡ t.dot (rows_at a.entry i) (rows_at b.entry i) }
{
    if are_small(a, out.len()) && are_small(b, out.len()) {
        small_dots(a, b, out);
    } else {
        great_dots(a, b, out);
    }
}

// The same of triples in rows and one that is the same at all places.
fn dots_by(a: TripleRows, b: &Parts, out: &mut [Raw])
    requires a { (i : ℕ) → i < length out.old → AreLonger i a }
    ensures long { length out.new ≡ length out.old }
    ensures each { (i : ℕ) → i < length out.old → get_or out.new i (pos 0) ≡ t.dot (rows_at a.entry i) (triple_of b.now) }
{
    for i in 0..out.len() {
        out[i] = product(a.parts(i), *b);
    }
}

// The same of any triples.
#[tactic(auto, using(crate::proofs::Shorter::all_shorter))]
fn dots_of_planes(a: &Planes, b: &Planes, out: &mut [Raw])
    requires a { ArePlanes (length out.old) a.now }
    requires b { ArePlanes (length out.old) b.now }
    ensures long { length out.new ≡ length out.old }
    ensures each { (i : ℕ) → i < length out.old → get_or out.new i (pos 0) ≡ t.dot (triple_at a.now i) (triple_at b.now i) }
{
    for i in 0..out.len() {
        out[i] = product(a.parts(i), b.parts(i));
    }
}

// The same of triples that aren't both in rows: mostly the second is the same at all places.
fn dots_of_others(a: &Planes, b: &Planes, out: &mut [Raw])
    requires a { ArePlanes (length out.old) a.now }
    requires b { ArePlanes (length out.old) b.now }
    ensures long { length out.new ≡ length out.old }
    ensures each { (i : ℕ) → i < length out.old → get_or out.new i (pos 0) ≡ t.dot (triple_at a.now i) (triple_at b.now i) }
{
    match (a.rows(), b.value()) {
        (Some(p), Some(t)) => dots_by(p, &t, out),
        _ => dots_of_planes(a, b, out),
    }
}

// A row takes the products of triples.
fn dots(a: &Planes, b: &Planes, out: &mut [Raw])
    requires a { ArePlanes (length out.old) a.now }
    requires b { ArePlanes (length out.old) b.now }
    ensures long { length out.new ≡ length out.old }
    ensures each { (i : ℕ) → i < length out.old → get_or out.new i (pos 0) ≡ t.dot (triple_at a.now i) (triple_at b.now i) }
{
    match (a.rows(), b.rows()) {
        (Some(p), Some(q)) => dots_of_rows(p, q, out),
        _ => dots_of_others(a, b, out),
    }
}

/// The sum of the products of the parts.
pub struct Dot;

impl OfTriples for Dot {
    ghost formula = { t.dot };

    fn fill(a: &Planes, b: &Planes, out: &mut [Raw]) {
        dots(a, b, out);
    }
}

// The second number, with the other sign where the first is above 0.
pub(crate) struct Turned;

impl Two for Turned {
    ghost formula = { turned };

    #[inline(always)]
    fn apply(x: Raw, y: Raw) -> Raw {
        let other = -y.bits();
        Raw::from_bits(if x.bits() > 0 { other } else { y.bits() })
    }
}

// Three rows take the normals `a`, turned where the products of `b` and `c` are above 0.
#[tactic(auto, unfolding(builtins::specs::Triples::faceforward))]
fn turn(a: &Planes, b: &Planes, c: &Planes, x: &mut [Raw], y: &mut [Raw], z: &mut [Raw])
    requires a { ArePlanes (length x.old) a.now }
    requires b { ArePlanes (length x.old) b.now }
    requires c { ArePlanes (length x.old) c.now }
    requires same { (length y.old ≡ length x.old) × (length z.old ≡ length x.old) }
    ensures long { (length x.new ≡ length x.old) × ((length y.new ≡ length y.old) × (length z.new ≡ length z.old)) }
    ensures each { (i : ℕ) → i < length x.old → triple_in x.new y.new z.new i ≡ t.faceforward (triple_at a.now i) (triple_at b.now i) (triple_at c.now i) }
{
    dots(b, c, x);
    two_planes::<Turned>(&Plane::Row(x), &a.y, y);
    two_planes::<Turned>(&Plane::Row(x), &a.z, z);
    with_plane::<Turned>(&a.x, x);
}

/// A normal turned against a direction, as another normal says.
pub struct FaceForward;

impl ToTripleOfThree for FaceForward {
    ghost formula = { t.faceforward };

    fn fill(a: &Planes, b: &Planes, c: &Planes, x: &mut [Raw], y: &mut [Raw], z: &mut [Raw]) {
        turn(a, b, c, x, y, z);
    }
}
