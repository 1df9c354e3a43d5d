// Operations on triples, place by place.
ghost use Rattle.std.specs.Prelude.{◌≡◌, ℕ, ℤ, ◌<◌, pos, length, get_or};
ghost use Rattle.fixed_math.specs.declared.vec3.Vec3.{Vec3 as AnyVec3};
ghost use Rattle.builtins.specs.Noise.{noise};
ghost use Rattle.builtins.specs.Triples as t;
ghost use Rattle.number_rows.specs.Planes.{triple_at, triple_in, ArePlanes};

use crate::plane::Planes;
use crate::raw::Raw;
use fixed_math::{Num, Vec3};

/// A number of a triple.
pub trait OfTriple {
    ghost formula: { AnyVec3 → ℤ };

    fn apply(a: Vec3) -> Num
        ensures { result ≡ formula a };
}

/// A number of two triples.
pub trait OfTriples {
    ghost formula: { AnyVec3 → AnyVec3 → ℤ };

    /// A row takes the numbers of two triples.
    fn fill(a: &Planes, b: &Planes, out: &mut [Raw])
        requires a { ArePlanes (length out.old) a.now }
        requires b { ArePlanes (length out.old) b.now }
        ensures long { length out.new ≡ length out.old }
        ensures each { (i : ℕ) → i < length out.old → get_or out.new i (pos 0) ≡ formula (triple_at a.now i) (triple_at b.now i) };
}

/// A triple of a triple.
pub trait ToTriple {
    ghost formula: { AnyVec3 → AnyVec3 };

    /// Three rows take the triples of triples.
    fn fill(a: &Planes, x: &mut [Raw], y: &mut [Raw], z: &mut [Raw])
        requires a { ArePlanes (length x.old) a.now }
        requires same { (length y.old ≡ length x.old) × (length z.old ≡ length x.old) }
        ensures long { (length x.new ≡ length x.old) × ((length y.new ≡ length y.old) × (length z.new ≡ length z.old)) }
        ensures each { (i : ℕ) → i < length x.old → triple_in x.new y.new z.new i ≡ formula (triple_at a.now i) };
}

/// A triple of two triples.
pub trait ToTriples {
    ghost formula: { AnyVec3 → AnyVec3 → AnyVec3 };

    fn apply(a: Vec3, b: Vec3) -> Vec3
        ensures { result ≡ formula a b };
}

/// A triple of three triples.
pub trait ToTripleOfThree {
    ghost formula: { AnyVec3 → AnyVec3 → AnyVec3 → AnyVec3 };

    /// Three rows take the triples of three triples.
    fn fill(a: &Planes, b: &Planes, c: &Planes, x: &mut [Raw], y: &mut [Raw], z: &mut [Raw])
        requires a { ArePlanes (length x.old) a.now }
        requires b { ArePlanes (length x.old) b.now }
        requires c { ArePlanes (length x.old) c.now }
        requires same { (length y.old ≡ length x.old) × (length z.old ≡ length x.old) }
        ensures long { (length x.new ≡ length x.old) × ((length y.new ≡ length y.old) × (length z.new ≡ length z.old)) }
        ensures each { (i : ℕ) → i < length x.old → triple_in x.new y.new z.new i ≡ formula (triple_at a.now i) (triple_at b.now i) (triple_at c.now i) };
}

/// The length.
pub struct Length;

impl OfTriple for Length {
    ghost formula = { t.length };

    #[inline(always)]
    fn apply(a: Vec3) -> Num {
        builtins::length(a)
    }
}

/// Noise at a point.
pub struct Noise;

impl OfTriple for Noise {
    ghost formula = { noise };

    #[inline(always)]
    fn apply(a: Vec3) -> Num {
        builtins::noise(a)
    }
}

/// The length of the difference.
pub struct Distance;

impl OfTriples for Distance {
    ghost formula = { t.distance };

    fn fill(a: &Planes, b: &Planes, out: &mut [Raw]) {
        distances(a, b, out);
    }
}

#[tactic(auto, using(crate::proofs::Shorter::all_shorter))]
fn distances(a: &Planes, b: &Planes, out: &mut [Raw])
    requires a { ArePlanes (length out.old) a.now }
    requires b { ArePlanes (length out.old) b.now }
    ensures long { length out.new ≡ length out.old }
    ensures each { (i : ℕ) → i < length out.old → get_or out.new i (pos 0) ≡ t.distance (triple_at a.now i) (triple_at b.now i) }
{
    for i in 0..out.len() {
        out[i] = Raw::of(builtins::distance(a.at(i), b.at(i)));
    }
}

/// The cross product.
pub struct Cross;

impl ToTriples for Cross {
    ghost formula = { t.cross };

    #[inline(always)]
    fn apply(a: Vec3, b: Vec3) -> Vec3 {
        builtins::cross(a, b)
    }
}

/// The first direction thrown back by a surface of the second as its normal.
pub struct Reflect;

impl ToTriples for Reflect {
    ghost formula = { t.reflect };

    #[inline(always)]
    fn apply(a: Vec3, b: Vec3) -> Vec3 {
        builtins::reflect(a, b)
    }
}

/// A row takes the numbers of triples.
#[tactic(auto, using(crate::proofs::Shorter::all_shorter))]
pub fn number_of_triple<K: OfTriple>(a: &Planes, out: &mut [Raw])
    requires { ArePlanes (length out.old) a.now }
    ensures long { length out.new ≡ length out.old }
    ensures each { (i : ℕ) → i < length out.old → get_or out.new i (pos 0) ≡ K.formula (triple_at a.now i) }
{
    for i in 0..out.len() {
        out[i] = Raw::of(K::apply(a.at(i)));
    }
}

/// A row takes the numbers of two triples.
pub fn number_of_triples<K: OfTriples>(a: &Planes, b: &Planes, out: &mut [Raw])
    requires a { ArePlanes (length out.old) a.now }
    requires b { ArePlanes (length out.old) b.now }
    ensures long { length out.new ≡ length out.old }
    ensures each { (i : ℕ) → i < length out.old → get_or out.new i (pos 0) ≡ K.formula (triple_at a.now i) (triple_at b.now i) }
{
    K::fill(a, b, out);
}

/// Three rows take the triples of triples.
pub fn triple_of_triple<K: ToTriple>(a: &Planes, x: &mut [Raw], y: &mut [Raw], z: &mut [Raw])
    requires a { ArePlanes (length x.old) a.now }
    requires same { (length y.old ≡ length x.old) × (length z.old ≡ length x.old) }
    ensures long { (length x.new ≡ length x.old) × ((length y.new ≡ length y.old) × (length z.new ≡ length z.old)) }
    ensures each { (i : ℕ) → i < length x.old → triple_in x.new y.new z.new i ≡ K.formula (triple_at a.now i) }
{
    K::fill(a, x, y, z);
}

/// Three rows take the triples of two triples.
#[tactic(auto, using(crate::proofs::Shorter::all_shorter))]
pub fn triple_of_triples<K: ToTriples>(
    a: &Planes,
    b: &Planes,
    x: &mut [Raw],
    y: &mut [Raw],
    z: &mut [Raw],
)
    requires a { ArePlanes (length x.old) a.now }
    requires b { ArePlanes (length x.old) b.now }
    requires same { (length y.old ≡ length x.old) × (length z.old ≡ length x.old) }
    ensures long { (length x.new ≡ length x.old) × ((length y.new ≡ length y.old) × (length z.new ≡ length z.old)) }
    ensures each { (i : ℕ) → i < length x.old → triple_in x.new y.new z.new i ≡ K.formula (triple_at a.now i) (triple_at b.now i) }
{
    for i in 0..x.len() {
        let t = K::apply(a.at(i), b.at(i));
        x[i] = Raw::of(t.x);
        y[i] = Raw::of(t.y);
        z[i] = Raw::of(t.z);
    }
}

/// Three rows take the triples of three triples.
pub fn triple_of_three<K: ToTripleOfThree>(
    a: &Planes,
    b: &Planes,
    c: &Planes,
    x: &mut [Raw],
    y: &mut [Raw],
    z: &mut [Raw],
)
    requires a { ArePlanes (length x.old) a.now }
    requires b { ArePlanes (length x.old) b.now }
    requires c { ArePlanes (length x.old) c.now }
    requires same { (length y.old ≡ length x.old) × (length z.old ≡ length x.old) }
    ensures long { (length x.new ≡ length x.old) × ((length y.new ≡ length y.old) × (length z.new ≡ length z.old)) }
    ensures each { (i : ℕ) → i < length x.old → triple_in x.new y.new z.new i ≡ K.formula (triple_at a.now i) (triple_at b.now i) (triple_at c.now i) }
{
    K::fill(a, b, c, x, y, z);
}
