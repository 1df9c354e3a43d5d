// Vectors of length 1 by rows.
ghost use Rattle.std.specs.Prelude.{◌≡◌, ℕ, ◌<◌, true, length};
ghost use Rattle.builtins.specs.Triples.{normalize};
ghost use Rattle.lanes.specs.Directions.{IsNearUnit};
ghost use Rattle.number_rows.specs.Planes.{triple_at, triple_in, rows_at, ArePlanes, AreLonger, IsNear};

use crate::plane::{Planes, TripleRows};
use crate::raw::Raw;
use crate::triples::ToTriple;
use fixed_math::Vec3;
use lanes::direction::{self, Direction};
use lanes::{is_near_unit, near_unit};

/// The vector of length 1 in a direction; 0 for that of no length.
#[inline(always)]
#[tactic(auto, unfolding(builtins::specs::Triples::normalize))]
pub fn unit(a: Vec3) -> Vec3
    ensures { result ≡ normalize a }
{
    let (x, y, z) = (Raw::of(a.x), Raw::of(a.y), Raw::of(a.z));
    let u = direction::unit(x.bits(), y.bits(), z.bits());
    Vec3 {
        x: Raw::from_bits(u.x).number(),
        y: Raw::from_bits(u.y).number(),
        z: Raw::from_bits(u.z).number(),
    }
}

// Whether something holds and the length of a triple is nearly 1.
#[inline(always)]
fn still_near(holds: bool, a: TripleRows, place: usize) -> bool
    requires { AreLonger place a }
    ensures held { result ≡ true → holds ≡ true }
    ensures near { result ≡ true → IsNear (rows_at a.entry place) }
{
    let p = a.parts(place);
    holds & is_near_unit(p.x.bits(), p.y.bits(), p.z.bits())
}

// Whether the lengths of the first triples are all nearly 1.
fn are_near(a: TripleRows, count: usize) -> bool
    requires { (i : ℕ) → i < count → AreLonger i a }
    ensures { result ≡ true → (i : ℕ) → i < count → IsNear (rows_at a.entry i) }
{
    let mut near = true;
    for i in 0..count {
        near = still_near(near, a, i);
    }
    near
}

// The vectors of length 1 of triples whose lengths are nearly 1.
#[tactic(auto, unfolding(builtins::specs::Triples::normalize))]
fn near_units(a: TripleRows, x: &mut [Raw], y: &mut [Raw], z: &mut [Raw])
    requires a { (i : ℕ) → i < length x.old → AreLonger i a }
    requires near { (i : ℕ) → i < length x.old → IsNear (rows_at a i) }
    requires same { (length y.old ≡ length x.old) × (length z.old ≡ length x.old) }
    ensures long { (length x.new ≡ length x.old) × ((length y.new ≡ length y.old) × (length z.new ≡ length z.old)) }
    ensures each { (i : ℕ) → i < length x.old → triple_in x.new y.new z.new i ≡ normalize (rows_at a.entry i) }
{
    for i in 0..x.len() {
        let p = a.parts(i);
        let u = near_unit(p.x.bits(), p.y.bits(), p.z.bits());
        x[i] = Raw::from_bits(u.x);
        y[i] = Raw::from_bits(u.y);
        z[i] = Raw::from_bits(u.z);
    }
}

// The same of any triples in rows.
#[tactic(auto, unfolding(builtins::specs::Triples::normalize))]
fn far_units(a: TripleRows, x: &mut [Raw], y: &mut [Raw], z: &mut [Raw])
    requires a { (i : ℕ) → i < length x.old → AreLonger i a }
    requires same { (length y.old ≡ length x.old) × (length z.old ≡ length x.old) }
    ensures long { (length x.new ≡ length x.old) × ((length y.new ≡ length y.old) × (length z.new ≡ length z.old)) }
    ensures each { (i : ℕ) → i < length x.old → triple_in x.new y.new z.new i ≡ normalize (rows_at a.entry i) }
{
    for i in 0..x.len() {
        let p = a.parts(i);
        let u = direction::unit(p.x.bits(), p.y.bits(), p.z.bits());
        x[i] = Raw::from_bits(u.x);
        y[i] = Raw::from_bits(u.y);
        z[i] = Raw::from_bits(u.z);
    }
}

// Three rows take the vectors of length 1 of triples in rows.
fn units_of_rows(a: TripleRows, x: &mut [Raw], y: &mut [Raw], z: &mut [Raw])
    requires a { (i : ℕ) → i < length x.old → AreLonger i a }
    requires same { (length y.old ≡ length x.old) × (length z.old ≡ length x.old) }
    ensures long { (length x.new ≡ length x.old) × ((length y.new ≡ length y.old) × (length z.new ≡ length z.old)) }
    ensures each { (i : ℕ) → i < length x.old → triple_in x.new y.new z.new i ≡ normalize (rows_at a.entry i) }
{
    if are_near(a, x.len()) {
        near_units(a, x, y, z);
    } else {
        far_units(a, x, y, z);
    }
}

// The same of planes.
#[tactic(auto, using(crate::proofs::Shorter::all_shorter))]
fn units_of_planes(a: &Planes, x: &mut [Raw], y: &mut [Raw], z: &mut [Raw])
    requires a { ArePlanes (length x.old) a.now }
    requires same { (length y.old ≡ length x.old) × (length z.old ≡ length x.old) }
    ensures long { (length x.new ≡ length x.old) × ((length y.new ≡ length y.old) × (length z.new ≡ length z.old)) }
    ensures each { (i : ℕ) → i < length x.old → triple_in x.new y.new z.new i ≡ normalize (triple_at a.now i) }
{
    for i in 0..x.len() {
        let u = unit(a.at(i));
        x[i] = Raw::of(u.x);
        y[i] = Raw::of(u.y);
        z[i] = Raw::of(u.z);
    }
}

// Three rows take the vectors of length 1 in the directions of triples.
fn units(a: &Planes, x: &mut [Raw], y: &mut [Raw], z: &mut [Raw])
    requires a { ArePlanes (length x.old) a.now }
    requires same { (length y.old ≡ length x.old) × (length z.old ≡ length x.old) }
    ensures long { (length x.new ≡ length x.old) × ((length y.new ≡ length y.old) × (length z.new ≡ length z.old)) }
    ensures each { (i : ℕ) → i < length x.old → triple_in x.new y.new z.new i ≡ normalize (triple_at a.now i) }
{
    match a.rows() {
        Some(rows) => units_of_rows(rows, x, y, z),
        None => units_of_planes(a, x, y, z),
    }
}

/// The vector of length 1 of a direction.
pub struct Normalize;

impl ToTriple for Normalize {
    ghost formula = { normalize };

    fn fill(a: &Planes, x: &mut [Raw], y: &mut [Raw], z: &mut [Raw]) {
        units(a, x, y, z);
    }
}
