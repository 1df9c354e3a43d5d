// What rows of triples take and give.
ghost use Rattle.std.specs.Prelude.{◌≡◌, ℕ, ◌<◌, ◌≤◌, true, pos, length, get_or, IfOk};
ghost use Rattle.builtins.specs.Triples.{each_two, negated, normalize};
ghost use Rattle.fixed_math.specs.Fixed.{add};
ghost use Rattle.number_rows.specs.Planes.{plane_at, triple_at, IsPlane, ArePlanes};
ghost use Rattle.light_rows.specs.Seen.{size, at_place};

use crate::triples::Triples;
use crate::units::one_unit;
use bumpalo::Bump;
use fixed_math::{NoMemory, Vec3};
use number_rows::{
    Add, Normalize, Plane, Planes, Raw, copy, part_row, triple_of_triple, two_planes,
};
use sl_ast::ValueOperation;

// So many zeros, or want of memory.
pub(crate) fn zeros<'a>(arena: &'a Bump, count: usize) -> Result<Vec<Raw, &'a Bump>, NoMemory>
    ensures { IfOk result (λ v. length v.items ≡ count) }
{
    Ok(vec![in arena; Raw::zero(); count]?)
}

// Whether two rows begin alike.
fn are_same(a: &[Raw], b: &[Raw]) -> bool
    requires { length a.now ≤ length b.now }
    ensures { result ≡ true → (i : ℕ) → i < length a.now → get_or a.now i (pos 0) ≡ get_or b.now i (pos 0) }
{
    let mut same = true;
    for i in 0..a.len() {
        same = still(same, a[i], b[i]);
    }
    same
}

/// Whether a row is one number throughout.
pub(crate) fn are_value(a: &[Raw], x: Raw) -> bool
    ensures { result ≡ true → (i : ℕ) → i < length a.now → get_or a.now i (pos 0) ≡ x }
{
    let mut same = true;
    for i in 0..a.len() {
        same = still(same, a[i], x);
    }
    same
}

// Whether something holds and two numbers are the same.
#[inline(always)]
fn still(holds: bool, x: Raw, y: Raw) -> bool
    ensures held { result ≡ true → holds ≡ true }
    ensures same { result ≡ true → x ≡ y }
{
    holds & (x.raw() == y.raw())
}

fn is_plane(a: &[Raw], plane: &Plane) -> bool
    requires { IsPlane (length a.now) plane.now }
    ensures { result ≡ true → (i : ℕ) → i < length a.now → get_or a.now i (pos 0) ≡ plane_at plane.now i }
{
    match plane {
        Plane::Row(b) => are_same(a, b),
        Plane::Value(x) => are_value(a, *x),
    }
}

// The first number, or 0 where there is none.
fn first_of(row: &[Raw]) -> Raw {
    match row.first() {
        Some(x) => *x,
        None => Raw::zero(),
    }
}

impl<'a> Triples<'a> {
    /// So many triples, or want of memory.
    pub fn zeros(arena: &'a Bump, count: usize) -> Result<Triples<'a>, NoMemory>
        ensures { IfOk result (λ t. size t ≡ count) }
    {
        Ok(Triples {
            x: zeros(arena, count)?,
            y: zeros(arena, count)?,
            z: zeros(arena, count)?,
        })
    }
}

impl Triples<'_> {
    /// The triples as planes.
    pub fn planes(&self) -> Planes<'_>
        ensures planes { ArePlanes (size self.now) result }
        ensures each { (i : ℕ) → triple_at result i ≡ at_place self.now i }
    {
        Planes {
            x: Plane::Row(&self.x),
            y: Plane::Row(&self.y),
            z: Plane::Row(&self.z),
        }
    }

    /// The triple of a place.
    #[inline(always)]
    pub fn at(&self, place: usize) -> Vec3
        requires { place < size self.now }
        ensures { result ≡ at_place self.now place }
    {
        Vec3 {
            x: self.x[place].number(),
            y: self.y[place].number(),
            z: self.z[place].number(),
        }
    }

    /// Takes the triples of planes.
    pub fn take(&mut self, planes: &Planes)
        requires { ArePlanes (size self.old) planes.now }
        ensures size { size self.new ≡ size self.old }
        ensures each { (i : ℕ) → i < size self.old → at_place self.new i ≡ triple_at planes.now i }
    {
        copy(&planes.x, &mut self.x);
        copy(&planes.y, &mut self.y);
        copy(&planes.z, &mut self.z);
    }

    /// Takes the opposites of the triples of planes.
    pub fn take_turned(&mut self, planes: &Planes)
        requires { ArePlanes (size self.old) planes.now }
        ensures size { size self.new ≡ size self.old }
        ensures each { (i : ℕ) → i < size self.old → at_place self.new i ≡ negated (triple_at planes.now i) }
    {
        part_row(ValueOperation::Negate, &planes.x, &mut self.x);
        part_row(ValueOperation::Negate, &planes.y, &mut self.y);
        part_row(ValueOperation::Negate, &planes.z, &mut self.z);
    }

    /// Takes the vectors of length 1 in the directions of planes. A direction that is given once for all places is worked out once.
    pub fn take_units(&mut self, planes: &Planes)
        requires { ArePlanes (size self.old) planes.now }
        ensures size { size self.new ≡ size self.old }
        ensures each { (i : ℕ) → i < size self.old → at_place self.new i ≡ normalize (triple_at planes.now i) }
    {
        match (&planes.x, &planes.y, &planes.z) {
            (Plane::Value(x), Plane::Value(y), Plane::Value(z)) => {
                self.take(&one_unit(*x, *y, *z))
            }
            _ => triple_of_triple::<Normalize>(planes, &mut self.x, &mut self.y, &mut self.z),
        }
    }

    /// Takes the sums of others and of the triples of planes.
    pub fn take_sums(&mut self, others: &Triples, planes: &Planes)
        requires others { size others.now ≡ size self.old }
        requires planes { ArePlanes (size self.old) planes.now }
        ensures size { size self.new ≡ size self.old }
        ensures each { (i : ℕ) → i < size self.old → at_place self.new i ≡ each_two add (at_place others.now i) (triple_at planes.now i) }
    {
        two_planes::<Add>(&Plane::Row(&others.x), &planes.x, &mut self.x);
        two_planes::<Add>(&Plane::Row(&others.y), &planes.y, &mut self.y);
        two_planes::<Add>(&Plane::Row(&others.z), &planes.z, &mut self.z);
    }

    // The first triple at all places.
    fn first(&self) -> Planes<'static>
        ensures { (c : ℕ) → ArePlanes c result }
    {
        Planes {
            x: Plane::Value(first_of(&self.x)),
            y: Plane::Value(first_of(&self.y)),
            z: Plane::Value(first_of(&self.z)),
        }
    }

    // Takes the vectors of length 1 in the directions of others, which may all be the first one.
    fn take_units_by(&mut self, others: &Triples, first: &Planes)
        requires others { size others.now ≡ size self.old }
        requires first { ArePlanes (size self.old) first.now }
        ensures size { size self.new ≡ size self.old }
        ensures each { (i : ℕ) → i < size self.old → at_place self.new i ≡ normalize (at_place others.now i) }
    {
        if others.are(first) {
            self.take_units(first);
        } else {
            let Planes { x, y, z } = others.planes();
            self.take_units(&Planes { x, y, z });
        }
    }

    /// Takes the vectors of length 1 in the directions of others. Where those are all the same, as of a distant light, it is worked out once.
    pub fn take_units_of(&mut self, others: &Triples)
        requires { size others.now ≡ size self.old }
        ensures size { size self.new ≡ size self.old }
        ensures each { (i : ℕ) → i < size self.old → at_place self.new i ≡ normalize (at_place others.now i) }
    {
        let Planes { x, y, z } = others.first();
        self.take_units_by(others, &Planes { x, y, z });
    }

    /// Whether these are the triples of planes.
    pub fn are(&self, planes: &Planes) -> bool
        requires { ArePlanes (size self.now) planes.now }
        ensures { result ≡ true → (i : ℕ) → i < size self.now → at_place self.now i ≡ triple_at planes.now i }
    {
        is_plane(&self.x, &planes.x) && is_plane(&self.y, &planes.y) && is_plane(&self.z, &planes.z)
    }
}
