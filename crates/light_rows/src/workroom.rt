// What sums over lights are worked out in.
ghost use Rattle.std.specs.Prelude.{◌≡◌, ℕ, ◌<◌, pos, true, false, length, get_or, IfOk};
ghost use Rattle.number_rows.specs.Planes.{plane_at, triple_at, triple_in, IsPlane, ArePlanes};
ghost use Rattle.light_rows.specs.Shares.{matte_at, shown_at, highlight_at, shining_at, HaveGained};
ghost use Rattle.light_rows.specs.Seen.{size, at_place, counts_in, HasPlaces, HasRows, HasBegun, AreNormals, AreExponents, IsSum};

use crate::answers::Answers;
use crate::loops::{add_shares, add_whole, mark, raise, weigh};
use crate::sums::Sum;
use crate::taking::{are_value, zeros};
use crate::triples::Triples;
use bumpalo::Bump;
use fixed_math::{NoMemory, Num};
use number_rows::{Plane, Planes, Raw, parts_rows};
use sl_ast::ValueOperation;

/// Rows for sums over lights: the units of the normals of the last sum that had any, with those where they are known, its exponents, and of
/// one light the weights, where its highlights are shown, and the vectors half way to it, as sums and as units.
#[derive(Drop)]
pub struct Workroom<'a> {
    pub known: bool,
    pub sources: Triples<'a>,
    pub normals: Triples<'a>,
    pub exponents: Vec<Raw, &'a Bump>,
    pub weights: Vec<Raw, &'a Bump>,
    pub shown: Vec<Raw, &'a Bump>,
    pub sums: Triples<'a>,
    pub half_way: Triples<'a>,
}

impl<'a> Workroom<'a> {
    /// Rows for so many places, or want of memory.
    pub fn new(arena: &'a Bump, count: usize) -> Result<Workroom<'a>, NoMemory>
        ensures { IfOk result (λ w. HasRows count w) }
    {
        Ok(Workroom {
            known: false,
            sources: Triples::zeros(arena, count)?,
            normals: Triples::zeros(arena, count)?,
            exponents: zeros(arena, count)?,
            weights: zeros(arena, count)?,
            shown: zeros(arena, count)?,
            sums: Triples::zeros(arena, count)?,
            half_way: Triples::zeros(arena, count)?,
        })
    }
}

impl Workroom<'_> {
    // The exponents of highlights: one over the roughness.
    fn sharpen(&mut self, roughness: &Plane)
        requires rows { HasRows (size self.old.normals) self.old }
        requires plane { IsPlane (size self.old.normals) roughness.now }
        ensures rows { HasRows (size self.old.normals) self.new }
        ensures normals { self.new.normals ≡ self.old.normals }
        ensures exponents { AreExponents (size self.old.normals) (plane_at roughness.now) self.new }
    {
        let one = Plane::Value(Raw::of(Num::sat(65536)));
        parts_rows(ValueOperation::Divide, &one, roughness, &mut self.exponents);
    }

    // Whether it knows the units of these normals.
    fn knows(&self, n: &Planes) -> bool
        requires rows { HasRows (size self.now.normals) self.now }
        requires planes { ArePlanes (size self.now.normals) n.now }
        ensures { result ≡ true → AreNormals (size self.now.normals) (triple_at n.now) self.now }
    {
        self.known && self.sources.are(n)
    }

    // Works out the units of normals, where they aren't those of the sum before.
    fn turn(&mut self, n: &Planes)
        requires rows { HasRows (size self.old.normals) self.old }
        requires planes { ArePlanes (size self.old.normals) n.now }
        ensures rows { HasRows (size self.old.normals) self.new }
        ensures same { size self.new.normals ≡ size self.old.normals }
        ensures normals { AreNormals (size self.old.normals) (triple_at n.now) self.new }
    {
        if !self.knows(n) {
            self.sources.take(n);
            self.normals.take_units(n);
            self.known = true;
        }
    }

    /// Works out what a sum needs of its arguments alone.
    pub fn begin(&mut self, sum: &Sum)
        requires rows { HasRows (size self.old.normals) self.old }
        requires sum { IsSum (size self.old.normals) sum.now }
        ensures rows { HasRows (size self.old.normals) self.new }
        ensures begun { HasBegun (size self.old.normals) sum.now self.new }
    {
        match sum {
            Sum::Diffuse(n) => self.turn(n),
            Sum::Specular(n, _, r) => {
                self.turn(n);
                self.sharpen(r);
            }
            Sum::Ambient | Sum::Nothing => (),
        }
    }

    // Adds the light that a matte surface throws back.
    fn add_diffuse(&mut self, answers: &Answers, x: &mut [Raw], y: &mut [Raw], z: &mut [Raw])
        requires rows { HasRows (size answers.now.colours) self.old }
        requires answers { HasPlaces (size answers.now.colours) answers.now }
        requires x { length x.old ≡ size answers.now.colours }
        requires y { length y.old ≡ size answers.now.colours }
        requires z { length z.old ≡ size answers.now.colours }
        ensures rows { HasRows (size answers.now.colours) self.new }
        ensures normals { self.new.normals ≡ self.old.normals }
        ensures exponents { self.new.exponents ≡ self.old.exponents }
        ensures x { length x.new ≡ length x.old }
        ensures y { length y.new ≡ length y.old }
        ensures z { length z.new ≡ length z.old }
        ensures each { (i : ℕ) → i < size answers.now.colours → triple_in x.new y.new z.new i ≡ matte_at answers.now self.old (triple_in x.old y.old z.old i) i }
    {
        weigh(&answers.units, &self.normals, &mut self.weights);
        add_shares(&answers.lit, &self.weights, &answers.colours.x, x);
        add_shares(&answers.lit, &self.weights, &answers.colours.y, y);
        add_shares(&answers.lit, &self.weights, &answers.colours.z, z);
    }

    // The weights of highlights where they are shown, seen from v.
    #[tactic(auto, unfolding(crate::specs::Loops::shown_highlight))]
    fn weigh_highlights(&mut self, answers: &Answers, v: &Planes)
        requires rows { HasRows (size answers.now.colours) self.old }
        requires answers { HasPlaces (size answers.now.colours) answers.now }
        requires v { ArePlanes (size answers.now.colours) v.now }
        ensures rows { HasRows (size answers.now.colours) self.new }
        ensures normals { self.new.normals ≡ self.old.normals }
        ensures exponents { self.new.exponents ≡ self.old.exponents }
        ensures shown { self.new.shown ≡ self.old.shown }
        ensures each { (i : ℕ) → i < size answers.now.colours → get_or self.new.weights.items i (pos 0) ≡ highlight_at (get_or self.old.shown.items i (pos 0)) answers.now self.old v.now i }
    {
        self.sums.take_sums(&answers.units, v);
        let Planes { x, y, z } = self.sums.planes();
        self.half_way.take_units(&Planes { x, y, z });
        weigh(&self.normals, &self.half_way, &mut self.weights);
        raise(&self.shown, &self.exponents, &mut self.weights);
    }

    // Adds highlights, where it is known where they are shown.
    fn add_shown(
        &mut self,
        answers: &Answers,
        v: &Planes,
        x: &mut [Raw],
        y: &mut [Raw],
        z: &mut [Raw],
    )
        requires rows { HasRows (size answers.now.colours) self.old }
        requires answers { HasPlaces (size answers.now.colours) answers.now }
        requires v { ArePlanes (size answers.now.colours) v.now }
        requires shown { (i : ℕ) → i < size answers.now.colours → get_or self.old.shown.items i (pos 0) ≡ shown_at answers.now self.old i }
        requires x { length x.old ≡ size answers.now.colours }
        requires y { length y.old ≡ size answers.now.colours }
        requires z { length z.old ≡ size answers.now.colours }
        ensures rows { HasRows (size answers.now.colours) self.new }
        ensures normals { self.new.normals ≡ self.old.normals }
        ensures exponents { self.new.exponents ≡ self.old.exponents }
        ensures x { length x.new ≡ length x.old }
        ensures y { length y.new ≡ length y.old }
        ensures z { length z.new ≡ length z.old }
        ensures each { (i : ℕ) → i < size answers.now.colours → triple_in x.new y.new z.new i ≡ shining_at answers.now self.old v.now (triple_in x.old y.old z.old i) i }
    {
        self.weigh_highlights(answers, v);
        add_shares(&self.shown, &self.weights, &answers.colours.x, x);
        add_shares(&self.shown, &self.weights, &answers.colours.y, y);
        add_shares(&self.shown, &self.weights, &answers.colours.z, z);
    }

    // Adds highlights. A grid that is turned away from the light has none.
    #[tactic(auto, using(crate::proofs::Shares::none_shown))]
    fn add_specular(
        &mut self,
        answers: &Answers,
        v: &Planes,
        x: &mut [Raw],
        y: &mut [Raw],
        z: &mut [Raw],
    )
        requires rows { HasRows (size answers.now.colours) self.old }
        requires answers { HasPlaces (size answers.now.colours) answers.now }
        requires v { ArePlanes (size answers.now.colours) v.now }
        requires x { length x.old ≡ size answers.now.colours }
        requires y { length y.old ≡ size answers.now.colours }
        requires z { length z.old ≡ size answers.now.colours }
        ensures rows { HasRows (size answers.now.colours) self.new }
        ensures normals { self.new.normals ≡ self.old.normals }
        ensures exponents { self.new.exponents ≡ self.old.exponents }
        ensures x { length x.new ≡ length x.old }
        ensures y { length y.new ≡ length y.old }
        ensures z { length z.new ≡ length z.old }
        ensures each { (i : ℕ) → i < size answers.now.colours → triple_in x.new y.new z.new i ≡ shining_at answers.now self.old v.now (triple_in x.old y.old z.old i) i }
    {
        mark(&answers.lit, &answers.units, &self.normals, &mut self.shown);
        if !are_value(&self.shown, Raw::zero()) {
            self.add_shown(answers, v, x, y, z);
        }
    }

    /// Adds what a light gives to a sum that has begun, where it counts.
    pub fn add(&mut self, sum: &Sum, answers: &Answers, x: &mut [Raw], y: &mut [Raw], z: &mut [Raw])
        requires rows { HasRows (size answers.now.colours) self.old }
        requires answers { HasPlaces (size answers.now.colours) answers.now }
        requires sum { IsSum (size answers.now.colours) sum.now }
        requires begun { HasBegun (size answers.now.colours) sum.now self.old }
        requires counts { counts_in sum.now answers.now.ambient ≡ true }
        requires x { length x.old ≡ size answers.now.colours }
        requires y { length y.old ≡ size answers.now.colours }
        requires z { length z.old ≡ size answers.now.colours }
        ensures rows { HasRows (size answers.now.colours) self.new }
        ensures begun { HasBegun (size answers.now.colours) sum.now self.new }
        ensures x { length x.new ≡ length x.old }
        ensures y { length y.new ≡ length y.old }
        ensures z { length z.new ≡ length z.old }
        ensures each { HaveGained sum.now answers.now (triple_in x.old y.old z.old) (triple_in x.new y.new z.new) }
    {
        match sum {
            Sum::Ambient => {
                add_whole(&answers.colours.x, x);
                add_whole(&answers.colours.y, y);
                add_whole(&answers.colours.z, z);
            }
            Sum::Diffuse(_) => self.add_diffuse(answers, x, y, z),
            Sum::Specular(_, v, _) => self.add_specular(answers, v, x, y, z),
            Sum::Nothing => (),
        }
    }
}
