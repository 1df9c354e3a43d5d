// What a light answers at the places of a grid.
ghost use Rattle.std.specs.Prelude.{◌≡◌, ℕ, ◌<◌, pos, get_or, IfOk};
ghost use Rattle.builtins.specs.Triples.{negated, normalize};
ghost use Rattle.builtins.specs.Values.{is_nonzero};
ghost use Rattle.number_rows.specs.Planes.{plane_at, triple_at, IsPlane, ArePlanes};
ghost use Rattle.light_rows.specs.Seen.{size, at_place, answered_by, HasPlaces, IsAnswer};

use crate::taking::zeros;
use crate::triples::Triples;
use bumpalo::Bump;
use fixed_math::NoMemory;
use number_rows::{Plane, Planes, Raw, copy};

/// A light's answers in rows: its colours, and of one that isn't ambient where it is lit, the directions to it and their units.
#[derive(Drop)]
pub struct Answers<'a> {
    pub ambient: bool,
    pub lit: Vec<Raw, &'a Bump>,
    pub towards: Triples<'a>,
    pub units: Triples<'a>,
    pub colours: Triples<'a>,
}

impl<'a> Answers<'a> {
    /// Room for the answers of a light at so many places, or want of memory.
    pub fn new(arena: &'a Bump, ambient: bool, count: usize) -> Result<Answers<'a>, NoMemory>
        ensures places { IfOk result (λ a. HasPlaces count a) }
        ensures ambient { IfOk result (λ a. a.ambient ≡ ambient) }
    {
        Ok(Answers {
            ambient,
            lit: zeros(arena, count)?,
            towards: Triples::zeros(arena, count)?,
            units: Triples::zeros(arena, count)?,
            colours: Triples::zeros(arena, count)?,
        })
    }
}

impl Answers<'_> {
    // Takes where a light is lit and its directions, turned towards it.
    fn take_lit(&mut self, lit: &Plane, directions: &Planes)
        requires rows { HasPlaces (size self.old.colours) self.old }
        requires lit { IsPlane (size self.old.colours) lit.now }
        requires directions { ArePlanes (size self.old.colours) directions.now }
        ensures rows { HasPlaces (size self.old.colours) self.new }
        ensures colours { self.new.colours ≡ self.old.colours }
        ensures ambient { self.new.ambient ≡ self.old.ambient }
        ensures lit { (i : ℕ) → i < size self.old.colours → get_or self.new.lit.items i (pos 0) ≡ plane_at lit.now i }
        ensures towards { (i : ℕ) → i < size self.old.colours → at_place self.new.towards i ≡ negated (triple_at directions.now i) }
        ensures units { (i : ℕ) → i < size self.old.colours → at_place self.new.units i ≡ normalize (at_place self.new.towards i) }
    {
        copy(lit, &mut self.lit);
        self.towards.take_turned(directions);
        self.units.take_units_of(&self.towards);
    }

    /// Takes what a light's code has left: where it is lit, its directions to the places, and its colours.
    pub fn take(&mut self, lit: &Plane, directions: &Planes, colours: &Planes)
        requires rows { HasPlaces (size self.old.colours) self.old }
        requires lit { IsPlane (size self.old.colours) lit.now }
        requires directions { ArePlanes (size self.old.colours) directions.now }
        requires colours { ArePlanes (size self.old.colours) colours.now }
        ensures rows { HasPlaces (size self.old.colours) self.new }
        ensures ambient { self.new.ambient ≡ self.old.ambient }
        ensures each { (i : ℕ) → i < size self.old.colours → IsAnswer self.new i (answered_by self.old.ambient (is_nonzero (plane_at lit.now i)) (triple_at directions.now i) (triple_at colours.now i)) }
    {
        self.colours.take(colours);
        if !self.ambient {
            self.take_lit(lit, directions);
        }
    }
}
