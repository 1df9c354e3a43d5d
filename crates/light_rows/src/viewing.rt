// What is seen of a light within cones.
ghost use Rattle.std.specs.Prelude.{◌≡◌, ℕ, ◌+◌, ◌<◌, ◌≤◌, true, false, ◌&&◌, pos, is_some, get_or};
ghost use Rattle.fixed_math.specs.declared.vec3.Vec3.{Vec3 as AnyVec3};
ghost use Rattle.builtins.specs.Triples.{normalize};
ghost use Rattle.builtins.specs.Values.{is_nonzero};
ghost use Rattle.number_rows.specs.Planes.{plane_at, triple_at, ArePlanes};
ghost use Rattle.builtins.specs.Lights.{Light};
ghost use Rattle.light_rows.specs.Scopes.{cones_at};
ghost use Rattle.light_rows.specs.Seen.{cone_at, shown_by, HasPlaces, HasPlanes, IsAnswer, IsShown, IsCone};

use crate::answers::Answers;
use crate::cones::Cones;
use number_rows::{Plane, Planes, Raw};
use place_rows::Mask;

/// The cone of a statement over lights at each place, by its axis and its angle; without one, all directions are in it.
#[derive(Clone, Copy)]
pub struct Cone<'a> {
    pub given: bool,
    pub axis: Planes<'a>,
    pub angle: Plane<'a>,
}

/// What a light answered at each place: of one that isn't ambient, where it is lit, the directions to it with their units, and its colours.
#[derive(Clone, Copy)]
pub struct View<'a> {
    pub ambient: bool,
    pub lit: Plane<'a>,
    pub towards: Planes<'a>,
    pub units: Planes<'a>,
    pub colours: Planes<'a>,
}

// Zeros everywhere.
fn zeros() -> Planes<'static>
    ensures { (c : ℕ) → ArePlanes c result }
{
    Planes {
        x: Plane::Value(Raw::zero()),
        y: Plane::Value(Raw::zero()),
        z: Plane::Value(Raw::zero()),
    }
}

impl Cone<'_> {
    /// No cone.
    pub fn none() -> Cone<'static>
        ensures cone { (c : ℕ) → IsCone c result }
        ensures all { (i : ℕ) (l : AnyVec3) → cone_at result i l ≡ true }
    {
        Cone {
            given: false,
            axis: zeros(),
            angle: Plane::Value(Raw::zero()),
        }
    }
}

impl Answers<'_> {
    /// The answers as planes.
    pub fn view(&self) -> View<'_>
        ensures places { (c : ℕ) → HasPlaces c self.now → HasPlanes c result }
        ensures each { (i : ℕ) (l : Light) → IsAnswer self.now i l → IsShown result i l }
    {
        View {
            ambient: self.ambient,
            lit: Plane::Row(&self.lit),
            towards: self.towards.planes(),
            units: self.units.planes(),
            colours: self.colours.planes(),
        }
    }
}

impl View<'_> {
    /// What a light answers that is lit nowhere.
    pub fn dark() -> View<'static>
        ensures { (c : ℕ) → HasPlanes c result }
    {
        View {
            ambient: false,
            lit: Plane::Value(Raw::zero()),
            towards: zeros(),
            units: zeros(),
            colours: zeros(),
        }
    }

    // Whether a light is seen at a place.
    fn is_seen(&self, cones: &Cones, place: usize) -> bool
        requires planes { HasPlanes (place + 1) self.now }
        requires place { place < 289 }
        ensures { (l : AnyVec3) → triple_at self.now.units place ≡ normalize l → result ≡ (is_nonzero (plane_at self.now.lit place) && cones_at cones.now place l) }
    {
        self.lit.at(place).raw() != 0 && cones.holds(place, self.units.at(place))
    }

    // The places that see a light that isn't ambient.
    fn seen_lit(&self, cones: &Cones, count: usize) -> Mask
        requires planes { HasPlanes count self.now }
        requires lit { self.now.ambient ≡ false }
        requires count { count ≤ 289 }
        ensures { (l : Light) (i : ℕ) → i < count → IsShown self.now i l → get_or result.places i false ≡ is_some (shown_by (cones_at cones.now i) l) }
    {
        let mut mask = Mask::none();
        for place in 0..count {
            mask.places[place] = self.is_seen(cones, place);
        }
        mask
    }

    /// The places that see a light within cones.
    pub fn seen(&self, cones: &Cones, count: usize) -> Mask
        requires planes { HasPlanes count self.now }
        requires count { count ≤ 289 }
        ensures { (l : Light) (i : ℕ) → i < count → IsShown self.now i l → get_or result.places i false ≡ is_some (shown_by (cones_at cones.now i) l) }
    {
        if self.ambient {
            Mask::none()
        } else {
            self.seen_lit(cones, count)
        }
    }
}
