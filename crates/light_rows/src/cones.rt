// Cones made ready for many directions, and the points of statements over lights. A grid has at most 17 columns of 17 places.
ghost use Rattle.std.specs.Prelude.{◌≡◌, ℕ, ◌<◌, ◌≤◌, pos, true, false, length, get_or, IfSome};
ghost use Rattle.fixed_math.specs.Sine.{cos};
ghost use Rattle.fixed_math.specs.declared.vec3.Vec3.{Vec3 as AnyVec3};
ghost use Rattle.builtins.specs.Triples.{normalize};
ghost use Rattle.number_rows.specs.Planes.{plane_at, triple_at, triple_in, IsPlane, ArePlanes};
ghost use Rattle.light_rows.specs.Seen.{cone_at, IsCone};
ghost use Rattle.light_rows.specs.Scopes.{one_at, cones_at, points_at, scope_at};

use crate::points::{Numbers, Points};
use crate::units::{cosine, one_unit, unit_of};
use crate::viewing::Cone;
use builtins::dot;
use fixed_math::Vec3;
use number_rows::{Plane, Planes, Raw, unit};
use place_rows::Mask;

/// The cone of each place by the unit of its axis and the cosine of its angle; where none is given, all directions lie in it.
#[derive(Drop)]
pub struct Cones {
    pub given: bool,
    pub axes: Points,
    pub cosines: Numbers,
}

impl Numbers {
    // Takes the cosines of the first numbers of a row.
    fn take_each_cosine(&mut self, row: &[Raw], count: usize)
        requires count { count ≤ 289 }
        requires long { count ≤ length row.now }
        ensures each { (i : ℕ) → i < count → get_or self.new.row i (pos 0) ≡ cos (get_or row.now i (pos 0)) }
    {
        for place in 0..count {
            self.row[place] = cosine(row[place]);
        }
    }

    // Takes the cosines of the first numbers of a plane.
    fn take_cosines(&mut self, plane: &Plane, count: usize)
        requires count { count ≤ 289 }
        requires plane { IsPlane count plane.now }
        ensures each { (i : ℕ) → i < count → get_or self.new.row i (pos 0) ≡ cos (plane_at plane.now i) }
    {
        match plane {
            Plane::Row(row) => self.take_each_cosine(row, count),
            Plane::Value(x) => self.take(&Plane::Value(cosine(*x)), count),
        }
    }
}

impl Points {
    // Takes the vectors of length 1 in the first directions of planes, one by one.
    #[tactic(auto, using(number_rows::proofs::Shorter::all_shorter))]
    fn take_each_unit(&mut self, planes: &Planes, count: usize)
        requires count { count ≤ 289 }
        requires planes { ArePlanes count planes.now }
        ensures { (i : ℕ) → i < count → triple_in self.new.x.row self.new.y.row self.new.z.row i ≡ normalize (triple_at planes.now i) }
    {
        for place in 0..count {
            let one = unit(planes.at(place));
            self.x.row[place] = Raw::of(one.x);
            self.y.row[place] = Raw::of(one.y);
            self.z.row[place] = Raw::of(one.z);
        }
    }

    // Takes the vectors of length 1 in the first directions of planes.
    fn take_units(&mut self, planes: &Planes, count: usize)
        requires count { count ≤ 289 }
        requires planes { ArePlanes count planes.now }
        ensures { (i : ℕ) → i < count → triple_in self.new.x.row self.new.y.row self.new.z.row i ≡ normalize (triple_at planes.now i) }
    {
        match (&planes.x, &planes.y, &planes.z) {
            (Plane::Value(x), Plane::Value(y), Plane::Value(z)) => {
                self.take(&one_unit(*x, *y, *z), count)
            }
            _ => self.take_each_unit(planes, count),
        }
    }
}

impl Cones {
    /// Those of the first places.
    pub fn of(cone: &Cone, count: usize) -> Cones
        requires count { count ≤ 289 }
        requires cone { IsCone count cone.now }
        ensures { (i : ℕ) (l : AnyVec3) → i < count → cones_at result i l ≡ cone_at cone.now i l }
    {
        let mut cones = Cones {
            given: cone.given,
            axes: Points::zero(),
            cosines: Numbers::zero(),
        };
        cones.axes.take_units(&cone.axis, count);
        cones.cosines.take_cosines(&cone.angle, count);
        cones
    }

    /// Whether a direction lies in the cone of a place, by its unit.
    #[inline(always)]
    pub(crate) fn holds(&self, place: usize, unit: Vec3) -> bool
        requires { place < 289 }
        ensures { (l : AnyVec3) → unit ≡ normalize l → result ≡ cones_at self.now place l }
    {
        if self.given {
            let cosine = dot(unit, self.axes.at(place));
            self.cosines.row[place].raw() <= cosine.raw()
        } else {
            true
        }
    }

    // The places of directions that lie in them.
    fn mask(&self, directions: &Planes, count: usize) -> Mask
        requires count { count ≤ 289 }
        requires directions { ArePlanes count directions.now }
        ensures { (i : ℕ) → i < count → get_or result.places i false ≡ cones_at self.now i (triple_at directions.now i) }
    {
        let mut mask = Mask::none();
        for place in 0..count {
            mask.places[place] = self.holds(place, unit(directions.at(place)));
        }
        mask
    }
}

/// A cone that is the same at all places, by the unit of its axis and the cosine of its angle.
#[derive(Clone, Copy)]
pub struct OneCone {
    pub axis: Vec3,
    pub cosine: Raw,
}

impl OneCone {
    // Whether a direction lies in it, by its unit.
    #[inline(always)]
    fn holds(&self, unit: Vec3) -> bool
        ensures { (l : AnyVec3) → unit ≡ normalize l → result ≡ one_at self.now l }
    {
        self.cosine.raw() <= dot(unit, self.axis).raw()
    }

    // The places of directions that lie in it.
    fn mask(&self, directions: &Planes, count: usize) -> Mask
        requires count { count ≤ 289 }
        requires directions { ArePlanes count directions.now }
        ensures { (i : ℕ) → i < count → get_or result.places i false ≡ one_at self.now (triple_at directions.now i) }
    {
        let mut mask = Mask::none();
        for place in 0..count {
            mask.places[place] = self.holds(unit(directions.at(place)));
        }
        mask
    }
}

impl Cone<'_> {
    // The cone of all places, where it is the same at all.
    fn one(&self) -> Option<OneCone>
        requires given { self.now.given ≡ true }
        ensures { IfSome result (λ one. (i : ℕ) (l : AnyVec3) → one_at one l ≡ cone_at self.now i l) }
    {
        match (&self.axis.x, &self.axis.y, &self.axis.z, &self.angle) {
            (Plane::Value(x), Plane::Value(y), Plane::Value(z), Plane::Value(angle)) => {
                Some(OneCone {
                    axis: unit_of(*x, *y, *z),
                    cosine: cosine(*angle),
                })
            }
            _ => None,
        }
    }

    // The places of directions that lie in the cone of each. Not inlined, so that the rows of cones take no time where there is only one.
    #[inline(never)]
    fn mask_each(&self, directions: &Planes, count: usize) -> Mask
        requires count { count ≤ 289 }
        requires cone { IsCone count self.now }
        requires directions { ArePlanes count directions.now }
        ensures { (i : ℕ) → i < count → get_or result.places i false ≡ cone_at self.now i (triple_at directions.now i) }
    {
        let cones = Cones::of(self, count);
        cones.mask(directions, count)
    }

    /// The places of directions that lie in it.
    pub fn mask(&self, directions: &Planes, count: usize) -> Mask
        requires count { count ≤ 289 }
        requires cone { IsCone count self.now }
        requires directions { ArePlanes count directions.now }
        ensures { (i : ℕ) → i < count → get_or result.places i false ≡ cone_at self.now i (triple_at directions.now i) }
    {
        if !self.given {
            return Mask::full();
        }
        match self.one() {
            Some(one) => one.mask(directions, count),
            None => self.mask_each(directions, count),
        }
    }
}

/// The points and the cones of a statement over lights, kept while its body runs.
#[derive(Drop)]
pub struct Scope {
    pub points: Points,
    pub cones: Cones,
}

impl Scope {
    /// Those of the first places.
    pub fn of(points: &Planes, cone: &Cone, count: usize) -> Scope
        requires count { count ≤ 289 }
        requires points { ArePlanes count points.now }
        requires cone { IsCone count cone.now }
        ensures points { (i : ℕ) → i < count → points_at result i ≡ triple_at points.now i }
        ensures cone { (i : ℕ) (l : AnyVec3) → i < count → scope_at result i l ≡ cone_at cone.now i l }
    {
        let mut scope = Scope {
            points: Points::zero(),
            cones: Cones::of(cone, count),
        };
        scope.points.take(points, count);
        scope
    }
}
