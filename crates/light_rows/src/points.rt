// Rows of numbers and triples that are kept while code runs. A grid has at most 17 columns of 17 places.
ghost use Rattle.std.specs.Prelude.{◌≡◌, ℕ, ◌<◌, ◌≤◌, pos, length, get_or};
ghost use Rattle.number_rows.specs.Planes.{plane_at, triple_at, triple_in, IsPlane, ArePlanes};

use fixed_math::Vec3;
use number_rows::{Plane, Planes, Raw};

/// A number for each place.
#[derive(Drop)]
pub struct Numbers {
    pub row: [Raw; 289],
}

/// A triple for each place.
#[derive(Drop)]
pub struct Points {
    pub x: Numbers,
    pub y: Numbers,
    pub z: Numbers,
}

impl Numbers {
    /// Zeros.
    pub fn zero() -> Numbers
        ensures { length result.row ≡ 289 }
    {
        Numbers {
            row: [Raw::zero(); 289],
        }
    }

    /// Takes the first numbers of a plane.
    pub fn take(&mut self, plane: &Plane, count: usize)
        requires count { count ≤ 289 }
        requires plane { IsPlane count plane.now }
        ensures long { length self.new.row ≡ 289 }
        ensures each { (i : ℕ) → i < count → get_or self.new.row i (pos 0) ≡ plane_at plane.now i }
    {
        for place in 0..count {
            self.row[place] = plane.at(place);
        }
    }

    /// The numbers as a plane.
    pub fn plane(&self) -> Plane<'_>
        ensures plane { (c : ℕ) → c ≤ 289 → IsPlane c result }
        ensures each { (i : ℕ) → plane_at result i ≡ get_or self.now.row i (pos 0) }
    {
        Plane::Row(&self.row)
    }
}

impl Points {
    /// Zeros.
    pub fn zero() -> Points {
        Points {
            x: Numbers::zero(),
            y: Numbers::zero(),
            z: Numbers::zero(),
        }
    }

    /// Takes the first triples of planes.
    pub fn take(&mut self, planes: &Planes, count: usize)
        requires count { count ≤ 289 }
        requires planes { ArePlanes count planes.now }
        ensures { (i : ℕ) → i < count → triple_in self.new.x.row self.new.y.row self.new.z.row i ≡ triple_at planes.now i }
    {
        self.x.take(&planes.x, count);
        self.y.take(&planes.y, count);
        self.z.take(&planes.z, count);
    }

    /// The triples as planes.
    pub fn planes(&self) -> Planes<'_>
        ensures planes { (c : ℕ) → c ≤ 289 → ArePlanes c result }
        ensures each { (i : ℕ) → triple_at result i ≡ triple_in self.now.x.row self.now.y.row self.now.z.row i }
    {
        Planes {
            x: self.x.plane(),
            y: self.y.plane(),
            z: self.z.plane(),
        }
    }

    /// The triple of a place.
    #[inline(always)]
    pub fn at(&self, place: usize) -> Vec3
        requires { place < 289 }
        ensures { result ≡ triple_in self.now.x.row self.now.y.row self.now.z.row place }
    {
        Vec3 {
            x: self.x.row[place].number(),
            y: self.y.row[place].number(),
            z: self.z.row[place].number(),
        }
    }
}
