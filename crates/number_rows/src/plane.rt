// Numbers at the places of a grid.
ghost use Rattle.std.specs.Prelude.{◌≡◌, ℕ, ◌+◌, ◌<◌, pos, length, get_or, IfSome};
ghost use Rattle.number_rows.specs.Planes.{plane_at, triple_at, triple_of, rows_at, IsPlane, ArePlanes, IsRow, AreLonger, IsInRows};

use crate::raw::Raw;
use fixed_math::Vec3;

/// A number for each place: those of a row, or one for all.
#[derive(Clone, Copy)]
pub enum Plane<'a> {
    Row(&'a [Raw]),
    Value(Raw),
}

/// The parts of a triple for each place.
#[derive(Clone, Copy)]
pub struct Planes<'a> {
    pub x: Plane<'a>,
    pub y: Plane<'a>,
    pub z: Plane<'a>,
}

/// The parts of a triple, as rows hold them.
#[derive(Clone, Copy)]
pub(crate) struct Parts {
    pub(crate) x: Raw,
    pub(crate) y: Raw,
    pub(crate) z: Raw,
}

#[inline(always)]
fn number_at(row: &[Raw], place: usize) -> Raw
    requires { place < length row.now }
    ensures { result ≡ get_or row.now place (pos 0) }
{
    row[place]
}

impl Plane<'_> {
    // The row, where it is one.
    #[inline(always)]
    fn row(&self) -> Option<&[Raw]>
        ensures { IfSome result (λ row. IsRow row.now self.now) }
    {
        match self {
            Plane::Row(row) => Some(row),
            Plane::Value(_) => None,
        }
    }

    /// The number of a place.
    #[inline(always)]
    pub fn at(&self, place: usize) -> Raw
        requires { IsPlane (place + 1) self.now }
        ensures { result ≡ plane_at self.now place }
    {
        match self {
            Plane::Row(row) => number_at(row, place),
            Plane::Value(x) => *x,
        }
    }
}

impl Planes<'_> {
    /// The triple of a place.
    #[inline(always)]
    pub fn at(&self, place: usize) -> Vec3
        requires { ArePlanes (place + 1) self.now }
        ensures { result ≡ triple_at self.now place }
    {
        Vec3 {
            x: self.x.at(place).number(),
            y: self.y.at(place).number(),
            z: self.z.at(place).number(),
        }
    }
}

impl Planes<'_> {
    // The parts of the triple of a place.
    #[inline(always)]
    pub(crate) fn parts(&self, place: usize) -> Parts
        requires { ArePlanes (place + 1) self.now }
        ensures { triple_of result ≡ triple_at self.now place }
    {
        Parts {
            x: self.x.at(place),
            y: self.y.at(place),
            z: self.z.at(place),
        }
    }
}

/// The parts of a triple for each place, where all are rows.
#[derive(Clone, Copy)]
pub(crate) struct TripleRows<'a> {
    pub(crate) x: &'a [Raw],
    pub(crate) y: &'a [Raw],
    pub(crate) z: &'a [Raw],
}

impl TripleRows<'_> {
    /// The parts of the triple of a place.
    #[inline(always)]
    pub(crate) fn parts(&self, place: usize) -> Parts
        requires { AreLonger place self.now }
        ensures { triple_of result ≡ rows_at self.now place }
    {
        Parts {
            x: number_at(self.x, place),
            y: number_at(self.y, place),
            z: number_at(self.z, place),
        }
    }
}

impl Planes<'_> {
    /// The rows, where all parts are rows. A loop over them has nothing to decide at its places.
    #[inline(always)]
    #[tactic(auto, using(crate::proofs::Shorter::in_rows))]
    pub(crate) fn rows(&self) -> Option<TripleRows<'_>>
        ensures { IfSome result (λ rows. IsInRows rows self.now) }
    {
        match (self.x.row(), self.y.row(), self.z.row()) {
            (Some(x), Some(y), Some(z)) => Some(TripleRows { x, y, z }),
            _ => None,
        }
    }

    /// The triple of all places, where all parts are the same at all places.
    #[inline(always)]
    pub(crate) fn value(&self) -> Option<Parts>
        ensures { IfSome result (λ p. (i : ℕ) → triple_at self.now i ≡ triple_of p) }
    {
        match (&self.x, &self.y, &self.z) {
            (Plane::Value(x), Plane::Value(y), Plane::Value(z)) => Some(Parts {
                x: *x,
                y: *y,
                z: *z,
            }),
            _ => None,
        }
    }
}
