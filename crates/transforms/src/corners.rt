//! The box on the raster of a box in camera space.
ghost use Rattle.std.specs.Prelude.{◌≡◌, ◌<◌, ◌≤◌, ◌^◌, ◌≤ℤ◌, List, [], ◌∷◌, unsigned_abs};
ghost use Rattle.std.specs.Int.{int_min, int_max};
ghost use Rattle.fixed_math.specs.declared.vec3.Axis.{Axis};
ghost use Rattle.fixed_math.specs.Axes.{part_of};
ghost use Rattle.transforms.specs.Raster.{column_at, row_at, raster_box, HoldsPlaces};

use crate::camera::Camera;
use fixed_math::{Num, Vec3};

/// The least of four numbers.
fn least(a: i64, b: i64, c: i64, d: i64) -> i64
    ensures { result ≡ int_min (int_min (int_min a b) c) d }
{
    a.min(b).min(c).min(d)
}

/// The greatest of four numbers.
fn greatest(a: i64, b: i64, c: i64, d: i64) -> i64
    ensures { result ≡ int_max (int_max (int_max a b) c) d }
{
    a.max(b).max(c).max(d)
}

impl Camera {
    /// The first and the last corner of the least box on the raster that holds the places of the eight corners of the box from
    /// `lo` to `hi`. The place of each point of the box lies in it, whatever the projection. No coordinate of `lo` is above that of
    /// `hi`, and `lo` isn't before the near plane.
    pub fn raster_box(&self, lo: Vec3, hi: Vec3) -> [[i64; 2]; 2]
        requires ordered { (a : Axis) → part_of a lo ≤ℤ part_of a hi }
        requires near { self.now.near ≤ℤ lo.z }
        ensures value { result ≡ raster_box self.now lo hi }
        ensures holds { HoldsPlaces self.now lo hi }
    {
        self.recall();
        // a place across depends on x and z alone, and one down on y and z
        let [a, b] = self.sides(lo.x, hi.x, lo.z);
        let [c, d] = self.sides(lo.x, hi.x, hi.z);
        let [e, f] = self.levels(lo.y, hi.y, lo.z);
        let [g, h] = self.levels(lo.y, hi.y, hi.z);
        [
            [least(a, b, c, d), least(e, f, g, h)],
            [greatest(a, b, c, d), greatest(e, f, g, h)],
        ]
    }

    /// Two places across, at the depth `z`.
    fn sides(&self, first: Num, last: Num, z: Num) -> [i64; 2]
        requires { self.now.near ≤ℤ z }
        ensures { result ≡ column_at self.now first (unsigned_abs z) ∷ column_at self.now last (unsigned_abs z) ∷ [] }
    {
        self.recall();
        let z = z.raw() as u32;
        [self.across(first.raw(), z), self.across(last.raw(), z)]
    }

    /// Two places down, at the depth `z`.
    fn levels(&self, first: Num, last: Num, z: Num) -> [i64; 2]
        requires { self.now.near ≤ℤ z }
        ensures { result ≡ row_at self.now first (unsigned_abs z) ∷ row_at self.now last (unsigned_abs z) ∷ [] }
    {
        self.recall();
        let z = z.raw() as u32;
        [self.down(first.raw(), z), self.down(last.raw(), z)]
    }
}
