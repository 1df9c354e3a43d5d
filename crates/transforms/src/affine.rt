// Affine maps with their inverses.
ghost use Rattle.std.specs.Prelude.{◌≡◌, ◌≢◌, ◌≤◌, ◌<◌, ◌*◌, ◌^◌, ℕ, ℤ, pos, List, [], ◌∷◌, unsigned_abs, IfOk, IsOkAnd};
ghost use Rattle.transforms.specs.Map.{Map, point_of, vector_of, normal_of, inverse_of, before_of, differ, identity, translation, scale_map, scaling, coordinate, direction};
ghost use Rattle.transforms.specs.Laws.{ChangesNothing, Adds, IsAlong, IsQuarterTurn};
ghost use Rattle.std.specs.Int.{int_rem_euclid};
ghost use Rattle.fixed_math.specs.declared.vec3.Axis.{Axis};
ghost use Rattle.transforms.specs.Rotation.{rotate_map, rotation};
ghost use Rattle.transforms.specs.Concat.{concat_map, map_of_rows, triple, IsAdjugate};

use crate::concat::{determinant, inverted, is_affine, triple};
use crate::fault::FormFault;
use crate::image::{coordinate, direction};
use crate::matrix::{Matrix, widened};
use crate::rotation::{is_nothing, transposed, turning_by};
use crate::scaling::{diagonal, has_zero, is_mirrored, no_shift, reciprocal, shifted, widened_row};
use fixed_math::{Num, Vec3};
use std::marker::Model;

/// An affine map of points with its inverse beside it. Contracts see it as a record of both matrices.
#[derive(Clone, Copy)]
pub struct Affine {
    there: Matrix,
    back: Matrix,
    mirrored: bool,
}

impl Model for Affine {
    ghost Value = { Map };

    ghost view = { λ a. record { there = a.there; back = a.back; mirrored = a.mirrored } };

    ghost inverse = { λ m. record { there = m.there; back = m.back; mirrored = m.mirrored } };
}

impl Affine {
    /// The map that changes nothing.
    pub fn identity() -> Affine
        ensures value { result ≡ identity }
        ensures nothing { ChangesNothing result }
    {
        let zero = Num::sat(0);
        Affine::translate(Vec3 {
            x: zero,
            y: zero,
            z: zero,
        })
    }

    /// The map that adds `d` to each point (RenderMan Interface 3.2, Translate).
    /// Translations add.
    pub fn translate(d: Vec3) -> Affine
        ensures value { result ≡ translation d.x d.y d.z }
        ensures adds { Adds d result }
    {
        let back = Vec3 {
            x: d.x.neg(),
            y: d.y.neg(),
            z: d.z.neg(),
        };
        Affine {
            there: shifted(d),
            back: shifted(back),
            mirrored: false,
        }
    }

    /// The map that multiplies each coordinate (RenderMan Interface 3.2, Scale). The only refusal is `G1`: a factor of 0.
    pub fn scale(s: Vec3) -> Result<Affine, FormFault>
        ensures { result ≡ scale_map s }
    {
        if has_zero(&s) {
            return Err(FormFault::G1);
        }
        Ok(Affine::scaling(s))
    }

    fn scaling(s: Vec3) -> Affine
        requires x { s.x ≢ pos 0 }
        requires y { s.y ≢ pos 0 }
        requires z { s.z ≢ pos 0 }
        ensures { result ≡ scaling s }
    {
        Affine {
            there: diagonal(widened(s.x), widened(s.y), widened(s.z), no_shift()),
            back: diagonal(
                reciprocal(s.x),
                reciprocal(s.y),
                reciprocal(s.z),
                no_shift(),
            ),
            mirrored: is_mirrored(s.x, s.y, s.z),
        }
    }

    /// The rotation by an angle in degrees about an axis through the origin (RenderMan Interface 3.2, Rotate). The only
    /// refusal is `G1`: an axis of no length. Whole quarter turns about a coordinate axis are exact.
    pub fn rotate(angle: Num, axis: Vec3) -> Result<Affine, FormFault>
        ensures value { result ≡ rotate_map angle axis }
        ensures quarters { (q : ℕ) (a : Axis) → q < 4 → int_rem_euclid angle (pos 23592960) ≡ pos (5898240 * q) → IsAlong a axis →
            IsOkAnd result (IsQuarterTurn q a) }
    {
        if is_nothing(&axis) {
            return Err(FormFault::G1);
        }
        Ok(Affine::rotation(angle, &axis))
    }

    fn rotation(angle: Num, axis: &Vec3) -> Affine
        ensures { result ≡ rotation angle axis.now }
    {
        let there = turning_by(angle, axis);
        let back = transposed(&there);
        Affine {
            there,
            back,
            mirrored: false,
        }
    }

    /// The map of sixteen numbers by rows (RenderMan Interface 3.2, ConcatTransform). The refusals, in this order: `G4`
    /// where the fourth column isn't 0, 0, 0, 1; `G1` where the determinant is 0; `G2` where an entry of the inverse
    /// passes 2^47.
    pub fn concat(m: &[Num; 16]) -> Result<Affine, FormFault>
        ensures value { result ≡ concat_map m.now }
        ensures adjugate { IsAdjugate (triple m.now 0) (triple m.now 1) (triple m.now 2) }
    {
        if !is_affine(m) {
            return Err(FormFault::G4);
        }
        Affine::of_rows(&triple(m, 0), &triple(m, 1), &triple(m, 2), &triple(m, 3))
    }

    #[tactic(auto, unfolding(crate::specs::Concat::map_of_rows))]
    fn of_rows(a: &Vec3, b: &Vec3, c: &Vec3, t: &Vec3) -> Result<Affine, FormFault>
        ensures { result ≡ map_of_rows a.now b.now c.now t.now }
    {
        let d = determinant(a, b, c);
        if d == 0 {
            return Err(FormFault::G1);
        }
        let there = Matrix {
            x: widened_row(a),
            y: widened_row(b),
            z: widened_row(c),
            shift: widened_row(t),
        };
        let back = inverted(a, b, c, &there.shift)?;
        Ok(Affine {
            there,
            back,
            mirrored: d < 0,
        })
    }

    /// The inverse, which was made with the map.
    pub fn inverse(&self) -> Affine
        ensures { result ≡ inverse_of self.now }
    {
        Affine {
            there: self.back,
            back: self.there,
            mirrored: self.mirrored,
        }
    }

    /// Whether the map turns left into right.
    pub fn mirrored(&self) -> bool
        ensures { result ≡ self.now.mirrored }
    {
        self.mirrored
    }

    /// The map that does `first` and then this one. Where an entry of it or of its inverse passes 2^47, `G2`.
    /// The identity is neutral on both sides, and a product is mirrored where exactly one of its maps is.
    pub fn before(&self, first: &Affine) -> Result<Affine, FormFault>
        ensures value { result ≡ before_of self.now first.now }
        ensures mirrored { IfOk result (λ m. m.mirrored ≡ differ first.now.mirrored self.now.mirrored) }
        ensures after_identity { first.now ≡ identity → result ≡ Ok self.now }
        ensures before_identity { self.now ≡ identity → result ≡ Ok first.now }
    {
        self.there.recall();
        self.back.recall();
        first.there.recall();
        first.back.recall();
        self.product(first)
    }

    fn product(&self, first: &Affine) -> Result<Affine, FormFault>
        ensures { result ≡ before_of self.now first.now }
    {
        Ok(Affine {
            there: first.there.then(&self.there)?,
            back: self.back.then(&first.back)?,
            mirrored: first.mirrored != self.mirrored,
        })
    }

    /// The image of a point, in raws.
    pub fn point(&self, p: Vec3) -> [i64; 3]
        ensures { result ≡ point_of self.now p }
    {
        let m = &self.there;
        [
            coordinate(&p, m.x.x, m.y.x, m.z.x, m.shift.x),
            coordinate(&p, m.x.y, m.y.y, m.z.y, m.shift.y),
            coordinate(&p, m.x.z, m.y.z, m.z.z, m.shift.z),
        ]
    }

    /// The image of a vector, which no shift moves, in raws.
    pub fn vector(&self, p: Vec3) -> [i64; 3]
        ensures { result ≡ vector_of self.now p }
    {
        let m = &self.there;
        [
            direction(&p, m.x.x, m.y.x, m.z.x),
            direction(&p, m.x.y, m.y.y, m.z.y),
            direction(&p, m.x.z, m.y.z, m.z.z),
        ]
    }

    /// The image of a normal, which goes by the transposed inverse, in raws.
    pub fn normal(&self, p: Vec3) -> [i64; 3]
        ensures { result ≡ normal_of self.now p }
    {
        let m = &self.back;
        [
            direction(&p, m.x.x, m.x.y, m.x.z),
            direction(&p, m.y.x, m.y.y, m.y.z),
            direction(&p, m.z.x, m.z.y, m.z.z),
        ]
    }
}
