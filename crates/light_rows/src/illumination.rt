// Lights as code asks them.
ghost use Rattle.std.specs.Prelude.{◌≡◌, ℕ, ◌<◌, Bool, true, length, replicate};
ghost use Rattle.number_rows.specs.Planes.{triple_at, triple_in, ArePlanes};
ghost use Rattle.fixed_math.specs.Axes.{origin};
ghost use Rattle.fixed_math.specs.declared.vec3.Vec3.{Vec3 as AnyVec3};
ghost use Rattle.light_rows.specs.Seen.{Lighting, unasked, IsAnswerOf, IsSum, IsSumOf};

use crate::sums::Sum;
use crate::viewing::View;
use number_rows::{Planes, Raw, fill};

/// Lights that are asked at all places of a grid at once.
pub trait Illumination {
    ghost lighting: { Self → Lighting };

    ghost turned: { Self → ℕ → AnyVec3 };

    ghost asked: { Self → ℕ → Bool };

    /// How many there are.
    fn count(&self) -> usize
        ensures { result ≡ length (lighting self.now).lights };

    /// Asks one of them at points. It answers the same whenever it is asked.
    fn ask(&mut self, n: usize, points: &Planes)
        requires many { n < length (lighting self.old).lights }
        requires points { ArePlanes (lighting self.old).places points.now }
        ensures same { lighting self.new ≡ lighting self.old }
        ensures asked { asked self.new n ≡ true }
        ensures turned { (i : ℕ) → i < (lighting self.old).places → turned self.new i ≡ triple_at points.now i };

    /// What one of them answered that has been asked where it was last asked.
    fn answers(&self, n: usize) -> View<'_>
        requires many { n < length (lighting self.now).lights }
        requires asked { asked self.now n ≡ true }
        ensures { IsAnswerOf (lighting self.now) n (turned self.now) result };

    /// Three rows take the sums over all lights at points.
    fn totals(&mut self, sum: &Sum, points: &Planes, x: &mut [Raw], y: &mut [Raw], z: &mut [Raw])
        requires points { ArePlanes (lighting self.old).places points.now }
        requires sum { IsSum (lighting self.old).places sum.now }
        requires x { length x.old ≡ (lighting self.old).places }
        requires y { length y.old ≡ (lighting self.old).places }
        requires z { length z.old ≡ (lighting self.old).places }
        ensures same { lighting self.new ≡ lighting self.old }
        ensures x { length x.new ≡ length x.old }
        ensures y { length y.new ≡ length y.old }
        ensures z { length z.new ≡ length z.old }
        ensures each { IsSumOf sum.now (lighting self.old) (triple_at points.now) (triple_in x.new y.new z.new) };
}

/// Lights that are lit nowhere: none at all, or any number where there is no place.
#[derive(Drop)]
pub struct Dark {
    pub places: usize,
    pub many: usize,
    pub ghost nowhere: { 0 < many → places ≡ 0 },
}

impl Illumination for Dark {
    ghost lighting = { λ d. record { places = d.places; lights = replicate d.many unasked } };

    ghost turned = { λ d i. origin };

    ghost asked = { λ d n. true };

    fn count(&self) -> usize {
        self.many
    }

    fn ask(&mut self, _n: usize, _points: &Planes) {}

    fn answers(&self, _n: usize) -> View<'_> {
        View::dark()
    }

    fn totals(
        &mut self,
        _sum: &Sum,
        _points: &Planes,
        x: &mut [Raw],
        y: &mut [Raw],
        z: &mut [Raw],
    ) {
        fill(Raw::zero(), x);
        fill(Raw::zero(), y);
        fill(Raw::zero(), z);
    }
}
