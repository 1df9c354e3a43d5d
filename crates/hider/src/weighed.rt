// The mean of a number of three corners, as a sum that isn't divided yet.
ghost use Rattle.std.specs.Prelude.{◌≡◌, ◌≤◌, ◌+◌, ◌^◌, ◌<ℤ◌, ◌+ℤ◌, ◌*ℤ◌, pos, unsigned_abs, IfSome};
ghost use Rattle.fixed_math.specs.Fixed.{sat};
ghost use Rattle.fixed_math.specs.Whole.{floor_div};
ghost use Rattle.hider.specs.Kept.{is_behind};
ghost use Rattle.hider.specs.Weighing.{AreAreas};

use crate::areas::Areas;
use crate::fragment::Fragment;
use fixed_math::Num;

/// A sum of a number of three corners, each times the area opposite to the corner, and the whole area: the mean is the quotient,
/// rounded down.
#[derive(Clone, Copy)]
pub(crate) struct Weighed {
    pub(crate) sum: i64,
    pub(crate) whole: i64,
    pub(crate) ghost some: { pos 0 <ℤ whole },
    pub(crate) ghost small: { unsigned_abs whole ≤ 1073741824 },
    pub(crate) ghost sum_small: { unsigned_abs sum ≤ 2 ^ 62 + 2 ^ 61 },
}

fn part(area: i64, depth: i64) -> i64
    requires area { unsigned_abs area ≤ 1073741824 }
    requires depth { unsigned_abs depth ≤ 2147483647 }
    ensures value { result ≡ area *ℤ depth }
    ensures bound { unsigned_abs result ≤ 2 ^ 61 }
{
    area * depth
}

fn total(a: i64, b: i64, c: i64) -> i64
    requires a { unsigned_abs a ≤ 2 ^ 61 }
    requires b { unsigned_abs b ≤ 2 ^ 61 }
    requires c { unsigned_abs c ≤ 2 ^ 61 }
    ensures value { result ≡ a +ℤ b +ℤ c }
    ensures bound { unsigned_abs result ≤ 2 ^ 62 + 2 ^ 61 }
{
    a + b + c
}

/// The sum of small areas.
fn weighed_sum(areas: &Areas, a: Num, b: Num, c: Num) -> i64
    requires parts { AreAreas areas.now }
    requires small { unsigned_abs areas.now.whole ≤ 1073741824 }
    ensures value { result ≡ areas.now.a *ℤ a +ℤ areas.now.b *ℤ b +ℤ areas.now.c *ℤ c }
    ensures bound { unsigned_abs result ≤ 2 ^ 62 + 2 ^ 61 }
    ensures a { unsigned_abs a ≤ 2147483647 }
    ensures b { unsigned_abs b ≤ 2147483647 }
    ensures c { unsigned_abs c ≤ 2147483647 }
{
    total(
        part(areas.a, a.raw()),
        part(areas.b, b.raw()),
        part(areas.c, c.raw()),
    )
}

impl Weighed {
    /// The sum of three numbers by areas; None where the areas are too large for short numbers.
    pub(crate) fn of(areas: &Areas, a: Num, b: Num, c: Num) -> Option<Weighed>
        requires { AreAreas areas.now }
        ensures sum { IfSome result (λ w. w.sum ≡ areas.now.a *ℤ a +ℤ areas.now.b *ℤ b +ℤ areas.now.c *ℤ c) }
        ensures whole { IfSome result (λ w. w.whole ≡ areas.now.whole) }
        ensures a { IfSome result (λ w. unsigned_abs a ≤ 2147483647) }
        ensures b { IfSome result (λ w. unsigned_abs b ≤ 2147483647) }
        ensures c { IfSome result (λ w. unsigned_abs c ≤ 2147483647) }
    {
        if areas.whole > 1073741824 {
            return None;
        }
        let sum = weighed_sum(areas, a, b, c);
        Some(Weighed {
            sum,
            whole: areas.whole,
        })
    }

    /// The mean, cut to a number's range.
    #[tactic(auto, using(fixed_math::proofs::Floor::div_euclid_is))]
    pub(crate) fn mean(&self) -> Num
        ensures { result ≡ sat (floor_div self.now.sum self.now.whole) }
    {
        Num::sat(self.sum.div_euclid(self.whole) as i128)
    }

    /// Whether the mean, of depths, lies behind an opaque fragment, or at its depth: asked without a division.
    pub(crate) fn is_behind(&self, back: &Option<Fragment>) -> bool
        ensures { result ≡ is_behind back.now (floor_div self.now.sum self.now.whole) }
    {
        match back {
            None => false,
            Some(b) => part(self.whole, b.depth.raw()) <= self.sum,
        }
    }
}
