// A triangle of a micropolygon of one colour, turned so that its area is positive.
ghost use Rattle.std.specs.Prelude.{◌≡◌, ◌≤◌, ◌^◌, ◌<ℤ◌, pos, true, false, unsigned_abs, MatchOption, IfSome};
ghost use Rattle.fixed_math.specs.Edges.{edge};
ghost use Rattle.hider.specs.Coverage.{is_in_three, areas_at};
ghost use Rattle.hider.specs.Weighing.{AreAreas};

use crate::areas::Areas;
use crate::edges::{edge_at, is_inner};
use crate::raster_point::RasterPoint;
use crate::spot::Spot;

/// A triangle whose twofold area is `whole`, above 0.
#[derive(Clone, Copy)]
pub(crate) struct Facing<'a> {
    pub(crate) a: &'a RasterPoint,
    pub(crate) b: &'a RasterPoint,
    pub(crate) c: &'a RasterPoint,
    pub(crate) whole: i64,
    pub(crate) ghost whole_is: { whole ≡ edge a.now.place b.now.place c.now.place },
    pub(crate) ghost some: { pos 0 <ℤ whole },
    pub(crate) ghost small: { unsigned_abs whole ≤ 2 ^ 59 },
}

impl<'a> Facing<'a> {
    ghost use Rattle.hider.specs.Flat.{IsFacingOf};

    /// The triangle of three corners whose twofold area is `whole`, above 0.
    fn turned(a: &'a RasterPoint, b: &'a RasterPoint, c: &'a RasterPoint, whole: i64) -> Facing<'a>
        requires whole { whole ≡ edge a.now.place b.now.place c.now.place }
        requires some { pos 0 <ℤ whole }
        requires small { unsigned_abs whole ≤ 2 ^ 59 }
        ensures a { result.a.now ≡ a.now }
        ensures b { result.b.now ≡ b.now }
        ensures c { result.c.now ≡ c.now }
    {
        Facing { a, b, c, whole }
    }

    /// The triangle of three corners, turned so that its area is positive: `area` is its twofold area with its sign.
    pub(crate) fn of(
        a: &'a RasterPoint,
        b: &'a RasterPoint,
        c: &'a RasterPoint,
        area: i64,
    ) -> Option<Facing<'a>>
        requires area { area ≡ edge a.now.place b.now.place c.now.place }
        requires small { unsigned_abs area ≤ 2 ^ 59 }
        ensures { IsFacingOf a.now b.now c.now result }
    {
        if area > 0 {
            Some(Facing::turned(a, b, c, area))
        } else if area < 0 {
            Some(Facing::turned(a, c, b, -area))
        } else {
            None
        }
    }

    /// The areas at a place that the triangle covers.
    pub(crate) fn areas(&self, s: Spot) -> Option<Areas>
        ensures covers { MatchOption result (is_in_three self.now.a.now.place self.now.b.now.place self.now.c.now.place s ≡ false) (λ w. is_in_three self.now.a.now.place self.now.b.now.place self.now.c.now.place s ≡ true) }
        ensures areas { IfSome result (λ w. w ≡ areas_at self.now.a.now.place self.now.b.now.place self.now.c.now.place s) }
        ensures parts { IfSome result (λ w. AreAreas w) }
        ensures small { IfSome result (λ w. unsigned_abs w.whole ≤ 2 ^ 59) }
    {
        let at_c = edge_at(self.a.place, self.b.place, s);
        if !is_inner(at_c, self.a.place, self.b.place) {
            return None;
        }
        let at_a = edge_at(self.b.place, self.c.place, s);
        if !is_inner(at_a, self.b.place, self.c.place) {
            return None;
        }
        let at_b = edge_at(self.c.place, self.a.place, s);
        if !is_inner(at_b, self.c.place, self.a.place) {
            return None;
        }
        Some(Areas {
            a: at_a,
            b: at_b,
            c: at_c,
            whole: self.whole,
        })
    }
}
