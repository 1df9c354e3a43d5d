// The mean of numbers at the corners of a triangle.
ghost use Rattle.std.specs.Prelude.{◌≡◌, ◌≤◌, ◌^◌, ◌<ℤ◌, ◌*ℤ◌, pos, true, unsigned_abs};
ghost use Rattle.fixed_math.specs.Edges.{edge};
ghost use Rattle.hider.specs.Coverage.{is_in_three, areas_at, mean_at, mean_colour_at, means_at};
ghost use Rattle.hider.specs.Weighing.{AreAreas};

use crate::areas::Areas;
use crate::edges::edge_at;
use crate::fragment::Fragment;
use crate::quad::Corner;
use crate::spot::Spot;
use crate::weighed::Weighed;
use fixed_math::{Num, Vec3, floor_div, plus, times};

/// The areas of a triangle of positive area at a place inside it.
#[tactic(auto, unfolding(crate::specs::Coverage::areas_at))]
pub(crate) fn areas_at(a: Spot, b: Spot, c: Spot, s: Spot) -> Areas
    requires inside { is_in_three a b c s ≡ true }
    requires area { pos 0 <ℤ edge a b c }
    ensures value { result ≡ areas_at a b c s }
    ensures parts { AreAreas result }
    ensures small { unsigned_abs result.whole ≤ 2 ^ 59 }
{
    Areas {
        a: edge_at(b, c, s),
        b: edge_at(c, a, s),
        c: edge_at(a, b, s),
        whole: edge_at(a, b, c),
    }
}

/// A number of one corner times the area opposite to it.
fn share(area: i64, number: Num) -> i128
    requires { unsigned_abs area ≤ 2 ^ 59 }
    ensures value { result ≡ area *ℤ number }
    ensures bound { unsigned_abs result ≤ 2 ^ 90 }
    ensures number { unsigned_abs number ≤ 2147483647 }
{
    times::<59, 31>(area as i128, number.raw() as i128)
}

/// The mean of a number of the corners.
pub(crate) fn mean_at(areas: &Areas, a: Num, b: Num, c: Num) -> Num
    requires parts { AreAreas areas.now }
    requires small { unsigned_abs areas.now.whole ≤ 2 ^ 59 }
    ensures { result ≡ mean_at areas.now a b c }
{
    let at_a = share(areas.a, a);
    let at_b = share(areas.b, b);
    let at_c = share(areas.c, c);
    Num::sat(floor_div(plus(plus(at_a, at_b), at_c), areas.whole as i128))
}

/// The mean of a number of the corners, by short numbers where the areas are small.
fn quick_mean_at(areas: &Areas, a: Num, b: Num, c: Num) -> Num
    requires parts { AreAreas areas.now }
    requires small { unsigned_abs areas.now.whole ≤ 2 ^ 59 }
    ensures { result ≡ mean_at areas.now a b c }
{
    match Weighed::of(areas, a, b, c) {
        None => mean_at(areas, a, b, c),
        Some(weighed) => weighed.mean(),
    }
}

/// The mean of a number of the corners, which is that number where all three are equal.
#[tactic(auto, using(crate::proofs::Between::sames))]
fn mean_or_same(areas: &Areas, a: Num, b: Num, c: Num) -> Num
    requires parts { AreAreas areas.now }
    requires small { unsigned_abs areas.now.whole ≤ 2 ^ 59 }
    ensures { result ≡ mean_at areas.now a b c }
{
    if a.raw() == b.raw() && b.raw() == c.raw() {
        a
    } else {
        quick_mean_at(areas, a, b, c)
    }
}

/// The mean of a colour of the corners.
fn mean_colour_at(areas: &Areas, a: Vec3, b: Vec3, c: Vec3) -> Vec3
    requires parts { AreAreas areas.now }
    requires small { unsigned_abs areas.now.whole ≤ 2 ^ 59 }
    ensures { result ≡ mean_colour_at areas.now a b c }
{
    Vec3 {
        x: mean_or_same(areas, a.x, b.x, c.x),
        y: mean_or_same(areas, a.y, b.y, c.y),
        z: mean_or_same(areas, a.z, b.z, c.z),
    }
}

/// The means of all numbers of the corners.
pub(crate) fn means_at(areas: &Areas, a: &Corner, b: &Corner, c: &Corner) -> Fragment
    requires parts { AreAreas areas.now }
    requires small { unsigned_abs areas.now.whole ≤ 2 ^ 59 }
    ensures { result ≡ means_at areas.now a.now b.now c.now }
{
    Fragment {
        depth: mean_at(areas, a.depth, b.depth, c.depth),
        colour: mean_colour_at(areas, a.colour, b.colour, c.colour),
        opacity: mean_colour_at(areas, a.opacity, b.opacity, c.opacity),
    }
}
