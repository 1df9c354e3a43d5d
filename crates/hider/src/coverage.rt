// Whether a micropolygon covers a place, and what it shows there.
ghost use Rattle.std.specs.Prelude.{◌≡◌, ◌≤◌, ◌^◌, ◌≤ℤ◌, ◌<ℤ◌, ◌*ℤ◌, pos, true, unsigned_abs};
ghost use Rattle.fixed_math.specs.Edges.{edge};
ghost use Rattle.hider.specs.Coverage.{is_in_three, areas_at, covers_facing, covers_triangle, covers};

use crate::areas::Areas;
use crate::edges::{edge_at, is_inside_edge};
use crate::fragment::Fragment;
use crate::means::{areas_at, means_at};
use crate::quad::{Corner, Quad};
use crate::spot::Spot;

#[tactic(auto, unfolding(crate::specs::Coverage::is_in_three))]
pub(crate) fn is_in_triangle(a: Spot, b: Spot, c: Spot, s: Spot) -> bool
    ensures { result ≡ is_in_three a b c s }
{
    is_inside_edge(a, b, s) && is_inside_edge(b, c, s) && is_inside_edge(c, a, s)
}

/// What a triangle of positive area shows at a place that it covers.
#[tactic(auto, unfolding(crate::specs::Coverage::covers_facing))]
fn covers_by_facing(a: &Corner, b: &Corner, c: &Corner, s: Spot) -> Option<Fragment>
    requires { pos 0 <ℤ edge a.now.place b.now.place c.now.place }
    ensures { result ≡ covers_facing a.now b.now c.now s }
{
    if is_in_triangle(a.place, b.place, c.place, s) {
        let areas = areas_at(a.place, b.place, c.place, s);
        Some(means_at(&areas, a, b, c))
    } else {
        None
    }
}

#[tactic(auto, unfolding(crate::specs::Coverage::covers_triangle))]
fn covers_by(a: &Corner, b: &Corner, c: &Corner, s: Spot) -> Option<Fragment>
    ensures { result ≡ covers_triangle a.now b.now c.now s }
{
    let area = edge_at(a.place, b.place, c.place);
    if area > 0 {
        covers_by_facing(a, b, c, s)
    } else if area < 0 {
        covers_by_facing(a, c, b, s)
    } else {
        None
    }
}

/// What the micropolygon shows at the place `s`, where it covers it: in the triangle of its first three corners, else
/// in that of the first, third and fourth, the mean of the corners' depths, colours and opacities, each weighed by the
/// area opposite to it. A place on an edge belongs to the left and upper edges alone, so that neighbours that share an
/// edge never both cover it.
#[tactic(auto, unfolding(crate::specs::Coverage::covers))]
pub fn covers(quad: &Quad, s: Spot) -> Option<Fragment>
    ensures { result ≡ covers quad.now s }
{
    match covers_by(&quad.a, &quad.b, &quad.c, s) {
        Some(fragment) => Some(fragment),
        None => covers_by(&quad.a, &quad.c, &quad.d, s),
    }
}
