// A micropolygon of one colour and opacity, ready to be looked up at samples.
ghost use Rattle.std.specs.Prelude.{◌≡◌, ◌<◌, ◌≤◌, ◌^◌, ◌+ℤ◌, [], IfOk, IfSome, OnOk, MatchOption, false, true, is_some, unsigned_abs};
ghost use Rattle.std.specs.List.{cons_option};
ghost use Rattle.fixed_math.specs.Edges.{edge};
ghost use Rattle.hider.specs.Cells.{is_turned_away, turn};
ghost use Rattle.hider.specs.Coverage.{covers, means_at};
ghost use Rattle.hider.specs.Flat.{IsFacingOf, flat_corner, flat_of, flat_quad, facing_covers, held_covers};
ghost use Rattle.hider.specs.Kept.{keep, keep_all};
ghost use Rattle.hider.specs.Weighing.{AreAreas};

use crate::areas::Areas;
use crate::bounds::Bounds;
use crate::edges::edge_at;
use crate::facing::Facing;
use crate::fragment::Fragment;
use crate::list::FragmentList;
use crate::places::Places;
use crate::raster_cell::RasterCell;
use crate::showing::Showing;
use crate::sight::is_turned_away;
use crate::spot::Spot;
use fixed_math::NoMemory;

/// A micropolygon of one colour and opacity with a box, outside of which it isn't looked up, and its two triangles.
#[derive(Drop)]
pub(crate) struct FlatQuad<'a> {
    pub(crate) cell: &'a RasterCell<'a>,
    pub(crate) bounds: &'a Bounds,
    pub(crate) first: Option<Facing<'a>>,
    pub(crate) second: Option<Facing<'a>>,
    pub(crate) ghost first_is: { IsFacingOf cell.now.a.now cell.now.b.now cell.now.c.now first },
    pub(crate) ghost second_is: { IsFacingOf cell.now.a.now cell.now.c.now cell.now.d.now second },
}

/// The twofold area of a micropolygon with its sign, from those of its triangles.
pub(crate) fn turn_of(first: i64, second: i64) -> i64
    requires first { unsigned_abs first ≤ 2 ^ 59 }
    requires second { unsigned_abs second ≤ 2 ^ 59 }
    ensures { result ≡ first +ℤ second }
{
    first + second
}

impl<'a> FlatQuad<'a> {
    /// A micropolygon with a box, unless its one side is turned away.
    pub(crate) fn facing(
        cell: &'a RasterCell<'a>,
        bounds: &'a Bounds,
        one_sided: bool,
        flip: bool,
    ) -> Option<FlatQuad<'a>>
        ensures turned { let away = is_turned_away one_sided flip (turn (flat_quad (flat_of cell.now))) in MatchOption result (away ≡ true) (λ q. away ≡ false) }
        ensures cell { IfSome result (λ q. q.cell.now ≡ cell.now) }
        ensures bounds { IfSome result (λ q. q.bounds.now ≡ bounds.now) }
    {
        let first = edge_at(cell.a.place, cell.b.place, cell.c.place);
        let second = edge_at(cell.a.place, cell.c.place, cell.d.place);
        if is_turned_away(one_sided, flip, turn_of(first, second)) {
            return None;
        }
        Some(FlatQuad {
            cell,
            bounds,
            first: Facing::of(cell.a, cell.b, cell.c, first),
            second: Facing::of(cell.a, cell.c, cell.d, second),
        })
    }
}

/// Puts in what a triangle of a micropolygon shows where it covers a place with these areas. Its colour and opacity are those
/// of all corners.
fn put_covered(
    cell: &RasterCell<'_>,
    t: &Facing<'_>,
    areas: &Areas,
    list: &mut FragmentList,
) -> Result<(), NoMemory>
    requires parts { AreAreas areas.now }
    requires small { unsigned_abs areas.now.whole ≤ 2 ^ 59 }
    ensures { OnOk result (list.new ≡ keep (means_at areas.now (flat_corner (flat_of cell.now) t.now.a.now) (flat_corner (flat_of cell.now) t.now.b.now) (flat_corner (flat_of cell.now) t.now.c.now)) list.old) }
{
    let Some(depth) = list.visible_depth(areas, t.a.depth, t.b.depth, t.c.depth) else {
        return Ok(());
    };
    list.put(Fragment {
        depth,
        colour: *cell.colour,
        opacity: *cell.opacity,
    })
}

/// Puts in what a triangle of a micropolygon shows at a place, and says whether it covers the place.
fn put_facing(
    cell: &RasterCell<'_>,
    facing: &Option<Facing<'_>>,
    s: Spot,
    list: &mut FragmentList,
) -> Result<bool, NoMemory>
    ensures covers { IfOk result (λ covered. covered ≡ is_some (facing_covers (flat_of cell.now) facing.now s)) }
    ensures put { OnOk result (list.new ≡ keep_all list.old (cons_option (facing_covers (flat_of cell.now) facing.now s) [])) }
{
    let Some(t) = facing else {
        return Ok(false);
    };
    let Some(areas) = t.areas(s) else {
        return Ok(false);
    };
    put_covered(cell, t, &areas, list)?;
    Ok(true)
}

/// Puts in what the micropolygon shows at a place inside its box.
fn put_inside(quad: &FlatQuad<'_>, s: Spot, list: &mut FragmentList) -> Result<(), NoMemory>
    ensures { OnOk result (list.new ≡ keep_all list.old (cons_option (covers (flat_quad (flat_of quad.now.cell.now)) s) [])) }
{
    if put_facing(quad.cell, &quad.first, s, list)? {
        return Ok(());
    }
    put_facing(quad.cell, &quad.second, s, list)?;
    Ok(())
}

impl<'a> Showing for FlatQuad<'a> {
    ghost shown = { λ q s. held_covers q.bounds.now (flat_of q.cell.now) s.place };

    fn put_at(
        &self,
        places: &Places<'_>,
        n: usize,
        list: &mut FragmentList,
    ) -> Result<(), NoMemory> {
        let s = places.at(n);
        if !self.bounds.holds(s) {
            return Ok(());
        }
        put_inside(self, s, list)
    }
}
