// What a camera sees of a micropolygon.
ghost use Rattle.std.specs.Prelude.{◌≡◌, ◌≤◌, ◌≤ℤ◌, ◌^◌, ◌+ℤ◌, true, unsigned_abs};
ghost use Rattle.hider.specs.Cells.{corner_of, projected, is_in_depth, is_all_in_depth, turn, is_turned_away, seen, quad_of};

use crate::cell::{Cell, CellCorner};
use crate::edges::edge_at;
use crate::quad::{Corner, Quad};
use crate::spot::Spot;
use transforms::Camera;

/// Whether the depth of a point lies from near to far.
fn is_in_depth(camera: &Camera, corner: &CellCorner) -> bool
    ensures { result ≡ is_in_depth camera.now corner.now }
{
    let view = camera.view();
    let depth = corner.point.z.raw();
    view.near.raw() <= depth && depth <= view.far.raw()
}

#[tactic(auto, unfolding(crate::specs::Cells::is_all_in_depth))]
fn is_all_in_depth(camera: &Camera, cell: &Cell) -> bool
    ensures { result ≡ is_all_in_depth camera.now cell.now }
{
    is_in_depth(camera, &cell.a)
        && is_in_depth(camera, &cell.b)
        && is_in_depth(camera, &cell.c)
        && is_in_depth(camera, &cell.d)
}

/// A corner on the raster.
#[tactic(auto, unfolding(crate::specs::Cells::corner_of))]
fn corner_of(camera: &Camera, corner: &CellCorner) -> Corner
    requires { is_in_depth camera.now corner.now ≡ true }
    ensures { result ≡ corner_of camera.now corner.now }
{
    let place = camera.raster(corner.point);
    Corner {
        place: Spot::new(place[0], place[1]),
        depth: corner.point.z,
        colour: corner.colour,
        opacity: corner.opacity,
    }
}

#[tactic(auto, unfolding(crate::specs::Cells::projected))]
fn projected(camera: &Camera, cell: &Cell) -> Quad
    requires { is_all_in_depth camera.now cell.now ≡ true }
    ensures { result ≡ projected camera.now cell.now }
{
    Quad {
        a: corner_of(camera, &cell.a),
        b: corner_of(camera, &cell.b),
        c: corner_of(camera, &cell.c),
        d: corner_of(camera, &cell.d),
    }
}

/// Twice the area of the quad on the raster, with the sign of its turn.
#[tactic(auto, unfolding(crate::specs::Cells::turn))]
pub(crate) fn turn_of(quad: &Quad) -> i64
    ensures { result ≡ turn quad.now }
{
    let first = edge_at(quad.a.place, quad.b.place, quad.c.place);
    let second = edge_at(quad.a.place, quad.c.place, quad.d.place);
    first + second
}

pub(crate) fn is_turned_away(one_sided: bool, flip: bool, turn: i64) -> bool
    ensures { result ≡ is_turned_away one_sided flip turn }
{
    if !one_sided {
        false
    } else if flip {
        turn > 0
    } else {
        turn < 0
    }
}

/// Four corners on the raster, as the camera sees them: None where one lies before near or beyond far, or where they
/// have one side alone and that is turned away (RenderMan Interface 3.2, Sides and Orientation).
#[tactic(auto, unfolding(crate::specs::Cells::quad_of))]
pub fn quad_of(camera: &Camera, cell: &Cell, one_sided: bool, flip: bool) -> Option<Quad>
    ensures { result ≡ quad_of camera.now one_sided flip cell.now }
{
    if !is_all_in_depth(camera, cell) {
        return None;
    }
    let quad = projected(camera, cell);
    if is_turned_away(one_sided, flip, turn_of(&quad)) {
        None
    } else {
        Some(quad)
    }
}
