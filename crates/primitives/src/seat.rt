// Where patches stand in their primitives.
ghost use Rattle.std.specs.Prelude.{◌≡◌, ◌<◌, ◌≤◌, ◌+◌, ◌*◌, ◌^◌, length};
ghost use Rattle.mesh_basis.specs.Polygons.{piece_count};
ghost use Rattle.scene.specs.Scene.{IsPlace, most_prims};
ghost use Rattle.primitives.specs.Variables.{corners_along, corner_in, patch_corners, mesh_extent, mesh_place, mesh_corners, mesh_seat, quadric_seat, faces_extent, face_seat, HasSides};

use mesh_basis::{Counts, Shape, piece_corners};
use scene::Seat;
use scene_parts::Faces;

/// How many faces, points and corners of faces a primitive has. The faces of a mesh are its patches, and both its points and its
/// corners are the corners of its patches.
#[derive(Clone, Copy)]
pub(crate) struct Extent {
    pub(crate) faces: usize,
    pub(crate) points: usize,
    pub(crate) corners: usize,
}

/// A face: which of its primitive's faces it is, its first corner among the corners of all faces, and the places of its points.
#[derive(Clone, Copy)]
pub(crate) struct Face<'a> {
    pub(crate) index: usize,
    pub(crate) first: usize,
    pub(crate) points: &'a [usize],
}

// The corners along a side on which so many patches stand.
fn corners_along(periodic: bool, patches: u32) -> u32
    requires { corners_along periodic patches < 2 ^ 32 }
    ensures { result ≡ corners_along periodic patches }
{
    if periodic { patches } else { patches + 1 }
}

/// The extent of a mesh.
pub(crate) fn mesh_extent(shape: &Shape, counts: Counts) -> Extent
    requires { HasSides shape.now counts }
    ensures { result ≡ mesh_extent shape.now counts }
{
    let side_u = corners_along(shape.periodic_u, counts.along_u);
    let side_v = corners_along(shape.periodic_v, counts.along_v);
    let corners = side_u as usize * side_v as usize;
    Extent {
        faces: counts.along_u as usize * counts.along_v as usize,
        points: corners,
        corners,
    }
}

/// The extent of faces over so many points.
pub(crate) fn faces_extent(faces: &Faces, points: usize) -> Extent
    ensures { result ≡ faces_extent points faces.now }
{
    Extent {
        faces: faces.sizes.0.len(),
        points,
        corners: faces.corners.0.len(),
    }
}

// The place of the corner in column `x` and row `y` of a mesh of such sides.
fn corner_in(side_u: u32, side_v: u32, x: u32, y: u32) -> usize
    requires some_u { 1 ≤ side_u }
    requires some_v { 1 ≤ side_v }
    ensures { result ≡ corner_in side_u side_v x y }
{
    side_u as usize * (y % side_v) as usize + (x % side_u) as usize
}

// The corners of the patch in column `c` and row `d`.
fn patch_corners(side_u: u32, side_v: u32, c: u32, d: u32) -> [usize; 4]
    requires some_u { 1 ≤ side_u }
    requires some_v { 1 ≤ side_v }
    requires c { c + 1 < 2 ^ 32 }
    requires d { d + 1 < 2 ^ 32 }
    ensures { result ≡ patch_corners side_u side_v c d }
{
    [
        corner_in(side_u, side_v, c, d),
        corner_in(side_u, side_v, c + 1, d),
        corner_in(side_u, side_v, c, d + 1),
        corner_in(side_u, side_v, c + 1, d + 1),
    ]
}

// The corners of the patch in column `c` and row `d` of a mesh.
fn mesh_corners(shape: &Shape, counts: Counts, c: u32, d: u32) -> [usize; 4]
    requires sides { HasSides shape.now counts }
    requires column { c < counts.along_u }
    requires row { d < counts.along_v }
    ensures { result ≡ patch_corners (corners_along shape.now.periodic_u counts.along_u) (corners_along shape.now.periodic_v counts.along_v) c d }
{
    let side_u = corners_along(shape.periodic_u, counts.along_u);
    let side_v = corners_along(shape.periodic_v, counts.along_v);
    patch_corners(side_u, side_v, c, d)
}

/// Where patch `k` of a mesh stands.
pub(crate) fn mesh_seat(shape: &Shape, counts: Counts, k: u64) -> Seat
    requires sides { HasSides shape.now counts }
    requires there { k < counts.along_u * counts.along_v }
    requires few { counts.along_u * counts.along_v ≤ most_prims }
    ensures value { result ≡ mesh_seat shape.now counts k }
    ensures place { IsPlace result.place }
{
    let columns = counts.along_u as u64;
    let (column, row) = ((k % columns) as u32, (k / columns) as u32);
    let corners = mesh_corners(shape, counts, column, row);
    Seat {
        place: [column, counts.along_u, row, counts.along_v],
        face: k as usize,
        points: corners,
        corners,
    }
}

/// Where patch `k` of a quadric of so many halves stands.
pub(crate) fn quadric_seat(halves: u32, k: u64) -> Seat
    requires some { 1 ≤ halves }
    requires few { halves ≤ 2 }
    requires there { k < 4 * halves }
    ensures value { result ≡ quadric_seat halves k }
    ensures place { IsPlace result.place }
{
    let (quarter, half) = ((k % 4) as u32, (k / 4) as u32);
    let corners = patch_corners(5, halves + 1, quarter, half);
    Seat {
        place: [quarter, 4, half, halves],
        face: 0,
        points: corners,
        corners,
    }
}

/// Where piece `i` of a face stands: the places of its points, and its first corner among all corners.
pub(crate) fn face_seat(face: usize, first: usize, points: &[usize], i: usize) -> Seat
    requires there { i < piece_count (length points.now) }
    requires few { first + length points.now < 2 ^ 64 }
    ensures value { result ≡ face_seat face first points.now i }
    ensures place { IsPlace result.place }
{
    let [a, b, c, d] = piece_corners(points.len(), i);
    Seat {
        place: [0, 1, 0, 1],
        face,
        points: [points[a], points[b], points[c], points[d]],
        corners: [first + a, first + b, first + c, first + d],
    }
}
