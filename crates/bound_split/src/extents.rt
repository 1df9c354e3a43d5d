// Where a piece can show, and in which rectangles of pixels.
ghost use Rattle.std.specs.Prelude.{◌≡◌, ◌≤◌, ◌^◌, ℤ, pos, ◌≤ℤ◌, int_lt, ◌||◌, false};
ghost use Rattle.fixed_math.specs.declared.vec3.Axis.{Axis};
ghost use Rattle.fixed_math.specs.Axes.{part_of};
ghost use Rattle.patches.specs.Boxes.{Box, IsWithin, IsOrdered};
ghost use Rattle.patches.specs.Parts.{Part, IsPart, rect_of};
ghost use Rattle.patches.specs.Rects.{IsInside};
ghost use Rattle.transforms.specs.Raster.{raster_box};
ghost use Rattle.bound_split.specs.Decisions.{decision_of};
ghost use Rattle.bound_split.specs.Extents.{lowered, raised, reach_within, reach_of, extent_of, overlaps, reaches, meets, pixels_of, NoLeafMeets};

use fixed_math::{Num, Vec3};
use patches::{Piece, Surface};
use transforms::{Camera, View};

/// Where a piece can show on the raster.
#[derive(Debug, Clone, Copy, PartialEq, Eq)]
pub enum Reach {
    /// Nowhere: all of it lies before the near plane, or all of it beyond the far one.
    Nowhere,
    /// Wherever it may be: some of it may lie before the near plane.
    Everywhere,
    /// Within a box, whose sides are given in 1/256 pixel.
    Within {
        left: i64,
        top: i64,
        right: i64,
        bottom: i64,
    },
}

/// How near a piece can come, and where it can show, wherever displacement moves its points within its bound.
#[derive(Debug, Clone, Copy, PartialEq, Eq)]
pub struct Extent {
    /// No point is less deep.
    pub nearest: Num,
    pub reach: Reach,
}

/// Whether places from `first` to `last`, in 1/256 pixel, belong to pixels from `from` on to below `to`.
fn overlaps(first: i64, last: i64, from: u32, to: u32) -> bool
    ensures { result ≡ overlaps first last from to }
{
    first < 256 * to as i64 && 256 * from as i64 <= last
}

impl Extent {
    /// Whether the piece can show in the pixels from the left one of `tile` to below its right one, and from its top to below
    /// its bottom one, in this order.
    pub fn meets(&self, tile: [u32; 4]) -> bool
        ensures { result ≡ reaches self.now.reach (pixels_of tile) }
    {
        let [from_x, from_y, to_x, to_y] = tile;
        match self.reach {
            Reach::Nowhere => false,
            Reach::Everywhere => true,
            Reach::Within {
                left,
                top,
                right,
                bottom,
            } => overlaps(left, right, from_x, to_x) && overlaps(top, bottom, from_y, to_y),
        }
    }
}

/// A point with each coordinate less by `bound`.
fn lowered(p: Vec3, bound: Num) -> Vec3
    requires small { IsWithin (2 ^ 30) p }
    requires low { pos 0 ≤ℤ bound }
    requires high { bound ≤ℤ pos 536870912 }
    ensures { result ≡ lowered bound p }
{
    Vec3 {
        x: p.x.sub(bound),
        y: p.y.sub(bound),
        z: p.z.sub(bound),
    }
}

/// A point with each coordinate greater by `bound`.
fn raised(p: Vec3, bound: Num) -> Vec3
    requires small { IsWithin (2 ^ 30) p }
    requires low { pos 0 ≤ℤ bound }
    requires high { bound ≤ℤ pos 536870912 }
    ensures { result ≡ raised bound p }
{
    Vec3 {
        x: p.x.add(bound),
        y: p.y.add(bound),
        z: p.z.add(bound),
    }
}

/// Whether all depths from `low` to `high` are before near, or all are beyond far.
fn is_unseen(view: &View, low: Num, high: Num) -> bool
    ensures { result ≡ (int_lt high view.now.near || int_lt view.now.far low) }
{
    high.raw() < view.near.raw() || view.far.raw() < low.raw()
}

/// Whether a depth lies before near.
fn is_before(view: &View, depth: Num) -> bool
    ensures { result ≡ int_lt depth view.now.near }
{
    depth.raw() < view.near.raw()
}

/// The box on the raster of the box from `low` to `high`.
fn reach_within(camera: &Camera, low: Vec3, high: Vec3) -> Reach
    requires ordered { (a : Axis) → part_of a low ≤ℤ part_of a high }
    requires near { camera.now.near ≤ℤ low.z }
    ensures { result ≡ reach_within (raster_box camera.now low high) }
{
    let [[left, top], [right, bottom]] = camera.raster_box(low, high);
    Reach::Within {
        left,
        top,
        right,
        bottom,
    }
}

/// Where what lies in the box from `low` to `high` shows.
#[tactic(auto, unfolding(crate::specs::Extents::reach_of))]
fn reach_of(camera: &Camera, low: Vec3, high: Vec3) -> Reach
    requires ordered { (a : Axis) → part_of a low ≤ℤ part_of a high }
    ensures { result ≡ reach_of camera.now (record { low = low; high = high }) }
{
    let view = camera.view();
    if is_unseen(view, low.z, high.z) {
        return Reach::Nowhere;
    }
    if is_before(view, low.z) {
        return Reach::Everywhere;
    }
    reach_within(camera, low, high)
}

/// The extent of a piece of a surface, seen by a camera, whose points displacement moves in each coordinate by at most `bound`,
/// raw 0 to 2^29. One extent answers for all tiles. A part of the piece comes no nearer than the piece.
pub fn extent_of<S: Surface>(s: &S, piece: &Piece, camera: &Camera, bound: Num) -> Extent
    requires low { pos 0 ≤ℤ bound }
    requires high { bound ≤ℤ pos 536870912 }
    ensures value { result ≡ extent_of camera.now bound (S.box_in s.now (rect_of piece.now)) }
    ensures nearest { (part : Part) → IsPart part → IsInside (rect_of part) (rect_of piece.now) →
        result.nearest ≤ℤ (extent_of camera.now bound (S.box_in s.now (rect_of part))).nearest }
{
    // here is told what holds of every piece
    piece.recall();
    let [low, high] = s.box_of(piece);
    let low = lowered(low, bound);
    let high = raised(high, bound);
    Extent {
        nearest: low.z,
        reach: reach_of(camera, low, high),
    }
}

/// Whether a piece of a surface can show in the pixels of a tile, given by its left, top, right and bottom, of which right and
/// bottom don't belong to it. `bound` is how far displacement may move the piece's points in camera space, raw 0 to 2^29.
///
/// The box of a part of a piece lies in the box of the whole, so where a piece doesn't meet a tile, no leaf below it does.
pub fn meets<S: Surface>(s: &S, piece: &Piece, camera: &Camera, bound: Num, tile: [u32; 4]) -> bool
    requires low { pos 0 ≤ℤ bound }
    requires high { bound ≤ℤ pos 536870912 }
    ensures value { result ≡ meets camera.now bound (S.box_in s.now (rect_of piece.now)) (pixels_of tile) }
    ensures inherited { (rate : ℤ) → let decide = decision_of camera.now rate bound (S.width_of s.now) (S.net_of s.now) in
        result ≡ false → NoLeafMeets camera.now bound (S.box_in s.now) (pixels_of tile) decide piece.now }
{
    // here is told what holds of every piece and of every view
    piece.recall();
    let _view = camera.view();
    extent_of(s, piece, camera, bound).meets(tile)
}
