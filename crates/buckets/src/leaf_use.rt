// A leaf in a tile: passed over behind what shows there, or hidden by a grid that is kept or shaded.
ghost use Rattle.std.specs.Prelude.{◌≡◌, ◌≤◌, ◌+◌, ◌*◌, ◌↔◌, List, Some, false, IsTrue, IfOk, OnOk, slice_get};
ghost use Rattle.transforms.specs.declared.view.View.{View};
ghost use Rattle.dice.specs.Grids.{line_count};
ghost use Rattle.hider.specs.declared.fragment.Fragment.{Fragment};
ghost use Rattle.hider.specs.declared.sample.Sample.{Sample};
ghost use Rattle.hider.specs.CellValues.{values_of, micropolygons_of};
ghost use Rattle.moving_cells.specs.MovingGrids.{values_when};
ghost use Rattle.hider.specs.Flat.{IsSeenBy};
ghost use Rattle.hider.specs.Tiles.{Shows, BlocksAll};
ghost use Rattle.grid_epoch.specs.Kept.{has, pieces_in, points_in};
ghost use Rattle.buckets.specs.LeafSteps.{CanShade, IsDiced, KeepsGrid, KeepsGrids, PassesOne, ShadesOne, UsesLeaf};
ghost use Rattle.buckets.specs.Pictures.{leaf_in, leaf_micropolygons};
ghost use Rattle.buckets.specs.Sampled.{ShowsMore};
ghost use Rattle.buckets.specs.TileWalk.{Drawing, nearest};
ghost use Rattle.buckets.specs.Standing.{Begun, InEpoch, IsDrawn, IsGridOf, IsShadedOf};

use crate::shown::Shown;
use crate::sights::Sights;
use bound_split::Leaf;
use bumpalo::Bump;
use dice::GridRef;
use displace_shade::Shop;
use fixed_math::NoMemory;
use grid_epoch::Epoch;
use hider::{SeenGrid, Tile};
use moving_cells::MovingCells;
use scene::Prim;
use transforms::Camera;

// Hides the micropolygons of a shaded grid of a primitive that stays.
fn hide_grid(tile: &mut Tile, seen: &SeenGrid<'_>, prim: &Prim) -> Result<(), NoMemory>
    ensures grid { tile.new.grid ≡ tile.old.grid }
    ensures shows { OnOk result ((v : View) → IsSeenBy v seen.now → ShowsMore v (micropolygons_of (values_of prim.now.smooth seen.now.grid) prim.now.one_sided prim.now.flip) tile.old tile.new) }
{
    tile.hide_seen(seen, prim.smooth, prim.one_sided, prim.flip)?;
    Ok(())
}

// Hides the micropolygons of a shaded grid of a primitive that moves.
fn hide_moving(
    tile: &mut Tile,
    seen: &SeenGrid<'_>,
    camera: &Camera,
    prim: &Prim,
) -> Result<(), NoMemory>
    ensures grid { tile.new.grid ≡ tile.old.grid }
    ensures shows { OnOk result (ShowsMore camera.now (micropolygons_of (values_when prim.now.smooth seen.now.grid) prim.now.one_sided prim.now.flip) tile.old tile.new) }
{
    let cells = MovingCells {
        grid: seen.grid,
        smooth: prim.smooth,
    };
    tile.hide(&cells, camera, prim.one_sided, prim.flip)?;
    Ok(())
}

// Hides a leaf by its grid.
fn hide_leaf(
    camera: &Camera,
    prim: &Prim,
    leaf: &Leaf,
    seen: &SeenGrid<'_>,
    tile: &mut Tile,
) -> Result<(), NoMemory>
    ghost drawing: { Drawing }
    requires camera { camera.now ≡ drawing.frame.camera }
    requires leaf { IsDiced drawing prim.now leaf.now }
    requires grid { IsGridOf drawing leaf.now.piece seen.now }
    ensures grid { tile.new.grid ≡ tile.old.grid }
    ensures shows { OnOk result (ShowsMore drawing.frame.camera (leaf_micropolygons drawing.accepted drawing.frame prim.now leaf.now.piece) tile.old tile.new) }
{
    match seen.grid.closing {
        None => hide_grid(tile, seen, prim)?,
        Some(_) => hide_moving(tile, seen, camera, prim)?,
    }
    Ok(())
}

// The points of a leaf's grid.
fn points_of(leaf: &Leaf) -> usize
    requires p { leaf.now.p ≤ 4 }
    requires q { leaf.now.q ≤ 4 }
    ensures { result ≡ line_count leaf.now.p * line_count leaf.now.q }
{
    ((1 << leaf.p) + 1) * ((1 << leaf.q) + 1)
}

// Shades a leaf.
fn shade_grid<'a>(
    shown: &Shown<'_>,
    prim: &Prim,
    leaf: &Leaf,
    arena: &'a Bump,
    shop: &mut Shop,
) -> Result<GridRef<'a>, NoMemory>
    ghost begun: { Begun }
    requires drawn { IsDrawn begun shown.now }
    requires shop { CanShade begun.drawing shop.old }
    requires leaf { IsDiced begun.drawing prim.now leaf.now }
    ensures grid { IfOk result (IsShadedOf begun.drawing leaf.now.piece) }
    ensures points { IfOk result (λ g. g.columns * g.rows ≡ line_count leaf.now.p * line_count leaf.now.q) }
    ensures shop { ShadesOne shop.old shop.new result }
{
    let grid = shop.shade(arena, shown.scene, shown.index, &leaf.piece, leaf.p, leaf.q)?;
    Ok(grid)
}

// Shades a leaf and keeps its grid as the camera sees it, for which there is room.
fn shade_leaf<'a>(
    shown: &Shown<'_>,
    prim: &Prim,
    leaf: &Leaf,
    arena: &'a Bump,
    epoch: &mut Epoch<'a>,
    shop: &mut Shop,
) -> Result<SeenGrid<'a>, NoMemory>
    ghost begun: { Begun }
    requires drawn { IsDrawn begun shown.now }
    requires shop { CanShade begun.drawing shop.old }
    requires leaf { IsDiced begun.drawing prim.now leaf.now }
    requires room { points_in epoch.old.kept + line_count leaf.now.p * line_count leaf.now.q ≤ epoch.old.limit }
    requires fresh { has leaf.now.piece (pieces_in epoch.old.kept) ≡ false }
    ensures limit { epoch.new.limit ≡ epoch.old.limit }
    ensures kept { IfOk result (KeepsGrid begun.drawing leaf.now epoch.old epoch.new) }
    ensures shop { ShadesOne shop.old shop.new result }
{
    let grid = shade_grid(shown, prim, leaf, arena, shop)?;
    let frame = shown.frame;
    let seen = SeenGrid::new(arena, &frame.camera, grid)?;
    epoch.add(leaf.piece, seen)?;
    Ok(seen)
}

// Hides a leaf, by the grid that is kept of it or by a new one, which is kept from now on. Where there is no room for it, the
// answer is `false`, and nothing has changed.
fn use_leaf<'a>(
    shown: &Shown<'_>,
    prim: &Prim,
    leaf: &Leaf,
    tile: &mut Tile,
    arena: &'a Bump,
    epoch: &mut Epoch<'a>,
    shop: &mut Shop,
) -> Result<bool, NoMemory>
    ghost begun: { Begun }
    requires drawn { IsDrawn begun shown.now }
    requires shop { CanShade begun.drawing shop.old }
    requires leaf { IsDiced begun.drawing prim.now leaf.now }
    requires epoch { KeepsGrids begun.drawing epoch.old }
    ensures { UsesLeaf begun.drawing (leaf_in prim.now leaf.now.piece) tile.old tile.new epoch.old epoch.new shop.old shop.new result }
{
    let frame = shown.frame;
    if let Some(at) = epoch.find(&leaf.piece) {
        hide_leaf(&frame.camera, prim, leaf, &epoch.grid(at), tile)?;
        return Ok(true);
    }
    if !epoch.room(points_of(leaf)) {
        return Ok(false);
    }
    let seen = shade_leaf(shown, prim, leaf, arena, epoch, shop)?;
    hide_leaf(&frame.camera, prim, leaf, &seen, tile)?;
    Ok(true)
}

// Whether a leaf lies behind what shows at each sample of a tile.
fn is_behind(sights: &mut Sights<'_>, prim: &Prim, leaf: &Leaf, tile: &Tile) -> bool
    requires { slice_get sights.old.prims leaf.now.piece.prim ≡ Some prim.now }
    ensures same { sights.new ≡ sights.old }
    ensures behind { (d : Drawing) (f : Sample → List Fragment) → d.frame ≡ sights.old → Shows tile.now f → IsTrue result ↔ BlocksAll (nearest d (leaf_in prim.now leaf.now.piece)) tile.now.grid f }
{
    let sight = sights.of(leaf.piece.prim as usize, prim, &leaf.piece);
    tile.all_behind(sight.extent.nearest)
}

/// Goes past a leaf that meets a tile: it is passed over where it lies behind what shows there, else it is hidden. Where there is
/// no room for its grid, the answer is `false`, and nothing has changed.
pub(crate) fn pass_leaf<'a>(
    shown: &Shown<'_>,
    sights: &mut Sights<'_>,
    prim: &Prim,
    leaf: &Leaf,
    tile: &mut Tile,
    arena: &'a Bump,
    epoch: &mut Epoch<'a>,
    shop: &mut Shop,
) -> Result<bool, NoMemory>
    ghost at_epoch: { InEpoch }
    requires drawn { IsDrawn at_epoch.begun shown.now }
    requires shop { CanShade at_epoch.begun.drawing shop.old }
    requires leaf { IsDiced at_epoch.begun.drawing prim.now leaf.now }
    requires epoch { KeepsGrids at_epoch.begun.drawing epoch.old }
    requires sights { sights.old ≡ at_epoch.begun.drawing.frame }
    ensures sights { sights.new ≡ sights.old }
    ensures passes { PassesOne at_epoch (leaf_in prim.now leaf.now.piece) tile.old tile.new epoch.old epoch.new shop.old shop.new result }
{
    if is_behind(sights, prim, leaf, tile) {
        return Ok(true);
    }
    let used = use_leaf(shown, prim, leaf, tile, arena, epoch, shop)?;
    Ok(used)
}
