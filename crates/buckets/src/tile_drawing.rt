// One tile of a frame, leaf after leaf.
ghost use Rattle.std.specs.Prelude.{◌≡◌, Some, slice_get};
ghost use Rattle.displace_shade.specs.Shop.{shop_set};
ghost use Rattle.scene.specs.Scene.{PrimValue};
ghost use Rattle.buckets.specs.LeafSteps.{BeginsTile, Fills, IsAtLeaf};
ghost use Rattle.buckets.specs.Standing.{Begun, InEpoch, IsDrawn, IsTile};

use crate::leaf_use::pass_leaf;
use crate::leaf_walk::{LeafWalk, prims_of};
use crate::row_band::tile_at;
use crate::shown::Shown;
use bound_split::Leaf;
use bumpalo::Bump;
use displace_shade::Shop;
use fixed_math::NoMemory;
use grid_epoch::Epoch;
use hider::Tile;
use scene::{Frame, Prim};

/// Where the drawing of tile `at` stands: what it shows, the next leaf, and those behind it.
#[derive(Drop)]
pub(crate) struct TileDrawing<'a> {
    pub(crate) at: usize,
    pub(crate) rect: [u32; 4],
    pub(crate) tile: Tile,
    pub(crate) leaves: LeafWalk<'a>,
    pub(crate) next: Option<Leaf>,
}

// The primitive of a number.
fn prim_at(frame: &Frame, number: u32) -> &Prim
    requires { (p : PrimValue) × (slice_get frame.now.prims number ≡ Some p) }
    ensures { slice_get frame.now.prims number ≡ Some result.now }
{
    &prims_of(frame)[number as usize]
}

impl<'s> TileDrawing<'s> {
    /// Goes past the next leaves, to the end of the tile or to one for whose grid there is no room. In the next epoch the drawing
    /// goes on from there.
    pub(crate) fn fill<'a>(
        &mut self,
        shown: &Shown<'_>,
        arena: &'a Bump,
        epoch: &mut Epoch<'a>,
        shop: &mut Shop,
    ) -> Result<(), NoMemory>
        ghost at_epoch: { InEpoch }
        requires drawn { IsDrawn at_epoch.begun shown.now }
        requires set { shop_set shop.old ≡ at_epoch.begun.drawing.accepted.set }
        requires limit { epoch.old.limit ≡ at_epoch.begun.drawing.limit }
        requires leaf { IsAtLeaf at_epoch shown.now.frame.now self.old epoch.old shop.old }
        ensures { Fills at_epoch shown.now.frame.now self.old self.new epoch.old epoch.new shop.old shop.new result }
    {
        while let Some(leaf) = self.next {
            let prim = prim_at(shown.frame, leaf.piece.prim);
            if !pass_leaf(
                shown,
                &mut self.leaves.sights,
                prim,
                &leaf,
                &mut self.tile,
                arena,
                epoch,
                shop,
            )? {
                return Ok(());
            }
            self.next = self.leaves.next(self.rect, &self.tile);
        }
        Ok(())
    }

    /// Begins with the tile of its number, at which nothing shows yet.
    pub(crate) fn begin(&mut self, shown: &Shown<'_>) -> Result<(), NoMemory>
        ghost begun: { Begun }
        requires tile { IsTile begun shown.now self.old.at }
        requires samples { (self.old.tile.grid.xs ≡ begun.drawing.frame.options.xs) × (self.old.tile.grid.ys ≡ begun.drawing.frame.options.ys) }
        requires leaves { self.old.leaves.sights ≡ begun.drawing.frame }
        ensures { BeginsTile begun.drawing self.old self.new result }
    {
        self.rect = tile_at(shown, self.at);
        self.tile.renew(self.rect)?;
        self.leaves.restart(self.rect)?;
        self.next = self.leaves.next(self.rect, &self.tile);
        Ok(())
    }
}
