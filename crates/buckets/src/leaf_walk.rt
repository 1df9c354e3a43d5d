// The leaves of a frame, one primitive after another.
ghost use Rattle.std.specs.Prelude.{◌≡◌, ◌≤◌, ◌<◌, true, Some, Bool, ℤ, ◌&&◌, not, pos, ◌≤ℤ◌, length, IfSome, IfOk, OnOk, slice_get};
ghost use Rattle.patches.specs.Parts.{IsPart};
ghost use Rattle.scene.specs.Scene.{FrameValue};
ghost use Rattle.transforms.specs.Field.{IsView};
ghost use Rattle.bound_split.specs.Culling.{SkipsTo};
ghost use Rattle.bound_split.specs.Extents.{reaches, pixels_of};
ghost use Rattle.bound_split.specs.declared.splits.Decision.TheVariants.{Dice};
ghost use Rattle.buckets.specs.Pictures.{decide, frame_leaves};
ghost use Rattle.buckets.specs.Culled.{part_shows};
ghost use Rattle.buckets.specs.Sampled.{TellsBehind};
ghost use Rattle.buckets.specs.Standing.{to_come, FindsNext};

use crate::sights::Sights;
use bound_split::{Leaf, Sight, Walk};
use fixed_math::NoMemory;
use hider::Tile;
use patches::Piece;
use scene::{Frame, Prim};
use std::alloc::Global;

/// The leaves of a frame that are still to come: those below the pieces of a walk through primitive `number`, and those of the
/// primitives behind it.
#[derive(Drop)]
pub(crate) struct LeafWalk<'a> {
    pub(crate) sights: Sights<'a>,
    pub(crate) number: usize,
    pub(crate) pieces: Walk,
}

/// Does nothing: a call tells a proof what holds of a frame's camera and of a primitive.
fn recall(frame: &Frame, prim: &Prim)
    ensures view { IsView frame.now.camera }
    ensures bound { pos 0 ≤ℤ prim.now.bound }
{
    let _view = frame.camera.view();
    let _bound = prim.bound;
}

/// Does nothing: a call tells a proof what holds of a frame's camera.
fn recall_camera(frame: &Frame)
    ensures { IsView frame.now.camera }
{
    let _view = frame.camera.view();
}

/// Whether a piece can show in a tile of these pixels: it meets them, and doesn't lie behind what shows at each sample.
fn can_show(sight: &Sight, rect: [u32; 4], tile: &Tile) -> bool
    ensures { (back : ℤ → Bool) → TellsBehind tile.now back → result ≡ (reaches sight.now.extent.reach (pixels_of rect) && not (back sight.now.extent.nearest)) }
{
    let extent = sight.extent;
    if !extent.meets(rect) {
        return false;
    }
    let behind = tile.all_behind(extent.nearest);
    !behind
}

/// The next leaf of the primitive of a number that can show in a tile of these pixels. A piece that can't isn't split.
fn next_of(
    walk: &mut Walk,
    sights: &mut Sights<'_>,
    number: usize,
    prim: &Prim,
    rect: [u32; 4],
    tile: &Tile,
) -> Option<Leaf>
    requires { slice_get sights.old.prims number ≡ Some prim.now }
    ensures frame { sights.new ≡ sights.old }
    ensures skipped { (back : ℤ → Bool) → TellsBehind tile.now back →
        SkipsTo (part_shows sights.old prim.now (pixels_of rect) back) (decide sights.old.camera prim.now) walk.old walk.new result }
    ensures passed { (back : ℤ → Bool) → TellsBehind tile.now back → IfSome result (λ leaf. part_shows sights.old prim.now (pixels_of rect) back leaf.piece ≡ true) }
    ensures sizes { IfSome result (λ leaf. decide sights.old.camera prim.now leaf.piece ≡ Dice leaf.p leaf.q) }
    ensures small { IfSome result (λ leaf. IsPart leaf.piece × (leaf.p ≤ 4) × (leaf.q ≤ 4)) }
{
    recall(sights.frame(), prim);
    while let Some(piece) = walk.take() {
        let sight = sights.of(number, prim, &piece);
        if can_show(&sight, rect, tile) {
            if let Some(leaf) = walk.visit(piece, sight.decision) {
                return Some(leaf);
            }
        }
    }
    None
}

/// The primitives of a frame.
pub(crate) fn prims_of(frame: &Frame) -> &[Prim]
    ensures prims { result.now ≡ frame.now.prims }
    ensures few { length result.now ≤ 65536 }
{
    frame.prims.as_slice()
}

impl<'a> LeafWalk<'a> {
    /// All leaves of a frame, of which those are to be given first that can show in a tile.
    pub(crate) fn new(
        alloc: Global,
        frame: &'a Frame,
        tile: [u32; 4],
    ) -> Result<LeafWalk<'a>, NoMemory>
        ensures frame { IfOk result (λ w. w.sights ≡ frame.now) }
        ensures all { IfOk result (λ w. (f : FrameValue) → to_come f w.number w.pieces ≡ frame_leaves f) }
    {
        let mut sights = Sights::new(alloc, frame)?;
        sights.turn_to(tile)?;
        let pieces = Walk::new(Piece::whole(0));
        Ok(LeafWalk {
            sights,
            number: 0,
            pieces,
        })
    }

    /// All leaves again, of which those are to be given that can show in another tile.
    pub(crate) fn restart(&mut self, tile: [u32; 4]) -> Result<(), NoMemory>
        ensures frame { self.new.sights ≡ self.old.sights }
        ensures all { OnOk result ((f : FrameValue) → to_come f self.new.number self.new.pieces ≡ frame_leaves f) }
    {
        self.sights.turn_to(tile)?;
        self.number = 0;
        self.pieces = Walk::new(Piece::whole(0));
        Ok(())
    }

    /// The next leaf that can show in a tile of these pixels, none where no other can.
    pub(crate) fn next(&mut self, rect: [u32; 4], tile: &Tile) -> Option<Leaf>
        ensures frame { self.new.sights ≡ self.old.sights }
        ensures next { FindsNext self.old.sights tile.now (pixels_of rect) result (to_come self.old.sights self.old.number self.old.pieces) (to_come self.old.sights self.new.number self.new.pieces) }
    {
        let prims = prims_of(self.sights.frame());
        recall_camera(self.sights.frame());
        while self.number < prims.len() {
            let number = self.number;
            if let Some(leaf) = next_of(
                &mut self.pieces,
                &mut self.sights,
                number,
                &prims[number],
                rect,
                tile,
            ) {
                return Some(leaf);
            }
            self.number = self.sights.behind(number, rect);
            self.pieces = Walk::new(Piece::whole(self.number as u32));
        }
        None
    }
}
