// The leaves of a frame, one after another.
ghost use Rattle.std.specs.Prelude.{◌≡◌, ◌≤◌, ◌<◌, ◌+◌, ◌^◌, pos, ◌≤ℤ◌, Some, All, IfSome, OnOk, length, slice_get};
ghost use Rattle.patches.specs.Parts.{IsPart};
ghost use Rattle.bound_split.specs.declared.splits.Decision.TheVariants.{Dice};
ghost use Rattle.bound_split.specs.Culling.{SkipsTo};
ghost use Rattle.bound_split.specs.Extents.{pixels_of};
ghost use Rattle.transforms.specs.Field.{IsView};
ghost use Rattle.displace_shade.specs.Shop.{shop_set};
ghost use Rattle.buckets.specs.Sights.{IsSight};
ghost use Rattle.buckets.specs.Pictures.{decide, leaf_micropolygons, prim_leaves, micropolygons_of, micropolygons};
ghost use Rattle.pixel_account.specs.Origins.{IsLeaf};
ghost use Rattle.pixel_account.specs.Stacks.{InFrame, meets_in, IsShown, AreSamplesOf, PutInAll};

use crate::cells::put_grid;
use crate::points::LeafGrid;
use crate::shown::Shown;
use crate::stacks::Stack;
use bound_split::{Leaf, Sight, Walk, sight_of};
use bumpalo::Bump;
use displace_shade::Shop;
use fixed_math::NoMemory;
use moving::Moving;
use patches::Piece;
use scene::{Frame, Prim};
use std::alloc::Global;

/// Where a piece of a primitive can show, and what becomes of it.
fn look_at(frame: &Frame, prim: &Prim, piece: &Piece) -> Sight
    ensures sight { IsSight frame.now prim.now piece.now result }
    ensures bound { pos 0 ≤ℤ prim.now.bound }
    ensures view { IsView frame.now.camera }
{
    let _view = frame.camera.view();
    match &prim.closing {
        None => sight_of(&prim.patch, piece, &frame.camera, prim.rate, prim.bound),
        Some(last) => {
            let moving = Moving {
                first: &prim.patch,
                last,
            };
            sight_of(&moving, piece, &frame.camera, prim.rate, prim.bound)
        }
    }
}

/// The next leaf of a primitive that can show in a rectangle of pixels. A piece that can't isn't split.
fn next_of(walk: &mut Walk, frame: &Frame, prim: &Prim, rect: [u32; 4]) -> Option<Leaf>
    ensures skipped { SkipsTo (meets_in frame.now prim.now (pixels_of rect)) (decide frame.now.camera prim.now) walk.old walk.new result }
    ensures sizes { IfSome result (λ leaf. decide frame.now.camera prim.now leaf.piece ≡ Dice leaf.p leaf.q) }
    ensures small { IfSome result (λ leaf. IsPart leaf.piece × (leaf.p ≤ 4) × (leaf.q ≤ 4)) }
{
    while let Some(piece) = walk.take() {
        let sight = look_at(frame, prim, &piece);
        if sight.extent.meets(rect) {
            if let Some(leaf) = walk.visit(piece, sight.decision) {
                return Some(leaf);
            }
        }
    }
    None
}

/// Puts in what a leaf shows at each sample.
fn put_leaf(
    alloc: Global,
    shown: &Shown<'_>,
    prim: &Prim,
    leaf: Leaf,
    shop: &mut Shop,
    stacks: &mut [Stack],
) -> Result<(), NoMemory>
    ghost at: { InFrame }
    requires shown { IsShown at.accepted shown.now }
    requires frame { shown.now.frame.now ≡ at.frame }
    requires set { shop_set shop.old ≡ at.accepted.set }
    requires there { slice_get at.frame.prims leaf.piece.prim ≡ Some prim.now }
    requires leaf { IsLeaf at.frame prim.now leaf.piece.prim leaf.piece leaf.p leaf.q }
    requires p { leaf.p ≤ 4 }
    requires q { leaf.q ≤ 4 }
    requires count { shop.old.count < 18446744073709551615 }
    ensures put { OnOk result (PutInAll at.accepted at.frame (leaf_micropolygons at.accepted at.frame prim.now leaf.piece) stacks.old stacks.new) }
    ensures set { shop.new.set ≡ shop.old.set }
    ensures textures { shop.new.cache.textures ≡ shop.old.cache.textures }
    ensures count { OnOk result (shop.new.count ≡ shop.old.count + 1) }
{
    let arena = Bump::new(alloc);
    let grid = shop.shade(
        &arena,
        shown.scene,
        shown.index,
        &leaf.piece,
        leaf.p,
        leaf.q,
    )?;
    let shaded = LeafGrid { prim, leaf, grid };
    let frame = shown.frame;
    put_grid(&frame.camera, &shaded, stacks)?;
    Ok(())
}

/// Puts in what a primitive shows at each sample.
fn put_prim(
    alloc: Global,
    shown: &Shown<'_>,
    number: usize,
    prim: &Prim,
    shop: &mut Shop,
    stacks: &mut [Stack],
) -> Result<(), NoMemory>
    ghost at: { InFrame }
    requires shown { IsShown at.accepted shown.now }
    requires frame { shown.now.frame.now ≡ at.frame }
    requires set { shop_set shop.old ≡ at.accepted.set }
    requires few { number < 65536 }
    requires there { slice_get at.frame.prims number ≡ Some prim.now }
    requires samples { AreSamplesOf at.frame (pixels_of shown.now.rect) stacks.old }
    requires count { shop.old.count ≤ 2 ^ 63 }
    ensures put { OnOk result (PutInAll at.accepted at.frame (micropolygons_of at.accepted at.frame (prim_leaves at.frame number prim.now)) stacks.old stacks.new) }
    ensures set { shop.new.set ≡ shop.old.set }
    ensures textures { shop.new.cache.textures ≡ shop.old.cache.textures }
    ensures count { OnOk result (shop.new.count ≤ shop.old.count + 65536) }
{
    let mut walk = Walk::new(Piece::whole(number as u32));
    while let Some(leaf) = next_of(&mut walk, shown.frame, prim, shown.rect) {
        put_leaf(alloc, shown, prim, leaf, shop, stacks)?;
    }
    Ok(())
}

/// The primitives of a frame.
pub(crate) fn prims_of(frame: &Frame) -> &[Prim]
    ensures prims { result.now ≡ frame.now.prims }
    ensures few { length result.now ≤ 65536 }
{
    frame.prims.as_slice()
}

/// Puts in what a frame shows at each sample.
pub(crate) fn put_frame(
    alloc: Global,
    shown: &Shown<'_>,
    shop: &mut Shop,
    stacks: &mut [Stack],
) -> Result<(), NoMemory>
    ghost at: { InFrame }
    requires shown { IsShown at.accepted shown.now }
    requires frame { shown.now.frame.now ≡ at.frame }
    requires set { shop_set shop.old ≡ at.accepted.set }
    requires samples { AreSamplesOf at.frame (pixels_of shown.now.rect) stacks.old }
    requires count { shop.old.count ≤ 2 ^ 62 }
    ensures put { OnOk result (PutInAll at.accepted at.frame (micropolygons at.accepted at.frame) stacks.old stacks.new) }
    ensures set { shop.new.set ≡ shop.old.set }
    ensures textures { shop.new.cache.textures ≡ shop.old.cache.textures }
    ensures count { OnOk result (shop.new.count ≤ shop.old.count + 4294967296) }
{
    let prims = prims_of(shown.frame);
    for number in 0..prims.len() {
        put_prim(alloc, shown, number, &prims[number], shop, stacks)?;
    }
    Ok(())
}
