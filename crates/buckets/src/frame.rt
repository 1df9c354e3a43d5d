// A frame, tile by tile and epoch by epoch, to a sink.
ghost use Rattle.std.specs.Prelude.{◌≡◌, ◌≤◌, ◌<◌, ◌+◌, ◌^◌, ◌∷◌, [], Some, true, false, All, length, IfOk, OnOk, IsErrOf, slice_get};
ghost use Rattle.outside.specs.Frames.{Adds, AddsPart, PutsAll, whole};
ghost use Rattle.outside.specs.Steps.{HoldsOpen, PutsBytes, PutsOn, Writes};
ghost use Rattle.scene.specs.Scene.{FrameValue, IsPrim, HasUses};
ghost use Rattle.displace_shade.specs.Shop.{shop_set};
ghost use Rattle.hider.specs.Tiles.{Shows};
ghost use Rattle.buckets.specs.Pictures.{picture_of, header_of, frame_leaves, HasFrame};
ghost use Rattle.buckets.specs.Shopped.{shaded_by};
ghost use Rattle.buckets.specs.TileWalk.{bucket_of, fragments_of};
ghost use Rattle.buckets.specs.Standing.{Begun, InEpoch, AreLimits, FitsFrame, IsDrawn, IsFirstDrawn, IsFrame, IsShownOf, IsTile};
ghost use Rattle.buckets.specs.Rows.{PutsTo, PutsInPart, all_by};
ghost use Rattle.buckets.specs.Progress.{Advances, DrawsAll, GoesFurther, IsShopOf, IsThere, RunsEpoch, ShadesFew, Stands, Starts, next_of, drawing_of, report_before};
ghost use Rattle.buckets.specs.declared.limits.DrawFault.TheVariants.{WriteFault};

use crate::leaf_walk::{LeafWalk, prims_of};
use crate::limits::{DrawFault, Limits, Report};
use crate::put_pixels::{first_row, next_row, put_pixels};
use crate::row_band::{columns_of, crop_of, rows_of, tile_at};
use crate::share::{Share, tile_behind};
use crate::shown::Shown;
use crate::tile_drawing::TileDrawing;
use bumpalo::Bump;
use displace_shade::Shop;
use filter_ppm::{Film, PixelFilter, header};
use fixed_math::NoMemory;
use grid_epoch::Epoch;
use hider::Tile;
use outside::{FrameSink, put_all};
use scene::{Frame, Prim, Scene};
use std::alloc::Global;

/// Where the drawing of a frame stands: in a tile, with the pixels of its row of buckets so far, and what is told by now.
#[derive(Drop)]
pub(crate) struct Progress<'a> {
    pub(crate) drawing: TileDrawing<'a>,
    pub(crate) filter: PixelFilter,
    pub(crate) row: Vec<[u32; 3]>,
    pub(crate) report: Report,
}

// Goes to the next tile that is drawn, where there is one.
fn next_tile(alloc: Global, shown: &Shown<'_>, progress: &mut Progress<'_>) -> Result<(), NoMemory>
    ghost at_epoch: { InEpoch }
    requires drawn { IsDrawn at_epoch.begun shown.now }
    requires there { let n = progress.old.drawing.at in IsThere at_epoch.begun progress.old (bucket_of at_epoch.begun.drawing n).right (n + 1) }
    ensures { GoesFurther at_epoch progress.old progress.new result }
{
    let at = progress.drawing.at;
    let next = tile_behind(shown, at);
    progress.drawing.at = next;
    if next == shown.tiles {
        return Ok(());
    }
    next_row(alloc, shown, at, &mut progress.row)?;
    progress.drawing.begin(shown)?;
    Ok(())
}

// Finishes a tile, which shows all of the frame: its bucket's pixels go on their way to the sink, and the next tile begins.
fn finish_tile<O: FrameSink>(
    alloc: Global,
    shown: &Shown<'_>,
    progress: &mut Progress<'_>,
    sink: &mut O,
) -> Result<(), DrawFault>
    ghost at_epoch: { InEpoch }
    requires drawn { IsDrawn at_epoch.begun shown.now }
    requires there { let n = progress.old.drawing.at in IsThere at_epoch.begun progress.old (bucket_of at_epoch.begun.drawing n).left n }
    requires shows { Shows progress.old.drawing.tile (fragments_of at_epoch.begun.drawing (frame_leaves at_epoch.begun.drawing.frame)) }
    requires sink { HoldsOpen O.written O.is_open sink.old (PutsTo at_epoch.begun progress.old.drawing.at) }
    ensures goes { GoesFurther at_epoch progress.old progress.new result }
    ensures sink { PutsOn O.written O.is_open O.faults sink.old sink.new (PutsTo at_epoch.begun progress.new.drawing.at) (PutsInPart at_epoch.begun) result (IsErrOf result WriteFault) }
{
    let at = progress.drawing.at;
    let samples = progress.drawing.tile.samples() as u64;
    progress.report.most_samples = progress.report.most_samples.max(samples);
    put_pixels(
        alloc,
        shown,
        at,
        &progress.drawing.tile,
        &mut progress.filter,
        &mut progress.row,
        sink,
    )?;
    next_tile(alloc, shown, progress)?;
    Ok(())
}

// Goes on with a drawing in an epoch, to its end or to a leaf for whose grid there is no room.
fn go_on<'a, O: FrameSink>(
    alloc: Global,
    shown: &Shown<'_>,
    progress: &mut Progress<'_>,
    arena: &'a Bump,
    epoch: &mut Epoch<'a>,
    shop: &mut Shop,
    sink: &mut O,
) -> Result<(), DrawFault>
    ghost at_epoch: { InEpoch }
    requires drawn { IsDrawn at_epoch.begun shown.now }
    requires set { shop_set shop.old ≡ at_epoch.begun.drawing.accepted.set }
    requires limit { epoch.old.limit ≡ at_epoch.begun.drawing.limit }
    requires stands { Stands at_epoch progress.old epoch.old.kept shop.old.count }
    requires sink { HoldsOpen O.written O.is_open sink.old (PutsTo at_epoch.begun progress.old.drawing.at) }
    ensures advances { Advances at_epoch progress.old progress.new epoch.new shop.old shop.new result }
    ensures sink { PutsOn O.written O.is_open O.faults sink.old sink.new (PutsTo at_epoch.begun progress.new.drawing.at) (PutsInPart at_epoch.begun) result (IsErrOf result WriteFault) }
{
    while progress.drawing.at < shown.tiles {
        progress.drawing.fill(shown, arena, epoch, shop)?;
        if progress.drawing.next.is_some() {
            return Ok(());
        }
        finish_tile(alloc, shown, progress, sink)?;
    }
    Ok(())
}

// One epoch of a drawing: an arena, and the grids that are kept in it until it is given up.
fn run_epoch<O: FrameSink>(
    alloc: Global,
    shown: &Shown<'_>,
    progress: &mut Progress<'_>,
    shop: &mut Shop,
    sink: &mut O,
) -> Result<(), DrawFault>
    ghost begun: { Begun }
    requires drawn { IsDrawn begun shown.now }
    requires set { shop_set shop.old ≡ begun.drawing.accepted.set }
    requires epochs { progress.old.report.epochs + 1 < 2 ^ 64 }
    requires stands { Stands (next_of begun progress.old.report) progress.old [] shop.old.count }
    requires sink { HoldsOpen O.written O.is_open sink.old (PutsTo begun progress.old.drawing.at) }
    ensures runs { RunsEpoch begun progress.old progress.new shop.old shop.new result }
    ensures sink { PutsOn O.written O.is_open O.faults sink.old sink.new (PutsTo begun progress.new.drawing.at) (PutsInPart begun) result (IsErrOf result WriteFault) }
{
    progress.report.epochs += 1;
    let arena = Bump::new(alloc);
    let mut epoch = Epoch::new(alloc, shown.limits.grid_points);
    go_on(alloc, shown, progress, &arena, &mut epoch, shop, sink)?;
    progress.report.most_points = progress.report.most_points.max(epoch.live() as u64);
    Ok(())
}

// A drawing that is to begin with the first tile that is drawn.
fn started<'a>(
    alloc: Global,
    shown: &Shown<'a>,
    first: usize,
    report: Report,
) -> Result<Progress<'a>, NoMemory>
    ghost begun: { Begun }
    requires tile { IsTile begun shown.now first }
    requires first { IsFirstDrawn begun.drawing 0 first }
    requires report { report ≡ report_before begun }
    ensures { IfOk result (Starts begun first) }
{
    let frame = shown.frame;
    let view = frame.camera.view();
    let options = frame.options;
    // here is told that all options are in order
    options.ranges_known();
    let film = Film {
        width: view.width,
        height: view.height,
        options,
    };
    let rect = tile_at(shown, first);
    let tile = Tile::new(alloc, rect, options.xs as u32, options.ys as u32)?;
    let mut leaves = LeafWalk::new(alloc, shown.frame, rect)?;
    let next = leaves.next(rect, &tile);
    Ok(Progress {
        drawing: TileDrawing {
            at: first,
            rect,
            tile,
            leaves,
            next,
        },
        filter: PixelFilter::new(alloc, &film)?,
        row: first_row(alloc, shown, first)?,
        report,
    })
}

/// The bytes of the pixels that are drawn: of a whole picture row of buckets after row, of a part bucket after bucket, from the first
/// one on.
pub(crate) fn draw_tiles<O: FrameSink>(
    alloc: Global,
    shown: &Shown<'_>,
    first: usize,
    shop: &mut Shop,
    report: &mut Report,
    sink: &mut O,
) -> Result<(), DrawFault>
    ghost begun: { Begun }
    requires tile { IsTile begun shown.now first }
    requires first { IsFirstDrawn begun.drawing 0 first }
    requires shop { IsShopOf begun shop.old }
    requires report { report.old ≡ report_before begun }
    requires sink { HoldsOpen O.written O.is_open sink.old (λ ws. ws ≡ begun.written) }
    ensures draws { DrawsAll begun.drawing begun.count shop.new.count (report_before begun) report.new result }
    ensures shop { ShadesFew shop.old shop.new result }
    ensures few_epochs { OnOk result (report.new.epochs ≤ report.old.epochs + 2 ^ 52 + 1) }
    ensures sink { PutsOn O.written O.is_open O.faults sink.old sink.new (PutsAll (all_by begun.drawing.share begun.drawing) begun.written) (PutsInPart begun) result (IsErrOf result WriteFault) }
{
    let mut progress = started(alloc, shown, first, *report)?;
    while progress.drawing.at < shown.tiles {
        let run = run_epoch(alloc, shown, &mut progress, shop, sink);
        *report = progress.report;
        run?;
    }
    Ok(())
}

// Puts the header of a frame's picture.
fn put_header<O: FrameSink>(alloc: Global, frame: &Frame, sink: &mut O) -> Result<(), DrawFault>
    requires { O.is_open sink.old ≡ true }
    ensures { PutsBytes O.written O.is_open O.faults sink.old sink.new (header_of frame.now) result (IsErrOf result WriteFault) }
{
    let crop = crop_of(frame);
    let bytes = header(alloc, crop[2] - crop[0], crop[3] - crop[1], &frame.options)?;
    put_all(sink, &bytes)?;
    Ok(())
}

// The frame of a scene at a place.
fn frame_at(scene: &Scene, index: usize) -> &Frame
    requires { index < length scene.now.frames }
    ensures there { slice_get scene.now.frames index ≡ Some result.now }
    ensures uses { All (HasUses scene.now.uses) result.now.prims }
{
    let frames = scene.frames.as_slice();
    &frames[index]
}

// Does nothing: a call tells a proof what holds of every primitive.
fn prims_known(prims: &[Prim])
    ensures { All IsPrim prims.now }
{
    for prim in prims {
        let _bound = prim.bound;
    }
}

// Does nothing: a call tells a proof what holds of every frame.
fn recall(frame: &Frame)
    ensures { IsFrame frame.now }
{
    let _view = frame.camera.view();
    frame.options.ranges_known();
    prims_known(prims_of(frame));
}

/// The frame of a scene at a place, of which a share is to be drawn within limits.
pub(crate) fn shown_in<'a>(
    scene: &'a Scene,
    index: usize,
    limits: Limits,
    share: Share,
) -> Shown<'a>
    requires frame { index < length scene.now.frames }
    requires limits { AreLimits limits }
    ensures { IsShownOf scene.now index limits share result }
{
    let frame = frame_at(scene, index);
    recall(frame);
    let tiles = columns_of(frame, limits.bucket) as usize * rows_of(frame, limits.bucket) as usize;
    Shown {
        scene,
        index,
        frame,
        limits,
        tiles,
        share,
    }
}

// The name of a frame's picture.
fn name_of(frame: &Frame) -> &str
    ensures { result.now ≡ frame.now.name }
{
    frame.name.get().as_str()
}

/// Draws a frame of a scene bucket by bucket, shaded by the shop's set, and puts its picture to the sink: it begins the frame, puts
/// the header and then the pixels of one row of buckets after another, and ends the frame. Shaded grids are kept from tile to tile
/// while they have at most `grid_points` points; an epoch ends where there is no room for one more. So memory doesn't grow with
/// the frame.
///
/// The count of the shop rises by the shadings of the tile walk, and the report tells of its epochs and its greatest numbers. The
/// frame is there, the set fits the scene, no frame of the sink is open, the limits lie in their ranges, and the shop's count and the
/// report's epochs are at most 2^62. A fault leaves nothing in the sink, or an entry that isn't ended with a front of the picture.
pub fn render_frame<O: FrameSink>(
    alloc: Global,
    scene: &Scene,
    frame: usize,
    limits: Limits,
    shop: &mut Shop,
    report: &mut Report,
    sink: &mut O,
) -> Result<(), DrawFault>
    requires frame { frame < length scene.now.frames }
    requires fits { FitsFrame (shop_set shop.old) scene.now frame }
    requires closed { O.is_open sink.old ≡ false }
    requires limits { AreLimits limits }
    requires room { (shop.old.count ≤ 2 ^ 62) × (report.old.epochs ≤ 2 ^ 62) }
    ensures sink { Writes O.written O.is_open O.faults sink.old sink.new
        (λ ws. (f : FrameValue) → HasFrame scene.now frame f → Adds (whole (picture_of (shaded_by scene.now shop.old) f) ∷ []) (O.written sink.old) ws)
        (λ ws. (f : FrameValue) → HasFrame scene.now frame f → AddsPart (picture_of (shaded_by scene.now shop.old) f) (O.written sink.old) ws) result (IsErrOf result WriteFault) }
    ensures draws { (f : FrameValue) → HasFrame scene.now frame f → DrawsAll (drawing_of scene.now (shop_set shop.old) f limits) shop.old.count shop.new.count report.old report.new result }
    ensures shop { ShadesFew shop.old shop.new result }
    ensures few_epochs { OnOk result (report.new.epochs ≤ report.old.epochs + 2 ^ 52 + 1) }
{
    let shown = shown_in(scene, frame, limits, Share::Whole);
    sink.begin(name_of(shown.frame))?;
    put_header(alloc, shown.frame, sink)?;
    draw_tiles(alloc, &shown, 0, shop, report, sink)?;
    sink.end()?;
    Ok(())
}
