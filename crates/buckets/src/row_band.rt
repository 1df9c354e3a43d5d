// The pixels of a row of buckets.
ghost use Rattle.std.specs.Prelude.{◌≡◌, ◌≤◌, ◌<◌, ◌+◌, ◌-◌, ◌*◌, ◌/◌, ◌%◌, true, All, length, IfOk, OnOk, IsErrOf, slice_index_or};
ghost use Rattle.fixed_math.specs.Buckets.{bucket_columns, bucket_rows};
ghost use Rattle.outside.specs.Steps.{HoldsOpen, PutsOn};
ghost use Rattle.filter_ppm.specs.Bands.{rect_with};
ghost use Rattle.buckets.specs.TileWalk.{bucket_of, tile_rect, picture_rect};
ghost use Rattle.buckets.specs.Standing.{Begun, IsCropOf, IsTile, ShowsTile};
ghost use Rattle.buckets.specs.Rows.{IsRowTo, PutsRowsTo, PutsRowsInPart};
ghost use Rattle.buckets.specs.declared.limits.DrawFault.TheVariants.{WriteFault};

use crate::limits::DrawFault;
use crate::shown::Shown;
use filter_ppm::{PixelFilter, band_bytes, reach};
use fixed_math::NoMemory;
use hider::Tile;
use outside::{FrameSink, put_all};
use scene::Frame;
use std::alloc::Global;

/// The pixels of a frame's picture: their left, top, right and bottom.
pub(crate) fn crop_of(frame: &Frame) -> [u32; 4]
    ensures { IsCropOf frame.now result }
{
    // here is told that a camera sees at most 4,096 pixels each way
    let _view = frame.camera.view();
    frame.options.crop
}

/// The number of columns of buckets.
pub(crate) fn columns_of(frame: &Frame, side: u32) -> u32
    requires low { 4 ≤ side }
    requires high { side ≤ 64 }
    ensures value { result ≡ bucket_columns side (picture_rect frame.now) }
    ensures some { 1 ≤ result }
    ensures most { result ≤ 1024 }
{
    let crop = crop_of(frame);
    (crop[2] - crop[0] + (side - 1)) / side
}

/// The number of rows of buckets.
pub(crate) fn rows_of(frame: &Frame, side: u32) -> u32
    requires low { 4 ≤ side }
    requires high { side ≤ 64 }
    ensures value { result ≡ bucket_rows side (picture_rect frame.now) }
    ensures some { 1 ≤ result }
    ensures most { result ≤ 1024 }
{
    let crop = crop_of(frame);
    (crop[3] - crop[1] + (side - 1)) / side
}

/// The bucket of a number: its left, top, right and bottom.
pub(crate) fn bucket_at(shown: &Shown<'_>, at: usize) -> [u32; 4]
    ghost begun: { Begun }
    requires { IsTile begun shown.now at }
    ensures { rect_with result ≡ bucket_of begun.drawing at }
{
    let frame = shown.frame;
    let side = shown.limits.bucket;
    let columns = columns_of(frame, side) as usize;
    let crop = crop_of(frame);
    let left = crop[0] + side * (at % columns) as u32;
    let top = crop[1] + side * (at / columns) as u32;
    [
        left,
        top,
        (left + side).min(crop[2]),
        (top + side).min(crop[3]),
    ]
}

/// The tile of a number: its left, top, right and bottom.
pub(crate) fn tile_at(shown: &Shown<'_>, at: usize) -> [u32; 4]
    ghost begun: { Begun }
    requires { IsTile begun shown.now at }
    ensures { rect_with result ≡ tile_rect begun.drawing at }
{
    let [left, top, right, bottom] = bucket_at(shown, at);
    let frame = shown.frame;
    let view = frame.camera.view();
    let options = &frame.options;
    let across = reach(options.wx);
    let down = reach(options.wy);
    [
        left.saturating_sub(across),
        top.saturating_sub(down),
        (right + across).min(view.width),
        (bottom + down).min(view.height),
    ]
}

/// A row of the picture's pixels as high as a bucket.
pub(crate) fn new_row(
    alloc: Global,
    shown: &Shown<'_>,
    at: usize,
) -> Result<Vec<[u32; 3]>, NoMemory>
    ghost begun: { Begun }
    requires { IsTile begun shown.now at }
    ensures { IfOk result (λ row. IsRowTo begun.drawing at (picture_rect begun.drawing.frame).left row.items) }
{
    let [_, top, _, bottom] = bucket_at(shown, at);
    let frame = shown.frame;
    let crop = crop_of(frame);
    let width = (crop[2] - crop[0]) as usize;
    Ok(vec![in alloc; [0; 3]; width * (bottom - top) as usize]?)
}

/// Goes from the row of bucket `at` to that of the next one, where these are two.
pub(crate) fn turn_row(
    alloc: Global,
    shown: &Shown<'_>,
    at: usize,
    row: &mut Vec<[u32; 3]>,
) -> Result<(), NoMemory>
    ghost begun: { Begun }
    requires tile { IsTile begun shown.now (at + 1) }
    requires row { IsRowTo begun.drawing at (bucket_of begun.drawing at).right row.old.items }
    ensures { OnOk result (IsRowTo begun.drawing (at + 1) (bucket_of begun.drawing (at + 1)).left row.new.items) }
{
    let frame = shown.frame;
    let columns = columns_of(frame, shown.limits.bucket) as usize;
    if (at + 1) % columns != 0 {
        return Ok(());
    }
    *row = new_row(alloc, shown, at + 1)?;
    Ok(())
}

/// Puts the pixels of a bucket, whose tile shows the whole frame, into its row.
pub(crate) fn put_bucket(
    shown: &Shown<'_>,
    at: usize,
    tile: &Tile,
    filter: &mut PixelFilter,
    row: &mut Vec<[u32; 3]>,
) -> Result<(), NoMemory>
    ghost begun: { Begun }
    requires tile { ShowsTile begun shown.now at tile.now filter.old }
    requires row { IsRowTo begun.drawing at (bucket_of begun.drawing at).left row.old.items }
    ensures format { filter.new ≡ filter.old }
    ensures row { OnOk result (IsRowTo begun.drawing at (bucket_of begun.drawing at).right row.new.items) }
{
    filter.put(tile, bucket_at(shown, at), row.as_mut_slice())?;
    Ok(())
}

/// Puts the pixels of a row to the sink, where bucket `at` is its last one.
pub(crate) fn put_row<O: FrameSink>(
    alloc: Global,
    shown: &Shown<'_>,
    at: usize,
    row: &[[u32; 3]],
    sink: &mut O,
) -> Result<(), DrawFault>
    ghost begun: { Begun }
    requires tile { IsTile begun shown.now at }
    requires row { IsRowTo begun.drawing at (bucket_of begun.drawing at).right row.now }
    requires sink { HoldsOpen O.written O.is_open sink.old (PutsRowsTo begun at) }
    ensures { PutsOn O.written O.is_open O.faults sink.old sink.new (PutsRowsTo begun (at + 1)) (PutsRowsInPart begun) result (IsErrOf result WriteFault) }
{
    let frame = shown.frame;
    let columns = columns_of(frame, shown.limits.bucket) as usize;
    if (at + 1) % columns != 0 {
        return Ok(());
    }
    let bytes = band_bytes(alloc, &frame.options, row)?;
    put_all(sink, &bytes)?;
    Ok(())
}
