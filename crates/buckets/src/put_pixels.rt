// The pixels of a bucket, on their way to the sink.
ghost use Rattle.std.specs.Prelude.{◌≡◌, ◌+◌, ℕ, IfOk, OnOk, IsErrOf};
ghost use Rattle.outside.specs.Steps.{HoldsOpen, PutsOn};
ghost use Rattle.buckets.specs.TileWalk.{bucket_of, picture_rect};
ghost use Rattle.buckets.specs.Standing.{Begun, IsTile, ShowsTile};
ghost use Rattle.buckets.specs.Rows.{HasRow, PutsTo, PutsInPart, bucket_bytes};
ghost use Rattle.buckets.specs.declared.share.Share.TheVariants.{Whole, Nth};
ghost use Rattle.buckets.specs.declared.limits.DrawFault.TheVariants.{WriteFault};

use crate::limits::DrawFault;
use crate::row_band::{bucket_at, new_row, put_bucket, put_row, turn_row};
use crate::share::Share;
use crate::shown::Shown;
use filter_ppm::{PixelFilter, append_band};
use fixed_math::NoMemory;
use hider::Tile;
use outside::{FrameSink, put_all};
use parts::append_number;
use std::alloc::Global;

/// The pixels of the row of the first bucket, none of which is known yet, where a whole picture is drawn.
pub(crate) fn first_row(
    alloc: Global,
    shown: &Shown<'_>,
    at: usize,
) -> Result<Vec<[u32; 3]>, NoMemory>
    ghost begun: { Begun }
    requires { IsTile begun shown.now at }
    ensures { IfOk result (λ row. HasRow begun.drawing at (picture_rect begun.drawing.frame).left row.items) }
{
    match shown.share {
        Share::Whole => Ok(new_row(alloc, shown, at)?),
        Share::Nth { .. } => Ok(Vec::new(alloc)),
    }
}

/// Goes from the row of bucket `at` to that of the next one, where these are two.
pub(crate) fn next_row(
    alloc: Global,
    shown: &Shown<'_>,
    at: usize,
    row: &mut Vec<[u32; 3]>,
) -> Result<(), NoMemory>
    ghost begun: { Begun }
    requires tile { IsTile begun shown.now (at + 1) }
    requires row { HasRow begun.drawing at (bucket_of begun.drawing at).right row.old.items }
    ensures { OnOk result (HasRow begun.drawing (at + 1) (bucket_of begun.drawing (at + 1)).left row.new.items) }
{
    match shown.share {
        Share::Whole => turn_row(alloc, shown, at, row)?,
        Share::Nth { .. } => (),
    }
    Ok(())
}

// The number of a bucket, and its pixels by rows.
fn bytes_of(
    alloc: Global,
    shown: &Shown<'_>,
    at: usize,
    tile: &Tile,
    filter: &mut PixelFilter,
) -> Result<Vec<u8>, NoMemory>
    ghost begun: { Begun }
    requires { ShowsTile begun shown.now at tile.now filter.old }
    ensures format { filter.new ≡ filter.old }
    ensures bytes { IfOk result (λ bytes. bytes.items ≡ bucket_bytes begun.drawing at) }
{
    let pixels = filter.pixels(alloc, tile, bucket_at(shown, at))?;
    let frame = shown.frame;
    let mut bytes = Vec::new(alloc);
    append_number(&mut bytes, at as u32)?;
    append_band(&mut bytes, &frame.options, pixels.as_slice())?;
    Ok(bytes)
}

// Puts a bucket of a part to the sink.
fn put_alone<O: FrameSink>(
    alloc: Global,
    shown: &Shown<'_>,
    at: usize,
    tile: &Tile,
    filter: &mut PixelFilter,
    sink: &mut O,
) -> Result<(), DrawFault>
    ghost begun: { Begun }
    requires part { (part parts : ℕ) × (begun.drawing.share ≡ Nth part parts) }
    requires tile { ShowsTile begun shown.now at tile.now filter.old }
    requires sink { HoldsOpen O.written O.is_open sink.old (PutsTo begun at) }
    ensures format { filter.new ≡ filter.old }
    ensures sink { PutsOn O.written O.is_open O.faults sink.old sink.new (PutsTo begun (at + 1)) (PutsInPart begun) result (IsErrOf result WriteFault) }
{
    let bytes = bytes_of(alloc, shown, at, tile, filter)?;
    put_all(sink, &bytes)?;
    Ok(())
}

// Puts a bucket of a whole picture into its row, and a row that is done to the sink.
fn put_in_row<O: FrameSink>(
    alloc: Global,
    shown: &Shown<'_>,
    at: usize,
    tile: &Tile,
    filter: &mut PixelFilter,
    row: &mut Vec<[u32; 3]>,
    sink: &mut O,
) -> Result<(), DrawFault>
    ghost begun: { Begun }
    requires whole { begun.drawing.share ≡ Whole }
    requires tile { ShowsTile begun shown.now at tile.now filter.old }
    requires row { HasRow begun.drawing at (bucket_of begun.drawing at).left row.old.items }
    requires sink { HoldsOpen O.written O.is_open sink.old (PutsTo begun at) }
    ensures format { filter.new ≡ filter.old }
    ensures row { OnOk result (HasRow begun.drawing at (bucket_of begun.drawing at).right row.new.items) }
    ensures sink { PutsOn O.written O.is_open O.faults sink.old sink.new (PutsTo begun (at + 1)) (PutsInPart begun) result (IsErrOf result WriteFault) }
{
    put_bucket(shown, at, tile, filter, row)?;
    put_row(alloc, shown, at, row.as_slice(), sink)?;
    Ok(())
}

/// Puts the pixels of a bucket, whose tile shows the whole frame: of a whole picture into their row, and a row that is done to the
/// sink; of a part to the sink at once.
pub(crate) fn put_pixels<O: FrameSink>(
    alloc: Global,
    shown: &Shown<'_>,
    at: usize,
    tile: &Tile,
    filter: &mut PixelFilter,
    row: &mut Vec<[u32; 3]>,
    sink: &mut O,
) -> Result<(), DrawFault>
    ghost begun: { Begun }
    requires tile { ShowsTile begun shown.now at tile.now filter.old }
    requires row { HasRow begun.drawing at (bucket_of begun.drawing at).left row.old.items }
    requires sink { HoldsOpen O.written O.is_open sink.old (PutsTo begun at) }
    ensures format { filter.new ≡ filter.old }
    ensures row { OnOk result (HasRow begun.drawing at (bucket_of begun.drawing at).right row.new.items) }
    ensures sink { PutsOn O.written O.is_open O.faults sink.old sink.new (PutsTo begun (at + 1)) (PutsInPart begun) result (IsErrOf result WriteFault) }
{
    match shown.share {
        Share::Whole => put_in_row(alloc, shown, at, tile, filter, row, sink),
        Share::Nth { .. } => put_alone(alloc, shown, at, tile, filter, sink),
    }
}
