// A part of a frame's picture, to a sink.
ghost use Rattle.std.specs.Prelude.{◌≡◌, ◌≤◌, ◌<◌, ◌^◌, ◌∷◌, [], true, false, length, IfOk, IsErrOf, slice_index_or};
ghost use Rattle.outside.specs.Frames.{Adds, AddsPart, PutsAll, whole};
ghost use Rattle.outside.specs.Steps.{HoldsOpen, PutsBytes, PutsOn, Writes};
ghost use Rattle.scene.specs.Scene.{FrameValue};
ghost use Rattle.displace_shade.specs.Shop.{shop_set};
ghost use Rattle.buckets.specs.Shopped.{shaded_by};
ghost use Rattle.buckets.specs.Pictures.{HasFrame};
ghost use Rattle.buckets.specs.FrameParts.{IsPartText, entry_of, share_header, share_text};
ghost use Rattle.buckets.specs.Standing.{AreLimits, Begun, FitsFrame, IsDrawn};
ghost use Rattle.buckets.specs.Rows.{PutsInPart, all_by};
ghost use Rattle.buckets.specs.Progress.{IsShopOf, ShadesAtMost, ShadesFew, part_of as part_drawing, report_before};
ghost use Rattle.buckets.specs.declared.limits.DrawFault.TheVariants.{WriteFault};

use crate::frame::{draw_tiles, shown_in};
use crate::limits::{DrawFault, Limits, Report};
use crate::row_band::crop_of;
use crate::share::{Share, drawn_count, first_tile};
use crate::shown::Shown;
use displace_shade::Shop;
use fixed_math::NoMemory;
use outside::{FrameSink, put_all};
use parts::{Header, header_bytes};
use scene::Scene;
use std::alloc::Global;

// The bytes of a part before its buckets.
fn header_of(alloc: Global, shown: &Shown<'_>, tag: u32) -> Result<Vec<u8>, NoMemory>
    ghost begun: { Begun }
    requires { IsDrawn begun shown.now }
    ensures { IfOk result (λ bytes. bytes.items ≡ share_header begun.drawing tag) }
{
    let frame = shown.frame;
    let crop = crop_of(frame);
    let options = frame.options;
    let header = Header {
        width: crop[2] - crop[0],
        height: crop[3] - crop[1],
        one: options.one,
        side: shown.limits.bucket,
        tag,
    };
    Ok(header_bytes(alloc, &header, drawn_count(shown))?)
}

// Puts the bytes of a part before its buckets.
fn put_header<O: FrameSink>(
    alloc: Global,
    shown: &Shown<'_>,
    tag: u32,
    sink: &mut O,
) -> Result<(), DrawFault>
    ghost begun: { Begun }
    requires drawn { IsDrawn begun shown.now }
    requires open { O.is_open sink.old ≡ true }
    ensures { PutsBytes O.written O.is_open O.faults sink.old sink.new (share_header begun.drawing tag) result (IsErrOf result WriteFault) }
{
    let bytes = header_of(alloc, shown, tag)?;
    put_all(sink, &bytes)?;
    Ok(())
}

// Puts the buckets of a part, if it has any.
fn put_buckets<O: FrameSink>(
    alloc: Global,
    shown: &Shown<'_>,
    shop: &mut Shop,
    sink: &mut O,
) -> Result<(), DrawFault>
    ghost begun: { Begun }
    requires drawn { IsDrawn begun shown.now }
    requires shop { IsShopOf begun shop.old }
    requires report { report_before begun ≡ record { epochs = 0; most_points = 0; most_samples = 0 } }
    requires sink { HoldsOpen O.written O.is_open sink.old (λ ws. ws ≡ begun.written) }
    ensures shaded { ShadesAtMost begun.drawing shop.old.count shop.new.count }
    ensures shop { ShadesFew shop.old shop.new result }
    ensures sink { PutsOn O.written O.is_open O.faults sink.old sink.new (PutsAll (all_by begun.drawing.share begun.drawing) begun.written) (PutsInPart begun) result (IsErrOf result WriteFault) }
{
    let first = first_tile(shown);
    if first == shown.tiles {
        return Ok(());
    }
    let mut report = Report {
        epochs: 0,
        most_points: 0,
        most_samples: 0,
    };
    draw_tiles(alloc, shown, first, shop, &mut report, sink)?;
    Ok(())
}

// Puts the text of a part: its header and its buckets.
fn put_part<O: FrameSink>(
    alloc: Global,
    shown: &Shown<'_>,
    tag: u32,
    shop: &mut Shop,
    sink: &mut O,
) -> Result<(), DrawFault>
    ghost begun: { Begun }
    requires drawn { IsDrawn begun shown.now }
    requires shop { IsShopOf begun shop.old }
    requires report { report_before begun ≡ record { epochs = 0; most_points = 0; most_samples = 0 } }
    requires open { O.is_open sink.old ≡ true }
    ensures shaded { ShadesAtMost begun.drawing shop.old.count shop.new.count }
    ensures shop { ShadesFew shop.old shop.new result }
    ensures text { IsPartText begun.drawing tag (share_text begun.drawing tag) }
    ensures sink { PutsBytes O.written O.is_open O.faults sink.old sink.new (share_text begun.drawing tag) result (IsErrOf result WriteFault) }
{
    put_header(alloc, shown, tag, sink)?;
    put_buckets(alloc, shown, shop, sink)?;
    Ok(())
}

/// Draws part K of N of a frame of a scene, where `part` is K and N, and puts its text to the sink as a frame of that name: the
/// buckets of the frame's picture whose number modulo N is K, each with its number and its pixels (`parts::join` makes a picture of
/// all parts). It is drawn as `render_frame` draws all buckets, with the same bounds of memory.
///
/// The count of the shop rises by no more than the leaves that meet the part's tiles, each once for a tile. The frame is there, the
/// set fits the scene, no frame of the sink is open, the limits lie in their ranges, K is below N, and the shop's count is at most
/// 2^62. A fault leaves nothing in the sink, or an entry that isn't ended with a front of the text.
pub fn render_part<O: FrameSink>(
    alloc: Global,
    scene: &Scene,
    frame: usize,
    limits: Limits,
    part: [u32; 2],
    tag: u32,
    name: &str,
    shop: &mut Shop,
    sink: &mut O,
) -> Result<(), DrawFault>
    requires frame { frame < length scene.now.frames }
    requires fits { FitsFrame (shop_set shop.old) scene.now frame }
    requires closed { O.is_open sink.old ≡ false }
    requires limits { AreLimits limits }
    requires part { slice_index_or part 0 0 < slice_index_or part 1 0 }
    requires count { shop.old.count ≤ 2 ^ 62 }
    ensures sink { Writes O.written O.is_open O.faults sink.old sink.new
        (λ ws. (f : FrameValue) → HasFrame scene.now frame f → Adds (whole (entry_of (shaded_by scene.now shop.old) f limits.bucket tag part name.now) ∷ []) (O.written sink.old) ws)
        (λ ws. (f : FrameValue) → HasFrame scene.now frame f → AddsPart (entry_of (shaded_by scene.now shop.old) f limits.bucket tag part name.now) (O.written sink.old) ws)
        result (IsErrOf result WriteFault) }
    ensures shaded { (f : FrameValue) → HasFrame scene.now frame f → ShadesAtMost (part_drawing scene.now (shop_set shop.old) f limits part) shop.old.count shop.new.count }
    ensures shop { ShadesFew shop.old shop.new result }
{
    let share = Share::Nth {
        part: part[0],
        parts: part[1],
    };
    let shown = shown_in(scene, frame, limits, share);
    sink.begin(name)?;
    put_part(alloc, &shown, tag, shop, sink)?;
    sink.end()?;
    Ok(())
}
