// Frames to a sink.
ghost use Rattle.std.specs.Prelude.{◌≡◌, ◌≤◌, ◌+◌, ◌^◌, ◌∷◌, [], Some, false, length, map, option_map, string_bytes, slice_get, IfOk, OnOk, IsErrOf};
ghost use Rattle.outside.specs.Frames.{Adds, whole};
ghost use Rattle.outside.specs.NoteLines.{Says};
ghost use Rattle.outside.specs.Steps.{Writes, WritesPicture};
ghost use Rattle.displace_shade.specs.Shop.{set_value, shop_set};
ghost use Rattle.acceptance.specs.PrimFit.{FitsScene};
ghost use Rattle.buckets.specs.Shopped.{shaded_by};
ghost use Rattle.buckets.specs.declared.limits.DrawFault.TheVariants.{WriteFault};
ghost use Rattle.command_line.specs.Ranges.{LieInRanges};
ghost use Rattle.buckets.specs.Pictures.{picture_of};
ghost use Rattle.render.specs.Pictures.{frames_of};
ghost use Rattle.render.specs.Summary.{limits_of, summary_line, summary_with, summary_of, work_of};
ghost use Rattle.render.specs.Answers.{accepted_in, lines_in, DrawsBy, LeavesBy};
ghost use Rattle.render.specs.Lines.{first_summaries};
ghost use Rattle.render.specs.Steps.{DrawsFrame};

use crate::accepted::Accepted;
use buckets::{DrawFault, Limits, Report, render_frame};
use command_line::RunOptions;
use displace_shade::Shop;
use fixed_math::NoMemory;
use outside::{FrameSink, Notes, say_line};
use scene::{Frame, Scene};
use std::alloc::Global;

/// A frame of a scene, at that place.
#[derive(Drop)]
pub(crate) struct FrameAt<'a> {
    pub(crate) scene: &'a Scene,
    pub(crate) index: usize,
    pub(crate) frame: &'a Frame,
    ghost there: { slice_get scene.now.frames index ≡ Some frame.now },
}

/// What the options of a command set for the drawing of frames.
pub(crate) fn limits_of(options: RunOptions) -> Limits
    ensures { result ≡ limits_of options }
{
    Limits {
        bucket: options.bucket,
        grid_points: options.grid_points as usize,
    }
}

/// The name of a frame's picture.
pub(crate) fn name_of(frame: &Frame) -> &str
    ensures { result.now ≡ frame.now.name }
{
    frame.name.get().as_str()
}

// The line that tells how many grids were shaded for a frame, and in how many epochs.
fn summary(alloc: Global, name: &str, shadings: u64, epochs: u64) -> Result<String, NoMemory>
    ensures { IfOk result (λ t. string_bytes t ≡ summary_line name.now shadings epochs) }
{
    Ok(format!(in alloc; "{name}: {shadings} shadings, {epochs} epochs\n")?)
}

// The line that tells of a frame, where one is wanted.
fn line_of(
    alloc: Global,
    frame: &Frame,
    done: (u64, u64),
    stats: bool,
) -> Result<Option<String>, NoMemory>
    ensures { IfOk result (λ l. option_map string_bytes l ≡ summary_with stats frame.now.name done.0 done.1) }
{
    if stats {
        let (shadings, epochs) = done;
        Ok(Some(summary(alloc, name_of(frame), shadings, epochs)?))
    } else {
        Ok(None)
    }
}

// Draws a frame to the sink, and tells how many grids were shaded for it and in how many epochs.
fn drawn<O: FrameSink>(
    alloc: Global,
    sink: &mut O,
    shop: &mut Shop,
    report: &mut Report,
    shown: &FrameAt<'_>,
    options: RunOptions,
) -> Result<(u64, u64), DrawFault>
    requires closed { O.is_open sink.old ≡ false }
    requires ranges { LieInRanges options }
    requires fits { FitsScene (shop_set shop.old) shown.now.scene.now }
    requires count { shop.old.count ≤ 2 ^ 62 }
    requires epochs { report.old.epochs ≤ 2 ^ 62 }
    ensures sink { WritesPicture O.written O.is_open O.faults sink.old sink.new (picture_of (shaded_by shown.now.scene.now shop.old) shown.now.frame.now) result (IsErrOf result WriteFault) }
    ensures work { let w = work_of options (shaded_by shown.now.scene.now shop.old) shown.now.frame.now in IfOk result (λ d. (d.0 ≡ w.shadings) × (d.1 ≡ w.epochs)) }
    ensures shop { DrawsFrame shop.old shop.new result }
    ensures epochs { OnOk result (report.new.epochs ≤ report.old.epochs + 2 ^ 52 + 1) }
{
    let (count, epochs) = (shop.count(), report.epochs);
    let limits = limits_of(options);
    render_frame(alloc, shown.scene, shown.index, limits, shop, report, sink)?;
    Ok((shop.count() - count, report.epochs - epochs))
}

// Draws a frame to the sink, and makes the line that tells of it, where one is wanted.
fn finished<O: FrameSink>(
    alloc: Global,
    sink: &mut O,
    shop: &mut Shop,
    report: &mut Report,
    shown: &FrameAt<'_>,
    options: RunOptions,
) -> Result<Option<String>, DrawFault>
    requires closed { O.is_open sink.old ≡ false }
    requires ranges { LieInRanges options }
    requires fits { FitsScene (shop_set shop.old) shown.now.scene.now }
    requires count { shop.old.count ≤ 2 ^ 62 }
    requires epochs { report.old.epochs ≤ 2 ^ 62 }
    ensures sink { let p = picture_of (shaded_by shown.now.scene.now shop.old) shown.now.frame.now in
        Writes O.written O.is_open O.faults sink.old sink.new (Adds (whole p ∷ []) (O.written sink.old)) (LeavesBy result p (O.written sink.old)) result (IsErrOf result WriteFault) }
    ensures summary { IfOk result (λ l. option_map string_bytes l ≡ summary_of options (shaded_by shown.now.scene.now shop.old) shown.now.frame.now) }
    ensures shop { DrawsFrame shop.old shop.new result }
    ensures epochs { OnOk result (report.new.epochs ≤ report.old.epochs + 2 ^ 52 + 1) }
{
    let done = drawn(alloc, sink, shop, report, shown, options)?;
    Ok(line_of(alloc, shown.frame, done, options.stats)?)
}

// Gives the line of a summary to the user.
fn tell<N: Notes>(notes: &mut N, line: &Option<String>)
    ensures { Says (lines_in (option_map string_bytes line.now)) (N.lines notes.old) (N.lines notes.new) (N.faults notes.old) (N.faults notes.new) }
{
    if let Some(text) = line {
        say_line(notes, text.as_bytes());
    }
}

/// The frames of a scene.
pub(crate) fn frames_in(scene: &Scene) -> &[Frame]
    ensures { result.now ≡ scene.now.frames }
{
    scene.frames.as_slice()
}

// Draws the frames of a scene in order to the sink, and tells of each behind its end, where that is wanted.
fn write_frames<O: FrameSink, N: Notes>(
    alloc: Global,
    sink: &mut O,
    notes: &mut N,
    shop: &mut Shop,
    scene: &Scene,
    options: RunOptions,
) -> Result<(), DrawFault>
    requires closed { O.is_open sink.old ≡ false }
    requires ranges { LieInRanges options }
    requires fits { FitsScene (shop_set shop.old) scene.now }
    requires count { shop.old.count ≡ 0 }
    ensures sink { let a = shaded_by scene.now shop.old in
        Writes O.written O.is_open O.faults sink.old sink.new (Adds (map whole (frames_of a)) (O.written sink.old))
        (λ ws. DrawsBy options a result (O.written sink.old) ws (N.lines notes.old) (N.lines notes.new) (N.faults notes.old) (N.faults notes.new)) result (IsErrOf result WriteFault) }
    ensures says { OnOk result (Says (first_summaries options (shaded_by scene.now shop.old) (length scene.now.frames)) (N.lines notes.old) (N.lines notes.new) (N.faults notes.old) (N.faults notes.new)) }
{
    let mut report = Report {
        epochs: 0,
        most_points: 0,
        most_samples: 0,
    };
    let frames = frames_in(scene);
    for index in 0..frames.len() {
        let shown = FrameAt {
            scene,
            index,
            frame: &frames[index],
        };
        let line = finished(alloc, sink, shop, &mut report, &shown, options)?;
        tell(notes, &line);
    }
    Ok(())
}

/// Draws the frames of an accepted scene in order to the sink, each as its rows of buckets are done. Where it is wanted, a line of the
/// notes tells of each behind its end.
pub(crate) fn write_pictures<O: FrameSink, N: Notes>(
    alloc: Global,
    sink: &mut O,
    notes: &mut N,
    accepted: Accepted,
    options: RunOptions,
) -> Result<(), DrawFault>
    requires closed { O.is_open sink.old ≡ false }
    requires ranges { LieInRanges options }
    requires fits { FitsScene (set_value accepted.set accepted.textures) accepted.scene }
    ensures sink { let a = accepted_in accepted in
        Writes O.written O.is_open O.faults sink.old sink.new (Adds (map whole (frames_of a)) (O.written sink.old))
        (λ ws. DrawsBy options a result (O.written sink.old) ws (N.lines notes.old) (N.lines notes.new) (N.faults notes.old) (N.faults notes.new)) result (IsErrOf result WriteFault) }
    ensures says { OnOk result (Says (first_summaries options (accepted_in accepted) (length accepted.scene.frames)) (N.lines notes.old) (N.lines notes.new) (N.faults notes.old) (N.faults notes.new)) }
{
    let Accepted {
        scene,
        set,
        textures,
    } = accepted;
    let mut shop = Shop::new(alloc, set, textures.as_slice())?;
    write_frames(alloc, sink, notes, &mut shop, &scene, options)
}
