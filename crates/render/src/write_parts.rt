// Parts of frames to a sink.
ghost use Rattle.std.specs.Prelude.{◌≡◌, ◌≤◌, ◌<◌, ◌^◌, false, map, IsErrOf};
ghost use Rattle.outside.specs.Frames.{Adds, whole};
ghost use Rattle.outside.specs.Steps.{Writes, WritesPicture};
ghost use Rattle.displace_shade.specs.Shop.{set_value, shop_set};
ghost use Rattle.acceptance.specs.PrimFit.{FitsScene};
ghost use Rattle.buckets.specs.Shopped.{shaded_by};
ghost use Rattle.buckets.specs.declared.limits.DrawFault.TheVariants.{WriteFault};
ghost use Rattle.command_line.specs.Ranges.{LieInRanges};
ghost use Rattle.render.specs.Answers.{accepted_in, EndsSome};
ghost use Rattle.render.specs.Parts.{part_picture, parts_of_frames, IsTask, task_of};
ghost use Rattle.render.specs.Steps.{DrawsFrame};

use crate::accepted::Accepted;
use crate::part_task::{PartTask, hash_of};
use crate::write::{FrameAt, frames_in, limits_of, name_of};
use buckets::{DrawFault, render_part};
use command_line::RunOptions;
use displace_shade::Shop;
use outside::FrameSink;
use part_files::part_name;
use scene::Scene;
use std::alloc::Global;

// Draws a part of a frame to the sink.
fn drawn_part<O: FrameSink>(
    alloc: Global,
    sink: &mut O,
    shop: &mut Shop,
    shown: &FrameAt<'_>,
    options: RunOptions,
    task: PartTask,
) -> Result<(), DrawFault>
    requires closed { O.is_open sink.old ≡ false }
    requires ranges { LieInRanges options }
    requires task { IsTask options task }
    requires fits { FitsScene (shop_set shop.old) shown.now.scene.now }
    requires count { shop.old.count ≤ 2 ^ 62 }
    ensures sink { let p = part_picture task (shaded_by shown.now.scene.now shop.old) (record { place = shown.now.index; frame = shown.now.frame.now }) in
        WritesPicture O.written O.is_open O.faults sink.old sink.new p result (IsErrOf result WriteFault) }
    ensures shop { DrawsFrame shop.old shop.new result }
{
    let name = part_name(alloc, name_of(shown.frame), task.part)?;
    let limits = limits_of(options);
    let part = [task.part, task.count];
    let tag = task.tag(shown.index);
    render_part(
        alloc,
        shown.scene,
        shown.index,
        limits,
        part,
        tag,
        &name,
        shop,
        sink,
    )
}

// Draws a part of each frame of a scene in order to the sink.
fn write_each<O: FrameSink>(
    alloc: Global,
    sink: &mut O,
    shop: &mut Shop,
    scene: &Scene,
    options: RunOptions,
    task: PartTask,
) -> Result<(), DrawFault>
    requires closed { O.is_open sink.old ≡ false }
    requires ranges { LieInRanges options }
    requires task { IsTask options task }
    requires fits { FitsScene (shop_set shop.old) scene.now }
    requires count { shop.old.count ≡ 0 }
    ensures { let ps = parts_of_frames task (shaded_by scene.now shop.old) in
        Writes O.written O.is_open O.faults sink.old sink.new (Adds (map whole ps) (O.written sink.old)) (EndsSome ps (O.written sink.old)) result (IsErrOf result WriteFault) }
{
    let frames = frames_in(scene);
    for index in 0..frames.len() {
        let shown = FrameAt {
            scene,
            index,
            frame: &frames[index],
        };
        drawn_part(alloc, sink, shop, &shown, options, task)?;
    }
    Ok(())
}

/// Draws a part of each frame of an accepted scene in order to the sink, each bucket as it is done: of `count` parts the one of that number.
/// The text is the scene's.
pub(crate) fn write_parts<O: FrameSink>(
    alloc: Global,
    sink: &mut O,
    accepted: Accepted,
    text: &[u8],
    options: RunOptions,
    part: u32,
    count: u32,
) -> Result<(), DrawFault>
    requires closed { O.is_open sink.old ≡ false }
    requires ranges { LieInRanges options }
    requires below { part < count }
    requires fits { FitsScene (set_value accepted.set accepted.textures) accepted.scene }
    ensures { let ps = parts_of_frames (task_of part count options text.now) (accepted_in accepted) in
        Writes O.written O.is_open O.faults sink.old sink.new (Adds (map whole ps) (O.written sink.old)) (EndsSome ps (O.written sink.old)) result (IsErrOf result WriteFault) }
{
    let task = PartTask {
        part,
        count,
        side: options.bucket,
        hash: hash_of(text),
    };
    let Accepted {
        scene,
        set,
        textures,
    } = accepted;
    let mut shop = Shop::new(alloc, set, textures.as_slice())?;
    write_each(alloc, sink, &mut shop, &scene, options, task)
}
