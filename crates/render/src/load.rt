// The scene of a command, from a library.
ghost use Rattle.std.specs.Prelude.{◌≤◌, ◌∷◌, [], IsErrOf, IfOk, IfSome, Some, length};
ghost use Rattle.outside.specs.Causes.{Told};
ghost use Rattle.outside.specs.Library.{held_as};
ghost use Rattle.outside.specs.Steps.{AsksFor, Consults};
ghost use Rattle.render.specs.Verdict.{text_of_held, text_of_source, names_of_source, verdict_of_scene, asked_for_command};
ghost use Rattle.acceptance.specs.PrimFit.{FitsScene};
ghost use Rattle.displace_shade.specs.Shop.{set_value};
ghost use Rattle.command_line.specs.Command.{source_view, scene_view, OnScene};
ghost use Rattle.render.specs.Notes.{scene_name};
ghost use Rattle.render.specs.Answers.{GivesText, LoadsNamed};
ghost use Rattle.acceptance.specs.declared.refusal.Refusal.TheVariants.{ReadFault};

use crate::accepted::{Accepted, accept};
use acceptance::{FaultCode, Refusal, in_scene};
use command_line::{SceneCommand, Source};
use outside::{Fetch, Library};
use std::alloc::Global;
use stock::demo;

/// The most bytes of a scene file.
pub const MOST_BYTES: u64 = 16777216;

/// The text of the scene's file of that name, at most 16,777,216 bytes, or none where the library lacks it.
pub fn fetch_text<L: Library>(
    alloc: Global,
    library: &mut L,
    name: &str,
) -> Result<Option<Vec<u8>>, Refusal>
    ensures size { IfOk result (λ t. IfSome t (λ text. length text.items ≤ 16777216)) }
    ensures library { AsksFor L.held L.asked L.faults library.old library.new (name.now ∷ []) result (IsErrOf result ReadFault) }
    ensures gives { Told (L.held library.old) (λ files. GivesText name.now result (text_of_held name.now (held_as files name.now))) }
{
    let mut bytes = Vec::new(alloc);
    match library.fetch(name, MOST_BYTES, &mut bytes) {
        Fetch::Whole => Ok(Some(bytes)),
        Fetch::Missing => Ok(None),
        Fetch::TooLong => Err(in_scene(FaultCode::M10, 1)),
        Fetch::Failed => Err(Refusal::ReadFault),
        Fetch::NoMemory => Err(Refusal::NoMemory),
    }
}

// The text of a scene, or none where the library lacks it.
fn scene_text<L: Library>(
    alloc: Global,
    library: &mut L,
    source: &Source<'_>,
) -> Result<Option<Vec<u8>>, Refusal>
    ensures size { IfOk result (λ t. IfSome t (λ text. length text.items ≤ 16777216)) }
    ensures library { AsksFor L.held L.asked L.faults library.old library.new (names_of_source (source_view source.now)) result (IsErrOf result ReadFault) }
    ensures gives { Told (L.held library.old) (λ files. GivesText (scene_name (source_view source.now)) result (text_of_source files (source_view source.now))) }
{
    match source {
        Source::File(name) => fetch_text(alloc, library, name),
        Source::Demo(patches) => Ok(Some(demo(alloc, patches.count)?)),
    }
}

/// A scene's text, and the scene with its shaders.
#[derive(Drop)]
pub(crate) struct Loaded {
    pub(crate) text: Vec<u8>,
    pub(crate) accepted: Accepted,
}

/// The scene of a command with its shaders, where all is right; none where the library lacks it.
pub(crate) fn load<L: Library>(
    alloc: Global,
    library: &mut L,
    command: &SceneCommand<'_>,
) -> Result<Option<Loaded>, Refusal>
    ensures library { Consults L.held L.asked L.faults library.old library.new (asked_for_command (Some (OnScene (scene_view command.now)))) (IsErrOf result ReadFault) }
    ensures loads { Told (L.held library.old) (λ files. LoadsNamed (scene_name (source_view command.now.source)) (scene_view command.now) result (verdict_of_scene (scene_view command.now) files)) }
    ensures fits { IfOk result (λ o. IfSome o (λ l. FitsScene (set_value l.accepted.set l.accepted.textures) l.accepted.scene)) }
{
    match scene_text(alloc, library, &command.source)? {
        None => Ok(None),
        Some(text) => {
            let accepted = accept(alloc, &text, library)?;
            Ok(Some(Loaded { text, accepted }))
        }
    }
}
