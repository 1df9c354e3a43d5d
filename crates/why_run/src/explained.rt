// The account of a question's pixel.
ghost use Rattle.std.specs.Prelude.{◌≡◌, IfOk, IsErrOf, IsSome, Some, option_map};
ghost use Rattle.outside.specs.Causes.{Told};
ghost use Rattle.outside.specs.Steps.{Consults};
ghost use Rattle.scene.specs.Scene.{FrameValue};
ghost use Rattle.scene.specs.Settings.{crop_of};
ghost use Rattle.displace_shade.specs.Shop.{set_value};
ghost use Rattle.acceptance.specs.PrimFit.{FitsScene};
ghost use Rattle.acceptance.specs.declared.refusal.Refusal.TheVariants.{ReadFault};
ghost use Rattle.buckets.specs.Pictures.{HasFrame};
ghost use Rattle.render.specs.Answers.{accepted_in};
ghost use Rattle.pixel_account.specs.Account.{IsAccount};
ghost use Rattle.why_words.specs.Question.{question_view};
ghost use Rattle.why_run.specs.Verdict.{is_in, frame_asked, scene_named, verdict_of_question, names_for};
ghost use Rattle.why_run.specs.Answers.{GivesScene, GivesAnswer};
ghost use Rattle.why_run.specs.declared.stop.Stop.TheVariants.{Refused, WriteFault};

use crate::stop::Stop;
use account_text::account_text;
use displace_shade::Shop;
use fixed_math::NoMemory;
use outside::Library;
use pixel_account::explain;
use pixel_record::PixelAccount;
use render::{Accepted, accept, fetch_text};
use scene::{Frame, Options, Scene};
use std::alloc::Global;
use why_words::Question;

// The accepted scene of the file of that name.
fn scene_named<L: Library>(alloc: Global, library: &mut L, name: &str) -> Result<Accepted, Stop>
    ensures gives { Told (L.held library.old) (λ files. GivesScene name.now result (scene_named name.now files)) }
    ensures fits { IfOk result (λ a. FitsScene (set_value a.set a.textures) a.scene) }
    ensures library { Consults L.held L.asked L.faults library.old library.new (names_for name.now) (IsErrOf result (Refused ReadFault)) }
    ensures written { IsErrOf result WriteFault → ⊥ }
{
    match fetch_text(alloc, library, name)? {
        Some(text) => Ok(accept(alloc, &text, library)?),
        None => Err(Stop::NoScene),
    }
}

// Whether a picture with these options has this pixel.
fn has_pixel(options: &Options, x: u32, y: u32) -> bool
    ensures { result ≡ is_in (crop_of options.now) x y }
{
    let [left, top, right, bottom] = options.crop;
    left <= x && x < right && top <= y && y < bottom
}

// The frame that a question is about, where the scene has it and its picture the pixel.
fn frame_asked<'s>(scene: &'s Scene, question: &Question<'_>) -> Option<&'s Frame>
    ensures { option_map (λ f. f.now) result ≡ frame_asked (question_view question.now) scene.now.frames }
{
    let frame = scene.frames.as_slice().get(question.frame as usize)?;
    if has_pixel(&frame.options, question.x, question.y) {
        Some(frame)
    } else {
        None
    }
}

// The account of a pixel of an accepted scene.
fn account_of(
    alloc: Global,
    accepted: Accepted,
    question: &Question<'_>,
) -> Result<PixelAccount, NoMemory>
    requires fits { FitsScene (set_value accepted.set accepted.textures) accepted.scene }
    requires asked { IsSome (frame_asked (question_view question.now) accepted.scene.frames) }
    ensures { IfOk result (λ p. (f : FrameValue) → HasFrame accepted.scene question.now.frame f → IsAccount (accepted_in accepted) f question.now.frame question.now.x question.now.y p) }
{
    let Accepted {
        scene,
        set,
        textures,
    } = accepted;
    let mut shop = Shop::new(alloc, set, textures.as_slice())?;
    let frame = question.frame as usize;
    explain(alloc, &scene, frame, question.x, question.y, &mut shop)
}

/// The answer to a question as a text.
pub(crate) fn answer<L: Library>(
    alloc: Global,
    library: &mut L,
    question: &Question<'_>,
) -> Result<String, Stop>
    ensures gives { Told (L.held library.old) (λ files. GivesAnswer question.now.name.now result (verdict_of_question (Some (question_view question.now)) files)) }
    ensures library { Consults L.held L.asked L.faults library.old library.new (names_for question.now.name.now) (IsErrOf result (Refused ReadFault)) }
    ensures written { IsErrOf result WriteFault → ⊥ }
{
    let accepted = scene_named(alloc, library, question.name)?;
    if frame_asked(&accepted.scene, question).is_none() {
        return Err(Stop::Usage);
    }
    let account = account_of(alloc, accepted, question)?;
    Ok(account_text(alloc, question.name, question.points, &account)?)
}
