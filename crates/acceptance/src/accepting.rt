// The accepted scene of a text, with its shaders.
ghost use Rattle.std.specs.Prelude.{◌≡◌, ◌≤◌, IsErrOf, IfOk, OnOk, All, length, map};
ghost use Rattle.outside.specs.Causes.{Told};
ghost use Rattle.outside.specs.Asked.{AsksAll};
ghost use Rattle.outside.specs.Steps.{Consults};
ghost use Rattle.rib_reader.specs.Reading.{plain, requests_of};
ghost use Rattle.scene_state.specs.Steps.{scene_of};
ghost use Rattle.acceptance.specs.Accepting.{scene_of_state, scene_of_requests, scene_of_text, accepted, asked_for_scene};
ghost use Rattle.outside.specs.Library.{Files};
ghost use Rattle.acceptance.specs.Shaders.{shader_names, shaders_asked};
ghost use Rattle.acceptance.specs.UseFit.{uses_refused};
ghost use Rattle.acceptance.specs.PrimFit.{FitsScene};
ghost use Rattle.acceptance.specs.Reading.{IsReadOf, ReadsShaders, ArePlaced, AreUsed, BindsUses};
ghost use Rattle.acceptance.specs.Answers.{Clears, Gives, GivesScene};
ghost use Rattle.acceptance.specs.Reading.{set_in, accepted_in};
ghost use Rattle.acceptance.specs.declared.refusal.Refusal.TheVariants.{ReadFault};

use crate::accepted_scene::AcceptedScene;
use crate::shaders::{UsedShaders, read_shaders};
use crate::textures::fetch_used;
use crate::use_fit::bind_all;
use crate::variables::check_variables;
use crate::{Refusal, in_scene, of_lex, of_request, of_state};
use fixed_math::List;
use outside::Library;
use rib_lex::{LexFault, Token, tokens};
use rib_reader::{Request, RibFault, requests};
use scene_state::{Scene, StateFault, scene};
use sl_ast::Value;
use std::alloc::Global;

// The scene of requests.
#[tactic(auto, using(scene_state::proofs::FrameCount::few_frames))]
fn of_requests(alloc: Global, requests: &[Request]) -> Result<Scene, Refusal>
    ensures { GivesScene result (scene_of_state (scene_of (map plain requests.now))) }
{
    match scene(alloc, requests) {
        Ok(scene) => Ok(scene),
        Err(StateFault::At { code, line }) => Err(in_scene(of_state(code), line)),
        Err(StateFault::NoMemory) => Err(Refusal::NoMemory),
    }
}

// The scene of tokens.
fn of_tokens(alloc: Global, tokens: &[Token]) -> Result<Scene, Refusal>
    ensures { GivesScene result (scene_of_requests (requests_of tokens.now)) }
{
    match requests(alloc, tokens) {
        Ok(requests) => of_requests(alloc, &requests),
        Err(RibFault::At { code, line }) => Err(in_scene(of_request(code), line)),
        Err(RibFault::NoMemory) => Err(Refusal::NoMemory),
    }
}

// The scene of a text.
#[tactic(auto, unfolding(crate::specs::Accepting::scene_of_text))]
fn read_scene(alloc: Global, text: &[u8]) -> Result<Scene, Refusal>
    requires { length text.now ≤ 16777216 }
    ensures { GivesScene result (scene_of_text text.now) }
{
    match tokens(alloc, text) {
        Ok(tokens) => of_tokens(alloc, &tokens),
        Err(LexFault::At { code, line }) => Err(in_scene(of_lex(code), line)),
        Err(LexFault::NoMemory) => Err(Refusal::NoMemory),
    }
}

// The shaders of a scene.
fn read_used<L: Library>(
    alloc: Global,
    library: &mut L,
    scene: &Scene,
) -> Result<UsedShaders, Refusal>
    ensures library { Consults L.held L.asked L.faults library.old library.new (λ files. shaders_asked files (shader_names scene.now.uses)) (IsErrOf result ReadFault) }
    ensures asked_all { OnOk result (Told (L.held library.old) (λ files. AsksAll (shaders_asked files (shader_names scene.now.uses)) (L.asked library.old) (L.asked library.new))) }
    ensures used { IfOk result (AreUsed scene.now.uses) }
    ensures reads { Told (L.held library.old) (λ files. ReadsShaders files (shader_names scene.now.uses) result) }
{
    read_shaders(alloc, library, scene.uses.as_slice())
}

// What the parameters of a scene's shader requests are bound to, where they fit their shaders.
fn bind_used(
    alloc: Global,
    scene: &Scene,
    shaders: &UsedShaders,
) -> Result<Vec<List<Value>>, Refusal>
    requires { ArePlaced scene.now.uses shaders.now }
    ensures clears { (files : Files) → All (IsReadOf files) shaders.now.read → Clears result (uses_refused files scene.now.uses) }
    ensures binds { BindsUses scene.now.uses shaders.now result }
{
    bind_all(alloc, scene.uses.as_slice(), shaders)
}

/// The accepted scene of a text of at most 16,777,216 bytes with its shaders and textures. The shaders are asked of the library by first
/// use, each once: the file `x.sl` of the shader x, or the stock's text where there is no such file; then the textures that their look-ups
/// name. Or the first fault: of the scene, of its shaders by first use, then of the parameters of its shader requests (RenderMan Interface
/// 3.2, section 11.3.3), then of the variables of its primitives, then of its textures by first use. The set of shaders fits the scene,
/// which has at most 1,000 frames, and so do the variables fit it.
pub fn accept<L: Library>(
    alloc: Global,
    text: &[u8],
    library: &mut L,
) -> Result<AcceptedScene, Refusal>
    requires { length text.now ≤ 16777216 }
    ensures library { Consults L.held L.asked L.faults library.old library.new (λ files. asked_for_scene files (scene_of_text text.now)) (IsErrOf result ReadFault) }
    ensures gives { Told (L.held library.old) (λ files. Gives accepted_in result (accepted files text.now)) }
    ensures fits { IfOk result (λ a. FitsScene (set_in a) a.scene) }
{
    let scene = read_scene(alloc, text)?;
    let shaders = read_used(alloc, library, &scene)?;
    let bound = bind_used(alloc, &scene, &shaders)?;
    check_variables(alloc, &shaders, &scene)?;
    let textures = fetch_used(alloc, library, &shaders, &bound)?;
    Ok(AcceptedScene {
        scene,
        shaders,
        bound: List(bound),
        textures,
    })
}
