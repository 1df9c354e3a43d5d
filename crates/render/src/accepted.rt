// The accepted scene of a text, with the code of its shaders.
ghost use Rattle.std.specs.Prelude.{◌≡◌, ◌≤◌, IsErrOf, IfOk, length, map};
ghost use Rattle.outside.specs.Causes.{Told};
ghost use Rattle.outside.specs.Steps.{Consults};
ghost use Rattle.acceptance.specs.Accepting.{scene_of_text, accepted, asked_for_scene};
ghost use Rattle.acceptance.specs.Answers.{Gives};
ghost use Rattle.acceptance.specs.PrimFit.{FitsScene};
ghost use Rattle.acceptance.specs.Reading.{tree_read};
ghost use Rattle.acceptance.specs.declared.refusal.Refusal.TheVariants.{ReadFault};
ghost use Rattle.displace_shade.specs.Shop.{set_value};
ghost use Rattle.render.specs.Answers.{accepted_in};
ghost use Rattle.render.specs.Coded.{tree_compiled, IsSetOf};

use acceptance::{ReadShader, Refusal, UsedShaders, UsedTextures};
use displace_shade::ShaderSet;
use fixed_math::{List, NoMemory};
use mask_codegen::{CodeFault, Compiled, compile};
use outside::Library;
use scene::Scene;
use sl_ast::Value;
use std::alloc::Global;
use texture::Texture;

/// A scene that is right, with the shaders of its requests, what their parameters are bound to, and the textures that they look up.
#[derive(Drop)]
pub struct Accepted {
    pub scene: Scene,
    pub set: ShaderSet,
    pub textures: List<Texture>,
}

// The code of a shader that is read.
fn compiled(alloc: Global, shader: ReadShader) -> Result<Compiled, NoMemory>
    ensures { IfOk result (λ c. tree_compiled c ≡ tree_read shader) }
{
    match compile(alloc, shader.tree) {
        Ok(compiled) => Ok(compiled),
        Err(CodeFault::M9) => unreachable!(),
        Err(CodeFault::NoMemory) => Err(NoMemory),
    }
}

// The codes of all shaders that are read.
fn all_compiled(alloc: Global, shaders: Vec<ReadShader>) -> Result<Vec<Compiled>, NoMemory>
    ensures { IfOk result (λ cs. map tree_compiled cs.items ≡ map tree_read shaders.items) }
{
    let mut codes = Vec::new(alloc);
    for shader in shaders {
        codes.push(compiled(alloc, shader)?)?;
    }
    Ok(codes)
}

// The set of shaders with what their uses' parameters are bound to.
fn set_of(
    alloc: Global,
    shaders: UsedShaders,
    bound: List<List<Value>>,
    look_ups: List<List<Option<u32>>>,
) -> Result<ShaderSet, NoMemory>
    ensures { IfOk result (IsSetOf shaders bound look_ups) }
{
    Ok(ShaderSet {
        compiled: List(all_compiled(alloc, shaders.read.0)?),
        of_use: shaders.of_use,
        bound,
        look_ups,
    })
}

/// The accepted scene of a text of at most 16,777,216 bytes with its shaders, which are asked of the library by first use, each
/// once: the file `x.sl` of the shader x, or the stock's text where there is no such file. Then the textures that their look-ups name
/// are asked of it, by first use, each once. Or the first fault: of the scene, of its shaders by first use, then of the parameters of
/// its shader requests (RenderMan Interface 3.2, section 11.3.3), then of the variables of its primitives, then of its textures by
/// first use. The set of shaders fits the scene, which has at most 1,000 frames, and so do the variables fit it.
pub fn accept<L: Library>(alloc: Global, text: &[u8], library: &mut L) -> Result<Accepted, Refusal>
    requires { length text.now ≤ 16777216 }
    ensures library { Consults L.held L.asked L.faults library.old library.new (λ files. asked_for_scene files (scene_of_text text.now)) (IsErrOf result ReadFault) }
    ensures gives { Told (L.held library.old) (λ files. Gives accepted_in result (accepted files text.now)) }
    ensures fits { IfOk result (λ a. FitsScene (set_value a.set a.textures) a.scene) }
{
    let read = acceptance::accept(alloc, text, library)?;
    let UsedTextures {
        read: textures,
        look_ups,
    } = read.textures;
    let set = set_of(alloc, read.shaders, read.bound, look_ups)?;
    Ok(Accepted {
        scene: read.scene,
        set,
        textures,
    })
}
