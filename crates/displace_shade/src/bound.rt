// The shader of a use.
ghost use Rattle.std.specs.Prelude.{◌≡◌, ◌<◌, true, Some, length};
ghost use Rattle.scene.specs.Scene.{IsUse};
ghost use Rattle.scene.specs.declared.uses.ShaderKind.{ShaderKind as UseKind};
ghost use Rattle.sl_ast.specs.TreeView.{tree_of};
ghost use Rattle.shader_binding.specs.Sets.{Fits, is_of_kind};
ghost use Rattle.shader_binding.specs.Sets.{bound_at as bound_at_use};
ghost use Rattle.displace_shade.specs.Shop.{set_value, bound_value};
ghost use Rattle.displace_shade.specs.Stages.{Runs};

use crate::set::ShaderSet;
use mask_codegen::Compiled;
use scene::ShaderUse;
use sl_ast::Value;
use texture::Texture;
use transforms::Affine;

/// The shader of a use, with the values of its parameters, the textures that its look-ups name and the map from its shader space to camera space.
#[derive(Clone, Copy)]
pub(crate) struct BoundShader<'s> {
    pub(crate) compiled: &'s Compiled,
    pub(crate) values: &'s [Value],
    pub(crate) look_ups: &'s [Option<u32>],
    pub(crate) textures: &'s [Texture],
    pub(crate) space: &'s Affine,
}

/// The shader of use `n`.
pub(crate) fn bound_at<'s>(
    set: &'s ShaderSet,
    textures: &'s [Texture],
    uses: &'s [ShaderUse],
    n: u32,
) -> BoundShader<'s>
    requires fits { Fits (set_value set.now textures.now) uses.now }
    requires there { n < length uses.now }
    ensures found { bound_at_use (set_value set.now textures.now) uses.now n ≡ Some (bound_value result) }
    ensures runs { Runs result }
    ensures kind { (kind : UseKind) → IsUse uses.now kind n → is_of_kind (tree_of result.compiled.now.tree).kind kind ≡ true }
{
    let place = set.of_use.as_slice()[n as usize];
    let compiled = &set.compiled.as_slice()[place as usize];
    let values = &set.bound.as_slice()[n as usize];
    let look_ups = &set.look_ups.as_slice()[n as usize];
    let shader = &uses[n as usize];
    // the code is one of the tree
    let _code = compiled.code();
    BoundShader {
        compiled,
        values: values.as_slice(),
        look_ups: look_ups.as_slice(),
        textures,
        space: &shader.space,
    }
}
