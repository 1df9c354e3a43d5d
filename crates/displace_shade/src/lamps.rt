// The lights of a primitive.
ghost use Rattle.std.specs.Prelude.{◌≡◌, ◌<◌, All, Some, length, get_or, map, IfOk};
ghost use Rattle.scene.specs.Scene.{IsUse};
ghost use Rattle.scene.specs.declared.uses.ShaderKind.TheVariants as requested;
ghost use Rattle.shader_binding.specs.Sets.{Fits};
ghost use Rattle.shader_binding.specs.Sets.{bound_at as bound_at_use};
ghost use Rattle.displace_shade.specs.Shaded.{light_spaces as light_maps, lights_from};
ghost use Rattle.displace_shade.specs.Shop.{set_value, bound_value};
ghost use Rattle.displace_shade.specs.Lamps.{IsLamp, lamp_light};

use crate::bound::{BoundShader, bound_at};
use crate::set::ShaderSet;
use bumpalo::Bump;
use bumpalo::collections::into_bump_slice;
use fixed_math::NoMemory;
use grid_code::Code;
use grid_machine::Lights;
use grid_variables::Leaf;
use scene::ShaderUse;
use sl_ast::Value;
use texture::Texture;
use transforms::{Affine, Spaces};

/// A light's shader with its maps to camera space.
#[derive(Clone, Copy)]
pub(crate) struct Lamp<'s, 'a> {
    pub(crate) shader: BoundShader<'s>,
    pub(crate) spaces: &'a Spaces,
}

/// Maps that stay in the arena.
pub(crate) fn kept<'a>(arena: &'a Bump, spaces: Spaces) -> Result<&'a Spaces, NoMemory>
    ensures { IfOk result (λ s. s.now ≡ spaces) }
{
    let mut one = Vec::new(arena);
    one.push(spaces)?;
    let kept = into_bump_slice(one);
    Ok(&kept[0])
}

/// The maps to camera space for a light with that shader space, which is its object space too.
fn light_spaces(leaf: &Leaf, space: &Affine) -> Spaces
    ensures { (b : _) → b.space ≡ space.now → result ≡ light_maps leaf.now b }
{
    let prim = leaf.prim;
    let camera = leaf.camera;
    let view = camera.view();
    Spaces {
        world: *leaf.world,
        object: *space,
        shader: *space,
        near: view.near,
        far: view.far,
        flip: prim.flip,
    }
}

/// The light of use `n`.
fn lamp_at<'a, 's>(
    arena: &'a Bump,
    set: &'s ShaderSet,
    textures: &'s [Texture],
    uses: &'s [ShaderUse],
    leaf: &Leaf,
    n: u32,
) -> Result<Lamp<'s, 'a>, NoMemory>
    requires fits { Fits (set_value set.now textures.now) uses.now }
    requires use_of { IsUse uses.now requested.Light n }
    ensures found { IfOk result (λ lamp. bound_at_use (set_value set.now textures.now) uses.now n ≡ Some (bound_value lamp.shader)) }
    ensures light { IfOk result (λ lamp. IsLamp leaf.now lamp) }
{
    let shader = bound_at(set, textures, uses, n);
    let spaces = kept(arena, light_spaces(leaf, shader.space))?;
    Ok(Lamp { shader, spaces })
}

/// The lights of the leaf's primitive, in their order.
pub(crate) fn lamps_of<'a, 's>(
    arena: &'a Bump,
    set: &'s ShaderSet,
    textures: &'s [Texture],
    uses: &'s [ShaderUse],
    leaf: &Leaf,
) -> Result<Vec<Lamp<'s, 'a>, &'a Bump>, NoMemory>
    requires fits { Fits (set_value set.now textures.now) uses.now }
    requires use_of { All (IsUse uses.now requested.Light) leaf.now.prim.lights }
    ensures lights { IfOk result (λ lamps. map (lamp_light leaf.now) lamps.items ≡ lights_from leaf.now (set_value set.now textures.now) uses.now leaf.now.prim.lights) }
    ensures each { IfOk result (λ lamps. All (IsLamp leaf.now) lamps.items) }
{
    let lights = leaf.lights();
    let mut lamps = Vec::new(arena);
    for k in 0..lights.len() {
        let lamp = lamp_at(arena, set, textures, uses, leaf, lights.at(k))?;
        lamps.push(lamp)?;
    }
    Ok(lamps)
}

/// Lights as code asks them. `spare` is never asked.
#[derive(Clone, Copy)]
pub(crate) struct Lamps<'l, 's, 'a> {
    pub(crate) lamps: &'l [Lamp<'s, 'a>],
    pub(crate) spare: Lamp<'s, 'a>,
}

impl<'l, 's, 'a> Lights for Lamps<'l, 's, 'a> {
    ghost many = { λ l. length l.lamps.now };

    ghost codes = { λ l n. (get_or l.lamps.now n l.spare).shader.compiled.now.code };

    ghost params = { λ l n. (get_or l.lamps.now n l.spare).shader.values.now };

    ghost places = { λ l n. (get_or l.lamps.now n l.spare).spaces.now };

    fn count(&self) -> usize {
        self.lamps.len()
    }

    fn code(&self, n: usize) -> &Code {
        let lamp = &self.lamps[n];
        let compiled = lamp.shader.compiled;
        compiled.code()
    }

    fn values(&self, n: usize) -> &[Value] {
        let lamp = &self.lamps[n];
        lamp.shader.values
    }

    fn spaces(&self, n: usize) -> &Spaces {
        let lamp = &self.lamps[n];
        lamp.spaces
    }
}
