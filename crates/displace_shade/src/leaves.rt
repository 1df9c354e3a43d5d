// The shaded grid of a leaf: its three shaders in turn.
ghost use Rattle.std.specs.Prelude.{◌≡◌, [], map, IfOk};
ghost use Rattle.scene.specs.declared.uses.ShaderKind.TheVariants as requested;
ghost use Rattle.shader_binding.specs.Sets.{bound_at as bound_at_use, bound_for};
ghost use Rattle.displace_shade.specs.Shaded.{diced_names, shaded_by, displaced as displaced_names, shaded};
ghost use Rattle.displace_shade.specs.Diced.{Hold, grid_value};
ghost use Rattle.grid_variables.specs.Closings.{closing_of, places_in};
ghost use Rattle.grid_variables.specs.Places.{IsSized, IsColoured};
ghost use Rattle.displace_shade.specs.Stages.{set_in, uses_in, Serves, ServesIf, ServesPrim, placed_by, lit_by, Makes};

use crate::asking::asks_lights;
use crate::bound::bound_at;
use crate::cached::TextureCache;
use crate::lamps::lamps_of;
use crate::runs::{colour, dim, displace};
use crate::set::ShaderSet;
use bumpalo::Bump;
use dice::GridRef;
use fixed_math::NoMemory;
use grid_variables::{Leaf, Variables, begun, grid_of, kept_near, moving_grid};
use scene::ShaderUse;
use std::alloc::Global;
use texture::Texture;

/// The shaders of a scene, their uses and textures, with memory for what a run needs.
#[derive(Clone, Copy)]
pub(crate) struct Shaders<'s> {
    pub(crate) alloc: Global,
    pub(crate) set: &'s ShaderSet,
    pub(crate) textures: &'s [Texture],
    pub(crate) uses: &'s [ShaderUse],
}

/// The variables behind the displacement of use `n`.
fn displaced_by<'a>(
    shaders: &Shaders,
    cache: &mut TextureCache,
    arena: &'a Bump,
    leaf: &Leaf,
    variables: &Variables<'a>,
    n: u32,
) -> Result<Variables<'a>, NoMemory>
    requires cache { cache.old.textures ≡ shaders.now.textures.now }
    requires serves { Serves shaders.now leaf.now requested.Displacement n }
    requires sized { IsSized leaf.now variables.now }
    ensures sized { IfOk result (λ e. IsSized leaf.now e) }
    ensures hold { IfOk result (λ e. Makes leaf.now (shaded_by leaf.now (bound_at_use (set_in shaders.now) (uses_in shaders.now) n) []) variables.now e) }
    ensures cache { cache.new.textures ≡ cache.old.textures }
{
    let bound = bound_at(shaders.set, shaders.textures, shaders.uses, n);
    displace(shaders.alloc, arena, leaf, &bound, cache, variables)
}

/// The variables behind the displacement of use `n`, kept near their places.
fn displaced_near<'a>(
    shaders: &Shaders,
    cache: &mut TextureCache,
    arena: &'a Bump,
    leaf: &Leaf,
    first: &Variables<'a>,
    n: u32,
) -> Result<Variables<'a>, NoMemory>
    requires cache { cache.old.textures ≡ shaders.now.textures.now }
    requires serves { Serves shaders.now leaf.now requested.Displacement n }
    requires sized { IsSized leaf.now first.now }
    ensures sized { IfOk result (λ e. IsSized leaf.now e) }
    ensures hold { IfOk result (λ e. Hold leaf.now first.now (diced_names leaf.now) → Hold leaf.now e (displaced_names leaf.now (bound_at_use (set_in shaders.now) (uses_in shaders.now) n))) }
    ensures cache { cache.new.textures ≡ cache.old.textures }
{
    let free = displaced_by(shaders, cache, arena, leaf, first, n)?;
    let near = kept_near(arena, leaf, first, &free)?;
    Ok(near)
}

/// The variables behind the volume of use `n`.
fn dimmed_by<'a>(
    shaders: &Shaders,
    cache: &mut TextureCache,
    arena: &'a Bump,
    leaf: &Leaf,
    variables: &Variables<'a>,
    n: u32,
) -> Result<Variables<'a>, NoMemory>
    requires cache { cache.old.textures ≡ shaders.now.textures.now }
    requires serves { Serves shaders.now leaf.now requested.Volume n }
    requires sized { IsSized leaf.now variables.now }
    requires coloured { IsColoured leaf.now variables.now }
    ensures sized { IfOk result (λ e. IsSized leaf.now e) }
    ensures coloured { IfOk result (λ e. IsColoured leaf.now e) }
    ensures hold { IfOk result (λ e. Makes leaf.now (shaded_by leaf.now (bound_at_use (set_in shaders.now) (uses_in shaders.now) n) []) variables.now e) }
    ensures cache { cache.new.textures ≡ cache.old.textures }
{
    let bound = bound_at(shaders.set, shaders.textures, shaders.uses, n);
    dim(shaders.alloc, arena, leaf, &bound, cache, variables)
}

/// The variables behind the volume, if there is one.
fn dimmed<'a>(
    shaders: &Shaders,
    cache: &mut TextureCache,
    arena: &'a Bump,
    leaf: &Leaf,
    variables: &Variables<'a>,
    shader: Option<u32>,
) -> Result<Variables<'a>, NoMemory>
    requires cache { cache.old.textures ≡ shaders.now.textures.now }
    requires serves { ServesIf shaders.now leaf.now requested.Volume shader }
    requires sized { IsSized leaf.now variables.now }
    requires coloured { IsColoured leaf.now variables.now }
    ensures sized { IfOk result (λ e. IsSized leaf.now e) }
    ensures coloured { IfOk result (λ e. IsColoured leaf.now e) }
    ensures hold { IfOk result (λ e. Makes leaf.now (shaded_by leaf.now (bound_for (set_in shaders.now) (uses_in shaders.now) shader) []) variables.now e) }
    ensures cache { cache.new.textures ≡ cache.old.textures }
{
    match shader {
        None => Ok(*variables),
        Some(n) => dimmed_by(shaders, cache, arena, leaf, variables, n),
    }
}

/// The variables behind the displacement `shader`, kept near their places: where there is none, they stay.
fn placed<'a>(
    shaders: &Shaders,
    cache: &mut TextureCache,
    arena: &'a Bump,
    leaf: &Leaf,
    first: &Variables<'a>,
    shader: Option<u32>,
) -> Result<Variables<'a>, NoMemory>
    requires cache { cache.old.textures ≡ shaders.now.textures.now }
    requires serves { ServesIf shaders.now leaf.now requested.Displacement shader }
    requires sized { IsSized leaf.now first.now }
    ensures sized { IfOk result (λ e. IsSized leaf.now e) }
    ensures hold { IfOk result (λ e. Hold leaf.now first.now (diced_names leaf.now) → Hold leaf.now e (displaced_names leaf.now (bound_for (set_in shaders.now) (uses_in shaders.now) shader))) }
    ensures cache { cache.new.textures ≡ cache.old.textures }
{
    let _bound = leaf.bound();
    match shader {
        None => Ok(*first),
        Some(n) => displaced_near(shaders, cache, arena, leaf, first, n),
    }
}

/// The variables behind the surface under the lights of the primitive, which are laid out where its code asks lights.
fn lighted<'a>(
    shaders: &Shaders,
    cache: &mut TextureCache,
    arena: &'a Bump,
    leaf: &Leaf,
    variables: &Variables<'a>,
) -> Result<Variables<'a>, NoMemory>
    requires cache { cache.old.textures ≡ shaders.now.textures.now }
    requires serves { ServesPrim shaders.now leaf.now }
    requires sized { IsSized leaf.now variables.now }
    ensures sized { IfOk result (λ e. IsSized leaf.now e) }
    ensures coloured { IfOk result (λ e. IsColoured leaf.now e) }
    ensures hold { IfOk result (λ e. Makes leaf.now (lit_by shaders.now leaf.now) variables.now e) }
    ensures cache { cache.new.textures ≡ cache.old.textures }
{
    let bound = bound_at(shaders.set, shaders.textures, shaders.uses, leaf.surface());
    let compiled = bound.compiled;
    let code = compiled.code();
    if asks_lights(code.nodes.as_slice()) {
        let lamps = lamps_of(arena, shaders.set, shaders.textures, shaders.uses, leaf)?;
        return colour(shaders.alloc, arena, leaf, &bound, &lamps, cache, variables);
    }
    colour(shaders.alloc, arena, leaf, &bound, &[], cache, variables)
}

/// The shaded grid in the arena, by the variables behind the surface.
fn grid_behind<'a, 'w>(
    shaders: &Shaders,
    cache: &mut TextureCache,
    work: &'w Bump,
    arena: &'a Bump,
    leaf: &Leaf,
    lit: &Variables<'w>,
) -> Result<GridRef<'a>, NoMemory>
    requires cache { cache.old.textures ≡ shaders.now.textures.now }
    requires serves { ServesPrim shaders.now leaf.now }
    requires sized { IsSized leaf.now lit.now }
    requires coloured { IsColoured leaf.now lit.now }
    ensures grid { IfOk result (λ g. Hold leaf.now lit.now (lit_by shaders.now leaf.now (placed_by shaders.now leaf.now)) → grid_value g ≡ shaded leaf.now (set_in shaders.now) (uses_in shaders.now)) }
    ensures cache { cache.new.textures ≡ cache.old.textures }
{
    let last = dimmed(shaders, cache, work, leaf, lit, leaf.atmosphere())?;
    grid_of(arena, leaf, &last)
}

/// The shaded grid of a leaf in the arena. What is made on the way lies in another one.
pub(crate) fn shaded_leaf<'a>(
    shaders: &Shaders,
    cache: &mut TextureCache,
    work: &Bump,
    arena: &'a Bump,
    leaf: &Leaf,
) -> Result<GridRef<'a>, NoMemory>
    requires cache { cache.old.textures ≡ shaders.now.textures.now }
    requires serves { ServesPrim shaders.now leaf.now }
    ensures grid { IfOk result (λ grid. grid_value grid ≡ shaded leaf.now (set_in shaders.now) (uses_in shaders.now)) }
    ensures closing { IfOk result (λ grid. places_in grid.closing ≡ closing_of leaf.now grid.p.now) }
    ensures cache { cache.new.textures ≡ cache.old.textures }
{
    let first = begun(work, leaf)?;
    let near = placed(shaders, cache, work, leaf, &first, leaf.displacement())?;
    let lit = lighted(shaders, cache, work, leaf, &near)?;
    let grid = grid_behind(shaders, cache, work, arena, leaf, &lit)?;
    moving_grid(work, arena, leaf, first.points, grid)
}
