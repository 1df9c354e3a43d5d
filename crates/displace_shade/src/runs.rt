// Runs of the three shaders of a primitive.
ghost use Rattle.std.specs.Prelude.{◌≡◌, ◌*◌, [], All, List, length, map, IfOk, OnOk};
ghost use Rattle.fixed_math.specs.declared.vec3.Vec3.{Vec3 as AnyVec3};
ghost use Rattle.sl_ast.specs.declared.kinds.SlKind.TheVariants as kinds;
ghost use Rattle.builtins.specs.Lights.{Light};
ghost use Rattle.displace_shade.specs.Shaded.{spaces_of as maps_of};
ghost use Rattle.grid_code.specs.View.{block_of};
ghost use Rattle.mask_codegen.specs.Compiled.{NamesVarying};
ghost use Rattle.place_rows.specs.Layout.{row_length};
ghost use Rattle.grid_machine.specs.Run.{rows_of, written_names};
ghost use Rattle.grid_rows.specs.Rows.{AreRaws};
ghost use Rattle.grid_variables.specs.Places.{point_count, IsSized, IsColoured};
ghost use Rattle.displace_shade.specs.Shop.{bound_value};
ghost use Rattle.displace_shade.specs.Stages.{parameters_of as parameters_list, Runs, RunsOn, run_by, Makes};
ghost use Rattle.displace_shade.specs.Unlit.{AsksNone};
ghost use Rattle.displace_shade.specs.Lamps.{IsLamp, lamp_light, IsGiven, IsLeft, AreLeft};

use crate::bound::BoundShader;
use crate::cached::TextureCache;
use crate::lamps::{Lamp, Lamps, kept};
use bumpalo::Bump;
use bumpalo::collections::into_bump_slice_mut;
use fixed_math::{NoMemory, Vec3};
use grid_machine::{Inputs, run};
use grid_rows::{
    Parameters, Wanted, length_of_row, rows_given, surface_values, triples_left, uniform_values,
};
use grid_variables::{Leaf, Variables};
use sl_ast::Value;
use std::alloc::Global;
use transforms::{Affine, Spaces};

/// The maps to camera space for a shader of a primitive.
fn spaces_of(leaf: &Leaf, space: &Affine) -> Spaces
    ensures { (b : _) → b.space ≡ space.now → result ≡ maps_of leaf.now b }
{
    let prim = leaf.prim;
    let camera = leaf.camera;
    let view = camera.view();
    Spaces {
        world: *leaf.world,
        object: prim.object,
        shader: *space,
        near: view.near,
        far: view.far,
        flip: prim.flip,
    }
}

/// The parameters of a shader that is bound.
fn parameters_of<'s>(bound: &BoundShader<'s>) -> Parameters<'s>
    requires { Runs bound.now }
    ensures { result ≡ parameters_list bound.now }
{
    let compiled = bound.compiled;
    let code = compiled.code();
    Parameters {
        declared: compiled.binding_params(),
        slots: code.params.as_slice(),
        values: bound.values,
    }
}

/// What a shader that is bound is given of the variables of its kind.
fn wanted_by<'s>(bound: &BoundShader<'s>) -> Wanted<'s>
    ensures kind { result.kind ≡ bound.now.compiled.now.code.kind }
    ensures named { NamesVarying result.named.now (block_of bound.now.compiled.now.code.nodes) }
{
    let compiled = bound.compiled;
    let code = compiled.code();
    Wanted {
        kind: code.kind,
        named: compiled.named(),
    }
}

/// Runs a shader under lights into six rows, with its maps to camera space and rows of raws.
fn run_into<'s, 'a>(
    arena: &Bump,
    leaf: &Leaf,
    bound: &BoundShader<'s>,
    lamps: &[Lamp<'s, 'a>],
    textures: &mut TextureCache,
    spaces: &'a Spaces,
    uniforms: &[Value],
    raws: &[i64],
    out: &mut [i64],
) -> Result<(), NoMemory>
    requires cache { textures.old.textures ≡ bound.now.textures.now }
    requires given { IsGiven leaf.now bound.now lamps.now uniforms.now raws.now }
    requires spaces { spaces.now ≡ maps_of leaf.now (bound_value bound.now) }
    requires small { AreRaws raws.now }
    requires out { length out.old ≡ rows_of (written_names bound.now.compiled.now.code.kind) * row_length (point_count leaf.now) }
    ensures small { AreRaws out.new }
    ensures values { OnOk result (IsLeft leaf.now bound.now lamps.now uniforms.now raws.now out.new) }
    ensures cache { textures.new.textures ≡ textures.old.textures }
{
    let inputs = Inputs {
        columns: leaf.columns(),
        rows: leaf.rows(),
        uniforms,
        varyings: raws,
        spaces,
        look_ups: bound.look_ups,
    };
    let compiled = bound.compiled;
    let code = compiled.code();
    let spare = Lamp {
        shader: *bound,
        spaces,
    };
    let lights = Lamps { lamps, spare };
    run(code, arena, &inputs, &lights, textures, out)
}

/// So many zeros. They are put a kilobyte at a time, for which no instruction has to go through memory byte by byte.
fn zero_rows<'a>(arena: &'a Bump, count: usize) -> Result<Vec<i64, &'a Bump>, NoMemory>
    ensures { IfOk result (λ rows. length rows.items ≡ count) }
{
    let zeros = [0; 128];
    let mut rows = Vec::with_capacity(arena, count)?;
    for _ in 0..count / 128 {
        rows.extend_from_slice(&zeros)?;
    }
    rows.extend_from_slice(&zeros[..count % 128])?;
    Ok(rows)
}

/// The six rows that a run of a shader under lights leaves.
fn run_on<'a, 's>(
    arena: &'a Bump,
    leaf: &Leaf,
    bound: &BoundShader<'s>,
    lamps: &[Lamp<'s, 'a>],
    textures: &mut TextureCache,
    uniforms: &[Value],
    rows: &[i64],
) -> Result<&'a [i64], NoMemory>
    requires cache { textures.old.textures ≡ bound.now.textures.now }
    requires given { IsGiven leaf.now bound.now lamps.now uniforms.now rows.now }
    requires small { AreRaws rows.now }
    ensures long { IfOk result (λ out. length out.now ≡ 6 * row_length (point_count leaf.now)) }
    ensures small { IfOk result (λ out. AreRaws out.now) }
    ensures values { IfOk result (λ out. IsLeft leaf.now bound.now lamps.now uniforms.now rows.now out.now) }
    ensures cache { textures.new.textures ≡ textures.old.textures }
{
    let spaces = kept(arena, spaces_of(leaf, bound.space))?;
    let width = length_of_row(leaf.point_count());
    let zeros = zero_rows(arena, 6 * width)?;
    let out = into_bump_slice_mut(zeros);
    run_into(
        arena, leaf, bound, lamps, textures, spaces, uniforms, rows, out,
    )?;
    Ok(out)
}

/// The same, for uniform values that are given up behind it.
fn run_behind<'a, 's>(
    arena: &'a Bump,
    leaf: &Leaf,
    bound: &BoundShader<'s>,
    lamps: &[Lamp<'s, 'a>],
    textures: &mut TextureCache,
    uniforms: Vec<Value>,
    rows: &[i64],
) -> Result<&'a [i64], NoMemory>
    requires cache { textures.old.textures ≡ bound.now.textures.now }
    requires given { IsGiven leaf.now bound.now lamps.now uniforms.items rows.now }
    requires small { AreRaws rows.now }
    ensures long { IfOk result (λ out. length out.now ≡ 6 * row_length (point_count leaf.now)) }
    ensures small { IfOk result (λ out. AreRaws out.now) }
    ensures values { IfOk result (λ out. IsLeft leaf.now bound.now lamps.now uniforms.items rows.now out.now) }
    ensures cache { textures.new.textures ≡ textures.old.textures }
{
    run_on(arena, leaf, bound, lamps, textures, &uniforms, rows)
}

/// The triples that a run leaves in its first three rows and in the three behind them.
#[derive(Clone, Copy)]
struct Left<'a> {
    first: &'a [Vec3],
    second: &'a [Vec3],
}

/// The triples that a run of a shader under lights leaves.
fn left_behind<'a, 's>(
    arena: &'a Bump,
    leaf: &Leaf,
    bound: &BoundShader<'s>,
    lamps: &[Lamp<'s, 'a>],
    textures: &mut TextureCache,
    uniforms: Vec<Value>,
    rows: &[i64],
) -> Result<Left<'a>, NoMemory>
    requires cache { textures.old.textures ≡ bound.now.textures.now }
    requires given { IsGiven leaf.now bound.now lamps.now uniforms.items rows.now }
    requires small { AreRaws rows.now }
    ensures values { IfOk result (λ left. AreLeft leaf.now bound.now lamps.now uniforms.items rows.now left.first.now left.second.now) }
    ensures cache { textures.new.textures ≡ textures.old.textures }
{
    let out = run_behind(arena, leaf, bound, lamps, textures, uniforms, rows)?;
    let first = triples_left(arena, leaf, out, 0)?;
    let second = triples_left(arena, leaf, out, 3)?;
    Ok(Left { first, second })
}

/// The variables behind a run of a displacement, which no light reaches.
pub(crate) fn displace<'a>(
    alloc: Global,
    arena: &'a Bump,
    leaf: &Leaf,
    bound: &BoundShader,
    textures: &mut TextureCache,
    variables: &Variables<'a>,
) -> Result<Variables<'a>, NoMemory>
    requires cache { textures.old.textures ≡ bound.now.textures.now }
    requires on { RunsOn bound.now leaf.now kinds.Displacement }
    requires sized { IsSized leaf.now variables.now }
    ensures sized { IfOk result (λ e. IsSized leaf.now e) }
    ensures hold { IfOk result (λ e. Makes leaf.now (run_by leaf.now bound.now []) variables.now e) }
    ensures cache { textures.new.textures ≡ textures.old.textures }
{
    let parameters = parameters_of(bound);
    let wanted = wanted_by(bound);
    let rows = rows_given(arena, leaf, &parameters, &wanted, variables)?;
    let uniforms = surface_values(alloc, leaf, &parameters)?;
    let left = left_behind(arena, leaf, bound, &[], textures, uniforms, rows)?;
    Ok(Variables {
        points: left.first,
        normals: Some(left.second),
        sights: variables.sights,
        colours: variables.colours,
        opacities: variables.opacities,
    })
}

/// The variables behind a run of a surface under lights. Code that asks none does the same under any.
pub(crate) fn colour<'a, 's>(
    alloc: Global,
    arena: &'a Bump,
    leaf: &Leaf,
    bound: &BoundShader<'s>,
    lamps: &[Lamp<'s, 'a>],
    textures: &mut TextureCache,
    variables: &Variables<'a>,
) -> Result<Variables<'a>, NoMemory>
    requires cache { textures.old.textures ≡ bound.now.textures.now }
    requires on { RunsOn bound.now leaf.now kinds.Surface }
    requires lamps { All (IsLamp leaf.now) lamps.now }
    requires sized { IsSized leaf.now variables.now }
    ensures sized { IfOk result (λ e. IsSized leaf.now e) }
    ensures coloured { IfOk result (λ e. IsColoured leaf.now e) }
    ensures hold { IfOk result (λ e. Makes leaf.now (run_by leaf.now bound.now (map (lamp_light leaf.now) lamps.now)) variables.now e) }
    ensures unlit { IfOk result (λ e. AsksNone bound.now → (lights : List (AnyVec3 → Light)) → Makes leaf.now (run_by leaf.now bound.now lights) variables.now e) }
    ensures cache { textures.new.textures ≡ textures.old.textures }
{
    let parameters = parameters_of(bound);
    let wanted = wanted_by(bound);
    let rows = rows_given(arena, leaf, &parameters, &wanted, variables)?;
    let uniforms = surface_values(alloc, leaf, &parameters)?;
    let left = left_behind(arena, leaf, bound, lamps, textures, uniforms, rows)?;
    Ok(Variables {
        points: variables.points,
        normals: variables.normals,
        sights: variables.sights,
        colours: left.first,
        opacities: left.second,
    })
}

/// The variables behind a run of a volume, which no light reaches.
pub(crate) fn dim<'a>(
    alloc: Global,
    arena: &'a Bump,
    leaf: &Leaf,
    bound: &BoundShader,
    textures: &mut TextureCache,
    variables: &Variables<'a>,
) -> Result<Variables<'a>, NoMemory>
    requires cache { textures.old.textures ≡ bound.now.textures.now }
    requires on { RunsOn bound.now leaf.now kinds.Volume }
    requires sized { IsSized leaf.now variables.now }
    requires coloured { IsColoured leaf.now variables.now }
    ensures sized { IfOk result (λ e. IsSized leaf.now e) }
    ensures coloured { IfOk result (λ e. IsColoured leaf.now e) }
    ensures hold { IfOk result (λ e. Makes leaf.now (run_by leaf.now bound.now []) variables.now e) }
    ensures cache { textures.new.textures ≡ textures.old.textures }
{
    let parameters = parameters_of(bound);
    let wanted = wanted_by(bound);
    let rows = rows_given(arena, leaf, &parameters, &wanted, variables)?;
    let uniforms = uniform_values(alloc, leaf, &parameters)?;
    let left = left_behind(arena, leaf, bound, &[], textures, uniforms, rows)?;
    Ok(Variables {
        points: variables.points,
        normals: variables.normals,
        sights: variables.sights,
        colours: left.first,
        opacities: left.second,
    })
}
