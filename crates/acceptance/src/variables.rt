// How the variables of primitives fit the parameters of their shaders.
ghost use Rattle.std.specs.Prelude.{◌≡◌, ◌&&◌, not, false, map, option_map, slice_get};
ghost use Rattle.std.specs.List.{list_any};
ghost use Rattle.shader_binding.specs.Predefined.{sets_predefined as sets_of};
ghost use Rattle.sl_ast.specs.TypedView.{local_of};
ghost use Rattle.sl_look_ups.specs.Naming.{binding_params};
ghost use Rattle.acceptance.specs.PrimFit as spec;
ghost use Rattle.acceptance.specs.Reading.{tree_read, declared_by};
ghost use Rattle.acceptance.specs.Answers.{ClearsAlone};

use crate::read::ReadShader;
use crate::shaders::UsedShaders;
use crate::use_fit::all_declared;
use crate::{FaultCode, Refusal, in_scene, is_of_type};
use fixed_math::Names;
use scene_state::{Frame, Prim, PrimitiveVariables, Scene, Variable};
use shader_binding::sets_predefined;
use sl_ast::ParamDecl;
use std::alloc::Global;

// Whether a variable has the name of a parameter and can't give it its value.
fn is_unfit(variable: &Variable, param: &ParamDecl) -> bool
    ensures { result ≡ spec.is_unfit variable.now (local_of param.now) }
{
    let other_kind = !is_of_type(param.kind, variable.kind());
    let varies = variable.is_varying() && param.uniform;
    let named = param.name.as_str() == variable.name().as_str();
    named && (other_kind || varies)
}

// The parameter at that place as variables bind to it, where there is one.
fn bound_at(shader: &ReadShader, place: usize) -> Option<&ParamDecl>
    ensures { option_map (λ p. local_of p.now) result ≡ slice_get (binding_params (tree_read shader.now)) place }
{
    shader.binding.as_slice().get(place)
}

// Whether a variable doesn't fit the parameter of its name, where the shader declares one.
fn is_unfit_named(shader: &ReadShader, names: &Names<'_>, variable: &Variable) -> bool
    requires names { names.now ≡ declared_by shader.now }
    requires binds { sets_of variable.now.name ≡ false }
    ensures { result ≡ list_any (spec.is_unfit variable.now) (binding_params (tree_read shader.now)) }
{
    let Some(place) = names.place_of(variable.name()) else {
        return false;
    };
    match bound_at(shader, place) {
        Some(param) => is_unfit(variable, param),
        None => false,
    }
}

// Whether a variable that binds doesn't fit the shader.
fn binds_unfit(shader: &ReadShader, names: &Names<'_>, variable: &Variable) -> bool
    requires { names.now ≡ declared_by shader.now }
    ensures { result ≡ spec.binds_unfit (binding_params (tree_read shader.now)) variable.now }
{
    !sets_predefined(variable.name()) && is_unfit_named(shader, names, variable)
}

// Whether one of these variables doesn't fit the shader, each looked for among the parameters.
fn unfit_by_variables(
    shader: &ReadShader,
    names: &Names<'_>,
    variables: &PrimitiveVariables,
) -> bool
    requires { names.now ≡ declared_by shader.now }
    ensures { result ≡ list_any (spec.binds_unfit (binding_params (tree_read shader.now))) variables.now }
{
    for k in 0..variables.len() {
        if binds_unfit(shader, names, &variables.at(k)) {
            return true;
        }
    }
    false
}

// Whether a variable that binds doesn't fit the parameter.
fn is_unfit_param(variables: &PrimitiveVariables, param: &ParamDecl) -> bool
    ensures { result ≡ list_any (λ x. not (sets_of x.name) && spec.is_unfit x (local_of param.now)) variables.now }
{
    if sets_predefined(&param.name) {
        return false;
    }
    variables.names_known();
    match variables.place_of(param.name.as_str()) {
        Some(k) => is_unfit(&variables.at(k), param),
        None => false,
    }
}

// The same by each parameter, which is looked for among the variables.
fn unfit_by_params(params: &[ParamDecl], variables: &PrimitiveVariables) -> bool
    ensures { result ≡ list_any (λ l. list_any (λ x. not (sets_of x.name) && spec.is_unfit x l) variables.now) (map local_of params.now) }
{
    for param in params {
        if is_unfit_param(variables, param) {
            return true;
        }
    }
    false
}

// Whether one of these variables doesn't fit the shader. A scene may have very many of them, and patches by the ten thousand that
// share them, or a shader very many parameters: the fewer ones are looked for among the others.
fn unfit_for(shader: &ReadShader, names: &Names<'_>, variables: &PrimitiveVariables) -> bool
    requires { names.now ≡ declared_by shader.now }
    ensures { result ≡ list_any (spec.binds_unfit (binding_params (tree_read shader.now))) variables.now }
{
    let params = shader.binding.as_slice();
    if variables.len() <= params.len() {
        unfit_by_variables(shader, names, variables)
    } else {
        unfit_by_params(params, variables)
    }
}

// The same for the shader at that place, where there is one.
fn unfit_placed(
    read: &[ReadShader],
    declared: &[Names<'_>],
    place: usize,
    variables: &PrimitiveVariables,
) -> bool
    requires { declared.now ≡ map declared_by read.now }
    ensures { result ≡ spec.unfit_for (slice_get (map tree_read read.now) place) variables.now }
{
    if place >= read.len() {
        return false;
    }
    unfit_for(&read[place], &declared[place], variables)
}

// The same for the shader of a use, where there is one.
fn unfit_at(
    shaders: &UsedShaders,
    declared: &[Names<'_>],
    shader: Option<u32>,
    variables: &PrimitiveVariables,
) -> bool
    requires { declared.now ≡ map declared_by shaders.now.read }
    ensures { result ≡ spec.unfit_at (map tree_read shaders.now.read) shaders.now.of_use shader variables.now }
{
    let Some(n) = shader else {
        return false;
    };
    match shaders.of_use.as_slice().get(n as usize) {
        Some(place) => {
            unfit_placed(
                shaders.read.as_slice(),
                declared,
                *place as usize,
                variables,
            )
        }
        None => false,
    }
}

// Whether a variable of a primitive doesn't fit its surface, displacement or atmosphere.
fn is_unfit_prim(shaders: &UsedShaders, declared: &[Names<'_>], prim: &Prim) -> bool
    requires { declared.now ≡ map declared_by shaders.now.read }
    ensures { result ≡ spec.is_unfit_prim (map tree_read shaders.now.read) shaders.now.of_use prim.now }
{
    let variables = &prim.vars;
    unfit_at(shaders, declared, Some(prim.surface), variables)
        || unfit_at(shaders, declared, prim.displacement, variables)
        || unfit_at(shaders, declared, prim.atmosphere, variables)
}

// Refuses the first primitive of a frame whose variables don't fit its shaders.
fn check_frame(shaders: &UsedShaders, declared: &[Names<'_>], frame: &Frame) -> Result<(), Refusal>
    requires { declared.now ≡ map declared_by shaders.now.read }
    ensures { ClearsAlone result (spec.frame_refused (map tree_read shaders.now.read) shaders.now.of_use frame.now) }
{
    let prims = frame.prims.as_slice();
    for prim in prims {
        if is_unfit_prim(shaders, declared, prim) {
            return Err(in_scene(FaultCode::B2, prim.line));
        }
    }
    Ok(())
}

/// Refuses the first primitive of a scene whose variables don't fit its shaders, with B2 at its line.
pub(crate) fn check_variables(
    alloc: Global,
    shaders: &UsedShaders,
    scene: &Scene,
) -> Result<(), Refusal>
    ensures { ClearsAlone result (spec.frames_refused (map tree_read shaders.now.read) shaders.now.of_use scene.now.frames) }
{
    let declared = all_declared(alloc, shaders.read.as_slice())?;
    let frames = scene.frames.as_slice();
    for frame in frames {
        check_frame(shaders, &declared, frame)?;
    }
    Ok(())
}
