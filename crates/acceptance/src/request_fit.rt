// How the parameters of a shader request fit its shader.
ghost use Rattle.std.specs.Prelude.{◌≡◌, IfOk, map, Some};
ghost use Rattle.std.specs.List.{list_any};
ghost use Rattle.sl_ast.specs.TreeView.{tree_of};
ghost use Rattle.sl_ast.specs.Settled.{IsSettled};
ghost use Rattle.acceptance.specs.RequestFit as spec;
ghost use Rattle.shader_binding.specs.Sets.{is_of_kind};
ghost use Rattle.acceptance.specs.Bound.{bound_values};
ghost use Rattle.acceptance.specs.Reading.{BindsUse};
ghost use Rattle.acceptance.specs.Answers.{Clears};

use crate::code::FaultCode;
use crate::refusal::{Refusal, in_scene};
use crate::values::bound_values;
use fixed_math::{List, Names, NoMemory, Text};
use rib_reader::{Kind, Param, holding};
use scene::{ShaderKind, ShaderUse};
use sl_ast::{SlKind, SlType, Tree, Value};
use std::alloc::Global;

/// Whether a value of that kind is one of the declared type; points, vectors and normals are told apart.
pub fn is_of_type(declared: SlType, kind: Kind) -> bool
    ensures { result ≡ spec.is_of_type declared kind }
{
    match (declared, kind) {
        (SlType::Float, Kind::Float) => true,
        (SlType::Color, Kind::Color) => true,
        (SlType::Point, Kind::Point) => true,
        (SlType::Vector, Kind::Vector) => true,
        (SlType::Normal, Kind::Normal) => true,
        (SlType::Str, Kind::Str) => true,
        _ => false,
    }
}

// Whether a shader is of the kind that is asked for.
fn is_of_kind(written: SlKind, requested: ShaderKind) -> bool
    ensures { result ≡ is_of_kind written requested }
{
    match (written, requested) {
        (SlKind::Surface, ShaderKind::Surface) => true,
        (SlKind::Displacement, ShaderKind::Displacement) => true,
        (SlKind::Light, ShaderKind::Light) => true,
        (SlKind::Volume, ShaderKind::Volume) => true,
        _ => false,
    }
}

/// The names of the parameters that a tree declares.
pub fn declared_names<'a>(alloc: Global, tree: &'a Tree) -> Result<Names<'a>, NoMemory>
    ensures { IfOk result (λ n. n ≡ spec.declared_names (tree_of tree.now)) }
{
    let mut names = Names::new(alloc);
    for param in tree.params() {
        names.push(&param.name)?;
    }
    Ok(names)
}

// The type of the parameter that a tree declares by that name, where its parameters have these.
fn declared_type(tree: &Tree, names: &Names<'_>, name: &Text) -> Option<SlType>
    requires { names.now ≡ spec.declared_names (tree_of tree.now) }
    ensures { result ≡ spec.declared_type (tree_of tree.now).params name.now }
{
    let place = names.place_of(name)?;
    let param = tree.params().get(place)?;
    Some(param.kind)
}

fn is_undeclared(tree: &Tree, names: &Names<'_>, param: &Param) -> bool
    requires { names.now ≡ spec.declared_names (tree_of tree.now) }
    ensures { result ≡ spec.is_undeclared (tree_of tree.now).params param.now }
{
    declared_type(tree, names, &param.name).is_none()
}

fn is_misfit(tree: &Tree, names: &Names<'_>, param: &Param) -> bool
    requires { names.now ≡ spec.declared_names (tree_of tree.now) }
    ensures { result ≡ spec.is_misfit (tree_of tree.now).params param.now }
{
    match declared_type(tree, names, &param.name) {
        Some(kind) => !is_of_type(kind, param.kind),
        None => false,
    }
}

fn is_any_undeclared(tree: &Tree, names: &Names<'_>, params: &[Param]) -> bool
    requires { names.now ≡ spec.declared_names (tree_of tree.now) }
    ensures { result ≡ list_any (spec.is_undeclared (tree_of tree.now).params) params.now }
{
    for param in params {
        if is_undeclared(tree, names, param) {
            return true;
        }
    }
    false
}

// Whether one of these parameters is of another kind than the declared one.
fn is_any_misfit(tree: &Tree, declared: &Names<'_>, params: &[&Param]) -> bool
    requires { declared.now ≡ spec.declared_names (tree_of tree.now) }
    ensures { result ≡ list_any (spec.is_misfit (tree_of tree.now).params) (map (λ p. p.now) params.now) }
{
    for param in params {
        if is_misfit(tree, declared, param) {
            return true;
        }
    }
    false
}

// The first fault of a request over its shader's tree.
fn binding_fault(
    alloc: Global,
    tree: &Tree,
    declared: &Names<'_>,
    request: &ShaderUse,
) -> Result<Option<FaultCode>, NoMemory>
    requires { declared.now ≡ spec.declared_names (tree_of tree.now) }
    ensures { IfOk result (λ f. f ≡ spec.binding_fault (tree_of tree.now) request.now) }
{
    let params = request.params.as_slice();
    let held = holding(alloc, params)?;
    if is_any_undeclared(tree, declared, params) {
        Ok(Some(FaultCode::B1))
    } else if is_any_misfit(tree, declared, &held) {
        Ok(Some(FaultCode::B2))
    } else if is_of_kind(tree.kind(), request.kind) {
        Ok(None)
    } else {
        Ok(Some(FaultCode::B3))
    }
}

/// What the parameters of a request are bound to, where it fits its shader's tree, or its first fault.
pub fn bind(
    alloc: Global,
    tree: &Tree,
    declared: &Names<'_>,
    request: &ShaderUse,
) -> Result<List<Value>, Refusal>
    requires declared { declared.now ≡ spec.declared_names (tree_of tree.now) }
    requires settled { IsSettled (tree_of tree.now) }
    ensures clears { Clears result (spec.cause_at request.now (spec.binding_fault (tree_of tree.now) request.now)) }
    ensures binds { BindsUse request.now (Some (tree_of tree.now)) (bound_values (tree_of tree.now) request.now) result }
{
    match binding_fault(alloc, tree, declared, request)? {
        None => Ok(bound_values(alloc, tree, request)?),
        Some(code) => Err(in_scene(code, request.line)),
    }
}
